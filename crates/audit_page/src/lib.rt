// The auditor's own page writes: of a top transaction's commit, with pages found in the history, and of a recovery, each cut at a count.
#![tactic(auto)]

ghost use Rattle.std.specs.Prelude.{◌≡◌, true, false, cond, List, [], ◌∷◌, ◌++◌, ℕ, ◌+◌, ◌*◌, ◌<◌, ◌≤◌, length, get_or};
ghost use Rattle.laws.specs.Tests.{same};
ghost use Rattle.rules.specs.Geometry.{records};
ghost use Rattle.rules.specs.Store.{pages_of, map_of, named, read_commit, map_in, commit_page};
ghost use Rattle.rules.specs.Commit.{sets, commit_at, recover_at};
ghost use Rattle.rules.specs.Editions.{geometry1, edition1};
ghost use Rattle.history.specs.History.{stands_with, writes_to, changed_by};
ghost use Rattle.history.specs.Demand3.{settled_in};
ghost use Rattle.audit_rules.specs.Plain.{Ledger, changes_by};
ghost use Rattle.leaf_commit_page.specs.Heard.{map_told, understood};
ghost use Rattle.store_write.specs.Phase.{WritesPhase, PageWritesDone};
ghost use Rattle.store_commit.specs.Phase.{write_if_picked, sweep, copies};
ghost use Rattle.audit_link.specs.Links.{Linked};
ghost use Rattle.audit_scan.specs.Scans.{Readable, Ordered, writes_up_to};
ghost use Rattle.audit_bearer.specs.Tables.{tables, ledger_of};
ghost use Rattle.audit_page.specs.Changed.{made_in, is_cut, changed_page};

use audit_scan::View;

// What an event did, whole or cut short by a crash, with the byte that its answer tells: of a commit or a recovery, how many page writes were made.
#[derive(Clone, Copy, Debug, PartialEq, Eq)]
pub enum Done {
    Whole(u8),
    Cut(u8),
}

// The page writes of a commit, and how many records it changed.
#[derive(Clone, Copy)]
pub struct Written {
    pub made: Done,
    pub ones: u8,
}

// What the commit page says: the map in force; none where it is damaged.
pub fn read_map(store: &[u8]) -> Option<u64>
    requires { length store.now ≡ 1056 }
    ensures { map_told result ≡ understood geometry1 (pages_of store.now 0) }
{
    leaf_commit_page::read_page(leaf_page::get_page(store, 0), 16, true)
}

// The settled value of record r in a store.
pub fn settled_page(store: &[u8], r: u8) -> [u8; 32]
    requires { (length store.now ≡ 1056) × (r < 16) }
    ensures { result ≡ settled_in edition1 store.now r }
{
    let n = r as usize;
    let map = read_map(store).unwrap_or(0);
    if leaf_commit_page::names(map, 16, r) {
        return leaf_page::get_page(store, 1 + n);
    }
    leaf_page::get_page(store, 17 + n)
}

// A map with a further record at its end.
fn grown(map: u64, yes: bool) -> u64
    requires { map < 9223372036854775808 }
    ensures { result ≡ map * 2 + cond yes 1 0 }
{
    if yes {
        return map * 2 + 1;
    }
    map * 2
}

// The records that `me` has changed, as a map.
fn changed_map(view: View<'_>) -> u64
    requires { Readable view.list view.list.n × Ordered view }
    ensures { let written = writes_up_to view.entry.owner.now view.entry.list.events.now view.entry.list.n in
        ((l : Ledger) → Linked l view.entry.links.now.parent view.entry.links.now.fate
        → result ≡ map_of geometry1 (λ q. writes_to (λ i. same (stands_with l.story i) view.entry.me) q written)) × (result < 65536) }
{
    // A loop that counts bits in: a fold would need the same helper, and be no plainer.
    let mut map = 0u64;
    for r in 0..16u8 {
        map = grown(map, view.changes(r));
    }
    map
}

// Page n becomes `page`, if the count `left` allows another page write. Returns what remains of the count.
fn write_one(store: &mut [u8], n: usize, page: [u8; 32], left: u8) -> u8
    requires { (n < 33) × (length store.old ≡ 1056) }
    ensures { WritesPhase false left (sets n page ∷ []) (pages_of store.old) (pages_of store.new) result }
{
    if 0 < left {
        leaf_page::put_page(store, n, page);
        return left - 1;
    }
    left
}

// The page of record r as `me` reads it goes to page first + r, if the map names r and anything is left of the count.
fn write_record(
    store: &mut [u8],
    start: &[u8],
    view: View<'_>,
    map: u64,
    first: usize,
    r: u8,
    left: u8,
) -> u8
    requires { Readable view.list view.list.n × Ordered view
        × (length start.now ≡ 1056) × (length store.old ≡ 1056) × (first + 16 ≤ 33) × (r < 16) }
    ensures { let before = pages_of store.old in
        let after = pages_of store.new in
        ((l : Ledger) → Linked l view.entry.links.now.parent view.entry.links.now.fate →
        let new = changed_page l start.now view.entry.owner.now view.entry.list.events.now view.entry.list.n view.entry.me in
        WritesPhase false left (write_if_picked (named geometry1 map) (copies first new) r) before after result) }
{
    if leaf_commit_page::names(map, 16, r) & (0 < left) {
        let at = first + (r as usize);
        let seen = view.page_of(settled_page(start, r), r);
        leaf_page::put_page(store, at, seen);
        return left - 1;
    }
    left
}

// The same for all records, by rising record.
fn write_records(
    store: &mut [u8],
    start: &[u8],
    view: View<'_>,
    map: u64,
    first: usize,
    left: u8,
) -> u8
    requires { Readable view.list view.list.n × Ordered view
        × (length start.now ≡ 1056) × (length store.old ≡ 1056) × (first + 16 ≤ 33) }
    ensures { let before = pages_of store.old in
        let after = pages_of store.new in
        ((l : Ledger) → Linked l view.entry.links.now.parent view.entry.links.now.fate →
        let new = changed_page l start.now view.entry.owner.now view.entry.list.events.now view.entry.list.n view.entry.me in
        WritesPhase false left (sweep (named geometry1 map) (copies first new) 16) before after result) }
{
    // A loop, since each step writes to the store.
    let mut rest = left;
    for r in 0..16u8 {
        rest = write_record(store, start, view, map, first, r, rest);
    }
    rest
}

// The first half of a commit's page writes: the intention pages of the records of the map, and the commit page as committed.
fn write_intentions(store: &mut [u8], start: &[u8], view: View<'_>, map: u64, left: u8) -> u8
    requires { Readable view.list view.list.n × Ordered view
        × (length start.now ≡ 1056) × (length store.old ≡ 1056) × (map < 65536) }
    ensures { let before = pages_of store.old in
        let after = pages_of store.new in
        ((l : Ledger) → Linked l view.entry.links.now.parent view.entry.links.now.fate →
        let new = changed_page l start.now view.entry.owner.now view.entry.list.events.now view.entry.list.n view.entry.me in
        WritesPhase false left (sweep (named geometry1 map) (copies 1 new) 16 ++ (sets 0 (commit_page geometry1 map) ∷ [])) before after result) }
{
    let rest = write_records(store, start, view, map, 1, left);
    write_one(store, 0, leaf_commit_page::commit_page(map, 16), rest)
}

// So many page writes were made, the last of them if anything was left of the count.
fn counted(n: u8, left: u8) -> Done
    ensures { (made_in result ≡ n) × (is_cut result ≡ same left 0) }
{
    if left == 0 {
        return Done::Cut(n);
    }
    Done::Whole(n)
}

// The page writes of the commit of `me`, a top transaction, in the order of the plan: intention pages, the commit page as committed, home pages, the
// commit page as empty; none where it changed nothing. The first k happen.
pub fn commit_writes(start: &[u8], store: &mut [u8], view: View<'_>, k: u8) -> Written
    requires { Readable view.list view.list.n × Ordered view
        × (length start.now ≡ 1056) × (length store.old ≡ 1056) }
    ensures { let before = pages_of store.old in
        let after = pages_of store.new in
        ((bearer : List ℕ) (begun t : ℕ) → get_or bearer t 0 ≡ view.entry.me →
        let here = tables view.entry.owner.now view.entry.links.now.parent view.entry.links.now.fate bearer begun true in
        let story = (ledger_of here view.entry.list.events.now view.entry.list.n).story in
        let changes = changes_by edition1 (settled_in edition1 start.now) story t in
        PageWritesDone (commit_at geometry1 before changes k) after (made_in result.made) (is_cut result.made) × (result.ones ≡ changed_by (records geometry1) story view.entry.me)) }
{
    let map = changed_map(view);
    let ones = leaf_commit_page::ones(map);
    if map == 0 {
        return Written {
            made: Done::Whole(0),
            ones,
        };
    }
    let a = write_intentions(store, start, view, map, k);
    let b = write_records(store, start, view, map, 17, a);
    let c = write_one(store, 0, leaf_commit_page::commit_page(0, 16), b);
    Written {
        made: counted(k - c, b),
        ones,
    }
}

// Record r's intention page goes home, if the map names r and anything is left of the count.
fn recover_record(store: &mut [u8], map: u64, r: u8, left: u8) -> u8
    requires { (r < 16) × (length store.old ≡ 1056) }
    ensures { let before = pages_of store.old in
        let after = pages_of store.new in
        WritesPhase false left (write_if_picked (named geometry1 map) (copies 17 (λ j. before (1 + j))) r) before after result }
{
    if leaf_commit_page::names(map, 16, r) & (0 < left) {
        let at = r as usize;
        let planned = leaf_page::get_page(store, 1 + at);
        leaf_page::put_page(store, 17 + at, planned);
        return left - 1;
    }
    left
}

// The page writes of a recovery over a commit page with this map, in the order of the plan: the intention pages go home by rising record, then the
// commit page is emptied; none where the map is 0. The first k happen.
pub fn recover_writes(store: &mut [u8], map: u64, k: u8) -> Done
    requires { (length store.old ≡ 1056) × (map_in (read_commit geometry1 (pages_of store.old 0)) ≡ map) }
    ensures { PageWritesDone (recover_at geometry1 (pages_of store.old) k) (pages_of store.new) (made_in result) (is_cut result) }
{
    if map == 0 {
        return Done::Whole(0);
    }
    // A loop, since each step writes to the store.
    let mut rest = k;
    for r in 0..16u8 {
        rest = recover_record(store, map, r, rest);
    }
    let d = write_one(store, 0, leaf_commit_page::commit_page(0, 16), rest);
    counted(k - d, rest)
}
