// The page writes of a top transaction's commit, of its prepare and the decision on it, and of a recovery, each cut at a count: of the page writes due only
// so many are made.
//
// There are n records. The store is 1 + 2 n pages: page 0 is the commit page, page 1 + r the intention page of record r, page 1 + n + r its home page.
// `tears` tells whether pages can tear, and so whether the store has atomic pages or a pair of copies for each; the contracts speak of both.
// The functions with a count `left` make page writes as far as what is left of the cut allows, and return what remains of it.
#![tactic(auto)]

ghost use Rattle.std.specs.Prelude.{◌≡◌, true, false, [], ◌∷◌, ◌+◌, ◌*◌, ◌^◌, ◌≤◌, ◌<◌, length};
ghost use Rattle.std.proofs.Math.Option.{some};
ghost use Rattle.rules.specs.Geometry.{Geometry, records};
ghost use Rattle.rules.specs.Store.{pages_of, named, commit_page, read_commit, map_in, prepared_page, read_prepared};
ghost use Rattle.rules.specs.Commit.{sets, prepare_at, decide_at};
ghost use Rattle.rules.specs.Editions.{medium_of};
ghost use Rattle.leaf_commit_page.specs.Heard.{overheard, prepared};
ghost use Rattle.leaf_commit_page.specs.Layout.{Known, Layout};
ghost use Rattle.store_write.specs.Phase.{WritesPhase, PageWritesDone, store_of, stride_of, shown_in};
ghost use Rattle.store_commit.specs.Phase.{write_if_picked, sweep, copies, top_slot, versions_in, understood_in};

// How many page writes were made, and whether a crash came before all were. Both cases have the count, and `PageWritesDone` speaks of the two by name: an enum
// with it in each variant would say no more.
#[derive(Clone, Copy, Debug, PartialEq, Eq)]
pub struct Made {
    pub made: u8,
    pub crashed: bool,
}

// What the store says before a recovery: whether it can be recovered, and the map in force. It can't where the commit page is damaged, or where some page has no
// good copy; the map that the commit page shows is told then too (`understood_in`), which an Option would not. `joint` tells whether transactions can be prepared.
pub fn read_map(store: &[u8], n: usize, joint: bool, tears: bool) -> leaf_commit_page::CommitMap
    requires { Known n × (joint ≡ true → n ≡ 16) × (length store.now ≡ stride_of tears * (1 + (n + n))) }
    ensures { ((g : Geometry) → Layout g n → g.joint ≡ joint → result ≡ understood_in tears g (store_of tears store.now)) × (result.map < 2 ^ n) }
{
    let c = leaf_commit_page::read_page(store_write::get_page(store, tears, 0), n, joint);
    leaf_commit_page::CommitMap {
        good: !store_write::any_lost(store, tears, 1 + n + n) & c.is_some(),
        map: c.unwrap_or(0),
    }
}

// What the commit page says of a prepared transaction: map 0 and identity 0 where there is none, as `Reserves` of state_whole speaks of the two numbers. (Where
// pages tear none can be prepared: `joint` is false.)
pub fn read_held(store: &[u8], n: usize, joint: bool, tears: bool) -> leaf_commit_page::PreparedMap
    requires { Known n × (joint ≡ true → n ≡ 16) × (length store.now ≡ stride_of tears * (1 + (n + n))) }
    ensures { let page = shown_in tears (store_of tears store.now) 0 in
        ((g : Geometry) → Layout g n → g.joint ≡ joint → result ≡ overheard (read_prepared g page)) × (result.map < 2 ^ n) }
{
    let none = leaf_commit_page::PreparedMap {
        map: 0,
        identity: 0,
    };
    let held = leaf_commit_page::read_prepared(store_write::get_page(store, tears, 0), n, joint);
    held.unwrap_or(none)
}

// Writes the commit page for `map`, as far as what is left of the cut allows. Returns what remains of it.
fn mark(store: &mut [u8], map: u64, n: usize, tears: bool, left: u8) -> u8
    requires { Known n × (map < 2 ^ n) × (length store.old ≡ stride_of tears * (1 + (n + n))) }
    ensures { let before = store_of tears store.old in
        let after = store_of tears store.new in
        ((g : Geometry) → Layout g n → WritesPhase tears left (sets 0 (commit_page g map) ∷ []) before after result) × (result ≤ left) }
{
    store_write::write_counted(store, tears, 0, leaf_commit_page::commit_page(map, n), left)
}

// The same for a prepared transaction's commit page, which only sixteen records have room for. It is one of atomic pages, as all that follows of a prepare and
// of a decision. Each of the two is one call: they differ in the page, and so in the clause, and one over the page would say nothing that `write_counted` doesn't.
fn mark_prepared(store: &mut [u8], map: u64, identity: u8, rest: u8) -> u8
    requires { (map < 65536) × (32 ≤ length store.old) }
    ensures { let before = pages_of store.old in
        let after = pages_of store.new in
        ((g : Geometry) → Layout g 16 → WritesPhase false rest (sets 0 (prepared_page g (prepared map identity)) ∷ []) before after result) × (result ≤ rest) }
{
    store_write::write_counted(
        store,
        false,
        0,
        leaf_commit_page::prepared_page(map, identity),
        rest,
    )
}

// Writes record r's version at depth 1 to page first + r, if the map names r and as far as the cut allows.
fn write_version(
    store: &mut [u8],
    work: &[u8],
    map: u64,
    n: usize,
    tears: bool,
    first: usize,
    r: u8,
    left: u8,
) -> u8
    requires { (n ≤ 64) × (r < n) × (first ≤ 1 + n) × (length store.old ≡ stride_of tears * (1 + (n + n))) × (length work.now ≡ 512 * n) }
    ensures { let before = store_of tears store.old in
        let after = store_of tears store.new in
        ((g : Geometry) → records g ≡ n → WritesPhase tears left (write_if_picked (named g map) (copies first (top_slot work.now)) r) before after result) × (result ≤ left) }
{
    if leaf_commit_page::names(map, n as u8, r) {
        let j = r as usize;
        let version = leaf_page::get_page(work, j * leaf_page::DEPTHS);
        return store_write::write_counted(store, tears, first + j, version, left);
    }
    left
}

// Writes the versions of the records that the map names to the pages from `first` on, by rising record: to the intention pages or to the home pages.
fn write_versions(
    store: &mut [u8],
    work: &[u8],
    map: u64,
    n: usize,
    tears: bool,
    first: usize,
    left: u8,
) -> u8
    requires { (n ≤ 64) × (first ≤ 1 + n) × (length store.old ≡ stride_of tears * (1 + (n + n))) × (length work.now ≡ 512 * n) }
    ensures { let before = store_of tears store.old in
        let after = store_of tears store.new in
        ((g : Geometry) → records g ≡ n → WritesPhase tears left (sweep (named g map) (copies first (top_slot work.now)) n) before after result) × (result ≤ left) }
{
    let mut rest = left;
    for r in 0..n as u8 {
        rest = write_version(store, work, map, n, tears, first, r, rest);
    }
    rest
}

// Copies record r's intention page to its home page, if the map names r and as far as the cut allows.
fn bring_home(store: &mut [u8], map: u64, n: usize, tears: bool, r: u8, left: u8) -> u8
    requires { (n ≤ 64) × (r < n) × (length store.old ≡ stride_of tears * (1 + (n + n))) }
    ensures { let before = store_of tears store.old in
        let after = store_of tears store.new in
        ((g : Geometry) → records g ≡ n → WritesPhase tears left (write_if_picked (named g map) (copies (1 + n) (λ j. shown_in tears before (1 + j))) r) before after result) × (result ≤ left) }
{
    if leaf_commit_page::names(map, n as u8, r) {
        let j = r as usize;
        let planned = store_write::get_page(&store[..], tears, 1 + j);
        return store_write::write_counted(store, tears, 1 + n + j, planned, left);
    }
    left
}

// Copies the intention pages of the records that the map names to their home pages, by rising record. It is no `write_versions` over a closure that gives a
// record's page: the pages come from the store that the sweep writes, so the closure would take the store, and its contract would have to speak of each store on
// the way.
fn bring_all_home(store: &mut [u8], map: u64, n: usize, tears: bool, left: u8) -> u8
    requires { (n ≤ 64) × (length store.old ≡ stride_of tears * (1 + (n + n))) }
    ensures { let before = store_of tears store.old in
        let after = store_of tears store.new in
        ((g : Geometry) → records g ≡ n → WritesPhase tears left (sweep (named g map) (copies (1 + n) (λ j. shown_in tears before (1 + j))) n) before after result) × (result ≤ left) }
{
    let mut rest = left;
    for r in 0..n as u8 {
        rest = bring_home(store, map, n, tears, r, rest);
    }
    rest
}

// Commits a top transaction that has versions of the records that `map` names: intention pages, the commit page as committed, home pages, the commit page
// as empty. These page writes are cut at k.
pub fn commit_pages(store: &mut [u8], work: &[u8], map: u64, n: usize, tears: bool, k: u8) -> Made
    requires { Known n × (map < 2 ^ n) × (length store.old ≡ stride_of tears * (1 + (n + n))) × (length work.now ≡ 512 * n) }
    ensures { (g : Geometry) →
        let medium = medium_of tears g in
        let before = medium.from_bytes store.old in
        let after = medium.from_bytes store.new in
        Layout g n → PageWritesDone (medium.commit before (versions_in g map work.now) k) after result.made result.crashed }
{
    if map == 0 {
        return Made {
            made: 0, // no version, no page write
            crashed: false,
        };
    }
    let a = write_versions(store, work, map, n, tears, 1, k);
    let b = mark(store, map, n, tears, a);
    let c = write_versions(store, work, map, n, tears, 1 + n, b);
    let d = mark(store, 0, n, tears, c);
    Made {
        made: store_write::made(tears, k, c, d),
        crashed: store_write::is_cut(tears, c),
    }
}

// Recovers a store whose commit page has `map` in force: every page is mended, which no cut stops and no count tells; then the intention pages of the records
// that the map names go home, and the commit page is emptied. These page writes are cut at k.
pub fn recover_pages(store: &mut [u8], map: u64, n: usize, tears: bool, k: u8) -> Made
    requires { Known n × (length store.old ≡ stride_of tears * (1 + (n + n))) }
    ensures { (g : Geometry) →
        let medium = medium_of tears g in
        let before = medium.from_bytes store.old in
        let after = medium.from_bytes store.new in
        Layout g n → map_in (read_commit g (shown_in tears (store_of tears store.old) 0)) ≡ map
        → PageWritesDone (medium.recover before k) after result.made result.crashed }
{
    store_write::mend(store, tears, 1 + n + n);
    if map == 0 {
        return Made {
            made: 0,
            crashed: false,
        };
    }
    let a = bring_all_home(store, map, n, tears, k);
    let b = mark(store, 0, n, tears, a);
    Made {
        made: store_write::made(tears, k, a, b),
        crashed: store_write::is_cut(tears, a),
    }
}

// Prepares a top transaction that has versions of the records that `map` names: intention pages, the commit page as prepared. Only the first `count` of
// these page writes are made.
pub fn prepare_pages(
    store: &mut [u8],
    work: &[u8],
    map: u64,
    n: usize,
    identity: u8,
    count: u8,
) -> Made
    requires { (n ≡ 16) × (map < 2 ^ n) × (length store.old ≡ 32 * (1 + (n + n))) × (length work.now ≡ 512 * n) }
    ensures { let before = pages_of store.old in
        let after = pages_of store.new in
        ((g : Geometry) → Layout g n → PageWritesDone (prepare_at g before (versions_in g map work.now) identity count) after result.made result.crashed) }
{
    if map == 0 {
        return Made {
            made: 0,
            crashed: false,
        };
    }
    let a = write_versions(store, work, map, n, false, 1, count);
    let b = mark_prepared(store, map, identity, a);
    Made {
        made: count - b,
        crashed: a == 0,
    }
}

// Commits the transaction that is prepared with `map`: the commit page as committed, and then as a recovery. Only the first k of these page writes are made.
pub fn commit_decided(store: &mut [u8], map: u64, n: usize, identity: u8, k: u8) -> Made
    requires { Known n × (map < 2 ^ n) × (length store.old ≡ 32 * (1 + (n + n))) }
    ensures { let before = pages_of store.old in
        let after = pages_of store.new in
        ((g : Geometry) → Layout g n → read_prepared g (before 0) ≡ some (prepared map identity)
        → PageWritesDone (decide_at g before true k) after result.made result.crashed) }
{
    let a = mark(store, map, n, false, k);
    let b = bring_all_home(store, map, n, false, a);
    let c = mark(store, 0, n, false, b);
    Made {
        made: k - c,
        crashed: b == 0,
    }
}

// Aborts the transaction that is prepared: the commit page is emptied, if the count isn't 0.
pub fn abort_decided(store: &mut [u8], n: usize, k: u8) -> Made
    requires { Known n × (length store.old ≡ 32 * (1 + (n + n))) }
    ensures { let before = pages_of store.old in
        let after = pages_of store.new in
        ((g : Geometry) → Layout g n → PageWritesDone (decide_at g before false k) after result.made result.crashed) }
{
    let a = mark(store, 0, n, false, k);
    Made {
        made: k - a,
        crashed: k == 0,
    }
}
