// The writes of an event one by one, before it is played: which of them a number names is told from the map of the records that it changes. For any
// edition: there are `records` records, `joint` tells whether transactions can be prepared, and `tears` whether pages can tear: then every page write is two
// copy writes.
#![tactic(auto)]

ghost use Rattle.std.specs.Prelude.{◌≡◌, Bool, true, false, cond, List, ℕ, ◌+◌, ◌*◌, ◌^◌, ◌<◌, ◌≤◌, length, get_or};
ghost use Rattle.std.proofs.Math.Option.{some};
ghost use Rattle.laws.specs.Counting.{those};
ghost use Rattle.rules.specs.Geometry.{Geometry};
ghost use Rattle.rules.specs.Store.{named};
ghost use Rattle.rules.specs.Event.{recover, decide};
ghost use Rattle.rules.specs.Editions.{Edition, geometry_of, form_in, InNumbers};
ghost use Rattle.claim_device.specs.Plan.{write_at};
ghost use Rattle.claim_device.specs.Asked.{write_size, said_of};
ghost use Rattle.store_write.specs.Phase.{stride_of};
ghost use Rattle.leaf_commit_page.specs.Layout.{Known, Layout};
ghost use Rattle.event_commit.specs.Settling.{settling};
ghost use Rattle.leaf_number.specs.Named.{transaction_of};
ghost use Rattle.leaf_event.specs.Meaning.{meaning};
ghost use Rattle.state_whole.specs.Whole.{arrays, view, Intact, Reserves};
ghost use Rattle.engine_page_write.specs.Phases.{plan_told, of_top, of_recovery, of_decision, record_or, page_write_told, page_number, spelled_write, source_of, writes_of, Plans};

use leaf_event::Event;
use leaf_number::TransactionNumber;

// The page writes of an event, by phases: the intention pages of the records of a map, the commit page as committed, as prepared, the home pages of
// the records, the commit page as empty. The pages are the store's intention pages where `stored`, else versions in the working buffer.
// A phase is a flag, whatever it writes: so the five are counted alike. An identity inside of `prepared` would make that phase one of another kind.
#[derive(Clone, Copy, Debug, PartialEq, Eq)]
pub struct Plan {
    pub map: u64,
    pub identity: u8,
    pub intentions: bool,
    pub committed: bool,
    pub prepared: bool,
    pub homes: bool,
    pub emptied: bool,
    pub stored: bool,
}

// No phase, of no record.
const NO_PHASE: Plan = Plan {
    map: 0,
    identity: 0,
    intentions: false,
    committed: false,
    prepared: false,
    homes: false,
    emptied: false,
    stored: false,
};

// Of a top transaction that has versions of the records of a map: its commit, or its prepare with an identity. `prepares` stays a flag, and so does `commits`
// below: phases are set to it, and the rules' `settling` and `decide` take it.
fn of_top(map: u64, prepares: bool, identity: u8) -> Option<Plan>
    ensures { plan_told result ≡ of_top map prepares identity }
{
    if map == 0 {
        return None;
    }
    Some(Plan {
        map,
        identity,
        intentions: true,
        committed: !prepares,
        prepared: prepares,
        homes: !prepares,
        emptied: !prepares,
        ..NO_PHASE
    })
}

// Of a recovery over a commit page with this map.
fn of_recovery(map: u64) -> Option<Plan>
    ensures { plan_told result ≡ of_recovery map }
{
    if map == 0 {
        return None;
    }
    Some(Plan {
        map,
        homes: true,
        emptied: true,
        stored: true,
        ..NO_PHASE
    })
}

// Of the decision on what is prepared with this map: to commit, or to abort.
fn of_decision(map: u64, commits: bool) -> Plan
    ensures { result ≡ of_decision map commits }
{
    Plan {
        map,
        committed: commits,
        homes: commits,
        emptied: true,
        stored: true,
        ..NO_PHASE
    }
}

// How many page writes a phase has: n where there is one. It is named, since `if`s inside of the five sums would be no shorter.
fn length_if(yes: bool, n: u8) -> u8
    ensures { result ≡ cond yes n 0 }
{
    if yes { n } else { 0 }
}

// The record with number n, from 0, among those that a map names.
// `(0..records).filter(..).nth(n)` is left open by the search, and has no proof by hand: `nth`'s clauses tell of a run of the filter, not of the list `those`.
fn record_at(map: u64, records: u8, n: u8) -> Option<u8>
    requires { records ≤ 64 }
    ensures { (g : Geometry) → Layout g records → record_or records result ≡ get_or (those records (named g map)) n records }
{
    let mut seen = 0u8;
    for r in 0..records {
        if leaf_commit_page::names(map, records, r) {
            if seen == n {
                return Some(r);
            }
            seen += 1;
        }
    }
    None
}

// The page write that the write with this number is, or is a copy of.
fn page_number(tears: bool, index: u8) -> u8
    ensures { result ≡ page_number tears index }
{
    if tears {
        return index / 2;
    }
    index
}

// The write with this number as bytes: the page's number, then the page. Where pages tear the number of the copy stands between them, 0 for the first and 1
// for the second.
fn put_write(write: &mut [u8], tears: bool, index: u8, number: u8, page: [u8; 32])
    requires { length write.old ≡ write_size tears }
    ensures { write.new ≡ spelled_write tears index number page }
{
    write[0] = number;
    if tears {
        write[1] = index % 2;
        leaf_page::write_page(&mut write[2..34], page);
        return;
    }
    leaf_page::write_page(&mut write[1..33], page);
}

// The page that is written for record r.
fn page_for(p: Plan, r: u8, work: &[u8], store: &[u8], tears: bool) -> [u8; 32]
    requires { (r < 64) × (512 * r + 32 ≤ length work.now) × (stride_of tears * (1 + r) + stride_of tears ≤ length store.now) }
    ensures { result ≡ source_of tears p work.now store.now r }
{
    let n = r as usize;
    if p.stored {
        return store_write::get_page(store, tears, 1 + n);
    }
    leaf_page::get_page(work, n * leaf_page::DEPTHS)
}

// The page write number i of a plan: the page's number, and the page.
fn numbered_page(
    p: Plan,
    work: &[u8],
    store: &[u8],
    records: usize,
    tears: bool,
    i: u8,
) -> Option<(u8, [u8; 32])>
    requires { Known records × (p.map < 2 ^ records) × (p.prepared ≡ true → records ≡ 16) × (length work.now ≡ 512 * records)
        × (length store.now ≡ stride_of tears * (1 + (records + records))) }
    ensures { (g : Geometry) → Layout g records → page_write_told result ≡ write_at i (writes_of tears g records p work.now store.now) }
{
    let n = records as u8;
    let m = leaf_commit_page::ones(p.map);
    let a = length_if(p.intentions, m);
    let b = a + length_if(p.committed, 1);
    let c = b + length_if(p.prepared, 1);
    let d = c + length_if(p.homes, m);
    let e = d + length_if(p.emptied, 1);
    if i < a {
        let r = record_at(p.map, n, i)?;
        let page = page_for(p, r, work, store, tears);
        return Some((1 + r, page));
    }
    if i < b {
        let page = leaf_commit_page::commit_page(p.map, records);
        return Some((0, page));
    }
    if i < c {
        let page = leaf_commit_page::prepared_page(p.map, p.identity);
        return Some((0, page));
    }
    if i < d {
        let s = record_at(p.map, n, i - c)?;
        let page = page_for(p, s, work, store, tears);
        return Some((1 + n + s, page));
    }
    if i < e {
        let page = leaf_commit_page::commit_page(0, records);
        return Some((0, page));
    }
    None
}

// Of a commit, or a prepare, of transaction t: none where it is refused, and none of a child's commit.
fn top_plan(
    up: u8,
    parent: &[u8; 24],
    depth: &[u8; 24],
    writers: &[u32],
    records: usize,
    reserved: u64,
    t: TransactionNumber,
    prepares: bool,
    identity: u8,
) -> Option<Plan>
    requires { (records ≤ 64) × (prepares ≡ true → records ≡ 16) × (length parent.now ≡ 24) × (length depth.now ≡ 24) × (length writers.now ≡ records)
        × ((u : ℕ) → get_or parent.now u 0 < 32) }
    ensures plans { (edition : Edition) (joint tears : Bool) (line held retained work store : List ℕ) (k i : ℕ) →
        let x = arrays up parent.now depth.now line held retained writers.now work store in
        InNumbers edition records joint tears → Intact (form_in tears (geometry_of edition)) x → Reserves tears (geometry_of edition) store reserved i
        → Plans tears (geometry_of edition) records x (some (settling prepares (transaction_of t) k identity)) (plan_told result) }
    ensures map_bound { ((plan_told result).map < 2 ^ records) × ((plan_told result).prepared ≡ true → records ≡ 16) }
{
    let n = t.number();
    if up != 1 {
        return None;
    }
    let d = depth[n as usize];
    if d == 0 {
        return None;
    }
    let children = state_tree::children_of(parent, depth);
    if state_tree::has_child(&children, n) {
        return None;
    }
    if d != 1 {
        return None;
    }
    let map = leaf_commit_page::map_of(writers, n);
    if (map != 0) & (reserved != 0) {
        return None;
    }
    of_top(map, prepares, identity)
}

// Of a recovery: none where it is refused.
fn recovery_plan(up: u8, store: &[u8], records: usize, joint: bool, tears: bool) -> Option<Plan>
    requires { Known records × (joint ≡ true → records ≡ 16) × (length store.now ≡ stride_of tears * (1 + (records + records))) }
    ensures plans { (edition : Edition) (parent depth line held retained writers work : List ℕ) (k : ℕ) →
        let x = arrays up parent depth line held retained writers work store.now in
        InNumbers edition records joint tears → Intact (form_in tears (geometry_of edition)) x → Plans tears (geometry_of edition) records x (some (recover k)) (plan_told result) }
    ensures map_bound { ((plan_told result).map < 2 ^ records) × ((plan_told result).prepared ≡ true → records ≡ 16) }
{
    if up == 1 {
        return None;
    }
    let c = store_commit::read_map(store, records, joint, tears);
    let map = c.map;
    if !c.good {
        return None;
    }
    of_recovery(map)
}

// Of the decision on identity i: none while down, and none on another than the prepared one.
fn decision_plan(
    up: u8,
    records: usize,
    reserved: u64,
    identity: u8,
    commits: bool,
    i: u8,
) -> Option<Plan>
    requires { reserved < 2 ^ records }
    ensures plans { (edition : Edition) (joint tears : Bool) (parent depth line held retained writers work store : List ℕ) (k : ℕ) →
        let x = arrays up parent depth line held retained writers work store in
        InNumbers edition records joint tears → Intact (form_in tears (geometry_of edition)) x → Reserves tears (geometry_of edition) store reserved identity
        → Plans tears (geometry_of edition) records x (some (decide commits k i)) (plan_told result) }
    ensures map_bound { ((plan_told result).map < 2 ^ records) × ((plan_told result).prepared ≡ true → records ≡ 16) }
{
    if up != 1 {
        return None;
    }
    if !event_decision::is_for(reserved, identity, i) {
        return None;
    }
    Some(of_decision(reserved, commits))
}

// Of an event, by its kind: a commit, a recovery, a prepare and a decision write pages.
fn plan_of(
    up: u8,
    parent: &[u8; 24],
    depth: &[u8; 24],
    writers: &[u32],
    store: &[u8],
    records: usize,
    joint: bool,
    tears: bool,
    e: Event,
) -> Option<Plan>
    requires { Known records × (joint ≡ true → records ≡ 16) × (8 < e.kind → joint ≡ true) × (length parent.now ≡ 24) × (length depth.now ≡ 24)
        × (length writers.now ≡ records) × (length store.now ≡ stride_of tears * (1 + (records + records))) × ((u : ℕ) → get_or parent.now u 0 < 32) }
    ensures plans { (edition : Edition) (line held retained work : List ℕ) →
        let x = arrays up parent.now depth.now line held retained writers.now work store.now in
        InNumbers edition records joint tears → Intact (form_in tears (geometry_of edition)) x → Plans tears (geometry_of edition) records x (meaning e) (plan_told result) }
    ensures map_bound { ((plan_told result).map < 2 ^ records) × ((plan_told result).prepared ≡ true → records ≡ 16) }
{
    let kind = e.kind;
    let held = store_commit::read_held(store, records, joint, tears);
    if kind == 8 {
        return recovery_plan(up, store, records, joint, tears);
    }
    if kind == 10 {
        return decision_plan(up, records, held.map, held.identity, e.offset != 0, e.value);
    }
    if (kind == 5) | (kind == 9) {
        let t = TransactionNumber::checked(e.transaction)?;
        return top_plan(
            up,
            parent,
            depth,
            writers,
            records,
            held.map,
            t,
            kind == 9,
            e.value,
        );
    }
    None
}

// The write number `index`, from 0, that an event makes if nothing cuts it: 0, with its bytes in `write`; or 12 where there is none. Nothing is played.
pub fn page_write(
    up: u8,
    parent: &[u8; 24],
    depth: &[u8; 24],
    writers: &[u32],
    work: &[u8],
    store: &[u8],
    records: usize,
    joint: bool,
    tears: bool,
    e: Event,
    index: u8,
    write: &mut [u8],
) -> u8
    requires { Known records × (joint ≡ true → records ≡ 16) × (8 < e.kind → joint ≡ true) × (length parent.now ≡ 24) × (length depth.now ≡ 24)
        × (length writers.now ≡ records) × (length work.now ≡ 512 * records) × (length store.now ≡ stride_of tears * (1 + (records + records)))
        × (length write.old ≡ write_size tears) × ((u : ℕ) → get_or parent.now u 0 < 32) }
    ensures { (edition : Edition) (line held retained : List ℕ) →
        let x = arrays up parent.now depth.now line held retained writers.now work.now store.now in
        let said = said_of tears (geometry_of edition) (view (form_in tears (geometry_of edition)) x) (meaning e) index write.old in
        InNumbers edition records joint tears → Intact (form_in tears (geometry_of edition)) x → (result ≡ said.answer) × (write.new ≡ said.write) }
{
    let i = page_number(tears, index);
    let Some(p) = plan_of(up, parent, depth, writers, store, records, joint, tears, e) else {
        return 12;
    };
    let Some(told) = numbered_page(p, work, store, records, tears, i) else {
        return 12;
    };
    put_write(write, tears, index, told.0, told.1);
    0
}
