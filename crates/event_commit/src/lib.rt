// A commit, of a top transaction with its page writes or of a child into its parent; and a prepare.
#![tactic(auto)]

ghost use Rattle.std.specs.Prelude.{◌≡◌, Bool, true, false, List, ℕ, ◌+◌, ◌*◌, ◌^◌, ◌<◌, length, get_or};
ghost use Rattle.std.proofs.Math.Option.{some};
ghost use Rattle.rules.specs.Event.{Event, commit};
ghost use Rattle.rules.specs.Commit.{Cut};
ghost use Rattle.rules.specs.Step.{has_child, commits_top, step};
ghost use Rattle.rules.specs.Geometry.{Geometry};
ghost use Rattle.rules.specs.Editions.{Edition, geometry_of, medium_of, form_in, InNumbers};
ghost use Rattle.leaf_event.specs.Answers.{told_answer};
ghost use Rattle.state_array.specs.Kin.{DerivedSets};
ghost use Rattle.state_version.specs.Parts.{Sources};
ghost use Rattle.leaf_commit_page.specs.Layout.{Known, Layout};
ghost use Rattle.store_write.specs.Phase.{PageWritesDone, stride_of};
ghost use Rattle.store_commit.specs.Phase.{versions_in};
ghost use Rattle.event_commit.specs.Settling.{settling, settling_at};
ghost use Rattle.leaf_number.specs.Named.{transaction_of};
ghost use Rattle.state_whole.specs.Lain.{arrays_in, WellSized};
ghost use Rattle.state_whole.specs.Whole.{view, Intact, Stepped, Ready, Reserves};

use leaf_event::outcome::{Done, Refusal};
use leaf_number::TransactionNumber;
use state_whole::{Derived, State};

// A top transaction without a live child ends, after its page writes: all of them were made, or a crash came.
fn end_top<const RECORDS: usize, const PLACES: usize>(
    s: &mut State<RECORDS, PLACES>,
    d: &mut Derived,
    t: u8,
    made: u8,
    crashed: bool,
) -> Result<Done, Refusal>
    requires sized { WellSized s.old }
    requires named { t < 24 }
    requires derived_sets { DerivedSets s.old.parent s.old.depth d.old.live d.old.children }
    ensures stepped { (edition : Edition) (tears : Bool) (e : Event) (c : Cut (medium_of tears (geometry_of edition)).Store) (work store store' : List ℕ) →
        let before = arrays_in s.old work store in
        let after = arrays_in s.new work store' in
        let form = form_in tears (geometry_of edition) in
        Intact form before → Ready form before t → has_child (view form before) t ≡ false
        → step form (view form before) (some e) ≡ commits_top form (view form before) t c → PageWritesDone c (form.medium.from_bytes store') made crashed → length store' ≡ length store
        → Stepped form before (some e) (told_answer result) after }
    ensures derived_sets { DerivedSets s.new.parent s.new.depth d.new.live d.new.children }
    ensures sized { WellSized s.new }
    ensures prepared { (d.new.reserved ≡ d.old.reserved) × (d.new.identity ≡ d.old.identity) }
{
    if crashed {
        event_crash::clear_state(s, d);
        return Ok(Done::Cut(made));
    }
    state_lock::discard(
        &mut s.held,
        &mut s.retained,
        &mut s.writers,
        RECORDS,
        leaf_set::single(t),
    );
    let parent = s.parent[t as usize];
    state_tree::remove_child(&mut d.live, &mut d.children, parent, t);
    state_tree::free_number(&mut s.parent, &mut s.depth, &mut s.line, t);
    Ok(Done::Whole(made))
}

// The page writes of a top transaction that has versions of the records of a map, for its commit or its prepare; the first k of them happen.
fn write_pages(
    store: &mut [u8],
    work: &[u8],
    map: u64,
    records: usize,
    tears: bool,
    prepares: bool,
    k: u8,
    i: u8,
) -> store_commit::Made
    requires { Known records × (prepares ≡ true → records ≡ 16) × (prepares ≡ true → tears ≡ false) × (map < 2 ^ records)
        × (length store.old ≡ stride_of tears * (1 + (records + records)))
        × (length work.now ≡ 512 * records) }
    ensures { (g : Geometry) →
        let medium = medium_of tears g in
        let before = medium.from_bytes store.old in
        let after = medium.from_bytes store.new in
        Layout g records → PageWritesDone (settling_at medium prepares before (versions_in g map work.now) i k) after result.made result.crashed }
{
    if prepares {
        return store_commit::prepare_pages(store, work, map, records, i, k);
    }
    store_commit::commit_pages(store, work, map, records, tears, k)
}

// After a prepare, what is prepared is read again.
fn reread<const RECORDS: usize, const JOINT: bool, const TEARS: bool>(
    d: &mut Derived,
    store: &[u8],
    prepares: bool,
)
    requires known { Known RECORDS × (JOINT ≡ true → RECORDS ≡ 16) }
    requires pages { length store.now ≡ stride_of TEARS * (1 + (RECORDS + RECORDS)) }
    ensures reserves { ((edition : Edition) → InNumbers edition RECORDS JOINT TEARS → prepares ≡ true
        → Reserves TEARS (geometry_of edition) store.now d.new.reserved d.new.identity)
        × (prepares ≡ false → (d.new.reserved ≡ d.old.reserved) × (d.new.identity ≡ d.old.identity)) }
    ensures rest { d.new ≡ record d.old { reserved = d.new.reserved; identity = d.new.identity } }
{
    if !prepares {
        return;
    }
    let p = store_commit::read_held(store, RECORDS, JOINT, TEARS);
    d.reserved = p.map;
    d.identity = p.identity;
}

// A transaction at depth `level` without a live child is prepared, or commits as a top one: refused where it changed a record while another is prepared,
// and as a child; else its page writes, cut at k, and then it ends.
fn settle_top<const RECORDS: usize, const PLACES: usize, const JOINT: bool, const TEARS: bool>(
    s: &mut State<RECORDS, PLACES>,
    d: &mut Derived,
    work: &[u8],
    store: &mut [u8],
    t: u8,
    level: u8,
    prepares: bool,
    k: u8,
    i: u8,
) -> Result<Done, Refusal>
    requires sized { WellSized s.old }
    requires known { Known RECORDS × (JOINT ≡ true → RECORDS ≡ 16) × (JOINT ≡ true → TEARS ≡ false) × (prepares ≡ true → JOINT ≡ true) }
    requires pages { (length work.now ≡ 512 * RECORDS) × (length store.old ≡ stride_of TEARS * (1 + (RECORDS + RECORDS))) }
    requires named { (t < 24) × (level ≡ get_or s.old.depth t 0) × (prepares ≡ false → level ≡ 1) }
    requires derived_sets { DerivedSets s.old.parent s.old.depth d.old.live d.old.children }
    ensures stepped { (edition : Edition) →
        let before = arrays_in s.old work.now store.old in
        let after = arrays_in s.new work.now store.new in
        let form = form_in TEARS (geometry_of edition) in
        InNumbers edition RECORDS JOINT TEARS → Intact form before → Ready form before t → has_child (view form before) t ≡ false
        → Reserves TEARS (geometry_of edition) store.old d.old.reserved d.old.identity
        → Stepped form before (some (settling prepares t k i)) (told_answer result) after
        × Reserves TEARS (geometry_of edition) store.new d.new.reserved d.new.identity }
    ensures derived_sets { DerivedSets s.new.parent s.new.depth d.new.live d.new.children }
    ensures sized { WellSized s.new }
{
    let map = leaf_commit_page::map_of(&s.writers, t);
    if (map != 0) & (d.reserved != 0) {
        return Err(Refusal::OtherPrepared);
    }
    if level != 1 {
        return Err(Refusal::NotTop);
    }
    let m = write_pages(store, work, map, RECORDS, TEARS, prepares, k, i);
    let made = m.made;
    let crashed = m.crashed;
    reread::<RECORDS, JOINT, TEARS>(d, &store[..], prepares);
    end_top(s, d, t, made, crashed)
}

// A child at depth `level` without a live child of its own commits into its parent.
fn commit_child<const RECORDS: usize, const PLACES: usize>(
    s: &mut State<RECORDS, PLACES>,
    d: &mut Derived,
    work: &mut [u8],
    t: u8,
    level: u8,
) -> Result<Done, Refusal>
    requires sized { WellSized s.old }
    requires slots { length work.old ≡ 512 * RECORDS }
    requires named { (t < 24) × (1 < level) × (level ≡ get_or s.old.depth t 0) }
    requires sources { Sources s.old.parent s.old.depth }
    requires derived_sets { DerivedSets s.old.parent s.old.depth d.old.live d.old.children }
    ensures stepped { (edition : Edition) (tears : Bool) (k : ℕ) (store : List ℕ) →
        let before = arrays_in s.old work.old store in
        let after = arrays_in s.new work.new store in
        let form = form_in tears (geometry_of edition) in
        Intact form before → Ready form before t → has_child (view form before) t ≡ false → Stepped form before (some (commit t k)) (told_answer result) after }
    ensures derived_sets { DerivedSets s.new.parent s.new.depth d.new.live d.new.children }
    ensures sized { WellSized s.new }
    ensures rest { (s.new.up ≡ s.old.up) × (d.new.reserved ≡ d.old.reserved) × (d.new.identity ≡ d.old.identity) }
{
    let p = s.parent[t as usize];
    state_version::hand_up(&mut s.writers, work, RECORDS, t, p, level);
    let places = 2 * RECORDS;
    state_lock::inherit_on_commit(&mut s.held, &mut s.retained, places, t, p);
    state_tree::remove_child(&mut d.live, &mut d.children, p, t);
    state_tree::free_number(&mut s.parent, &mut s.depth, &mut s.line, t);
    Ok(Done::Whole(0))
}

// A commit or a prepare: refused while a child lives; a child's commit goes into its parent. They share this function, so that there is one place where a
// top transaction ends.
pub fn settle_event<
    const RECORDS: usize,
    const PLACES: usize,
    const JOINT: bool,
    const TEARS: bool,
>(
    s: &mut State<RECORDS, PLACES>,
    d: &mut Derived,
    work: &mut [u8],
    store: &mut [u8],
    t: TransactionNumber,
    prepares: bool,
    k: u8,
    i: u8,
) -> Result<Done, Refusal>
    requires sized { WellSized s.old }
    requires known { Known RECORDS × (JOINT ≡ true → RECORDS ≡ 16) × (JOINT ≡ true → TEARS ≡ false) × (prepares ≡ true → JOINT ≡ true) }
    requires pages { (length work.old ≡ 512 * RECORDS) × (length store.old ≡ stride_of TEARS * (1 + (RECORDS + RECORDS))) }
    requires lives { 0 < get_or s.old.depth (transaction_of t) 0 }
    requires sources { Sources s.old.parent s.old.depth }
    requires derived_sets { DerivedSets s.old.parent s.old.depth d.old.live d.old.children }
    ensures stepped { (edition : Edition) →
        let before = arrays_in s.old work.old store.old in
        let after = arrays_in s.new work.new store.new in
        let form = form_in TEARS (geometry_of edition) in
        InNumbers edition RECORDS JOINT TEARS → Intact form before → Ready form before (transaction_of t)
        → Reserves TEARS (geometry_of edition) store.old d.old.reserved d.old.identity
        → Stepped form before (some (settling prepares (transaction_of t) k i)) (told_answer result) after
        × Reserves TEARS (geometry_of edition) store.new d.new.reserved d.new.identity }
    ensures derived_sets { DerivedSets s.new.parent s.new.depth d.new.live d.new.children }
    ensures sized { WellSized s.new }
{
    let n = t.number();
    if state_tree::has_child(&d.children, n) {
        return Err(Refusal::ChildLives);
    }
    let level = s.depth[n as usize];
    if !prepares & (level != 1) {
        return commit_child(s, d, work, n, level);
    }
    settle_top::<_, _, JOINT, TEARS>(s, d, &work[..], store, n, level, prepares, k, i)
}
