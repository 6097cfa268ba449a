// Locks, reads, writes and aborts, in place, over the engine's state (crate state_whole tells what each array holds). Each promises, for every edition, on
// atomic pages or pages that can tear, and for any content of the arrays that its event doesn't touch, what the rules say of its event, and says what it leaves.
#![tactic(auto)]

ghost use Rattle.std.specs.Prelude.{◌≡◌, Bool, List, ℕ, ◌+◌, ◌*◌, ◌<◌, ◌≤◌, length, get_or, take, drop};
ghost use Rattle.rules.specs.Event.{lock, write, read, abort};
ghost use Rattle.rules.specs.Editions.{Edition, geometry_of, form_in, InNumbers};
ghost use Rattle.leaf_event.specs.Answers.{told_answer};
ghost use Rattle.leaf_number.specs.Named.{transaction_of, record_of};
ghost use Rattle.state_array.specs.Changes.{access_when};
ghost use Rattle.state_array.specs.Kin.{DerivedSets};
ghost use Rattle.state_version.specs.Parts.{Sources};
ghost use Rattle.state_whole.specs.Lain.{WellSized};
ghost use Rattle.state_whole.specs.Whole.{arrays, Ready, ReadyLeaf, Reserves, Does};

use leaf_event::outcome::{Done, Refusal};
use leaf_number::{RecordNumber, TransactionNumber};
use state_whole::{Derived, State};

// Locks, reads and writes are those of a transaction without a live child: who calls has refused the others.

// A lock is asked for, to read beside others or to write: granted, or refused as barred, also where a prepared transaction changed the record.
// `reserved` is the map of the records that it changed, 0 where none is prepared.
pub fn lock_event<const RECORDS: usize, const PLACES: usize>(
    s: &mut State<RECORDS, PLACES>,
    reserved: u64,
    t: TransactionNumber,
    r: RecordNumber,
    reading: bool,
) -> Result<Done, Refusal>
    requires sized { WellSized s.old }
    requires named { record_of r < RECORDS }
    ensures does { (k : Edition) (joint tears : Bool) (up identity : ℕ) (parent depth writers work store : List ℕ) →
        let before = arrays up parent depth s.old.line s.old.held s.old.retained writers work store in
        let after = arrays up parent depth s.old.line s.new.held s.old.retained writers work store in
        let form = form_in tears (geometry_of k) in
        InNumbers k RECORDS joint tears → Reserves tears (geometry_of k) store reserved identity
        → Does form (ReadyLeaf form) before (transaction_of t) (lock (transaction_of t) (record_of r) (access_when reading)) (told_answer result) after }
    ensures rest { s.new ≡ record s.old { held = s.new.held } }
    ensures sized { WellSized s.new }
{
    if leaf_commit_page::names(reserved, RECORDS as u8, r.number()) {
        return Err(Refusal::Barred);
    }
    if state_lock::lock(&s.line, &mut s.held, &s.retained, t, r, reading) {
        return Ok(Done::Whole(0));
    }
    Err(Refusal::Barred)
}

// A byte is read: the lock must be held by that very transaction, in any mode. The record's home page begins at byte `at` of the store.
pub fn read_event<const RECORDS: usize, const PLACES: usize>(
    s: &State<RECORDS, PLACES>,
    work: &[u8],
    store: &[u8],
    at: usize,
    t: TransactionNumber,
    r: RecordNumber,
    o: usize,
) -> Result<Done, Refusal>
    requires sized { WellSized s.now }
    requires named { record_of r < RECORDS }
    requires within { (o < 32) × (at + 32 ≤ length store.now) }
    requires slots { length work.now ≡ 512 * RECORDS }
    requires sources { Sources s.now.parent s.now.depth }
    ensures { (k : Edition) (tears : Bool) (up : ℕ) (line retained : List ℕ) →
        let before = arrays up s.now.parent s.now.depth line s.now.held retained s.now.writers work.now store.now in
        let form = form_in tears (geometry_of k) in
        take 32 (drop at store.now) ≡ form.medium.home (form.medium.from_bytes store.now) (record_of r)
        → Does form (ReadyLeaf form) before (transaction_of t) (read (transaction_of t) (record_of r) o) (told_answer result) before }
{
    if state_lock::holds(&s.held, t, r) {
        let read = state_version::read(&s.parent, &s.depth, &s.writers, work, store, at, t, r, o);
        return Ok(Done::Whole(read));
    }
    Err(Refusal::NotHeld)
}

// A byte is written, into the transaction's own version: the lock must be held by that very transaction, in write mode. The record's home page begins at
// byte `at` of the store.
pub fn write_event<const RECORDS: usize, const PLACES: usize>(
    s: &mut State<RECORDS, PLACES>,
    work: &mut [u8],
    store: &[u8],
    at: usize,
    t: TransactionNumber,
    r: RecordNumber,
    o: usize,
    v: u8,
) -> Result<Done, Refusal>
    requires sized { WellSized s.old }
    requires named { record_of r < RECORDS }
    requires within { (o < 32) × (at + 32 ≤ length store.now) }
    requires slots { length work.old ≡ 512 * RECORDS }
    requires lives { 0 < get_or s.old.depth (transaction_of t) 0 }
    requires sources { Sources s.old.parent s.old.depth }
    ensures does { (k : Edition) (tears : Bool) (up : ℕ) (line retained : List ℕ) →
        let before = arrays up s.old.parent s.old.depth line s.old.held retained s.old.writers work.old store.now in
        let after = arrays up s.old.parent s.old.depth line s.old.held retained s.new.writers work.new store.now in
        let form = form_in tears (geometry_of k) in
        take 32 (drop at store.now) ≡ form.medium.home (form.medium.from_bytes store.now) (record_of r)
        → Does form (ReadyLeaf form) before (transaction_of t) (write (transaction_of t) (record_of r) o v) (told_answer result) after }
    ensures rest { s.new ≡ record s.old { writers = s.new.writers } }
    ensures sized { WellSized s.new }
{
    if state_lock::holds_writing(&s.held, t, r) {
        state_version::write(
            &s.parent,
            &s.depth,
            &mut s.writers,
            work,
            store,
            at,
            t,
            r,
            o,
            v,
        );
        return Ok(Done::Whole(0));
    }
    Err(Refusal::NotHeld)
}

// An abort, with a report or without: with one the parent, if there is any, retains the locks. The transaction and all its live descendants end.
pub fn abort_event<const RECORDS: usize, const PLACES: usize>(
    s: &mut State<RECORDS, PLACES>,
    d: &mut Derived,
    t: TransactionNumber,
    report: bool,
) -> Result<Done, Refusal>
    requires sized { WellSized s.old }
    requires sources { Sources s.old.parent s.old.depth }
    requires derived_sets { DerivedSets s.old.parent s.old.depth d.old.live d.old.children }
    ensures does { (k : Edition) (tears : Bool) (up : ℕ) (work store : List ℕ) →
        let before = arrays up s.old.parent s.old.depth s.old.line s.old.held s.old.retained s.old.writers work store in
        let after = arrays up s.new.parent s.new.depth s.new.line s.new.held s.new.retained s.new.writers work store in
        let form = form_in tears (geometry_of k) in
        Does form (Ready form) before (transaction_of t) (abort (transaction_of t) report) (told_answer result) after }
    ensures derived_sets { DerivedSets s.new.parent s.new.depth d.new.live d.new.children }
    ensures rest { (s.new.up ≡ s.old.up) × (d.new.reserved ≡ d.old.reserved) × (d.new.identity ≡ d.old.identity) }
    ensures sized { WellSized s.new }
{
    let n = t.number();
    let i = n as usize;
    let told = report & (1 < s.depth[i]);
    let places = 2 * RECORDS;
    let parent = s.parent[i];
    state_lock::inherit_on_abort(&s.held, &mut s.retained, places, n, parent, told);
    let gone = state_tree::descendants(&s.line, n);
    state_lock::discard(&mut s.held, &mut s.retained, &mut s.writers, RECORDS, gone);
    state_tree::free_numbers(&mut s.parent, &mut s.depth, &mut s.line, gone);
    d.live = leaf_set::minus(d.live, gone);
    state_lock::leave(&mut d.children, 32, gone);
    Ok(Done::Whole(0))
}
