// The engine's step: one event at a time, in place. An edition is told by const parameters: how many records there are, whether transactions can be prepared
// (`JOINT`) and whether pages can tear (`TEARS`). So the compiler makes the engine of that edition.
//
// The functions are cut in the order of the refusals: `step` has those that come before a transaction is looked up, for a bad event and while down;
// `named_event` has that for a transaction that isn't live, and that for an event at a record of a transaction with a live child; `end_event` and
// `record_event` have what is left, by kind.
#![tactic(auto)]

ghost use Rattle.std.specs.Prelude.{◌≡◌, Bool, true, ◌≢◌, ℕ, ◌+◌, ◌*◌, ◌<◌, ◌≤◌, length, get_or};
ghost use Rattle.rules.specs.Editions.{Edition, geometry_of, form_in, InNumbers, edition_of};
ghost use Rattle.leaf_number.specs.Named.{transaction_of, record_of};
ghost use Rattle.leaf_event.specs.Answers.{told_answer};
ghost use Rattle.leaf_event.specs.Meaning.{meaning, InWord};
ghost use Rattle.state_array.specs.Kin.{DerivedSets};
ghost use Rattle.state_version.specs.Parts.{Sources};
ghost use Rattle.store_write.specs.Phase.{stride_of, place_of};
ghost use Rattle.state_whole.specs.Lain.{arrays_in, WellSized};
ghost use Rattle.state_whole.specs.Whole.{Intact, Stepped, ReadyLeaf, Reserves};

use leaf_event::Event;
use leaf_event::outcome::{Done, Refusal};
use leaf_number::{RecordNumber, TransactionNumber};
use state_whole::{Derived, State};

// The byte of the store where record r's home page begins: the commit page and the intention pages come before the home pages.
fn home_at(records: usize, tears: bool, r: RecordNumber) -> usize
    requires { (record_of r < records) × (records ≤ 64) }
    ensures { (result ≡ place_of tears (1 + (records + record_of r))) × (result + 32 ≤ stride_of tears * (1 + (records + records))) }
{
    store_write::place(tears, 1 + records, r.index())
}

// An event at a record, of a live transaction without a live child: the tree of transactions stays as it is.
fn record_event<const RECORDS: usize, const PLACES: usize, const TEARS: bool>(
    s: &mut State<RECORDS, PLACES>,
    reserved: u64,
    work: &mut [u8],
    store: &[u8],
    e: Event,
    t: TransactionNumber,
    r: RecordNumber,
) -> Result<Done, Refusal>
    requires sized { WellSized s.old }
    requires event { (transaction_of t ≡ e.transaction) × (record_of r ≡ e.rec) × (1 < e.kind) × (e.kind < 5) × (e.offset < 32) × (record_of r < RECORDS) }
    requires pages { (length work.old ≡ 512 * RECORDS) × (length store.now ≡ stride_of TEARS * (1 + (RECORDS + RECORDS))) }
    requires lives { 0 < get_or s.old.depth (transaction_of t) 0 }
    requires sources { Sources s.old.parent s.old.depth }
    ensures stepped { (edition : Edition) (joint : Bool) (identity : ℕ) →
        let before = arrays_in s.old work.old store.now in
        let after = arrays_in s.new work.new store.now in
        let form = form_in TEARS (geometry_of edition) in
        InNumbers edition RECORDS joint TEARS → Intact form before → ReadyLeaf form before (transaction_of t)
        → Reserves TEARS (geometry_of edition) store.now reserved identity → Stepped form before (meaning e) (told_answer result) after }
    ensures rest { s.new ≡ record s.old { held = s.new.held; writers = s.new.writers } }
{
    let o = e.offset as usize;
    let kind = e.kind;
    // the home page is found in the arms: found before the match, it costs every event 6 to 8 % more instructions
    match kind {
        2 => event_access::lock_event(s, reserved, t, r, e.value != 0),
        3 => event_access::write_event(
            s,
            work,
            store,
            home_at(RECORDS, TEARS, r),
            t,
            r,
            o,
            e.value,
        ),
        _ => event_access::read_event(s, work, store, home_at(RECORDS, TEARS, r), t, r, o),
    }
}

// An event by which a live transaction ends: a commit, an abort, a prepare.
fn end_event<const RECORDS: usize, const PLACES: usize, const JOINT: bool, const TEARS: bool>(
    s: &mut State<RECORDS, PLACES>,
    d: &mut Derived,
    work: &mut [u8],
    store: &mut [u8],
    e: Event,
    t: TransactionNumber,
) -> Result<Done, Refusal>
    requires numbers { InNumbers (edition_of RECORDS JOINT TEARS) RECORDS JOINT TEARS }
    requires sized { WellSized s.old }
    requires event { (transaction_of t ≡ e.transaction) × (4 < e.kind) × (e.kind < 10) × (e.kind ≢ 7) × (e.kind ≢ 8) × (8 < e.kind → JOINT ≡ true) }
    requires word { InWord (geometry_of (edition_of RECORDS JOINT TEARS)) e }
    requires intact { Intact (form_in TEARS (geometry_of (edition_of RECORDS JOINT TEARS))) (arrays_in s.old work.old store.old) }
    requires lives { (s.old.up ≡ 1) × (0 < get_or s.old.depth (transaction_of t) 0) }
    requires derived_sets { DerivedSets s.old.parent s.old.depth d.old.live d.old.children }
    requires reserves { Reserves TEARS (geometry_of (edition_of RECORDS JOINT TEARS)) store.old d.old.reserved d.old.identity }
    ensures fact { let before = arrays_in s.old work.old store.old in
        let after = arrays_in s.new work.new store.new in
        let edition = edition_of RECORDS JOINT TEARS in
        Stepped (form_in TEARS (geometry_of edition)) before (meaning e) (told_answer result) after }
    ensures derived_sets { DerivedSets s.new.parent s.new.depth d.new.live d.new.children }
    ensures reserves { Reserves TEARS (geometry_of (edition_of RECORDS JOINT TEARS)) store.new d.new.reserved d.new.identity }
{
    let kind = e.kind;
    if kind == 6 {
        return event_access::abort_event(s, d, t, e.value != 0);
    }
    event_commit::settle_event::<_, _, JOINT, TEARS>(
        s,
        d,
        work,
        store,
        t,
        kind == 9,
        e.count,
        e.value,
    )
}

// An event of a transaction: refused unless it is live, and at a record while a child lives. The tests take the event's own number, which t has checked:
// by `t.number()` an event takes 3 % more instructions.
fn named_event<const RECORDS: usize, const PLACES: usize, const JOINT: bool, const TEARS: bool>(
    s: &mut State<RECORDS, PLACES>,
    d: &mut Derived,
    work: &mut [u8],
    store: &mut [u8],
    e: Event,
    t: TransactionNumber,
) -> Result<Done, Refusal>
    requires numbers { InNumbers (edition_of RECORDS JOINT TEARS) RECORDS JOINT TEARS }
    requires sized { WellSized s.old }
    requires event { (transaction_of t ≡ e.transaction) × (1 < e.kind) × (e.kind < 10) × (e.kind ≢ 7) × (e.kind ≢ 8) × (8 < e.kind → JOINT ≡ true) }
    requires word { InWord (geometry_of (edition_of RECORDS JOINT TEARS)) e }
    requires intact { Intact (form_in TEARS (geometry_of (edition_of RECORDS JOINT TEARS))) (arrays_in s.old work.old store.old) }
    requires up { s.old.up ≡ 1 }
    requires derived_sets { DerivedSets s.old.parent s.old.depth d.old.live d.old.children }
    requires reserves { Reserves TEARS (geometry_of (edition_of RECORDS JOINT TEARS)) store.old d.old.reserved d.old.identity }
    ensures fact { let before = arrays_in s.old work.old store.old in
        let after = arrays_in s.new work.new store.new in
        let edition = edition_of RECORDS JOINT TEARS in
        Stepped (form_in TEARS (geometry_of edition)) before (meaning e) (told_answer result) after }
    ensures derived_sets { DerivedSets s.new.parent s.new.depth d.new.live d.new.children }
    ensures reserves { Reserves TEARS (geometry_of (edition_of RECORDS JOINT TEARS)) store.new d.new.reserved d.new.identity }
{
    let kind = e.kind;
    if s.depth[e.transaction as usize] == 0 {
        return Err(Refusal::NotLive);
    }
    if 4 < kind {
        return end_event::<_, _, JOINT, TEARS>(s, d, work, store, e, t);
    }
    if state_tree::has_child(&d.children, e.transaction) {
        return Err(Refusal::ChildAtWork);
    }
    match RecordNumber::checked(e.rec, RECORDS as u8) {
        Some(r) => record_event::<_, _, TEARS>(s, d.reserved, work, store, e, t, r),
        // not reached: an event whose fields are in range names a record that there is
        None => Err(Refusal::BadEvent),
    }
}

// One event: the refusals that several kinds share, in their order, and then the function of its kind. A decision has two calls, so that the compiler
// leaves it out of the loop over the events.
pub fn step<const RECORDS: usize, const PLACES: usize, const JOINT: bool, const TEARS: bool>(
    s: &mut State<RECORDS, PLACES>,
    d: &mut Derived,
    work: &mut [u8],
    store: &mut [u8],
    e: Event,
) -> Result<Done, Refusal>
    requires numbers { InNumbers (edition_of RECORDS JOINT TEARS) RECORDS JOINT TEARS × (PLACES ≡ 2 * RECORDS) }
    requires word { InWord (geometry_of (edition_of RECORDS JOINT TEARS)) e × (8 < e.kind → JOINT ≡ true) }
    requires intact { Intact (form_in TEARS (geometry_of (edition_of RECORDS JOINT TEARS))) (arrays_in s.old work.old store.old) }
    requires derived_sets { DerivedSets s.old.parent s.old.depth d.old.live d.old.children }
    requires reserves { Reserves TEARS (geometry_of (edition_of RECORDS JOINT TEARS)) store.old d.old.reserved d.old.identity }
    ensures fact { let before = arrays_in s.old work.old store.old in
        let after = arrays_in s.new work.new store.new in
        let edition = edition_of RECORDS JOINT TEARS in
        Stepped (form_in TEARS (geometry_of edition)) before (meaning e) (told_answer result) after × Intact (form_in TEARS (geometry_of edition)) after }
    ensures derived_sets { DerivedSets s.new.parent s.new.depth d.new.live d.new.children }
    ensures reserves { Reserves TEARS (geometry_of (edition_of RECORDS JOINT TEARS)) store.new d.new.reserved d.new.identity }
{
    let kind = e.kind;
    let t = e.transaction;
    if kind == 0 {
        return Err(Refusal::BadEvent);
    }
    if kind == 7 {
        return event_crash::crash_event(s, d);
    }
    if kind == 8 {
        return event_crash::recover_event::<_, _, JOINT, TEARS>(s, store, e.count);
    }
    if s.up != 1 {
        return Err(Refusal::Down);
    }
    if kind == 1 {
        return event_begin::begin_event(s, d, t);
    }
    if 9 < kind {
        if kind == 10 {
            if e.offset == 0 {
                return event_decision::decide_event::<_, _, JOINT>(
                    s, d, store, false, e.count, e.value,
                );
            }
            return event_decision::decide_event::<_, _, JOINT>(s, d, store, true, e.count, e.value);
        }
        return event_decision::query_event(d.reserved, d.identity, e.value);
    }
    match TransactionNumber::checked(t) {
        Some(n) => named_event::<_, _, JOINT, TEARS>(s, d, work, store, e, n),
        None => Err(Refusal::NotLive),
    }
}
