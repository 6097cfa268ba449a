// The open operations of the form whose pages can tear (document 02, L5): a run, a portion, the copy writes of an event, a fresh
// store, and the age of a record. Any bytes may come in; each refuses or does what the rules say, with sixteen records, and every page kept
// as a pair of copies.
#![tactic(auto)]

ghost use Rattle.std.specs.Prelude.{◌≡◌, true};
ghost use Rattle.rules.specs.Run.{lay_fresh};
ghost use Rattle.rules.specs.Age.{age_of};
ghost use Rattle.rules.specs.Editions.{geometry_pairs, edition_pairs};
ghost use Rattle.history.specs.Demand3.{Demand3};
ghost use Rattle.claim_serial.specs.OneAtATime.{OneRunAtATime};
ghost use Rattle.store_record.specs.Ages.{age_number, age_left};
ghost use Rattle.open_run.specs.Running.{Ran};
ghost use Rattle.open_lent.specs.Portions.{kept, PortionedAs};
ghost use Rattle.open_lent.specs.PageWrites.{ToldAs};

use engine_portion::Engine;
use open_lent::Portioned;

const RECORDS: usize = 16;

// Pages tear.
const TEARS: bool = true;

// No transaction can be prepared.
const JOINT: bool = false;

// Lays down a fresh store, every pair good and alike: 0, or 22 where it hasn't the size of a store of pairs, and then writes nothing.
pub fn nekahuiro_fresh_pairs(store: &mut [u8]) -> u8
    ensures { let before = store.old in
        (result ≡ (lay_fresh edition_pairs before).answer) × (store.new ≡ (lay_fresh edition_pairs before).store) }
{
    store_record::lay_fresh(store, TEARS, RECORDS)
}

// Tells the age of a record, through the first good copy of each page: 0 live, 1 ahead, 2 stale, with the age in minutes left at `age`; or refused with 22, 23
// or 4, and `age` stays. It is 4 where any page has no good copy, or the commit page is damaged. The store is only read: nothing is mended.
pub fn nekahuiro_age_pairs(store: &[u8], number: u8, clock: u32, limit: u32, age: &mut i64) -> u8
    ensures { let told = age_of edition_pairs store.now number clock limit in
        (result ≡ age_number told) × (age.new ≡ age_left told age.old) }
{
    store_record::tell(store, TEARS, RECORDS, JOINT, number, clock, limit, age)
}

// A run with this form's numbers. A function of its own, so that the compiler comes to the check of a lent state before it comes to the loop over a list: docs/DECISIONS.md.
fn run_of(store: &mut [u8], events: &[u8], work: &mut [u8], answers: &mut [u8]) -> u8
    ensures { Ran edition_pairs store.old events.now work.old answers.old result store.new work.new answers.new }
{
    open_lent::run_of::<JOINT, TEARS>(store, events, work, answers)
}

// Runs a list of events on a store, with an answer of two bytes for each; the value of a commit or a recover says how the next page write is torn where it is
// cut. 0, or a refusal's number: 22, 24, 20 or 21, in this order, and then touches no buffer. Of a run that is played demand 3 holds, and that it can be played
// one transaction at a time: both speak of `run edition_pairs`, which is what this function leaves.
pub fn nekahuiro_run_pairs(
    store: &mut [u8],
    events: &[u8],
    work: &mut [u8],
    answers: &mut [u8],
) -> u8
    ensures ran { Ran edition_pairs store.old events.now work.old answers.old result store.new work.new answers.new }
    ensures demand_3 { result ≡ 0 → Demand3 edition_pairs store.old events.now work.old answers.old }
    ensures one_run_at_a_time { result ≡ 0 → OneRunAtATime edition_pairs store.old events.now work.old answers.old }
{
    run_of(store, events, work, answers)
}

// A portion by value, with this form's numbers.
fn portion_of(
    e: Engine,
    store: &mut [u8],
    events: &[u8],
    work: &mut [u8],
    answers: &mut [u8],
) -> Portioned
    ensures { let before = kept e work.old store.old in
        let after = kept result.engine work.new store.new in
        PortionedAs edition_pairs before events.now answers.old result.number after answers.new }
{
    open_lent::portion_of::<JOINT, TEARS>(e, store, events, work, answers)
}

// Plays a portion of events on a state that is lent and changed in place, with the store and the working buffer that the last portion left. 0, or a
// refusal's number: 22, 24, 20, 21 or 25, in this order, and then touches nothing. While up, a state is sound only if every pair is good and alike.
pub fn nekahuiro_portion_pairs(
    state: &mut Engine,
    store: &mut [u8],
    events: &[u8],
    work: &mut [u8],
    answers: &mut [u8],
) -> u8
    ensures { let before = kept state.old work.old store.old in
        let after = kept state.new work.new store.new in
        PortionedAs edition_pairs before events.now answers.old result after answers.new }
{
    let before = *state;
    let done = portion_of(before, store, events, work, answers);
    let after = done.engine;
    *state = after;
    done.number
}

// A copy write by value, with this form's numbers.
fn page_write_of(
    e: Engine,
    store: &[u8],
    event: &[u8],
    work: &[u8],
    index: u8,
    write: &mut [u8],
) -> u8
    ensures { let held = kept e work.now store.now in
        ToldAs true geometry_pairs held event.now write.old index result write.new }
{
    open_lent::page_write_of::<JOINT, TEARS>(e, store, event, work, index, write)
}

// Says the copy write number `index`, from 0, that an event makes on this state, store and working buffer if nothing cuts it: 0, with the page's number, the
// copy's (0 the first, 1 the second) and the page in `write`; or 12, no such write; or refused with 22, 24, 20, 21 or 25, in this order. Page write i is made by
// copy writes 2 i and 2 i + 1. Nothing is played, and but for the copy write nothing is written.
pub fn nekahuiro_page_write_pairs(
    state: &Engine,
    store: &[u8],
    event: &[u8],
    work: &[u8],
    index: u8,
    write: &mut [u8],
) -> u8
    ensures { let held = kept state.now work.now store.now in
        ToldAs true geometry_pairs held event.now write.old index result write.new }
{
    let held = *state;
    page_write_of(held, store, event, work, index, write)
}
