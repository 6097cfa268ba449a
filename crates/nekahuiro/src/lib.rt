// The open operations: a run, a portion, the page writes of an event, a fresh store, the age of a record, the two ends of a two-phase commit, the report
// on transactions that wait for each other, the list of a job sheet, and the audit of a run. Any bytes may come in; each refuses or does what the rules say.
#![tactic(auto)]

ghost use Rattle.std.specs.Prelude.{◌≡◌, false};
ghost use Rattle.rules.specs.Run.{lay_fresh};
ghost use Rattle.rules.specs.Age.{age_of};
ghost use Rattle.rules.specs.Editions.{geometry1, edition1};
ghost use Rattle.history.specs.Demand3.{Demand3};
ghost use Rattle.claim_serial.specs.OneAtATime.{OneRunAtATime};
ghost use Rattle.store_record.specs.Ages.{age_number, age_left};
ghost use Rattle.open_run.specs.Running.{Ran};
ghost use Rattle.open_lent.specs.Portions.{kept, PortionedAs};
ghost use Rattle.open_lent.specs.PageWrites.{ToldAs};
ghost use Rattle.audit_rules.specs.Audit.{audit1};
ghost use Rattle.audit_verdict.specs.Codes.{number_in, place_in};
ghost use Rattle.depot_message.specs.Codes.{depot_left};
ghost use Rattle.depot_message.specs.Votes.{vote_on};
ghost use Rattle.wait_report.specs.Reported.{Reported};
ghost use Rattle.sheet_text.specs.Made.{Made};

use engine_portion::Engine;
use open_lent::Portioned;
use wait_report::Ring;
use wait_row::Row;

const RECORDS: usize = 16;

// Transactions can be prepared.
const JOINT: bool = true;

// Pages don't tear.
const TEARS: bool = false;

pub const WORK: usize = leaf_page::WORK;

// Lays down a fresh store: 0, or 22 where it hasn't the size of a store, and then writes nothing.
pub fn nekahuiro_fresh(store: &mut [u8]) -> u8
    ensures { (result ≡ (lay_fresh edition1 store.old).answer) × (store.new ≡ (lay_fresh edition1 store.old).store) }
{
    store_record::lay_fresh(store, TEARS, RECORDS)
}

// Tells the age of a record: 0 live, 1 ahead, 2 stale, with the age in minutes left at `age`; or refused with 22, 23 or 4, and `age` stays.
pub fn nekahuiro_age(store: &[u8], number: u8, clock: u32, limit: u32, age: &mut i64) -> u8
    ensures { (result ≡ age_number (age_of edition1 store.now number clock limit)) × (age.new ≡ age_left (age_of edition1 store.now number clock limit) age.old) }
{
    store_record::tell(store, TEARS, RECORDS, JOINT, number, clock, limit, age)
}

// A run with this edition's numbers. A function of its own, so that the compiler comes to the check of a lent state before it comes to the loop over a list: docs/DECISIONS.md.
fn run_of(store: &mut [u8], events: &[u8], work: &mut [u8], answers: &mut [u8]) -> u8
    ensures { Ran edition1 store.old events.now work.old answers.old result store.new work.new answers.new }
{
    open_lent::run_of::<JOINT, TEARS>(store, events, work, answers)
}

// Runs a list of events on a store, with an answer of two bytes for each. 0, or a refusal's number: 22, 24, 20 or 21, in this order, and then
// touches no buffer. Of a run that is played demand 3 holds, and that it can be played one transaction at a time: both speak of `run edition1`,
// which is what this function leaves.
pub fn nekahuiro_run(store: &mut [u8], events: &[u8], work: &mut [u8], answers: &mut [u8]) -> u8
    ensures ran { Ran edition1 store.old events.now work.old answers.old result store.new work.new answers.new }
    ensures demand_3 { result ≡ 0 → Demand3 edition1 store.old events.now work.old answers.old }
    ensures one_run_at_a_time { result ≡ 0 → OneRunAtATime edition1 store.old events.now work.old answers.old }
{
    run_of(store, events, work, answers)
}

// A portion by value, with this edition's numbers.
fn portion_of(
    e: Engine,
    store: &mut [u8],
    events: &[u8],
    work: &mut [u8],
    answers: &mut [u8],
) -> Portioned
    ensures { let before = kept e work.old store.old in
        let after = kept result.engine work.new store.new in
        PortionedAs edition1 before events.now answers.old result.number after answers.new }
{
    open_lent::portion_of::<JOINT, TEARS>(e, store, events, work, answers)
}

// Plays a portion of events on a state that is lent and changed in place, with the store and the working buffer that the last portion left. 0, or a
// refusal's number: 22, 24, 20, 21 or 25, in this order, and then touches nothing.
pub fn nekahuiro_portion(
    state: &mut Engine,
    store: &mut [u8],
    events: &[u8],
    work: &mut [u8],
    answers: &mut [u8],
) -> u8
    ensures { let before = kept state.old work.old store.old in
        let after = kept state.new work.new store.new in
        PortionedAs edition1 before events.now answers.old result after answers.new }
{
    let before = *state;
    let done = portion_of(before, store, events, work, answers);
    let after = done.engine;
    *state = after;
    done.number
}

// A page write by value, with this edition's numbers.
fn page_write_of(
    e: Engine,
    store: &[u8],
    event: &[u8],
    work: &[u8],
    index: u8,
    write: &mut [u8],
) -> u8
    ensures { let held = kept e work.now store.now in
        ToldAs false geometry1 held event.now write.old index result write.new }
{
    open_lent::page_write_of::<JOINT, TEARS>(e, store, event, work, index, write)
}

// Says the page write number `index`, from 0, that an event makes on this state, store and working buffer if nothing cuts it: 0, with the page's number
// and the page in `write`; or 12, no such write; or refused with 22, 24, 20, 21 or 25, in this order. Nothing is played, and but for the page write
// nothing is written.
pub fn nekahuiro_page_write(
    state: &Engine,
    store: &[u8],
    event: &[u8],
    work: &[u8],
    index: u8,
    write: &mut [u8],
) -> u8
    ensures { let held = kept state.now work.now store.now in
        ToldAs false geometry1 held event.now write.old index result write.new }
{
    let held = *state;
    page_write_of(held, store, event, work, index, write)
}

// The depot's turn for an identity, by its state (0 idle, 1 asked, 2 committed, 3 aborted) and a message (0 start, 1 yes, 2 no, 3 give-up): 0, with the
// next state and the reply (0 prepare, 1 commit, 2 abort); or 27 and nothing is written, also where there is no such state or message.
pub fn nekahuiro_depot(state: &mut u8, message: u8, reply: &mut u8) -> u8
    ensures { let turn = depot_left state.old message reply.old in (result ≡ turn.answer) × (state.new ≡ turn.state) × (reply.new ≡ turn.reply) }
{
    depot_message::depot(state, message, reply)
}

// The gateway's vote on an event of this kind by the two bytes of its answer, as a message to the depot: 1 yes, 2 no; 0 where it sends none.
pub fn nekahuiro_vote(kind: u8, number: u8, value: u8) -> u8
    ensures { result ≡ vote_on kind number value }
{
    depot_message::vote(kind, number, value)
}

// Reports on transactions that wait for each other: 0, with a cycle of pointings left at `ring`, or none; or a refusal's number, 25, 26, then row by
// row 5, 23, 1, in this order, and then `ring` stays.
pub fn nekahuiro_waiting(state: &Engine, rows: &[Row], ring: &mut Ring) -> u8
    ensures { Reported state.now rows.now ring.old result ring.new }
{
    let e = *state;
    let list = wait_row::copied(rows);
    let before = *ring;
    let told = open_lent::report_of(e, list, before);
    let after = told.ring;
    *ring = after;
    told.number
}

// Makes a list of event words of a job sheet: 0, with the list at the beginning of `list` and its length in bytes left at `told`; 28 where `list` has
// fewer than 16,384 bytes, tried first, and then touches nothing; or 29 where the text is no sheet that is taken, with the place of the first byte after
// which none could follow left at `told`, and `list` stays.
pub fn nekahuiro_sheet(sheet: &[u8], list: &mut [u8], told: &mut usize) -> u8
    ensures { Made sheet.now list.old told.old result list.new told.new }
{
    sheet_list::list_of(sheet, list, told)
}

// Whether a start store, a list of events, its answers and an end store belong together: 0 if so; 1 if not, and the first wrong event at `place`;
// 2, where every event is right, and the first wrong page at `place`; or refused with 22, 20, 21 or 30, and `place` stays.
pub fn nekahuiro_audit(
    start: &[u8],
    events: &[u8],
    answers: &[u8],
    end: &[u8],
    place: &mut u16,
) -> u8
    ensures { let verdict = audit1 start.now events.now answers.now end.now in
        (result ≡ number_in verdict) × (place.new ≡ place_in verdict place.old) }
{
    audit_verdict::audit(start, events, answers, end, place)
}
