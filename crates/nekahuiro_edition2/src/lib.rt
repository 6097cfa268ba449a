// Edition 2's open operations (document 02, L7): a run, the page writes of an event after a list, a fresh store and the age of a record. Any bytes may come
// in; each refuses or does what the rules say, with sixty-four records.
#![tactic(auto)]

ghost use Rattle.std.specs.Prelude.{◌≡◌};
ghost use Rattle.rules.specs.Run.{lay_fresh};
ghost use Rattle.rules.specs.Age.{age_of};
ghost use Rattle.rules.specs.Editions.{geometry2, edition2};
ghost use Rattle.history.specs.Demand3.{Demand3};
ghost use Rattle.claim_serial.specs.OneAtATime.{OneRunAtATime};
ghost use Rattle.store_record.specs.Ages.{age_number, age_left};
ghost use Rattle.open_run.specs.Running.{Ran};
ghost use Rattle.claim_device.specs.After.{ToldAfter};

use leaf_event::edition2::Edition2;

const RECORDS: usize = 64;

// The bytes of an event word.
const WORD: usize = 8;

// No transaction can be prepared.
const JOINT: bool = false;

// Pages don't tear.
const TEARS: bool = false;

// Lays down a fresh store: 0, or 22 where it hasn't the size of a store, and then writes nothing.
pub fn nekahuiro_fresh_edition2(store: &mut [u8]) -> u8
    ensures { let before = store.old in
        (result ≡ (lay_fresh edition2 before).answer) × (store.new ≡ (lay_fresh edition2 before).store) }
{
    store_record::lay_fresh(store, TEARS, RECORDS)
}

// Tells the age of a record: 0 live, 1 ahead, 2 stale, with the age in minutes left at `age`; or refused with 22, 23 or 4, and `age` stays.
pub fn nekahuiro_age_edition2(store: &[u8], number: u8, clock: u32, limit: u32, age: &mut i64) -> u8
    ensures { let told = age_of edition2 store.now number clock limit in
        (result ≡ age_number told) × (age.new ≡ age_left told age.old) }
{
    store_record::tell(store, TEARS, RECORDS, JOINT, number, clock, limit, age)
}

// Runs a list of events on a store, with an answer of two bytes for each. 0, or a refusal's number: 22, 24, 20 or 21, in this order, and then
// touches no buffer. Of a run that is played demand 3 holds, and that it can be played one transaction at a time: both speak of `run edition2`,
// which is what this function leaves.
pub fn nekahuiro_run_edition2(
    store: &mut [u8],
    events: &[u8],
    work: &mut [u8],
    answers: &mut [u8],
) -> u8
    ensures ran { Ran edition2 store.old events.now work.old answers.old result store.new work.new answers.new }
    ensures demand_3 { result ≡ 0 → Demand3 edition2 store.old events.now work.old answers.old }
    ensures one_run_at_a_time { result ≡ 0 → OneRunAtATime edition2 store.old events.now work.old answers.old }
{
    let n = store_length::refusal(
        TEARS,
        RECORDS,
        WORD,
        store.len(),
        events.len(),
        work.len(),
        answers.len(),
    );
    if let Err(wrong) = n {
        return u8::from(wrong);
    }
    engine_edition2::from_start(store, events, work, answers);
    0
}

// Plays a list as a run does, and then says the page write number `index`, from 0, that an event makes on the state that the list leaves if nothing cuts
// it: 0, with the page's number and the page in `write`; or 12, no such write; or refused with 22, 24, 20 or 21 as a run with the list is, and then with
// 20 where the event isn't eight bytes or 21 where `write` isn't 33, and then touches no buffer. The event isn't played.
pub fn nekahuiro_page_write_edition2(
    store: &mut [u8],
    events: &[u8],
    work: &mut [u8],
    answers: &mut [u8],
    event: &[u8],
    index: u8,
    write: &mut [u8],
) -> u8
    ensures { ToldAfter geometry2 store.old events.now work.old answers.old event.now index write.old result
        store.new work.new answers.new write.new }
{
    let unplayed = store_length::refusal(
        TEARS,
        RECORDS,
        WORD,
        store.len(),
        events.len(),
        work.len(),
        answers.len(),
    );
    if let Err(wrong) = unplayed {
        return u8::from(wrong);
    }
    let asks = store_length::question(
        TEARS,
        RECORDS,
        WORD,
        store.len(),
        event.len(),
        work.len(),
        write.len(),
    );
    if let Err(wrong) = asks {
        return u8::from(wrong);
    }
    let ended = engine_edition2::from_start(store, events, work, answers);
    let parent = ended.parent;
    let depth = ended.depth;
    let writers = ended.writers;
    let table = Edition2::table();
    let word = Edition2::word_at(event, 0);
    engine_page_write::page_write(
        ended.up,
        &parent,
        &depth,
        &writers[..],
        &work[..],
        &store[..],
        RECORDS,
        JOINT,
        TEARS,
        Edition2::of_word(&table, word),
        index,
        write,
    )
}
