// Edition 2's open operations as C functions: what a C caller links. Each calls the function of the same name of the library `nekahuiro_edition2`, and promises what that promises.
#![tactic(auto)]

ghost use Rattle.std.specs.Prelude.{◌≡◌};
ghost use Rattle.rules.specs.Run.{lay_fresh};
ghost use Rattle.rules.specs.Age.{age_of};
ghost use Rattle.rules.specs.Editions.{geometry2, edition2};
ghost use Rattle.history.specs.Demand3.{Demand3};
ghost use Rattle.claim_serial.specs.OneAtATime.{OneRunAtATime};
ghost use Rattle.store_record.specs.Ages.{age_number, age_left};
ghost use Rattle.open_run.specs.Running.{Ran};
ghost use Rattle.claim_device.specs.After.{ToldAfter};

// Lays down a fresh store: 0, or 22 where it hasn't the size of a store, and then writes nothing.
#[unsafe(no_mangle)]
pub extern "C" fn nekahuiro_fresh_edition2(store: &mut [u8]) -> u8
    ensures { let before = store.old in
        (result ≡ (lay_fresh edition2 before).answer) × (store.new ≡ (lay_fresh edition2 before).store) }
{
    nekahuiro_edition2::nekahuiro_fresh_edition2(store)
}

// Tells the age of a record: 0 live, 1 ahead, 2 stale, with the age in minutes left at `age`; or refused with 22, 23 or 4, and `age` stays.
#[unsafe(no_mangle)]
pub extern "C" fn nekahuiro_age_edition2(
    store: &[u8],
    number: u8,
    clock: u32,
    limit: u32,
    age: &mut i64,
) -> u8
    ensures { let told = age_of edition2 store.now number clock limit in
        (result ≡ age_number told) × (age.new ≡ age_left told age.old) }
{
    nekahuiro_edition2::nekahuiro_age_edition2(store, number, clock, limit, age)
}

// Runs a list of events on a store, with an answer of two bytes for each. 0, or a refusal's number: 22, 24, 20 or 21, in this order, and then
// touches no buffer. Of a run that is played demand 3 holds, and that it can be played one transaction at a time: both speak of `run edition2`,
// which is what this function leaves.
#[unsafe(no_mangle)]
pub extern "C" fn nekahuiro_run_edition2(
    store: &mut [u8],
    events: &[u8],
    work: &mut [u8],
    answers: &mut [u8],
) -> u8
    ensures ran { Ran edition2 store.old events.now work.old answers.old result store.new work.new answers.new }
    ensures demand_3 { result ≡ 0 → Demand3 edition2 store.old events.now work.old answers.old }
    ensures one_run_at_a_time { result ≡ 0 → OneRunAtATime edition2 store.old events.now work.old answers.old }
{
    nekahuiro_edition2::nekahuiro_run_edition2(store, events, work, answers)
}

// Plays a list as a run does, and then says the page write number `index`, from 0, that an event makes on the state that the list leaves if nothing cuts
// it: 0, with the page's number and the page in `write`; or 12, no such write; or refused with 22, 24, 20 or 21 as a run with the list is, and then with
// 20 where the event isn't eight bytes or 21 where `write` isn't 33, and then touches no buffer. The event isn't played.
#[unsafe(no_mangle)]
pub extern "C" fn nekahuiro_page_write_edition2(
    store: &mut [u8],
    events: &[u8],
    work: &mut [u8],
    answers: &mut [u8],
    event: &[u8],
    index: u8,
    write: &mut [u8],
) -> u8
    ensures { ToldAfter geometry2 store.old events.now work.old answers.old event.now index write.old result
        store.new work.new answers.new write.new }
{
    nekahuiro_edition2::nekahuiro_page_write_edition2(
        store, events, work, answers, event, index, write,
    )
}
