// A run from the start; and what is lent as a state: whether it is one, and a portion, a page write and a report on it, by value. What is lent as a struct is
// read and written by the open operations, which call these. Edition 1, on atomic pages (`JOINT`) or on pages that can tear (`TEARS`).
#![tactic(auto)]

ghost use Rattle.std.specs.Prelude.{◌≡◌, ℕ, List, length, replicate};
ghost use Rattle.laws.specs.Bytes.{number};
ghost use Rattle.rules.specs.Geometry.{word_size};
ghost use Rattle.rules.specs.Event.{decode};
ghost use Rattle.rules.specs.Editions.{Edition, geometry_of, form_in, InNumbers, edition_of, work_bytes};
ghost use Rattle.leaf_event.specs.Meaning.{meaning, InWord};
ghost use Rattle.state_whole.specs.Whole.{Intact};
ghost use Rattle.state_whole.specs.Lain.{arrays_in};
ghost use Rattle.engine_portion.specs.Portion.{lent_as};
ghost use Rattle.sound_clause.specs.Decides.{Decides};
ghost use Rattle.open_run.specs.Running.{Ran};
ghost use Rattle.wait_report.specs.Reported.{SoundAside, ReportedCopied};
ghost use Rattle.store_length.specs.Lengths.{store_bytes};
ghost use Rattle.open_lent.specs.Portions.{kept, PortionedAs};
ghost use Rattle.open_lent.specs.PageWrites.{ToldAs};

use engine_portion::Engine;
use leaf_event::Event;
use leaf_event::pairs::Pairs;
use state_whole::State;
use wait_report::{Report, Ring};
use wait_row::Rows;

const RECORDS: usize = 16;

// The bytes of an event word.
const WORD: usize = 4;

const STORE: usize = 1056;

// The spare bytes are zeros.
fn is_bare(spare: [u8; 3]) -> bool
    ensures { Decides result (spare ≡ replicate 3 0) }
{
    let a = spare[0] == 0;
    let b = spare[1] == 0;
    let c = spare[2] == 0;
    a & b & c
}

// What is lent as a state is one, and sound: the state itself, with the spare bytes that lie behind it.
fn is_state<const JOINT: bool, const TEARS: bool>(
    s: &State<16, 32>,
    spare: [u8; 3],
    store: &[u8],
) -> bool
    requires { length store.now ≡ store_bytes TEARS 16 }
    ensures { (edition : Edition) (work : List ℕ) → InNumbers edition 16 JOINT TEARS → length work ≡ work_bytes
        → Decides result (Intact (form_in TEARS (geometry_of edition)) (arrays_in s.now work store.now) × (spare ≡ replicate 3 0)) }
{
    let sound = sound_state::is_sound(
        s.up,
        &s.parent,
        &s.depth,
        &s.line,
        &s.held,
        &s.retained,
        &s.writers,
        store,
        JOINT,
        TEARS,
    );
    let bare = is_bare(spare);
    sound & bare
}

// A run: edition 1's, and that of pages that can tear. Refused by the lengths of the buffers, or played from the start.
pub fn run_of<const JOINT: bool, const TEARS: bool>(
    store: &mut [u8],
    events: &[u8],
    work: &mut [u8],
    answers: &mut [u8],
) -> u8
    requires { InNumbers (edition_of 16 JOINT TEARS) 16 JOINT TEARS }
    ensures { let form = form_in TEARS (geometry_of (edition_of 16 JOINT TEARS)) in
        Ran form store.old events.now work.old answers.old result store.new work.new answers.new }
{
    let n = store_length::refusal(
        TEARS,
        RECORDS,
        WORD,
        store.len(),
        events.len(),
        work.len(),
        answers.len(),
    );
    if let Err(wrong) = n {
        return u8::from(wrong);
    }
    let mut s = engine_portion::start().state();
    engine_portion::portion::<JOINT, TEARS>(&mut s, store, events, work, answers);
    0
}

// A portion on a state with the spare bytes that lie behind it: refused by the lengths of the buffers, then where it is no state, or played.
fn played_on<const JOINT: bool, const TEARS: bool>(
    s: &mut State<16, 32>,
    spare: [u8; 3],
    store: &mut [u8],
    events: &[u8],
    work: &mut [u8],
    answers: &mut [u8],
) -> u8
    requires { InNumbers (edition_of 16 JOINT TEARS) 16 JOINT TEARS }
    ensures { let before = kept (lent_as s.old spare) work.old store.old in
        let after = kept (lent_as s.new spare) work.new store.new in
        let form = form_in TEARS (geometry_of (edition_of 16 JOINT TEARS)) in
        PortionedAs form before events.now answers.old result after answers.new }
{
    let m = store_length::refusal(
        TEARS,
        RECORDS,
        WORD,
        store.len(),
        events.len(),
        work.len(),
        answers.len(),
    );
    if let Err(wrong) = m {
        return u8::from(wrong);
    }
    if is_state::<JOINT, TEARS>(s, spare, &store[..]) {
        engine_portion::portion::<JOINT, TEARS>(s, store, events, work, answers);
        return 0;
    }
    25
}

// A portion's answer, and the state after it.
#[derive(Drop)]
pub struct Portioned {
    pub engine: Engine,
    pub number: u8,
}

// A portion by value: edition 1's, and that of pages that can tear. The state is taken out of what is lent, played on, and put back with the spare bytes.
pub fn portion_of<const JOINT: bool, const TEARS: bool>(
    e: Engine,
    store: &mut [u8],
    events: &[u8],
    work: &mut [u8],
    answers: &mut [u8],
) -> Portioned
    requires { InNumbers (edition_of 16 JOINT TEARS) 16 JOINT TEARS }
    ensures { let before = kept e work.old store.old in
        let after = kept result.engine work.new store.new in
        let form = form_in TEARS (geometry_of (edition_of 16 JOINT TEARS)) in
        PortionedAs form before events.now answers.old result.number after answers.new }
{
    let spare = e.spare;
    let mut s = e.state();
    let number = played_on::<JOINT, TEARS>(&mut s, spare, store, events, work, answers);
    Portioned {
        engine: Engine::of(s, spare),
        number,
    }
}

// The event that a question is on.
fn event_of<const TEARS: bool>(event: &[u8]) -> Event
    requires { length event.now ≡ 4 }
    ensures { (edition : Edition) →
        let g = geometry_of edition in
        word_size g ≡ 4 → g.tears ≡ TEARS → (decode g (number event.now) ≡ meaning result) × InWord g result }
{
    let word = Event::word_at(event, 0);
    if TEARS {
        let torn = Pairs::table();
        return Pairs::of_word(&torn, word);
    }
    let table = Event::table();
    Event::of_word(&table, word)
}

// A write of an event, by value: a page write of edition 1's, or a copy write where pages tear.
pub fn page_write_of<const JOINT: bool, const TEARS: bool>(
    e: Engine,
    store: &[u8],
    event: &[u8],
    work: &[u8],
    index: u8,
    write: &mut [u8],
) -> u8
    requires { InNumbers (edition_of 16 JOINT TEARS) 16 JOINT TEARS }
    ensures { let held = kept e work.now store.now in
        ToldAs TEARS (geometry_of (edition_of 16 JOINT TEARS)) held event.now write.old index result write.new }
{
    let asks = store_length::question(
        TEARS,
        RECORDS,
        WORD,
        store.len(),
        event.len(),
        work.len(),
        write.len(),
    );
    if let Err(wrong) = asks {
        return u8::from(wrong);
    }
    if !is_state::<JOINT, TEARS>(&e.state(), e.spare, store) {
        return 25;
    }
    let parent = e.parent;
    let depth = e.depth;
    let writers = e.writers;
    let asked = event_of::<TEARS>(event);
    engine_page_write::page_write(
        e.up, &parent, &depth, &writers, work, store, RECORDS, JOINT, TEARS, asked, index, write,
    )
}

// What is lent as a state is one, and sound, its store aside: over a fresh one.
fn is_state_aside(e: Engine) -> bool
    ensures { Decides result (SoundAside e) }
{
    let mut store = [0u8; STORE];
    store_record::lay(&mut store, false, RECORDS);
    is_state::<true, false>(&e.state(), e.spare, &store)
}

// The report by value.
pub fn report_of(e: Engine, list: Rows, ring: Ring) -> Report
    ensures { ReportedCopied e list ring result.number result.ring }
{
    if is_state_aside(e) {
        return wait_report::report_sound(e, list, ring);
    }
    wait_report::refused(ring, 25)
}
