// A list of events over the engine, with an answer each: the one loop of every edition. Whoever calls it passes the edition's numbers as const arguments, and in
// one place of each archive, so that `step` has one call site there and the compiler makes the engine of that edition.
#![tactic(auto)]

ghost use Rattle.std.specs.Prelude.{◌≡◌, ◌+◌, ◌*◌, ◌/◌, ◌<◌, ◌≤◌, length, take, drop};
ghost use Rattle.laws.specs.Bytes.{number};
ghost use Rattle.rules.specs.Geometry.{word_size};
ghost use Rattle.rules.specs.Event.{decode};
ghost use Rattle.rules.specs.Editions.{Edition, geometry_of, form_in, InNumbers, edition_of};
ghost use Rattle.leaf_event.specs.Flags.{flags2};
ghost use Rattle.leaf_event.specs.Meaning.{meaning, InWord};
ghost use Rattle.state_whole.specs.Lain.{arrays_in};
ghost use Rattle.state_whole.specs.Whole.{Intact};
ghost use Rattle.state_whole.specs.Portion.{PortionPlayed};
ghost use Rattle.engine_list.specs.Words.{WordBytes, flags_in};

use leaf_event::edition2::Edition2;
use leaf_event::pairs::Pairs;
use leaf_event::{Answer, Event};
use state_whole::{Derived, State};

// The bytes of edition 2's words. Those of the others have four.
const WIDE_WORD: usize = 8;

// The table of used fields of a word of four bytes.
fn table(tears: bool) -> [u32; 16]
    ensures { result ≡ flags_in tears }
{
    if tears {
        return Pairs::table();
    }
    Event::table()
}

// Event k of a list whose words have so many bytes, by the table of words of four bytes or by that of eight.
fn event_at(
    table: &[u32; 16],
    wide_table: &[u64; 16],
    events: &[u8],
    k: usize,
    word: usize,
    tears: bool,
) -> Event
    requires { (table.now ≡ flags_in tears) × (wide_table.now ≡ flags2) × (k < 4096) × WordBytes word × (word * k + word ≤ length events.now) }
    ensures { (edition : Edition) →
        let g = geometry_of edition in
        word_size g ≡ word → g.tears ≡ tears → (decode g (number (take word (drop (word * k) events.now))) ≡ meaning result) × InWord g result }
{
    if word == WIDE_WORD {
        return Edition2::of_word(wide_table, Edition2::word_at(events, k));
    }
    let w = Event::word_at(events, k);
    if tears {
        return Pairs::of_word(table, w);
    }
    Event::of_word(table, w)
}

// Plays a list of events, in place. What follows from the parents and depths alone, and what the store says of a prepared transaction, is found at the
// start and not kept.
pub fn play<const RECORDS: usize, const PLACES: usize, const JOINT: bool, const TEARS: bool>(
    s: &mut State<RECORDS, PLACES>,
    work: &mut [u8],
    store: &mut [u8],
    events: &[u8],
    answers: &mut [u8],
    word: usize,
)
    requires numbers { InNumbers (edition_of RECORDS JOINT TEARS) RECORDS JOINT TEARS × (PLACES ≡ 2 * RECORDS) }
    requires intact { Intact (form_in TEARS (geometry_of (edition_of RECORDS JOINT TEARS))) (arrays_in s.old work.old store.old) }
    requires words { (word_size (geometry_of (edition_of RECORDS JOINT TEARS)) ≡ word) × WordBytes word
        × (length events.now ≤ 4096 * word) × (2 * (length events.now / word) ≤ length answers.old) }
    ensures { let before = arrays_in s.old work.old store.old in
        let after = arrays_in s.new work.new store.new in
        let form = form_in TEARS (geometry_of (edition_of RECORDS JOINT TEARS)) in
        PortionPlayed form before events.now answers.old after answers.new }
{
    let p = store_commit::read_held(&store[..], RECORDS, JOINT, TEARS);
    let mut d = Derived {
        children: state_tree::children_of(&s.parent, &s.depth),
        live: state_tree::live_set(&s.depth),
        reserved: p.map,
        identity: p.identity,
    };
    let narrow_table = table(TEARS);
    let wide_table = Edition2::table();
    let n = events.len() / word;
    for k in 0..n {
        let e = event_at(&narrow_table, &wide_table, events, k, word, TEARS);
        let a = engine_step::step::<_, _, JOINT, TEARS>(s, &mut d, work, store, e);
        Answer::put(answers, k, Answer::of(a));
    }
}
