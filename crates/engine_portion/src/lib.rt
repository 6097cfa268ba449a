// A portion, a list of events played on the state that the last one left; the state between two portions; and the start. Edition 1, on atomic pages or on
// pages that can tear.
#![tactic(auto)]

ghost use Rattle.std.specs.Prelude.{◌≡◌, Bool, List, ℕ, ◌*◌, ◌/◌, ◌≤◌, length};
ghost use Rattle.rules.specs.State.{down};
ghost use Rattle.rules.specs.Editions.{Edition, geometry_of, form_in, InNumbers, edition_of, work_bytes};
ghost use Rattle.state_whole.specs.Whole.{view, Intact};
ghost use Rattle.state_whole.specs.Portion.{PortionPlayed};
ghost use Rattle.state_whole.specs.Lain.{arrays_in};
ghost use Rattle.engine_portion.specs.Portion.{arrays_of, state_lent, lent_as};

use state_whole::State;

const RECORDS: usize = 16;

const PLACES: usize = 32;

// The bytes of an event word.
const WORD: usize = 4;

// The engine's state between two portions, 468 bytes with no padding; all zeros is the start. A caller keeps it and lends it: the order of the fields
// is final. It is no State<16, 32>: a struct that an exported function is lent has no const parameters.
#[repr(C)]
#[derive(Clone, Copy)]
pub struct Engine {
    pub line: [u32; 24],
    pub held: [u32; 32],
    pub retained: [u32; 32],
    pub writers: [u32; 16],
    pub parent: [u8; 24],
    pub depth: [u8; 24],
    pub up: u8,
    // zeros
    pub spare: [u8; 3],
}

impl Engine {
    // The state that is lent, to play on.
    pub fn state(&self) -> State<RECORDS, PLACES>
        ensures { result ≡ state_lent self.now }
    {
        let line = self.line;
        let held = self.held;
        let retained = self.retained;
        let writers = self.writers;
        let parent = self.parent;
        let depth = self.depth;
        State {
            line,
            held,
            retained,
            writers,
            parent,
            depth,
            up: self.up,
        }
    }

    // A state as it is lent, with the spare bytes.
    pub fn of(s: State<RECORDS, PLACES>, spare: [u8; 3]) -> Engine
        ensures { result ≡ lent_as s spare }
    {
        let line = s.line;
        let held = s.held;
        let retained = s.retained;
        let writers = s.writers;
        let parent = s.parent;
        let depth = s.depth;
        Engine {
            line,
            held,
            retained,
            writers,
            parent,
            depth,
            up: s.up,
            spare,
        }
    }
}

// A portion of events, in place. Edition 1's, and that of pages that can tear.
pub fn portion<const JOINT: bool, const TEARS: bool>(
    s: &mut State<RECORDS, PLACES>,
    store: &mut [u8],
    events: &[u8],
    work: &mut [u8],
    answers: &mut [u8],
)
    requires { let edition = edition_of 16 JOINT TEARS in
        Intact (form_in TEARS (geometry_of edition)) (arrays_in s.old work.old store.old) × InNumbers edition 16 JOINT TEARS
        × (length events.now ≤ 16384) × (2 * (length events.now / 4) ≤ length answers.old) }
    ensures { let before = arrays_in s.old work.old store.old in
        let after = arrays_in s.new work.new store.new in
        let form = form_in TEARS (geometry_of (edition_of 16 JOINT TEARS)) in
        PortionPlayed form before events.now answers.old after answers.new }
{
    engine_list::play::<RECORDS, PLACES, JOINT, TEARS>(s, work, store, events, answers, WORD);
}

// The start: down, and nothing live, held, retained or written. All zeros.
pub fn start() -> Engine
    ensures { (edition : Edition) (joint tears : Bool) → InNumbers edition 16 joint tears → (work store : List ℕ) →
        let form = form_in tears (geometry_of edition) in
        length work ≡ work_bytes → length store ≡ form.medium.size → Intact form (arrays_of result work store) × (view form (arrays_of result work store) ≡ down (form.medium.from_bytes store)) }
{
    Engine {
        line: [0; 24],
        held: [0; 32],
        retained: [0; 32],
        writers: [0; 16],
        parent: [0; 24],
        depth: [0; 24],
        up: 0,
        spare: [0; 3],
    }
}
