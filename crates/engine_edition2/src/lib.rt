// A list of edition 2's events over the engine, from the start, with an answer each. A crate beside edition 1's portions, for an archive of its own: where
// `step` is called once, the compiler makes the numbers of the edition constants all the way down.
#![tactic(auto)]

ghost use Rattle.std.specs.Prelude.{◌≡◌, ◌*◌, ◌/◌, ◌≤◌, length};
ghost use Rattle.engine_edition2.specs.Lists.{EndedAs};

use state_whole::State;

// What is left of the state after a list: all that the page writes of the next event are told from, beside the working buffer and the store.
#[derive(Drop)]
pub struct Ended {
    pub writers: [u32; 64],
    pub parent: [u8; 24],
    pub depth: [u8; 24],
    pub up: u8,
}

// A list from the start, which is down with nothing live, held, retained or written: all zeros. Nothing is prepared in this edition, whatever the store
// says: `read_held` answers so.
pub fn from_start(store: &mut [u8], events: &[u8], work: &mut [u8], answers: &mut [u8]) -> Ended
    requires { (length store.old ≡ 4128) × (length work.old ≡ 32768) × (length events.now ≤ 32768) × (2 * (length events.now / 8) ≤ length answers.old) }
    ensures { EndedAs store.old events.now answers.old result store.new work.new answers.new }
{
    let mut s = State {
        line: [0; 24],
        held: [0; 128],
        retained: [0; 128],
        writers: [0; 64],
        parent: [0; 24],
        depth: [0; 24],
        up: 0,
    };
    engine_list::play::<64, 128, false, false>(&mut s, work, store, events, answers, 8);
    let writers = s.writers;
    let parent = s.parent;
    let depth = s.depth;
    Ended {
        writers,
        parent,
        depth,
        up: s.up,
    }
}
