// The event word where pages tear (document 02, L5): edition 1's word, in which the value of a commit and of a recover says how the next write is torn.
ghost use Rattle.std.specs.Prelude.{◌≡◌};
ghost use Rattle.rules.specs.Event.{decode};
ghost use Rattle.rules.specs.Editions.{geometry_pairs};
ghost use Rattle.leaf_event.specs.Flags.{flags_pairs};
ghost use Rattle.leaf_event.specs.Meaning.{meaning, InWord};

use crate::Event;

// What is this form's own of an event: its table, and the cut as one number.
#[derive(Drop)]
pub struct Pairs {}

// The fields that a kind uses, as in edition 1, but for the way of the tear. There are no kinds 9 to 11.
const USES: [u32; 16] = [
    0,
    Event::KIND | Event::TRANSACTION,
    Event::KIND | Event::TRANSACTION | Event::RECORD | Event::VALUE_FLAG,
    Event::KIND | Event::TRANSACTION | Event::RECORD | Event::OFFSET | Event::VALUE,
    Event::KIND | Event::TRANSACTION | Event::RECORD | Event::OFFSET,
    Event::KIND | Event::TRANSACTION | Event::COUNT | Pairs::WAY,
    Event::KIND | Event::TRANSACTION | Event::VALUE_FLAG,
    Event::KIND,
    Event::KIND | Event::COUNT | Pairs::WAY,
    0,
    0,
    0,
    0,
    0,
    0,
    0,
];

impl Pairs {
    // how many ways there are: between writes, and the three tears
    pub const WAYS: u8 = 4;

    // a value that is such a way: its two lowest bits
    pub const WAY: u32 = 3 * Event::VALUE_PLACE;

    // The table of used fields, to be kept and lent as in edition 1.
    pub fn table() -> [u32; 16]
        ensures { result ≡ flags_pairs }
    {
        USES
    }

    // The event that a word stands for, by the table. Its count is the cut's place: four times the word's count, and the way.
    pub fn of_word(table: &[u32; 16], w: u32) -> Event
        requires { table.now ≡ flags_pairs }
        ensures { (decode geometry_pairs w ≡ meaning result) × InWord geometry_pairs result }
    {
        let e = Event::apart(table, w);
        Event {
            kind: e.kind,
            transaction: e.transaction,
            rec: e.rec,
            offset: e.offset,
            count: Self::WAYS * e.count + e.value % Self::WAYS,
            value: e.value,
        }
    }
}
