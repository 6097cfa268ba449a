// The event word of edition 2 (document 02, L7): the six fields in the old order, the record's and the count's wider, then zero bits.
ghost use Rattle.std.specs.Prelude.{◌≡◌, ◌+◌, ◌*◌, ◌<◌, ◌≤◌, length, take, drop};
ghost use Rattle.laws.specs.Bytes.{number};
ghost use Rattle.rules.specs.Event.{decode};
ghost use Rattle.rules.specs.Editions.{geometry2};
ghost use Rattle.leaf_event.specs.Flags.{flags2};
ghost use Rattle.leaf_event.specs.Meaning.{meaning, InWord};

use crate::Event;

// What is edition 2's own of an event: its widths, and with them its word.
#[derive(Drop)]
pub struct Edition2 {}

// The fields that a kind uses, as in edition 1. There are no kinds 9 to 11.
const USES: [u64; 16] = [
    0,
    Edition2::KIND | Edition2::TRANSACTION,
    Edition2::KIND | Edition2::TRANSACTION | Edition2::RECORD | Edition2::VALUE_FLAG,
    Edition2::KIND | Edition2::TRANSACTION | Edition2::RECORD | Edition2::OFFSET | Edition2::VALUE,
    Edition2::KIND | Edition2::TRANSACTION | Edition2::RECORD | Edition2::OFFSET,
    Edition2::KIND | Edition2::TRANSACTION | Edition2::COUNT,
    Edition2::KIND | Edition2::TRANSACTION | Edition2::VALUE_FLAG,
    Edition2::KIND,
    Edition2::KIND | Edition2::COUNT,
    0,
    0,
    0,
    0,
    0,
    0,
    0,
];

impl Edition2 {
    // the fields' widths in bits
    pub const KIND_WIDTH: u64 = 4;

    pub const TRANSACTION_WIDTH: u64 = 5;

    pub const RECORD_WIDTH: u64 = 6;

    pub const OFFSET_WIDTH: u64 = 5;

    pub const COUNT_WIDTH: u64 = 8;

    pub const VALUE_WIDTH: u64 = 8;

    // the zero bits at the word's end
    pub const SPARE_WIDTH: u64 = 28;

    // how many values a field can have
    pub const KIND_SPAN: u64 = 1 << Self::KIND_WIDTH;

    pub const TRANSACTION_SPAN: u64 = 1 << Self::TRANSACTION_WIDTH;

    pub const RECORD_SPAN: u64 = 1 << Self::RECORD_WIDTH;

    pub const OFFSET_SPAN: u64 = 1 << Self::OFFSET_WIDTH;

    pub const COUNT_SPAN: u64 = 1 << Self::COUNT_WIDTH;

    pub const VALUE_SPAN: u64 = 1 << Self::VALUE_WIDTH;

    // the divisors that bring a field to the word's end
    pub const VALUE_PLACE: u64 = 1 << Self::SPARE_WIDTH;

    pub const COUNT_PLACE: u64 = Self::VALUE_PLACE * Self::VALUE_SPAN;

    pub const OFFSET_PLACE: u64 = Self::COUNT_PLACE * Self::COUNT_SPAN;

    pub const RECORD_PLACE: u64 = Self::OFFSET_PLACE * Self::OFFSET_SPAN;

    pub const TRANSACTION_PLACE: u64 = Self::RECORD_PLACE * Self::RECORD_SPAN;

    pub const KIND_PLACE: u64 = Self::TRANSACTION_PLACE * Self::TRANSACTION_SPAN;

    // the fields' flags: ones at the field's place
    pub const VALUE: u64 = (Self::VALUE_SPAN - 1) * Self::VALUE_PLACE;

    // a value of 0 or 1
    pub const VALUE_FLAG: u64 = Self::VALUE_PLACE;

    pub const COUNT: u64 = (Self::COUNT_SPAN - 1) * Self::COUNT_PLACE;

    pub const OFFSET: u64 = (Self::OFFSET_SPAN - 1) * Self::OFFSET_PLACE;

    pub const RECORD: u64 = (Self::RECORD_SPAN - 1) * Self::RECORD_PLACE;

    pub const TRANSACTION: u64 = (Self::TRANSACTION_SPAN - 1) * Self::TRANSACTION_PLACE;

    pub const KIND: u64 = (Self::KIND_SPAN - 1) * Self::KIND_PLACE;

    // The table of used fields, to be kept and lent as in edition 1.
    pub fn table() -> [u64; 16]
        ensures { result ≡ flags2 }
    {
        USES
    }

    // The event that a word stands for, by the table.
    pub fn of_word(table: &[u64; 16], w: u64) -> Event
        requires { table.now ≡ flags2 }
        ensures { (decode geometry2 w ≡ meaning result) × InWord geometry2 result }
    {
        let kind = (w / Self::KIND_PLACE % Self::KIND_SPAN) as u8;
        let transaction = (w / Self::TRANSACTION_PLACE % Self::TRANSACTION_SPAN) as u8;
        let rec = (w / Self::RECORD_PLACE % Self::RECORD_SPAN) as u8;
        let offset = (w / Self::OFFSET_PLACE % Self::OFFSET_SPAN) as u8;
        let count = (w / Self::COUNT_PLACE % Self::COUNT_SPAN) as u8;
        let value = (w / Self::VALUE_PLACE % Self::VALUE_SPAN) as u8;
        let uses = table[usize::from(kind)];
        if w & (w ^ uses) == 0 {
            Event {
                kind,
                transaction,
                rec,
                offset,
                count,
                value,
            }
        } else {
            Event {
                kind: 0,
                transaction,
                rec,
                offset,
                count,
                value,
            }
        }
    }

    // Word k of a list of events: eight bytes, most significant first. By its halves, since edits speak of them (bad_word_is_a_crash, read_uses_value).
    pub fn word_at(events: &[u8], k: usize) -> u64
        requires { (k < 4096) × (8 * k + 8 ≤ length events.now) }
        ensures { result ≡ number (take 8 (drop (8 * k) events.now)) }
    {
        let high = u64::from(Event::word_at(events, 2 * k));
        let low = u64::from(Event::word_at(events, 2 * k + 1));
        high * 4294967296 + low
    }
}
