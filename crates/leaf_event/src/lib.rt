// The event word: kind, transaction, record, offset, count and value, most significant first, and the fields that each kind uses; and the answer to an event.
#![tactic(auto)]

ghost use Rattle.std.specs.Prelude.{◌≡◌, ◌+◌, ◌*◌, ◌/◌, ◌%◌, ◌<◌, ◌≤◌, length, set, take, drop};
ghost use Rattle.laws.specs.Bytes.{number};
ghost use Rattle.rules.specs.Event.{decode, word};
ghost use Rattle.rules.specs.Editions.{geometry1};
ghost use Rattle.leaf_event.specs.Flags.{flags};
ghost use Rattle.leaf_event.specs.Meaning.{meaning, apart, InRange, FieldsFit};

pub mod edition2;
pub mod outcome;
pub mod pairs;

// An answer's two bytes.
#[derive(Drop)]
pub struct Answer {
    pub number: u8,
    pub value: u8,
}

impl Answer {
    // The answer to event k.
    pub fn put(answers: &mut [u8], k: usize, a: Answer)
        requires { (k < 4096) × (2 * k + 2 ≤ length answers.old) }
        ensures { answers.new ≡ set (set answers.old (2 * k) a.number) (2 * k + 1) a.value }
    {
        let at = 2 * k;
        answers[at] = a.number;
        answers[at + 1] = a.value;
    }
}

// An event by its fields. Kind 0 is a bad event.
#[derive(Clone, Copy, Debug, PartialEq, Eq)]
pub struct Event {
    pub kind: u8,
    pub transaction: u8,
    pub rec: u8,
    pub offset: u8,
    pub count: u8,
    pub value: u8,
}

// The fields that a kind uses, the kind's own among them, each flagged by ones at its place in the word: at all of it, or where a kind takes the
// values 0 and 1 alone, at its lowest bit. A kind that there isn't uses none.
const USES: [u32; 16] = [
    0,
    Event::KIND | Event::TRANSACTION,
    Event::KIND | Event::TRANSACTION | Event::RECORD | Event::VALUE_FLAG,
    Event::KIND | Event::TRANSACTION | Event::RECORD | Event::OFFSET | Event::VALUE,
    Event::KIND | Event::TRANSACTION | Event::RECORD | Event::OFFSET,
    Event::KIND | Event::TRANSACTION | Event::COUNT,
    Event::KIND | Event::TRANSACTION | Event::VALUE_FLAG,
    Event::KIND,
    Event::KIND | Event::COUNT,
    Event::KIND | Event::TRANSACTION | Event::COUNT | Event::VALUE,
    Event::KIND | Event::OFFSET_FLAG | Event::COUNT | Event::VALUE,
    Event::KIND | Event::VALUE,
    0,
    0,
    0,
    0,
];

impl Event {
    // the fields' widths in bits
    pub const KIND_WIDTH: u32 = 4;

    pub const TRANSACTION_WIDTH: u32 = 5;

    pub const RECORD_WIDTH: u32 = 4;

    pub const OFFSET_WIDTH: u32 = 5;

    pub const COUNT_WIDTH: u32 = 6;

    pub const VALUE_WIDTH: u32 = 8;

    // how many values a field can have
    pub const KIND_SPAN: u32 = 1 << Self::KIND_WIDTH;

    pub const TRANSACTION_SPAN: u32 = 1 << Self::TRANSACTION_WIDTH;

    pub const RECORD_SPAN: u32 = 1 << Self::RECORD_WIDTH;

    pub const OFFSET_SPAN: u32 = 1 << Self::OFFSET_WIDTH;

    pub const COUNT_SPAN: u32 = 1 << Self::COUNT_WIDTH;

    pub const VALUE_SPAN: u32 = 1 << Self::VALUE_WIDTH;

    // the divisors that bring a field to the word's end
    pub const VALUE_PLACE: u32 = 1;

    pub const COUNT_PLACE: u32 = Self::VALUE_PLACE * Self::VALUE_SPAN;

    pub const OFFSET_PLACE: u32 = Self::COUNT_PLACE * Self::COUNT_SPAN;

    pub const RECORD_PLACE: u32 = Self::OFFSET_PLACE * Self::OFFSET_SPAN;

    pub const TRANSACTION_PLACE: u32 = Self::RECORD_PLACE * Self::RECORD_SPAN;

    pub const KIND_PLACE: u32 = Self::TRANSACTION_PLACE * Self::TRANSACTION_SPAN;

    // the fields' flags: ones at the field's place
    pub const VALUE: u32 = (Self::VALUE_SPAN - 1) * Self::VALUE_PLACE;

    // a value of 0 or 1
    pub const VALUE_FLAG: u32 = Self::VALUE_PLACE;

    pub const COUNT: u32 = (Self::COUNT_SPAN - 1) * Self::COUNT_PLACE;

    pub const OFFSET: u32 = (Self::OFFSET_SPAN - 1) * Self::OFFSET_PLACE;

    // an offset of 0 or 1
    pub const OFFSET_FLAG: u32 = Self::OFFSET_PLACE;

    pub const RECORD: u32 = (Self::RECORD_SPAN - 1) * Self::RECORD_PLACE;

    pub const TRANSACTION: u32 = (Self::TRANSACTION_SPAN - 1) * Self::TRANSACTION_PLACE;

    pub const KIND: u32 = (Self::KIND_SPAN - 1) * Self::KIND_PLACE;

    // The table of used fields. Who takes many words apart keeps it and lends it: an indexed constant is laid out anew for each word.
    pub fn table() -> [u32; 16]
        ensures { result ≡ flags }
    {
        USES
    }

    // A word taken apart by a table of used fields: kind 0 where it has a bit that its kind doesn't use.
    fn apart(table: &[u32; 16], w: u32) -> Self
        requires { length table.now ≡ 16 }
        ensures { (result ≡ apart geometry1 table.now w) × (result.count < 64) }
    {
        let kind = (w / Self::KIND_PLACE % Self::KIND_SPAN) as u8;
        let transaction = (w / Self::TRANSACTION_PLACE % Self::TRANSACTION_SPAN) as u8;
        let rec = (w / Self::RECORD_PLACE % Self::RECORD_SPAN) as u8;
        let offset = (w / Self::OFFSET_PLACE % Self::OFFSET_SPAN) as u8;
        let count = (w / Self::COUNT_PLACE % Self::COUNT_SPAN) as u8;
        let value = (w / Self::VALUE_PLACE % Self::VALUE_SPAN) as u8;
        let uses = table[usize::from(kind)];
        if w & (w ^ uses) == 0 {
            Event {
                kind,
                transaction,
                rec,
                offset,
                count,
                value,
            }
        } else {
            Event {
                kind: 0,
                transaction,
                rec,
                offset,
                count,
                value,
            }
        }
    }

    // The event that a word stands for, by the table.
    pub fn of_word(table: &[u32; 16], w: u32) -> Self
        requires { table.now ≡ flags }
        ensures { (decode geometry1 w ≡ meaning result) × InRange result }
    {
        Self::apart(table, w)
    }

    // The word of an event whose fields fit.
    pub fn to_word(e: Event) -> u32
        requires { FieldsFit e }
        ensures { result ≡ word geometry1 e.kind e.transaction e.rec e.offset e.count e.value }
    {
        let kind = u32::from(e.kind);
        let transaction = u32::from(e.transaction);
        let rec = u32::from(e.rec);
        let offset = u32::from(e.offset);
        let count = u32::from(e.count);
        let value = u32::from(e.value);
        ((((kind * Self::TRANSACTION_SPAN + transaction) * Self::RECORD_SPAN + rec)
            * Self::OFFSET_SPAN
            + offset)
            * Self::COUNT_SPAN
            + count)
            * Self::VALUE_SPAN
            + value
    }

    // Word k of a list of events: four bytes, most significant first.
    pub fn word_at(events: &[u8], k: usize) -> u32
        requires { (k < 8192) × (4 * k + 4 ≤ length events.now) }
        ensures { result ≡ number (take 4 (drop (4 * k) events.now)) }
    {
        let at = 4 * k;
        u32::from_be_bytes([events[at], events[at + 1], events[at + 2], events[at + 3]])
    }
}
