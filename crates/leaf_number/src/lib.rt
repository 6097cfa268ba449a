// Numbers of transactions and of records, as types of their own: neither can be taken for the other.
// They stay two types, each made by its own checked constructor alone.
// `index` and `number`, not From: at a call they say which of the two a number is wanted for, and the edits that clamp too low break each by name.
#![tactic(auto)]

ghost use Rattle.std.specs.Prelude.{◌≡◌, ◌<◌};
ghost use Rattle.leaf_number.specs.Named.{transaction_named, record_named, transaction_of, record_of};

// The number of a transaction, 0 to 23.
#[derive(Clone, Copy, Debug, PartialEq, Eq)]
pub struct TransactionNumber(u8);

impl TransactionNumber {
    pub const COUNT: u8 = 24;

    // The one way to a transaction number: what a name of five bits names. 24 to 31 are no bad event: there is no such transaction.
    pub fn checked(n: u8) -> Option<TransactionNumber>
        ensures { result ≡ transaction_named n }
    {
        if n < Self::COUNT {
            Some(TransactionNumber(n))
        } else {
            None
        }
    }

    // The number as a place in an array of 24.
    pub fn index(self) -> usize
        ensures { (result ≡ transaction_of self) × (result < 24) }
    {
        usize::from(self.0.min(Self::COUNT - 1))
    }

    // The number as a byte.
    pub fn number(self) -> u8
        ensures { (result ≡ transaction_of self) × (result < 24) }
    {
        self.0.min(Self::COUNT - 1)
    }
}

// The number of a record: below 64, the most records that an edition has.
#[derive(Clone, Copy, Debug, PartialEq, Eq)]
pub struct RecordNumber(u8);

impl RecordNumber {
    // The most records that an edition has.
    pub const MOST: u8 = 64;

    // The one way to a record number, where there are `count` records: what a byte names among them.
    pub fn checked(n: u8, count: u8) -> Option<RecordNumber>
        ensures { result ≡ record_named count n }
    {
        if n < count {
            Some(RecordNumber(n))
        } else {
            None
        }
    }

    // The number as a place in an array with a place for each record.
    pub fn index(self) -> usize
        ensures { (result ≡ record_of self) × (result < 64) }
    {
        usize::from(self.0.min(Self::MOST - 1))
    }

    // The number as a byte.
    pub fn number(self) -> u8
        ensures { (result ≡ record_of self) × (result < 64) }
    {
        self.0.min(Self::MOST - 1)
    }
}
