// How old a stamp is at a clock reading. A clock reading, a limit and an age are types of their own: none can be handed in for another.
// `new` and `value`, not From: they are public, with edits of their own, and the name says at the call what a number becomes.
#![tactic(auto)]

ghost use Rattle.std.specs.Prelude.{◌≡◌};
ghost use Rattle.std.proofs.Math.IntN.{sub_ℕ};
ghost use Rattle.rules.specs.Age.{judged};
ghost use Rattle.leaf_age.specs.Meaning.{judged_age};

// A clock reading in minutes: the board's, or the stamp of a record.
#[derive(Clone, Copy, Debug, PartialEq, Eq)]
pub struct Reading(u32);

// The oldest age, in minutes, that still counts as live.
#[derive(Clone, Copy, Debug, PartialEq, Eq)]
pub struct Limit(u32);

// An age in minutes, below zero where the stamp is ahead of the clock.
#[derive(Clone, Copy, Debug, PartialEq, Eq)]
pub struct Minutes(i64);

// How an age stands to the limit, one of three.
#[derive(Clone, Copy, Debug, PartialEq, Eq)]
pub enum Judged {
    Ahead(Minutes),
    Live(Minutes),
    Stale(Minutes),
}

// Clock minus stamp: both are widened, then subtracted.
fn difference(clock: u32, stamp: u32) -> i64
    ensures { result ≡ sub_ℕ clock stamp }
{
    i64::from(clock) - i64::from(stamp)
}

// The sign decides between ahead and the rest, the limit between live and stale.
fn judge(age: i64, limit: u32) -> Judged
    ensures { judged_age result ≡ judged age limit }
{
    if age < 0 {
        return Judged::Ahead(Minutes(age));
    }
    if age <= i64::from(limit) {
        return Judged::Live(Minutes(age));
    }
    Judged::Stale(Minutes(age))
}

impl Reading {
    // A reading of so many minutes.
    pub fn new(minutes: u32) -> Reading
        ensures { result.0 ≡ minutes }
    {
        Reading(minutes)
    }

    // The age of a stamp at this reading.
    pub fn since(self, stamp: Reading) -> Minutes
        ensures { result.0 ≡ sub_ℕ self.0 stamp.0 }
    {
        Minutes(difference(self.0, stamp.0))
    }
}

impl Limit {
    // A limit of so many minutes.
    pub fn new(minutes: u32) -> Limit
        ensures { result.0 ≡ minutes }
    {
        Limit(minutes)
    }
}

impl Minutes {
    // Ahead, live or stale under a limit.
    pub fn judged_by(self, limit: Limit) -> Judged
        ensures { judged_age result ≡ judged self.0 limit.0 }
    {
        judge(self.0, limit.0)
    }

    // The age as a number.
    pub fn value(self) -> i64
        ensures { result ≡ self.0 }
    {
        self.0
    }
}
