// The answer to an event, as the engine tells it: what was done, or why the event is refused. In an answer's two bytes a refusal is its number, with the
// value 0; what was done has the number 0, and what a crash cut off has 11.
ghost use Rattle.std.specs.Prelude.{◌≡◌};
ghost use Rattle.leaf_event.specs.Answers.{refusal_code, told_answer};

use crate::Answer;

// What was done, with the answer's value.
#[derive(Clone, Copy, Debug, PartialEq, Eq)]
pub enum Done {
    // All of it. The value is the byte read, the number given to a transaction, or how many page writes were made.
    Whole(u8),
    // Page writes up to a crash: the value is how many.
    Cut(u8),
}

// Why an event is refused, with the refusal's number. It changes nothing.
#[derive(Clone, Copy, Debug, PartialEq, Eq)]
pub enum Refusal {
    // The word stands for no event.
    BadEvent = 1,
    // The engine is down.
    Down = 2,
    // A recovery, and the engine is up.
    Up = 3,
    // The store can't be recovered: the commit page is damaged, or a page has no good copy.
    Damaged = 4,
    // There is no such live transaction.
    NotLive = 5,
    // The parent is at the depth limit.
    TooDeep = 6,
    // All numbers of transactions are given.
    NoneFree = 7,
    // Another transaction's lock, or a prepared transaction's change, bars the lock.
    Barred = 8,
    // The transaction doesn't hold the lock that it needs.
    NotHeld = 9,
    // A child lives, so that the transaction can't commit or be prepared.
    ChildLives = 10,
    // A record was changed, and another transaction is prepared.
    OtherPrepared = 13,
    // A child lives, so that the transaction can't lock, read or write.
    ChildAtWork = 14,
    // A child can't be prepared.
    NotTop = 27,
}

impl From<Refusal> for u8 {
    ghost use Rattle.std.specs.Prelude.{◌≡◌};
    ghost use Rattle.leaf_event.specs.Answers.{refusal_code};

    ghost from_gives = { λ r n. n ≡ refusal_code r };

    fn from(r: Refusal) -> u8 {
        r as u8
    }
}

impl Answer {
    // The answer's two bytes.
    pub fn of(told: Result<Done, Refusal>) -> Answer
        ensures { result ≡ told_answer told }
    {
        match told {
            Ok(Done::Whole(value)) => Answer { number: 0, value },
            Ok(Done::Cut(value)) => Answer { number: 11, value },
            Err(refusal) => Answer {
                number: u8::from(refusal),
                value: 0,
            },
        }
    }
}
