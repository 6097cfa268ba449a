// The refusals by the lengths of the buffers: of a run or a portion before its first event, and of a question for a write. A form is told by whether its
// pages tear, by its number of records and by the bytes of its event word.
#![tactic(auto)]

ghost use Rattle.std.specs.Prelude.{◌≡◌, ◌<◌, ◌≤◌};
ghost use Rattle.store_length.specs.Lengths.{store_bytes, write_bytes, buffers_refused, lengths_refused, question_refused, length_told};

// The events of the longest list.
const LONGEST: usize = 4096;

// A page write: the page's number, and the page.
const PAGE_WRITE: usize = 33;

// A copy write: the page's number, the copy's, and the page.
const COPY_WRITE: usize = 34;

// A buffer that has a wrong length, by the number that goes out for it. `Events` is also a list that is too long.
#[derive(Clone, Copy, Debug, PartialEq, Eq)]
pub enum WrongLength {
    Events = 20,
    Answers = 21,
    Store = 22,
    Work = 24,
}

impl From<WrongLength> for u8 {
    ghost use Rattle.std.specs.Prelude.{◌≡◌};
    ghost use Rattle.store_length.specs.Lengths.{length_number};

    ghost from_gives = { λ r n. n ≡ length_number r };

    fn from(r: WrongLength) -> u8 {
        r as u8
    }
}

// The bytes of a store with so many records: a commit page and two pages for each record, as they are, or each as a pair of copies.
pub fn store_size(tears: bool, records: usize) -> usize
    requires { records ≤ 64 }
    ensures { result ≡ store_bytes tears records }
{
    let pages = 1 + (records + records);
    if tears {
        return 66 * pages;
    }
    32 * pages
}

// The refusals that a run and a question have in common: the store's length, then the working buffer's.
fn buffers(tears: bool, records: usize, store: usize, work: usize) -> Result<(), WrongLength>
    requires { records ≤ 64 }
    ensures { length_told result ≡ buffers_refused tears records store work }
{
    if store != store_size(tears, records) {
        return Err(WrongLength::Store);
    }
    if work != 512 * records {
        return Err(WrongLength::Work);
    }
    Ok(())
}

// The refusal before the first event, by the lengths of the buffers.
pub fn refusal(
    tears: bool,
    records: usize,
    word: usize,
    store: usize,
    events: usize,
    work: usize,
    answers: usize,
) -> Result<(), WrongLength>
    requires { (records ≤ 64) × (0 < word) × (word ≤ 8) }
    ensures { length_told result ≡ lengths_refused tears records word store events work answers }
{
    buffers(tears, records, store, work)?;
    if events % word != 0 {
        return Err(WrongLength::Events);
    }
    if LONGEST * word < events {
        return Err(WrongLength::Events);
    }
    if answers < events / word * 2 {
        return Err(WrongLength::Answers);
    }
    Ok(())
}

// The bytes of a write: of a page write, or of a copy write where pages tear.
pub fn write_size(tears: bool) -> usize
    ensures { result ≡ write_bytes tears }
{
    if tears {
        return COPY_WRITE;
    }
    PAGE_WRITE
}

// The refusal of a question for a write, by the lengths of the buffers: the number of the events' length for the one event's, and of the answers' for the write's.
pub fn question(
    tears: bool,
    records: usize,
    word: usize,
    stored: usize,
    event: usize,
    working: usize,
    write: usize,
) -> Result<(), WrongLength>
    requires { records ≤ 64 }
    ensures { length_told result ≡ question_refused tears records word stored event working write }
{
    buffers(tears, records, stored, working)?;
    if event != word {
        return Err(WrongLength::Events);
    }
    if write != write_size(tears) {
        return Err(WrongLength::Answers);
    }
    Ok(())
}
