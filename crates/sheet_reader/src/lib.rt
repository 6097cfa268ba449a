// Reads a job sheet (document 02, L10) and says whether it is taken, or the place of the first byte after which no taken sheet could follow. Writes
// nothing. Two budgets fall while it reads: how many transactions may yet be opened within each other, `levels`, and how many events are free beside the
// ends of those that are open, `room`.
#![tactic(auto)]

ghost use Rattle.std.specs.Prelude.{◌≡◌, ◌<◌, ◌≤◌, length, get_or};
ghost use Rattle.sheet_text.specs.Scan.{Stands, between, within, level_closed, is_digit};
ghost use Rattle.sheet_reader.specs.Reads.{Reads, Checks};

// Where a reader stands behind what it read: a place in the text, and how many events are free there.
#[derive(Clone, Copy, Debug, PartialEq, Eq)]
pub struct Cursor {
    pub at: usize,
    pub room: usize,
}

// The place of the first bad byte: the first after which no taken sheet could follow.
#[derive(Clone, Copy, Debug, PartialEq, Eq)]
pub struct BadByte {
    pub at: usize,
}

// b is a hexadecimal digit; with `low`, 0 or 1. A Bool as in the rules' `is_digit`: its one call hands in what a test says.
fn is_digit(b: u8, low: bool) -> bool
    ensures { result ≡ is_digit low b }
{
    if low {
        return (b'0' <= b) & (b <= b'1');
    }
    ((b'0' <= b) & (b <= b'9')) | ((b'A' <= b) & (b <= b'F'))
}

// n + 1 digits, of which that with `low` more to come is an offset's first: 0 or 1.
fn read_digits(
    s: &[u8],
    at: usize,
    levels: usize,
    room: usize,
    n: usize,
    low: usize,
) -> Result<Cursor, BadByte>
    requires { (at ≤ length s.now) × (n < 8) × Stands s.now at (within n low levels room) }
    ensures { Reads s.now at (between levels) result }
{
    let last = at + n;
    for i in at..last + 1 {
        if s.len() <= i {
            return Err(BadByte { at: i });
        }
        if !is_digit(s[i], last - i == low) {
            return Err(BadByte { at: i });
        }
    }
    Ok(Cursor { at: last + 1, room })
}

// A lock, a write or a read.
fn read_plain(s: &[u8], at: usize, levels: usize, room: usize) -> Result<Cursor, BadByte>
    requires { (at < length s.now) × Stands s.now at (between levels room) × (get_or s.now at 0 ≡ 123 → ⊥) × (get_or s.now at 0 ≡ 125 → ⊥) × (get_or s.now at 0 ≡ 33 → ⊥) }
    ensures { Reads s.now at (between levels) result }
{
    if room == 0 {
        return Err(BadByte { at });
    }
    let b = s[at];
    if b == b'L' {
        return read_digits(s, at + 1, levels, room - 1, 0, 9);
    }
    if b == b'W' {
        return read_digits(s, at + 1, levels, room - 1, 4, 3);
    }
    if b == b'R' {
        return read_digits(s, at + 1, levels, room - 1, 2, 1);
    }
    Err(BadByte { at })
}

// A step: a lock, write or read, or at an opening brace a whole transaction, which needs a level and two events.
#[cycle(read_step_read_transaction)]
fn read_step(s: &[u8], at: usize, levels: usize, room: usize) -> Result<Cursor, BadByte>
    requires { (at < length s.now) × Stands s.now at (between levels room) × (levels < 16) × (get_or s.now at 0 ≡ 125 → ⊥) × (get_or s.now at 0 ≡ 33 → ⊥) }
    ensures { Reads s.now at (between levels) result }
{
    if s[at] == b'{' {
        if levels == 0 {
            return Err(BadByte { at });
        }
        if room < 2 {
            return Err(BadByte { at });
        }
        return read_transaction(s, at + 1, levels - 1, room - 2);
    }
    read_plain(s, at, levels, room)
}

// A transaction whose opening brace is read: its steps, up to its end.
#[cycle(read_step_read_transaction)]
fn read_transaction(s: &[u8], at: usize, levels: usize, room: usize) -> Result<Cursor, BadByte>
    requires { (at ≤ length s.now) × Stands s.now at (between levels room) × (levels < 16) }
    ensures { Reads s.now at (level_closed levels) result }
{
    let mut c = Cursor { at, room };
    // No `for`: a step ends at a place that its text tells.
    while c.at < s.len() {
        let b = s[c.at];
        if b == b'}' || b == b'!' {
            return Ok(Cursor {
                at: c.at + 1,
                room: c.room,
            });
        }
        c = read_step(s, c.at, levels, c.room)?;
    }
    Err(BadByte { at: c.at })
}

// How many events a text has, if it is a taken sheet: one top transaction, to its last byte.
pub fn check(s: &[u8]) -> Result<usize, BadByte>
    ensures { Checks s.now result }
{
    if s.len() == 0 {
        return Err(BadByte { at: 0 });
    }
    if s[0] != b'{' {
        return Err(BadByte { at: 0 });
    }
    let c = read_transaction(s, 1, 15, 4094)?;
    if c.at < s.len() {
        return Err(BadByte { at: c.at });
    }
    Ok(4096 - c.room)
}
