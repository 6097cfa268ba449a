// What a job sheet becomes (document 02, L10): a list of event words. The sheet is read twice: first it is checked, and nothing is written; then each
// of its steps gives one event.
#![tactic(auto)]

ghost use Rattle.std.specs.Prelude.{◌≡◌, ◌+◌, ◌*◌, ◌<◌, ◌≤◌, ℕ, length, get_or};
ghost use Rattle.std.proofs.lemmas.List.Edits.{sets};
ghost use Rattle.laws.specs.Bytes.{bytes};
ghost use Rattle.rules.specs.Event.{word};
ghost use Rattle.rules.specs.Editions.{geometry1};
ghost use Rattle.sheet_text.specs.Sheet.{event_bytes};
ghost use Rattle.sheet_text.specs.Made.{over, Made};
ghost use Rattle.sheet_text.specs.Emit.{value, pair_of, offset_of, emits};
ghost use Rattle.sheet_text.specs.Places.{Ends, Place, Turns};
ghost use Rattle.sheet_list.specs.Told.{told_number, told_of};
ghost use Rattle.sheet_list.specs.Kinds.{kind_number};

use sheet_reader::BadByte;

const BELOW_A: u8 = b'A' - 10;

// The number that a digit stands for. Digits have been checked: nothing is cut off.
fn digit_value(b: u8) -> u8
    ensures { (result ≡ value b) × (result < 16) }
{
    if b <= b'9' {
        b % 16
    } else {
        (b - BELOW_A) % 16
    }
}

// The number that two digits stand for.
fn two_digits(s: &[u8], at: usize) -> u8
    requires { at + 2 ≤ length s.now }
    ensures { (result ≡ pair_of (get_or s.now at 0) (get_or s.now (at + 1) 0)) × (result < 256) }
{
    let a = digit_value(s[at]);
    let b = digit_value(s[at + 1]);
    16 * a + b
}

// The offset that two digits stand for.
fn offset_at(s: &[u8], at: usize) -> u8
    requires { at + 2 ≤ length s.now }
    ensures { (result ≡ offset_of (get_or s.now at 0) (get_or s.now (at + 1) 0)) × (result < 32) }
{
    two_digits(s, at) % 32
}

// The kinds of event that a sheet asks for, by their numbers in a word.
#[derive(Clone, Copy, Debug, PartialEq, Eq)]
enum Kind {
    Begin = 1,
    Lock = 2,
    Write = 3,
    Read = 4,
    Commit = 5,
    Abort = 6,
}

// The word of an event by its fields.
fn event_word(kind: Kind, t: u8, r: u8, o: u8, c: u8, v: u8) -> u32
    requires { (t < 32) × (r < 16) × (o < 32) × (c < 64) }
    ensures { result ≡ word geometry1 (kind_number kind) t r o c v }
{
    leaf_event::Event::to_word(leaf_event::Event {
        kind: kind as u8,
        transaction: t,
        rec: r,
        offset: o,
        count: c,
        value: v,
    })
}

// Word k of a list: four bytes, most significant first.
fn put_word(list: &mut [u8], k: usize, w: u32)
    requires { (k < 4096) × (4 * k + 4 ≤ length list.old) }
    ensures { list.new ≡ sets list.old (4 * k) (bytes 4 w) }
{
    let at = 4 * k;
    list[at..at + 4].copy_from_slice(&w.to_be_bytes());
}

// The event of a step: its word, and the place and level behind it. Behind the end stands level 16.
#[derive(Clone, Copy, Debug, PartialEq, Eq)]
pub struct Turn {
    pub word: u32,
    pub at: usize,
    pub levels: u8,
}

// The event of a lock, a read or a write by transaction t.
fn plain_turn(s: &[u8], at: usize, levels: u8) -> Turn
    requires { (at < length s.now) × Place s.now at levels × Ends s.now × (get_or s.now at 0 ≡ 123 → ⊥) × (get_or s.now at 0 ≡ 125 → ⊥) × (get_or s.now at 0 ≡ 33 → ⊥) }
    ensures { Turns s.now at result.word result.at result.levels }
{
    let b = s[at];
    let t = 15 - levels;
    if b == b'L' {
        return Turn {
            word: event_word(Kind::Lock, t, digit_value(s[at + 1]), 0, 0, 0),
            at: at + 2,
            levels,
        };
    }
    if b == b'R' {
        return Turn {
            word: event_word(
                Kind::Read,
                t,
                digit_value(s[at + 1]),
                offset_at(s, at + 2),
                0,
                0,
            ),
            at: at + 4,
            levels,
        };
    }
    Turn {
        word: event_word(
            Kind::Write,
            t,
            digit_value(s[at + 1]),
            offset_at(s, at + 2),
            0,
            two_digits(s, at + 4),
        ),
        at: at + 6,
        levels,
    }
}

// The next event of a sheet: a transaction begins, commits with count 63 or aborts without a report; or another step.
fn next_turn(s: &[u8], at: usize, levels: u8) -> Turn
    requires { (at < length s.now) × Place s.now at levels × Ends s.now }
    ensures { Turns s.now at result.word result.at result.levels }
{
    let b = s[at];
    let t = 15 - levels;
    if b == b'{' {
        return Turn {
            word: event_word(Kind::Begin, t, 0, 0, 0, 0),
            at: at + 1,
            levels: levels - 1,
        };
    }
    if b == b'}' {
        return Turn {
            word: event_word(Kind::Commit, t, 0, 0, 63, 0),
            at: at + 1,
            levels: levels + 1,
        };
    }
    if b == b'!' {
        return Turn {
            word: event_word(Kind::Abort, t, 0, 0, 0, 0),
            at: at + 1,
            levels: levels + 1,
        };
    }
    plain_turn(s, at, levels)
}

// The list of a sheet, over the beginning of what was there.
fn fill(s: &[u8], list: &mut [u8])
    requires { Ends s.now × (16384 ≤ length list.old) }
    ensures { list.new ≡ over (event_bytes (emits s.now (length s.now)).events) list.old }
{
    put_word(list, 0, event_word(Kind::Begin, 31, 0, 0, 0, 0));
    let mut i = 1;
    let mut levels = 15u8;
    let mut k = 1;
    // No `for`: a step ends at a place that its text tells.
    while i < s.len() {
        let t = next_turn(s, i, levels);
        put_word(list, k, t.word);
        i = t.at;
        levels = t.levels;
        k = k + 1;
    }
}

// Why a text becomes no list.
#[derive(Clone, Copy, Debug, PartialEq, Eq)]
enum Refusal {
    // The output is too small.
    Small,
    // The text is no taken sheet.
    NoSheet(BadByte),
}

impl From<BadByte> for Refusal {
    ghost use Rattle.std.specs.Prelude.{◌≡◌};
    ghost use Rattle.sheet_list.specs.declared.Refusal.TheVariants.{NoSheet};

    ghost from_gives = { λ b r. r ≡ NoSheet b };

    fn from(b: BadByte) -> Refusal {
        Refusal::NoSheet(b)
    }
}

// A text becomes a list, whose length in bytes is told; or a refusal, and nothing is touched.
fn made(sheet: &[u8], list: &mut [u8]) -> Result<usize, Refusal>
    ensures { (told : ℕ) → Made sheet.now list.old told (told_number result) list.new (told_of told result) }
{
    if list.len() < 16384 {
        return Err(Refusal::Small);
    }
    let n = sheet_reader::check(sheet)?;
    fill(sheet, list);
    Ok(4 * n)
}

// A text becomes a list: 0, and its length in bytes is told; 28, the output is too small, tried first, and nothing is touched; 29, no taken sheet, and
// the place of the first byte after which none could follow is told. The answer is a byte, and the place is lent, as C has them (nekahuiro_sheet).
pub fn list_of(sheet: &[u8], list: &mut [u8], told: &mut usize) -> u8
    ensures { Made sheet.now list.old told.old result list.new told.new }
{
    match made(sheet, list) {
        Ok(n) => {
            *told = n;
            0
        }
        Err(Refusal::Small) => 28,
        Err(Refusal::NoSheet(b)) => {
            *told = b.at;
            29
        }
    }
}
