// Waiting rows: a lent slice of small structs, copied into a plain array.
#![tactic(auto)]

ghost use Rattle.std.specs.Prelude.{◌≡◌, length};
ghost use Rattle.wait_row.specs.Copied.{word_of, least, copied_of, Small, Smalls};

// A transaction that waits for the lock of a record, in a mode: 0 to write, 1 to read.
#[repr(C)]
#[derive(Clone, Copy, Debug, PartialEq, Eq)]
pub struct Row {
    pub transaction: u8,
    pub record: u8,
    pub mode: u8,
}

// The rows as numbers, the rest zeros, and how many there were. The count is no length of `words`, and `words` no slice: of more than 24 rows all are counted,
// and 24 are copied, into fixed memory.
#[derive(Clone, Copy, Debug, PartialEq, Eq)]
pub struct Rows {
    pub words: [u32; 24],
    pub count: usize,
}

// How many of n rows are taken.
fn taken(n: usize) -> usize
    ensures { result ≡ least n }
{
    n.min(24)
}

// A row as one number.
fn word(r: Row) -> u32
    ensures { (result ≡ word_of r) × Small r }
{
    u32::from_be_bytes([0, r.transaction, r.record, r.mode])
}

// The first 24 rows, copied.
pub fn copied(rows: &[Row]) -> Rows
    ensures { (result ≡ copied_of rows.now) × Smalls (least (length rows.now)) rows.now }
{
    let mut words = [0; 24];
    for i in 0..taken(rows.len()) {
        words[i] = word(rows[i]);
    }
    Rows {
        words,
        count: rows.len(),
    }
}
