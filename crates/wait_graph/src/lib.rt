// Who waits for whom, as sets: each transaction points to those that block it, to their ancestors that aren't its own, and to its children.
#![tactic(auto)]

ghost use Rattle.std.specs.Prelude.{◌≡◌, not, ◌&&◌, ◌||◌, ℕ, ◌/◌, ◌%◌, ◌<◌, length, get_or, IfOk};
ghost use Rattle.laws.specs.Tests.{same};
ghost use Rattle.laws.specs.Bits.{bits};
ghost use Rattle.leaf_set.specs.Sets.{sets};
ghost use Rattle.state_array.specs.Changes.{access_when, Rows};
ghost use Rattle.state_array.specs.Kin.{lives_in};
ghost use Rattle.wait_graph.specs.Pointing.{child_points, row_of, row_refusal, rows_refusal, pointed_to, waited_on, row_in, rows_in, RowInRange, number_of_refusal, refused_with};

// Who blocks t: who holds the lock and isn't t, who retains it and isn't above t.
fn blockers(held: u32, retained: u32, above: u32, t: u8) -> u32
    requires { t < 24 }
    ensures { bits result ≡ (λ b. (not (same b t) && bits held b) || (not (bits above b) && bits retained b)) }
{
    leaf_set::without(held, t) | leaf_set::minus(retained, above)
}

// The members of m, and where b blocks, b and those of its line that aren't above the waiter.
fn reach_one(m: u32, blocking: bool, line: u32, above: u32, b: u8) -> u32
    requires { b < 24 }
    ensures { bits result ≡ (λ u. bits m u || (blocking && ((not (bits above u) && bits line u) || same u b))) }
{
    if blocking {
        return m | leaf_set::with(leaf_set::minus(line, above), b);
    }
    m
}

// Those that block, and their ancestors that aren't above the waiter.
fn reach(line: &[u32; 24], by: u32, above: u32) -> u32
    ensures { bits result ≡ pointed_to (sets line.now) (bits above) (bits by) }
{
    let mut m = 0u32;
    for (b, &own) in line.iter().enumerate() {
        let blocking = leaf_set::contains(by, b as u8);
        m = reach_one(m, blocking, own, above, b as u8);
    }
    m
}

// Those that t points to while it waits for record r. (`reading` is a bool for the reason that state_lock gives at `barring_place`.)
fn awaited(
    line: &[u32; 24],
    held: &[u32; 32],
    retained: &[u32; 32],
    t: u8,
    r: usize,
    reading: bool,
) -> u32
    requires { (t < 24) × (r < 16) }
    ensures { bits result ≡ waited_on (sets line.now) (sets held.now) (sets retained.now) (access_when reading) t r }
{
    let k = state_lock::barring_place(r, reading);
    let above = line[t as usize];
    let by = blockers(held[k], retained[k], above, t);
    reach(line, by, above)
}

// The row w adds what its transaction points to.
fn point(points: &mut [u32; 24], line: &[u32; 24], held: &[u32; 32], retained: &[u32; 32], w: u32)
    requires { RowInRange (row_of w) × (length points.old ≡ 24) }
    ensures { let before = sets points.old in
        let row = row_in (sets line.now) (sets held.now) (sets retained.now) (row_of w) in
        Rows 24 (λ t u. before t u || row t u) points.new }
{
    let t = (w / 65536 % 256) as u8;
    let r = (w / 256 % 256) as usize;
    let reading = w % 256 != 0;
    let i = t as usize;
    points[i] = points[i] | awaited(line, held, retained, t, r, reading);
}

// Each transaction points to its live children.
fn to_children(parent: &[u8; 24], depth: &[u8; 24]) -> [u32; 24]
    requires { (length parent.now ≡ 24) × (length depth.now ≡ 24) × ((u : ℕ) → get_or parent.now u 0 < 32) }
    ensures { Rows 24 (child_points parent.now depth.now) result }
{
    let children = state_tree::children_of(parent, depth);
    let mut points = [0u32; 24];
    points.copy_from_slice(&children[..24]);
    points
}

// Who each transaction points to: its children, and for each row those that its waiter waits for.
pub fn pointings(
    parent: &[u8; 24],
    depth: &[u8; 24],
    line: &[u32; 24],
    held: &[u32; 32],
    retained: &[u32; 32],
    words: &[u32],
) -> [u32; 24]
    requires { (length parent.now ≡ 24) × (length depth.now ≡ 24) × ((u : ℕ) → get_or parent.now u 0 < 32)
        × ((i : ℕ) → i < length words.now → RowInRange (row_of (get_or words.now i 0))) }
    ensures { let children = child_points parent.now depth.now in
        Rows 24 (rows_in children (sets line.now) (sets held.now) (sets retained.now) words.now (length words.now)) result }
{
    let mut points = to_children(parent, depth);
    for &w in words {
        point(&mut points, line, held, retained, w);
    }
    points
}

// Why a row is refused, with the number that the report answers: its mode is bad, its transaction isn't live, there is no such record.
#[derive(Clone, Copy, Debug, PartialEq, Eq)]
pub enum RowRefusal {
    BadMode = 1,
    NotLive = 5,
    NoRecord = 23,
}

impl RowRefusal {
    // The number that the report answers.
    #[tactic(auto, unfolding(crate::specs::Pointing::number_of_refusal))]
    pub fn number(self) -> u8
        ensures { result ≡ number_of_refusal self }
    {
        self as u8
    }
}

// A row is refused if its transaction is dead, its record bad or its mode bad, in this order.
fn check_row(depth: &[u8; 24], w: u32) -> Result<(), RowRefusal>
    requires { length depth.now ≡ 24 }
    ensures refusal { refused_with result ≡ row_refusal (lives_in depth.now) (row_of w) }
    ensures in_range { IfOk result (λ _. RowInRange (row_of w)) }
{
    let t = (w / 65536) as usize;
    if 24 <= t {
        return Err(RowRefusal::NotLive);
    }
    if depth[t] == 0 {
        return Err(RowRefusal::NotLive);
    }
    if 15 < w / 256 % 256 {
        return Err(RowRefusal::NoRecord);
    }
    if 1 < w % 256 {
        return Err(RowRefusal::BadMode);
    }
    Ok(())
}

// Rows are refused as the first of them that is.
pub fn check_rows(depth: &[u8; 24], words: &[u32]) -> Result<(), RowRefusal>
    requires { length depth.now ≡ 24 }
    ensures refusal { refused_with result ≡ rows_refusal (lives_in depth.now) words.now 0 (length words.now) }
    ensures in_range { IfOk result (λ _. (i : ℕ) → i < length words.now → RowInRange (row_of (get_or words.now i 0))) }
{
    for &w in words {
        check_row(depth, w)?;
    }
    Ok(())
}
