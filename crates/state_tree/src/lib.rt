// Transaction numbers: which are free, who stands under whom, and the arrays of parents, depths and lines at a begin and an end. Beside the arrays go
// two things that follow from them, so that nothing is searched at an event: the set of the live transactions, and for each parent that of its live
// children, 31 being the parent of those at the top.
#![tactic(auto)]

ghost use Rattle.std.specs.Prelude.{◌≡◌, not, cond, ◌&&◌, ◌||◌, ℕ, ◌<◌, ◌≤◌, length, get_or, set};
ghost use Rattle.laws.specs.Tests.{same};
ghost use Rattle.laws.specs.Counting.{any, lowest};
ghost use Rattle.laws.specs.Bits.{bits};
ghost use Rattle.rules.specs.Geometry.{transactions};
ghost use Rattle.rules.specs.Editions.{depths};
ghost use Rattle.leaf_set.specs.Sets.{sets};
ghost use Rattle.state_array.specs.Changes.{SetChanged, Rows, Cleared};
ghost use Rattle.state_array.specs.Kin.{lives_in, child_in};

// The lowest free number, or 24: that bit is set in any case, so the bits above it don't matter. (24 for none is what `lowest` says; an Option would add a
// test to an instruction that answers both.)
pub fn first_free(live: u32) -> u8
    ensures { result ≡ lowest transactions (λ u. not (bits live u)) }
{
    let free = leaf_set::with(leaf_set::minus(4294967295, live), 24);
    u32::trailing_zeros(free) as u8
}

// t has a live child.
pub fn has_child(children: &[u32; 32], t: u8) -> bool
    requires { t < 32 }
    ensures { result ≡ any transactions (sets children.now t) }
{
    children[t as usize] % 16777216 != 0
}

// f is live, under p.
pub fn add_child(live: &mut u32, children: &mut [u32; 32], p: u8, f: u8)
    requires { (p < 32) × (f < 24) }
    ensures { (bits live.new ≡ (λ k. bits live.old k || same k f))
        × SetChanged p (λ k. sets children.old p k || same k f) children.old children.new }
{
    let i = p as usize;
    *live = leaf_set::with(*live, f);
    children[i] = leaf_set::with(children[i], f);
}

// t, under p, is live no more.
pub fn remove_child(live: &mut u32, children: &mut [u32; 32], p: u8, t: u8)
    requires { (p < 32) × (t < 24) }
    ensures { (bits live.new ≡ (λ k. not (same k t) && bits live.old k))
        × SetChanged p (λ k. not (same k t) && sets children.old p k) children.old children.new }
{
    let i = p as usize;
    *live = leaf_set::without(*live, t);
    children[i] = leaf_set::without(children[i], t);
}

// The members of s, and j if b.
pub fn with_if(s: u32, b: bool, j: u8) -> u32
    requires { j < 24 }
    ensures { bits result ≡ (λ k. bits s k || (same k j && b)) }
{
    if b {
        return leaf_set::with(s, j);
    }
    s
}

// The live transactions.
pub fn live_set(depth: &[u8; 24]) -> u32
    requires { length depth.now ≡ 24 }
    ensures { bits result ≡ lives_in depth.now }
{
    let mut m = 0u32;
    for (j, &d) in depth.iter().enumerate() {
        let live = d != 0;
        m = with_if(m, live, j as u8);
    }
    m
}

// j is among the children of p, if it is live.
fn add_child_if(children: &mut [u32; 32], p: u8, live: bool, j: u8)
    requires { (p < 32) × (j < 24) × (length children.old ≡ 32) }
    ensures { Rows 32 (λ q k. sets children.old q k || (same k j && (live && same p q))) children.new }
{
    if live {
        let i = p as usize;
        children[i] = leaf_set::with(children[i], j);
    }
}

// Of each parent the set of its live children, 31 being the parent of those at the top.
pub fn children_of(parent: &[u8; 24], depth: &[u8; 24]) -> [u32; 32]
    requires { (length parent.now ≡ 24) × (length depth.now ≡ 24) × ((u : ℕ) → get_or parent.now u 0 < 32) }
    ensures { (length result ≡ 32) × ((p : ℕ) → p < 32 → sets result p ≡ child_in parent.now depth.now p) }
{
    let mut children = [0u32; 32];
    for (j, &p) in parent.iter().enumerate() {
        let alive = depth[j] != 0;
        add_child_if(&mut children, p, alive, j as u8);
    }
    children
}

// t and its live descendants.
pub fn descendants(line: &[u32; 24], t: u8) -> u32
    requires { (t < 24) × (length line.now ≡ 24) }
    ensures { bits result ≡ (λ u. sets line.now u t) }
{
    let mut m = 0u32;
    for (j, &above) in line.iter().enumerate() {
        m = with_if(m, leaf_set::contains(above, t), j as u8);
    }
    m
}

// Gives the free number f to a new transaction under p at depth d. Its line is `above`, the line of p, plus f.
pub fn give_number(
    parent: &mut [u8; 24],
    depth: &mut [u8; 24],
    line: &mut [u32; 24],
    f: u8,
    p: u8,
    d: u8,
    above: u32,
)
    requires { (f < 24) × (d ≤ depths) }
    ensures { (parent.new ≡ set parent.old f p)
        × (depth.new ≡ set depth.old f d)
        × SetChanged f (λ k. bits above k || same k f) line.old line.new }
{
    let i = f as usize;
    parent[i] = p;
    depth[i] = d;
    line[i] = leaf_set::with(above, f);
}

// The number t is free again.
pub fn free_number(parent: &mut [u8; 24], depth: &mut [u8; 24], line: &mut [u32; 24], t: u8)
    requires { (t < 24) × (length parent.old ≡ 24) × (length depth.old ≡ 24) × (length line.old ≡ 24) }
    ensures { Cleared (λ k. same k t) parent.old parent.new
        × Cleared (λ k. same k t) depth.old depth.new
        × Cleared (λ k. same k t) line.old line.new }
{
    let i = t as usize;
    parent[i] = 0;
    depth[i] = 0;
    line[i] = 0;
}

// The number j is free again, if gone has it.
fn free_if(parent: &mut [u8; 24], depth: &mut [u8; 24], line: &mut [u32; 24], gone: u32, j: u8)
    requires { (j < 24) × (length parent.old ≡ 24) × (length depth.old ≡ 24) × (length line.old ≡ 24) }
    ensures { let ends = bits gone j in
        (parent.new ≡ cond ends (set parent.old j 0) parent.old)
        × (depth.new ≡ cond ends (set depth.old j 0) depth.old)
        × (line.new ≡ cond ends (set line.old j 0) line.old) }
{
    if leaf_set::contains(gone, j) {
        free_number(parent, depth, line, j);
    }
}

// The numbers of the transactions in gone are free again. (j is a transaction's number, and three arrays are written at it.)
pub fn free_numbers(parent: &mut [u8; 24], depth: &mut [u8; 24], line: &mut [u32; 24], gone: u32)
    requires { (length parent.old ≡ 24) × (length depth.old ≡ 24) × (length line.old ≡ 24) }
    ensures { Cleared (bits gone) parent.old parent.new
        × Cleared (bits gone) depth.old depth.new
        × Cleared (bits gone) line.old line.new }
{
    for j in 0..24u8 {
        free_if(parent, depth, line, gone, j);
    }
}
