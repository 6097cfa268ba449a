// Checks one entry of the transaction table: either the number is free and its entry is all zeros, or its parent is live (or there is none), its depth is
// the parent's plus one, and its line is the parent's line plus itself.
#![tactic(auto)]

ghost use Rattle.std.specs.Prelude.{◌≡◌, ◌<◌, length, get_or};
ghost use Rattle.sound_clause.specs.Decides.{Decides};
ghost use Rattle.sound_clause.specs.Clauses.{FreeEntry, LiveEntry, TableEntry};

// How deep transactions nest.
const DEPTH_LIMIT: u32 = leaf_page::DEPTHS as u32;

// The parent of a top transaction.
const NOBODY: u8 = 31;

fn wide(d: u8) -> u32
    ensures { (result ≡ d) × (result < 256) }
{
    d as u32
}

// The depth of p; 0 where p is no transaction number.
fn depth_at(depth: &[u8; 24], p: u8) -> u32
    requires { length depth.now ≡ 24 }
    ensures { (result ≡ get_or depth.now p 0) × (result < 256) }
{
    if p < 24 {
        return wide(depth[p as usize]);
    }
    0
}

// The line of p; empty where p is no transaction number.
fn line_at(line: &[u32; 24], p: u8) -> u32
    requires { length line.now ≡ 24 }
    ensures { result ≡ get_or line.now p 0 }
{
    if p < 24 {
        return line[p as usize];
    }
    0
}

// The number t, if free, has parent 0 and no line.
fn is_free_entry(parent: &[u8; 24], line: &[u32; 24], t: u8) -> bool
    requires { (t < 24) × (length parent.now ≡ 24) × (length line.now ≡ 24) }
    ensures { Decides result (FreeEntry parent.now line.now t) }
{
    let parentless = parent[t as usize] == 0;
    let lineless = line[t as usize] == 0;
    parentless & lineless
}

// The live transaction t has a parent that is live or nobody, its depth and its line.
fn is_live_entry(parent: &[u8; 24], depth: &[u8; 24], line: &[u32; 24], t: u8) -> bool
    requires { (t < 24) × (length parent.now ≡ 24) × (length depth.now ≡ 24) × (length line.now ≡ 24) }
    ensures { Decides result (LiveEntry parent.now depth.now line.now t) }
{
    let p = parent[t as usize];
    let d = depth_at(depth, t);
    let above = depth_at(depth, p);
    let own = line_at(line, t);
    let due = leaf_set::with(line_at(line, p), t);
    let top = p == NOBODY;
    let under = 0 < above;
    let level = d == above + 1;
    let shallow = d <= DEPTH_LIMIT;
    let lined = own == due;
    (top | under) & level & shallow & lined
}

// The number t is free and bare, or borne by a transaction that fits the others.
pub fn is_entry(parent: &[u8; 24], depth: &[u8; 24], line: &[u32; 24], t: u8) -> bool
    requires { (t < 24) × (length parent.now ≡ 24) × (length depth.now ≡ 24) × (length line.now ≡ 24) }
    ensures { Decides result (TableEntry parent.now depth.now line.now t) }
{
    if depth[t as usize] == 0 {
        is_free_entry(parent, line, t)
    } else {
        is_live_entry(parent, depth, line, t)
    }
}
