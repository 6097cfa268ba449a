// Whether any bytes in the engine's arrays encode a sound state, on atomic pages or on pages that can tear. The results of the tests are joined at the end, so that there are few branches; what a
// free number has of the locks isn't looked at, since holders and retainers are live.
#![tactic(auto)]

ghost use Rattle.std.specs.Prelude.{◌≡◌, true, false, not, ◌||◌, List, ℕ, ◌<◌, length};
ghost use Rattle.laws.specs.Counting.{all};
ghost use Rattle.laws.specs.Bits.{bits};
ghost use Rattle.rules.specs.Editions.{Edition, geometry_of, form_in, InNumbers, work_bytes};
ghost use Rattle.rules.specs.Geometry.{transactions};
ghost use Rattle.leaf_set.specs.Sets.{sets};
ghost use Rattle.sound_clause.specs.Decides.{Decides};
ghost use Rattle.sound_clause.specs.Clauses.{Entries, Locks, Share, SharesOf, Shares, LinedOf, Lined};
ghost use Rattle.state_whole.specs.Whole.{arrays, Intact};
ghost use Rattle.sound_state.specs.Sizes.{Sized};
ghost use Rattle.sound_state.specs.Sole.{SoleOf, Sole};

// The parents, depths and lines are those of a tree of transactions.
fn is_tree(parent: &[u8; 24], depth: &[u8; 24], line: &[u32; 24]) -> bool
    requires { (length parent.now ≡ 24) × (length depth.now ≡ 24) × (length line.now ≡ 24) }
    ensures { Decides result (Entries parent.now depth.now line.now) }
{
    let mut ok = true;
    for t in 0..24u8 {
        ok = ok & sound_tree::is_entry(parent, depth, line, t);
    }
    ok
}

// The sets of each lock fit each other.
fn are_locks(live: u32, held: &[u32; 32], retained: &[u32; 32], writers: &[u32; 16]) -> bool
    requires { (length held.now ≡ 32) × (length retained.now ≡ 32) × (length writers.now ≡ 16) }
    ensures { Decides result (Locks (bits live) held.now retained.now writers.now) }
{
    let mut ok = true;
    for r in 0..16usize {
        let any = 2 * r;
        let writing = any + 1;
        ok = ok
            & sound_lock::is_lock(
                live,
                held[any],
                held[writing],
                retained[any],
                retained[writing],
                writers[r],
            );
    }
    ok
}

// The transactions at or beneath t, if it retains the lock and some write-mode retainer isn't at or above it. Elsewhere no clause asks for them,
// so they aren't sought.
fn beneath_of(line: &[u32; 24], above: u32, retained: u32, retained_writing: u32, t: u8) -> u32
    requires { (t < 24) × (length line.now ≡ 24) }
    ensures { bits retained t ≡ true → all transactions (λ k. not (bits retained_writing k) || bits above k) ≡ false → bits result ≡ (λ u. sets line.now u t) }
{
    let retains = leaf_set::contains(retained, t);
    let below_writers = leaf_set::within(retained_writing, above);
    if retains & !below_writers {
        return state_tree::descendants(line, t);
    }
    0
}

// What t has of one lock goes with what others have.
fn is_share_of(
    line: &[u32; 24],
    held: u32,
    held_writing: u32,
    retained: u32,
    retained_writing: u32,
    t: u8,
) -> bool
    requires { (t < 24) × (length line.now ≡ 24) }
    ensures { Decides result (Share (sets line.now t) (λ u. sets line.now u t) (bits held) (bits held_writing) (bits retained) (bits retained_writing) t) }
{
    if leaf_set::contains(held | held_writing | retained, t) {
        let above = line[t as usize];
        let beneath = beneath_of(line, above, retained, retained_writing, t);
        return sound_lock::is_share(
            above,
            beneath,
            held,
            held_writing,
            retained,
            retained_writing,
            t,
        );
    }
    true
}

// What each transaction has of one lock goes with what others have.
fn are_shares_of(
    line: &[u32; 24],
    held: u32,
    held_writing: u32,
    retained: u32,
    retained_writing: u32,
) -> bool
    requires { length line.now ≡ 24 }
    ensures { Decides result ((t : ℕ) → t < transactions → Share (sets line.now t) (λ u. sets line.now u t) (bits held) (bits held_writing) (bits retained) (bits retained_writing) t) }
{
    let mut ok = true;
    for t in 0..24u8 {
        ok = ok & is_share_of(line, held, held_writing, retained, retained_writing, t);
    }
    ok
}

// More than one transaction has the lock of record r.
fn is_crowded_at(held: &[u32; 32], retained: &[u32; 32], r: usize) -> bool
    requires { (r < 16) × (length held.now ≡ 32) × (length retained.now ≡ 32) }
    ensures { result ≡ false → SoleOf held.now retained.now r }
{
    let any = 2 * r;
    let writing = any + 1;
    sound_lock::is_crowded(held[any] | held[writing] | retained[any] | retained[writing])
}

// The same of the lock of record r, with one look where a single transaction has it, or nobody: it goes with itself, being on its own line.
fn are_shares_at(line: &[u32; 24], held: &[u32; 32], retained: &[u32; 32], r: usize) -> bool
    requires { (r < 16) × (length line.now ≡ 24) × (length held.now ≡ 32) × (length retained.now ≡ 32) }
    ensures { LinedOf line.now held.now retained.now r → Decides result (SharesOf line.now held.now retained.now r) }
{
    if is_crowded_at(held, retained, r) {
        let any = 2 * r;
        let writing = any + 1;
        return are_shares_of(
            line,
            held[any],
            held[writing],
            retained[any],
            retained[writing],
        );
    }
    true
}

// What each transaction has of each lock goes with what others have, if who has one is on its own line: lock by lock.
fn are_shares_each(line: &[u32; 24], held: &[u32; 32], retained: &[u32; 32]) -> bool
    requires { (length line.now ≡ 24) × (length held.now ≡ 32) × (length retained.now ≡ 32) }
    ensures { Lined line.now held.now retained.now → Decides result (Shares line.now held.now retained.now) }
{
    let mut ok = true;
    for r in 0..16usize {
        ok = ok & are_shares_at(line, held, retained, r);
    }
    ok
}

// Some lock has more than one transaction.
fn is_some_crowded(held: &[u32; 32], retained: &[u32; 32]) -> bool
    requires { (length held.now ≡ 32) × (length retained.now ≡ 32) }
    ensures { result ≡ false → Sole held.now retained.now }
{
    let mut some = false;
    for r in 0..16usize {
        some = some | is_crowded_at(held, retained, r);
    }
    some
}

// What each transaction has of each lock goes with what others have, if who has one is on its own line. Where no lock has more than one transaction,
// as with most states, one look at all locks is enough, without what a sweep over each lock's transactions sets up.
fn are_shares(line: &[u32; 24], held: &[u32; 32], retained: &[u32; 32]) -> bool
    requires { (length line.now ≡ 24) × (length held.now ≡ 32) × (length retained.now ≡ 32) }
    ensures { Lined line.now held.now retained.now → Decides result (Shares line.now held.now retained.now) }
{
    if is_some_crowded(held, retained) {
        return are_shares_each(line, held, retained);
    }
    true
}

// The arrays are those of a sound state, written in the one way that it has, whatever the working buffer holds.
pub fn is_sound(
    up: u8,
    parent: &[u8; 24],
    depth: &[u8; 24],
    line: &[u32; 24],
    held: &[u32; 32],
    retained: &[u32; 32],
    writers: &[u32; 16],
    store: &[u8],
    joint: bool,
    tears: bool,
) -> bool
    requires { Sized tears parent.now depth.now line.now held.now retained.now writers.now store.now }
    ensures { (edition : Edition) (work : List ℕ) → InNumbers edition 16 joint tears → length work ≡ work_bytes →
        let lent = arrays up parent.now depth.now line.now held.now retained.now writers.now work store.now in
        Decides result (Intact (form_in tears (geometry_of edition)) lent) }
{
    let tree = is_tree(parent, depth, line);
    let live = state_tree::live_set(depth);
    let locks = are_locks(live, held, retained, writers);
    let shares = are_shares(line, held, retained);
    let phase = sound_up::is_status_sound(up, live, held, retained, store, joint, tears);
    tree & locks & shares & phase
}
