// Locks, as sets of transactions. `held` and `retained` have two places for each record r: at 2 * r the transactions that hold (or retain) its lock in any
// mode, at 2 * r + 1 those that do so in write mode. `writers` has one place for each record: the transactions that have a version of it.
// Functions that go over all places get their number; the others ask that the places of their record exist.
#![tactic(auto)]

ghost use Rattle.std.specs.Prelude.{◌≡◌, true, false, ◌+◌, ◌*◌, ◌<◌, ◌≤◌, length, replicate};
ghost use Rattle.laws.specs.Tests.{same};
ghost use Rattle.laws.specs.Bits.{bits};
ghost use Rattle.leaf_set.specs.Sets.{sets};
ghost use Rattle.state_array.specs.View.{any_mode, write_mode};
ghost use Rattle.state_array.specs.Changes.{access_when, barring, joined_for, leaving, replacing, inheriting, reporting, Rows};
ghost use Rattle.leaf_number.specs.Named.{transaction_of, record_of};
ghost use Rattle.state_lock.specs.Granting.{Granting};

use leaf_number::{RecordNumber, TransactionNumber};

// The place of the transactions that bar an access to record r: to write, all that have its lock; to read, those that have it in write mode.
// Here and below `reading` is a bool, as `access_when` and a waiting row's mode have it: an enum would be made from it by each caller, to be looked at once.
pub fn barring_place(r: usize, reading: bool) -> usize
    requires { r < 64 }
    ensures { (result ≡ barring (access_when reading) r) × (result < 2 * r + 2) }
{
    if reading {
        return 2 * r + 1;
    }
    2 * r
}

// t is at place k of s.
fn is_at(s: &[u32], k: usize, t: TransactionNumber) -> bool
    requires { k < length s.now }
    ensures { result ≡ sets s.now k (transaction_of t) }
{
    leaf_set::contains(s[k], t.number())
}

// t holds the lock of record r, in any mode.
pub fn holds(held: &[u32], t: TransactionNumber, r: RecordNumber) -> bool
    requires { 2 * record_of r + 2 ≤ length held.now }
    ensures { result ≡ any_mode (sets held.now) (record_of r) (transaction_of t) }
{
    let any = 2 * r.index();
    is_at(held, any, t)
}

// t holds the lock of record r in write mode.
pub fn holds_writing(held: &[u32], t: TransactionNumber, r: RecordNumber) -> bool
    requires { 2 * record_of r + 2 ≤ length held.now }
    ensures { result ≡ write_mode (sets held.now) (record_of r) (transaction_of t) }
{
    let writing = 2 * r.index() + 1;
    is_at(held, writing, t)
}

// Adds t to the holders of record r's lock, in write mode unless it asked to read.
fn hold(held: &mut [u32], t: TransactionNumber, r: RecordNumber, reading: bool)
    requires { 2 * record_of r + 2 ≤ length held.old }
    ensures { let before = held.old in
        let after = held.new in
        Rows (length before) (joined_for (access_when reading) (transaction_of t) (record_of r) (sets before)) after }
{
    let n = t.number();
    let i = r.index();
    let any = 2 * i;
    let write = 2 * i + 1;
    held[any] = leaf_set::with(held[any], n);
    if !reading {
        held[write] = leaf_set::with(held[write], n);
    }
}

// t asks for record r's lock. It is granted if nobody else holds the lock in a mode that bars the access, and if all that retain it in such a mode are
// on t's line: t itself or ancestors of t.
pub fn lock(
    line: &[u32; 24],
    held: &mut [u32],
    retained: &[u32],
    t: TransactionNumber,
    r: RecordNumber,
    reading: bool,
) -> bool
    requires { (2 * record_of r + 2 ≤ length held.old) × (length retained.now ≡ length held.old) }
    ensures { let n = transaction_of t in
        let above = sets line.now n in
        Granting (access_when reading) above held.old retained.now n (record_of r) result held.new }
{
    let k = barring_place(r.index(), reading);
    let own = leaf_set::single(t.number());
    let free = leaf_set::within(held[k], own);
    let above = leaf_set::within(retained[k], line[t.index()]);
    let ok = free & above;
    if ok {
        hold(held, t, r, reading);
    }
    ok
}

// Takes the transactions in gone out of each of the n places of s: of locks, of versions, or of the children of each parent.
// (Only the contract needs n.)
pub fn leave(s: &mut [u32], n: usize, gone: u32)
    requires { length s.old ≡ n }
    ensures { Rows n (leaving (bits gone) (sets s.old)) s.new }
{
    for place in s.iter_mut() {
        *place = leaf_set::minus(*place, gone);
    }
}

// Empties each of the n places of s.
pub fn clear(s: &mut [u32], n: usize)
    requires { length s.old ≡ n }
    ensures { s.new ≡ replicate n 0 }
{
    s[..n].fill(0);
}

// Discards the locks and the versions of the transactions in gone.
pub fn discard(
    held: &mut [u32],
    retained: &mut [u32],
    writers: &mut [u32],
    records: usize,
    gone: u32,
)
    requires { (records ≤ 64) × (length held.old ≡ 2 * records) × (length retained.old ≡ 2 * records) × (length writers.old ≡ records) }
    ensures { Rows (2 * records) (leaving (bits gone) (sets held.old)) held.new
        × Rows (2 * records) (leaving (bits gone) (sets retained.old)) retained.new
        × Rows records (leaving (bits gone) (sets writers.old)) writers.new }
{
    let places = 2 * records;
    leave(held, places, gone);
    leave(retained, places, gone);
    leave(writers, records, gone);
}

// s with p in place of t if t had the lock (`had`), else s without t.
fn replace(had: bool, s: u32, t: u8, p: u8) -> u32
    requires { (t < 24) × (p < 24) }
    ensures { bits result ≡ replacing had (bits s) t p }
{
    let rest = leaf_set::without(s, t);
    if had {
        return leaf_set::with(rest, p);
    }
    rest
}

// In each place p takes over what t held or retained there, as a retainer, and t retains nothing.
fn inherit(held: &[u32], retained: &mut [u32], t: u8, p: u8)
    requires { (t < 24) × (p < 24) × (length held.now ≡ length retained.old) }
    ensures { let holders = sets held.now in
        let retainers = sets retained.old in
        Rows (length retained.old) (inheriting t p holders retainers) retained.new }
{
    for (k, m) in retained.iter_mut().enumerate() {
        let had = leaf_set::contains(held[k], t) | leaf_set::contains(*m, t);
        *m = replace(had, *m, t, p);
    }
}

// t aborts. If its parent p is told (the abort comes with a report), p retains what t held or retained. (`told` stands beside p: the caller has a test and a
// number, and an Option made of them would only be taken apart here.)
pub fn inherit_on_abort(held: &[u32], retained: &mut [u32], n: usize, t: u8, p: u8, told: bool)
    requires { (t < 24) × (told ≡ true → p < 24) × (length held.now ≡ n) × (length retained.old ≡ n) }
    ensures { let holders = sets held.now in
        let retainers = sets retained.old in
        Rows n (reporting told t p holders retainers) retained.new }
{
    if told {
        inherit(held, retained, t, p);
    }
}

// t commits into its parent p: p retains what t held or retained, and t has no lock any more.
pub fn inherit_on_commit(held: &mut [u32], retained: &mut [u32], n: usize, t: u8, p: u8)
    requires { (t < 24) × (p < 24) × (length held.old ≡ n) × (length retained.old ≡ n) }
    ensures { let holders = sets held.old in
        let retainers = sets retained.old in
        Rows n (leaving (λ j. same j t) holders) held.new × Rows n (inheriting t p holders retainers) retained.new }
{
    inherit(&held[..], retained, t, p);
    leave(held, n, leaf_set::single(t));
}
