// Versions of records in the working buffer: slot r * DEPTHS + d - 1 holds the version of record r of the writer at depth d. A record's home page is given
// by `at`, the byte of the store where it begins.
#![tactic(auto)]

ghost use Rattle.std.specs.Prelude.{◌≡◌, cond, ◌+◌, ◌*◌, ◌-◌, ◌<◌, ◌≤◌, length, get_or, set, take, drop, IfSome, MatchOption};
ghost use Rattle.laws.specs.Functions.{updated};
ghost use Rattle.rules.specs.Store.{pages_of};
ghost use Rattle.rules.specs.Editions.{depths};
ghost use Rattle.leaf_set.specs.Sets.{sets};
ghost use Rattle.state_array.specs.View.{slot, seen};
ghost use Rattle.state_array.specs.Changes.{handed, Rows};
ghost use Rattle.leaf_number.specs.Named.{transaction_of, record_of};
ghost use Rattle.state_version.specs.Parts.{Sources, Climbing, Climbed, Written, climb_told, lifted};

use leaf_number::{RecordNumber, TransactionNumber};

// A walk up from a transaction: where it stands, and how many there are from there up.
#[derive(Clone, Copy, Debug, PartialEq, Eq)]
pub struct Climb {
    pub at: u8,
    pub left: u8,
}

// One step up from a transaction to its parent, unless nobody is left or the transaction is in w.
fn one_up(parent: &[u8; 24], w: u32, c: Climb) -> Climb
    requires { (0 < c.left) → c.at < 24 }
    ensures { Climbing parent.now w c result }
{
    let left = c.left;
    let at = c.at;
    if left == 0 {
        return c;
    }
    if leaf_set::contains(w, at) {
        return c;
    }
    Climb {
        at: parent[at as usize],
        left: left - 1,
    }
}

// A walk that has ended: at somebody, unless nobody is left.
fn met(c: Climb) -> Option<Climb>
    ensures { MatchOption result (c.left ≡ 0) (λ d. (d ≡ c) × (0 < c.left)) }
{
    if c.left == 0 { None } else { Some(c) }
}

// The nearest of t and its ancestors that is in w, with how many there are from it up.
fn source(parent: &[u8; 24], depth: &[u8; 24], w: u32, t: TransactionNumber) -> Option<Climb>
    requires { Sources parent.now depth.now }
    ensures climbed { Climbed parent.now depth.now w (transaction_of t) (climb_told result) }
    ensures left { IfSome result (λ c. 0 < c.left) }
{
    if w == 0 {
        return None;
    }
    let start = t.number();
    let mut c = Climb {
        at: start,
        left: depth[t.index()],
    };
    // As many steps as there are depths; n counts them, and is no index.
    for n in 0..leaf_page::DEPTHS {
        c = one_up(parent, w, c);
    }
    met(c)
}

// The same, without a walk where t itself is in w.
fn nearest(parent: &[u8; 24], depth: &[u8; 24], w: u32, t: TransactionNumber) -> Option<Climb>
    requires { Sources parent.now depth.now }
    ensures climbed { Climbed parent.now depth.now w (transaction_of t) (climb_told result) }
    ensures left { IfSome result (λ c. 0 < c.left) }
{
    let n = t.number();
    if leaf_set::contains(w, n) {
        return met(Climb {
            at: n,
            left: depth[t.index()],
        });
    }
    source(parent, depth, w, t)
}

// The slot of record r at depth d.
fn slot_of(r: usize, d: u8) -> usize
    requires { (r < 64) × (0 < d) × (d ≤ depths) }
    ensures { (result ≡ slot r d) × (result < r * depths + depths) }
{
    r * leaf_page::DEPTHS + ((d - 1) as usize)
}

// What t reads of record r at an offset: its own version, else the nearest ancestor's, else the home page.
pub fn read(
    parent: &[u8; 24],
    depth: &[u8; 24],
    writers: &[u32],
    work: &[u8],
    store: &[u8],
    at: usize,
    t: TransactionNumber,
    r: RecordNumber,
    o: usize,
) -> u8
    requires { (record_of r < length writers.now) × (length writers.now ≤ 64) × (o < 32) × (length work.now ≡ 512 * length writers.now)
        × (at + 32 ≤ length store.now) × Sources parent.now depth.now }
    ensures { let homePage = take 32 (drop at store.now) in
        let shown = seen parent.now depth.now writers.now work.now homePage (transaction_of t) (record_of r) in
        result ≡ get_or shown o 0 }
{
    let i = r.index();
    match nearest(parent, depth, writers[i], t) {
        None => leaf_page::byte_at(store, at, o),
        Some(c) => leaf_page::get_byte(work, slot_of(i, c.left), o),
    }
}

// Gives t a version of record r, unless it has one: the slot at t's depth takes the page that t sees, and t counts as a writer.
fn make_version(
    parent: &[u8; 24],
    depth: &[u8; 24],
    writers: &mut [u32],
    work: &mut [u8],
    store: &[u8],
    at: usize,
    t: TransactionNumber,
    r: RecordNumber,
)
    requires { (record_of r < length writers.old) × (length writers.old ≤ 64) × (length work.old ≡ 512 * length writers.old)
        × (at + 32 ≤ length store.now) × (0 < get_or depth.now (transaction_of t) 0) × Sources parent.now depth.now }
    ensures { let homePage = take 32 (drop at store.now) in
        let shown = seen parent.now depth.now writers.old work.old homePage (transaction_of t) (record_of r) in
        let own = slot (record_of r) (get_or depth.now (transaction_of t) 0) in
        Written own (transaction_of t) (record_of r) shown writers.old work.old writers.new work.new }
{
    let n = t.number();
    let i = r.index();
    let w = writers[i];
    if leaf_set::contains(w, n) {
        return;
    }
    let from = source(parent, depth, w, t);
    let to = slot_of(i, depth[t.index()]);
    writers[i] = leaf_set::with(w, n);
    match from {
        None => leaf_page::bring(work, to, store, at),
        Some(c) => leaf_page::copy_page(work, slot_of(i, c.left), to),
    }
}

// t writes a byte of record r, into its own version.
pub fn write(
    parent: &[u8; 24],
    depth: &[u8; 24],
    writers: &mut [u32],
    work: &mut [u8],
    store: &[u8],
    at: usize,
    t: TransactionNumber,
    r: RecordNumber,
    o: usize,
    v: u8,
)
    requires { (record_of r < length writers.old) × (length writers.old ≤ 64) × (o < 32) × (length work.old ≡ 512 * length writers.old)
        × (at + 32 ≤ length store.now) × (0 < get_or depth.now (transaction_of t) 0) × Sources parent.now depth.now }
    ensures { let homePage = take 32 (drop at store.now) in
        let shown = seen parent.now depth.now writers.old work.old homePage (transaction_of t) (record_of r) in
        let own = slot (record_of r) (get_or depth.now (transaction_of t) 0) in
        Written own (transaction_of t) (record_of r) (set shown o v) writers.old work.old writers.new work.new }
{
    make_version(parent, depth, writers, work, store, at, t, r);
    leaf_page::put_byte(work, slot_of(r.index(), depth[t.index()]), o, v);
}

// If t has a version of record r, copies it from the slot at depth d to the parent's slot at depth d - 1, and notes p as its writer instead of t.
fn hand_up_row(writers: &mut [u32], work: &mut [u8], t: u8, p: u8, d: u8, r: usize)
    requires { (t < 24) × (p < 24) × (1 < d) × (d ≤ depths) × (r < length writers.old) × (length writers.old ≤ 64)
        × (length work.old ≡ 512 * length writers.old) }
    ensures { let pages = pages_of work.old in
        let wrote = sets writers.old in
        (pages_of work.new ≡ cond (wrote r t) (updated (slot r (d - 1)) (pages (slot r d)) pages) pages)
        × Rows (length writers.old) (updated r (handed t p wrote r) wrote) writers.new }
{
    let w = writers[r];
    if leaf_set::contains(w, t) {
        leaf_page::copy_page(work, slot_of(r, d), slot_of(r, d - 1));
        writers[r] = leaf_set::with(leaf_set::without(w, t), p);
    }
}

// The same for each of the n records. (r is a place in `writers` and gives a slot in `work`, so that there is no one array
// to go over; must-fail version_from_own_slot, "Last record not lifted", changes the bound.)
pub fn hand_up(writers: &mut [u32], work: &mut [u8], n: usize, t: u8, p: u8, d: u8)
    requires { (t < 24) × (p < 24) × (1 < d) × (d ≤ depths) × (n ≤ 64) × (length writers.old ≡ n) × (length work.old ≡ 512 * n) }
    ensures { let wrote = sets writers.old in
        (pages_of work.new ≡ lifted wrote t d (pages_of work.old)) × Rows n (handed t p wrote) writers.new }
{
    for r in 0..n {
        hand_up_row(writers, work, t, p, d, r);
    }
}
