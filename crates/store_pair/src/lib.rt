// Pages that can tear: every page of the store is a pair of copies, each a status byte and the page's 32 bytes. Pair n begins at byte 66 n, with its first
// copy. A page write makes the first copy and then the second; a torn one stops on the way.
//
// This crate writes pairs, whole and torn, reads the page that a pair shows, and mends.
#![tactic(auto)]

ghost use Rattle.std.specs.Prelude.{◌≡◌, [], ◌∷◌, ◌+◌, ◌-◌, ◌*◌, ◌<◌, ◌≤◌, length, get_or, take, drop};
ghost use Rattle.laws.specs.Tests.{same};
ghost use Rattle.laws.specs.Counting.{any};
ghost use Rattle.laws.specs.Functions.{updated};
ghost use Rattle.rules.specs.Pairs.{good, whole, shown, all_bad, mend, mended, torn, copy_bytes, pair_in, pair_bytes, pairs_of, cut_pairs};
ghost use Rattle.rules.specs.Commit.{sets};

// The bytes of a copy, and of a pair.
const COPY: usize = 33;

const PAIR: usize = 66;

// The status of a good copy. Any other counts as bad; a torn write leaves BAD.
const GOOD: u8 = 1;

const BAD: u8 = 0;

// A copy that is lent from the middle of a store becomes good, with this page.
fn write_copy(part: &mut [u8], page: [u8; 32])
    requires { length part.old ≡ 33 }
    ensures { part.new ≡ copy_bytes (good page) }
{
    leaf_page::write_page(&mut part[1..COPY], page);
    part[0] = GOOD;
}

// The first copy of a pair takes the page; the second stays as it is.
fn write_first(part: &mut [u8], page: [u8; 32])
    requires { length part.old ≡ 66 }
    ensures { part.new ≡ pair_bytes (torn 3 page (pair_in part.old)) }
{
    let from = 0usize;
    let end = COPY;
    write_copy(&mut part[from..end], page);
}

// The whole write: the first copy, then the second.
fn write_pair(part: &mut [u8], page: [u8; 32])
    requires { length part.old ≡ 66 }
    ensures { part.new ≡ pair_bytes (whole page) }
{
    write_first(part, page);
    let from = COPY;
    let end = PAIR;
    write_copy(&mut part[from..end], page);
}

// A write that is torn, in one of three ways: 1, the first copy is left bad; 2, the first is new and the second left bad; 3, the first is new and the second
// old. A copy that is left bad keeps its old page. The way stays a number: it is what is left of the cut, as `cut_pairs` has it.
fn tear_pair(part: &mut [u8], page: [u8; 32], way: u8)
    requires { (length part.old ≡ 66) × (0 < way) × (way < 4) }
    ensures { part.new ≡ pair_bytes (torn way page (pair_in part.old)) }
{
    if way == 1 {
        part[0] = BAD;
        return;
    }
    write_first(part, page);
    if way == 2 {
        part[COPY] = BAD;
    }
}

// Page n becomes `page`, in both its copies, and no other pair changes.
pub fn put_pair(bytes: &mut [u8], n: usize, page: [u8; 32])
    requires { (n < 4096) × (66 * n + 66 ≤ length bytes.old) }
    ensures { pairs_of bytes.new ≡ updated n (whole page) (pairs_of bytes.old) }
{
    let at = PAIR * n;
    let end = at + PAIR;
    write_pair(&mut bytes[at..end], page);
}

// The write of page n is torn.
fn tear_page(bytes: &mut [u8], n: usize, page: [u8; 32], way: u8)
    requires { (n < 4096) × (66 * n + 66 ≤ length bytes.old) × (0 < way) × (way < 4) }
    ensures { let before = pairs_of bytes.old in
        pairs_of bytes.new ≡ updated n (torn way page (before n)) before }
{
    let at = PAIR * n;
    let end = at + PAIR;
    tear_pair(&mut bytes[at..end], page, way);
}

// One page write of those that a commit or a recovery makes, under a cut that is told in quarters of a write: whole, torn, or not begun. Returns what is left
// of the cut.
pub fn write_counted(bytes: &mut [u8], n: usize, page: [u8; 32], left: u8) -> u8
    requires { (n < 4096) × (66 * n + 66 ≤ length bytes.old) }
    ensures { (pairs_of bytes.new ≡ (cut_pairs left (sets n page ∷ []) (pairs_of bytes.old)).store) × (result ≡ left - 4) }
{
    if 4 <= left {
        put_pair(bytes, n, page);
        return left - 4;
    }
    if 0 < left {
        tear_page(bytes, n, page, left);
    }
    0
}

// Whether the copy that begins at byte `at` is good.
fn is_good(bytes: &[u8], at: usize) -> bool
    requires { at < length bytes.now }
    ensures { result ≡ same (get_or bytes.now at 0) 1 }
{
    bytes[at] == GOOD
}

// Whether both copies of page n are bad.
fn is_lost(bytes: &[u8], n: usize) -> bool
    requires { (n < 4096) × (66 * n + 66 ≤ length bytes.now) }
    ensures { result ≡ all_bad (pairs_of bytes.now n) }
{
    let at = PAIR * n;
    !(is_good(bytes, at) | is_good(bytes, at + COPY))
}

// Whether of any of the first n pages both copies are bad.
pub fn any_lost(bytes: &[u8], n: usize) -> bool
    requires { (n < 4096) × (66 * n ≤ length bytes.now) }
    ensures { result ≡ any n (λ p. all_bad (pairs_of bytes.now p)) }
{
    (0..n).any(|p| is_lost(bytes, p))
}

// What page n shows: the page of its first good copy (of its first copy where both are bad).
pub fn shown_page(bytes: &[u8], n: usize) -> [u8; 32]
    requires { (n < 4096) × (66 * n + 66 ≤ length bytes.now) }
    ensures { result ≡ shown (pairs_of bytes.now) n }
{
    let at = PAIR * n;
    if is_good(bytes, at) | !is_good(bytes, at + COPY) {
        return page_of(bytes, at);
    }
    page_of(bytes, at + COPY)
}

// The page of the copy that begins at byte `at`.
fn page_of(bytes: &[u8], at: usize) -> [u8; 32]
    requires { (at < 1048576) × (at + 33 ≤ length bytes.now) }
    ensures { result ≡ take 32 (drop (at + 1) bytes.now) }
{
    let from = at + 1;
    let end = at + COPY;
    leaf_page::get_page(&bytes[from..end], 0)
}

// Page n is mended from its first good copy, if it has one.
fn mend_pair(bytes: &mut [u8], n: usize)
    requires { (n < 4096) × (66 * n + 66 ≤ length bytes.old) }
    ensures { let before = pairs_of bytes.old in
        pairs_of bytes.new ≡ updated n (mend (before n)) before }
{
    if is_lost(&bytes[..], n) {
        return;
    }
    let shown = shown_page(&bytes[..], n);
    put_pair(bytes, n, shown);
}

// All of the store's n pages are mended. By index: once a loop over `chunks_exact_mut` is over, a proof knows the
// slice's length and not what was written.
pub fn mend_all(bytes: &mut [u8], n: usize)
    requires { (n < 4096) × (length bytes.old ≡ 66 * n) }
    ensures { pairs_of bytes.new ≡ mended (pairs_of bytes.old) }
{
    for p in 0..n {
        mend_pair(bytes, p);
    }
}
