// A cycle of pointings between transactions: whether there is one, and which. Who a transaction points to is a set.
#![tactic(auto)]

ghost use Rattle.std.specs.Prelude.{◌≡◌, true, ℕ, IfSome, position, ◌==◌, ◌+◌, ◌-◌, ◌<◌, ◌≤◌, ◌++◌, length, get_or, take, drop, replicate};
ghost use Rattle.laws.specs.Counting.{any};
ghost use Rattle.laws.specs.Bits.{bits};
ghost use Rattle.rules.specs.State.{mem};
ghost use Rattle.leaf_set.specs.Sets.{sets};
ghost use Rattle.rules.specs.Waiting.{Found};
ghost use Rattle.wait_cycle.specs.Search.{goes_on, Core, PathReturns, length_of};

// t is in m and points into m.
fn goes_on(points: &[u32; 24], m: u32, t: u8) -> bool
    requires { t < 24 }
    ensures { result ≡ goes_on (sets points.now) (bits m) t }
{
    let into = points[t as usize] & m;
    let some = into % 16777216 != 0;
    leaf_set::contains(m, t) & some
}

// Those of m that point into m. (t is a transaction's number as well as a place, so a fold over the places would need it too.)
fn kept(points: &[u32; 24], m: u32) -> u32
    requires { length points.now ≡ 24 }
    ensures { bits result ≡ goes_on (sets points.now) (bits m) }
{
    let mut k = 0u32;
    for t in 0..24u8 {
        k = state_tree::with_if(k, goes_on(points, m, t), t);
    }
    k
}

// A set that has every cycle, and whose members all point into it: those that don't are left out, again and again, until none is. (No range bounds that.)
fn core(points: &[u32; 24]) -> u32
    requires { (length points.now ≡ 24) × ((t u : ℕ) → sets points.now t u ≡ true → u < 24) }
    ensures { Core (sets points.now) (bits result) }
{
    let mut m = 16777215u32;
    let mut next = kept(points, m);
    while !leaf_set::within(m, next) {
        m = next;
        next = kept(points, m);
    }
    m
}

// The lowest transaction of m, which has one.
fn first_of(m: u32) -> u8
    requires { any 24 (bits m) ≡ true }
    ensures { (result < 24) × (bits m result ≡ true) }
{
    u32::trailing_zeros(m) as u8
}

// A path: the first n of these transactions, each of which points to the next, and where the last one points to. (There is no heap for a list that grows.)
#[derive(Drop)]
pub struct Trail {
    pub path: [u8; 24],
    pub n: usize,
    pub t: u8,
}

// From transaction to transaction within the core, until one comes again.
fn walk(points: &[u32; 24], core: u32) -> Trail
    requires { Core (sets points.now) (bits core) × (any 24 (bits core) ≡ true) }
    ensures { PathReturns (sets points.now) result.path result.n result.t }
{
    let mut path = [0u8; 24];
    let mut seen = 0u32;
    let mut n: usize = 0;
    let mut t = first_of(core);
    while !leaf_set::contains(seen, t) {
        path[n] = t;
        seen = leaf_set::with(seen, t);
        n = n + 1;
        t = first_of(points[t as usize] & core);
    }
    Trail { path, n, t }
}

// Where t stands first on the path.
fn first_place(path: &[u8; 24], t: u8) -> Option<usize>
    ensures { result ≡ position (λ u. u == t) path.now }
{
    path.iter().position(|&u| u == t)
}

// Where t stands in the first n of the path.
fn place_of(path: &[u8; 24], n: usize, t: u8) -> usize
    requires { (n ≤ 24) × (length path.now ≡ 24) × (mem t (take n path.now) ≡ true) }
    ensures { (result < n) × (get_or path.now result 0 ≡ t) }
{
    first_place(path, t).unwrap_or(n)
}

// The path from k to n, with zeros after.
fn show(path: &[u8; 24], k: usize, n: usize, ring: &mut [u8; 24])
    requires { (k < n) × (n ≤ 24) × (length path.now ≡ 24) × (length ring.old ≡ 24) }
    ensures { ring.new ≡ drop k (take n path.now) ++ replicate (24 - (n - k)) 0 }
{
    ring.fill(0);
    ring[..n - k].copy_from_slice(&path[k..n]);
}

// The length of a cycle, and its transactions with zeros after; zeros alone where there is none.
pub fn find(points: &[u32; 24], ring: &mut [u8; 24]) -> Option<u8>
    requires { (length points.now ≡ 24) × ((t u : ℕ) → sets points.now t u ≡ true → u < 24) × (length ring.old ≡ 24) }
    ensures found { Found (sets points.now) (length_of result) ring.new }
    ensures some { IfSome result (λ n. 0 < n) }
{
    let m = core(points);
    if m % 16777216 == 0 {
        *ring = [0; 24];
        return None;
    }
    let w = walk(points, m);
    let path = w.path;
    let n = w.n;
    let k = place_of(&path, n, w.t);
    show(&path, k, n, ring);
    Some((n - k) as u8)
}
