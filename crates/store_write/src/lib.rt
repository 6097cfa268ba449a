// Page writes of either medium, under a cut: atomic pages, or pages that can tear and lie in the store as pairs of copies. `tears` tells which. Beneath a commit
// and a recovery these functions alone know the two apart.
//
// A cut is one number: of atomic pages how many page writes are made, of pages that can tear four times that and the way in which the next is torn.
#![tactic(auto)]

ghost use Rattle.std.specs.Prelude.{◌≡◌, [], ◌∷◌, ◌+◌, ◌*◌, ◌<◌, ◌≤◌, length};
ghost use Rattle.laws.specs.Tests.{under};
ghost use Rattle.rules.specs.Commit.{sets};
ghost use Rattle.store_write.specs.Phase.{WritesPhase, store_of, stride_of, place_of, shown_in, lost_in, mended_in, write_share, made_of};

// Page n becomes `page`, as far as the cut allows. Returns what is left of the cut.
pub fn write_counted(store: &mut [u8], tears: bool, n: usize, page: [u8; 32], left: u8) -> u8
    requires { (n < 4096) × (stride_of tears * n + stride_of tears ≤ length store.old) }
    ensures { let before = store_of tears store.old in
        let after = store_of tears store.new in
        WritesPhase tears left (sets n page ∷ []) before after result × (result ≤ left) }
{
    if tears {
        return store_pair::write_counted(store, n, page, left);
    }
    if 0 < left {
        leaf_page::put_page(store, n, page);
        return left - 1;
    }
    left
}

// Whether the cut came before the last of some page writes was whole, where all but the last left `last` of it.
pub fn is_cut(tears: bool, last: u8) -> bool
    ensures { result ≡ under last (write_share tears) }
{
    if tears {
        return last < 4;
    }
    last < 1
}

// How many page writes were made of a cut k, where all but the last left `last` of it, and all left `left`. A torn write counts in the ways 2 and 3.
pub fn made(tears: bool, k: u8, last: u8, left: u8) -> u8
    requires { left ≤ k }
    ensures { result ≡ made_of tears k last left }
{
    if !tears {
        return k - left;
    }
    if last < 4 {
        return k / 4 + k % 4 / 2;
    }
    (k - left) / 4
}

// Page n, as the store shows it.
pub fn get_page(store: &[u8], tears: bool, n: usize) -> [u8; 32]
    requires { (n < 4096) × (stride_of tears * n + stride_of tears ≤ length store.now) }
    ensures { result ≡ shown_in tears (store_of tears store.now) n }
{
    if tears {
        return store_pair::shown_page(store, n);
    }
    leaf_page::get_page(store, n)
}

// The byte at which page first + n begins, while every pair is good and alike. Each is multiplied by itself: where `first` is a constant, so is its product.
pub fn place(tears: bool, first: usize, n: usize) -> usize
    requires { (first < 4096) × (n < 4096) }
    ensures { result ≡ place_of tears (first + n) }
{
    if tears {
        return 66 * first + 66 * n + 1;
    }
    32 * first + 32 * n
}

// Whether any of the first n pages has no good copy.
pub fn any_lost(store: &[u8], tears: bool, n: usize) -> bool
    requires { (n < 4096) × (stride_of tears * n ≤ length store.now) }
    ensures { result ≡ lost_in tears n (store_of tears store.now) }
{
    if tears {
        return store_pair::any_lost(store, n);
    }
    false
}

// All of the store's n pages are mended.
pub fn mend(store: &mut [u8], tears: bool, n: usize)
    requires { (n < 4096) × (length store.old ≡ stride_of tears * n) }
    ensures { store_of tears store.new ≡ mended_in tears (store_of tears store.old) }
{
    if tears {
        store_pair::mend_all(store, n);
    }
}
