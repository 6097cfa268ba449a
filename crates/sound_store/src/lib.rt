// Whether a store is emptied, as it is while it is up and nothing is prepared: its commit page is empty, and where pages tear (document 02, L5), "every pair good
// and alike".
#![tactic(auto)]

ghost use Rattle.std.specs.Prelude.{◌≡◌, ◌+◌, ◌*◌, ◌<◌, ◌≤◌, length};
ghost use Rattle.laws.specs.Bytes.{same_list};
ghost use Rattle.laws.specs.Counting.{all};
ghost use Rattle.rules.specs.Geometry.{Geometry};
ghost use Rattle.rules.specs.Pairs.{pairs_of, is_good, is_whole};
ghost use Rattle.rules.specs.Editions.{medium_of};
ghost use Rattle.leaf_commit_page.specs.Layout.{Known, Layout};
ghost use Rattle.store_write.specs.Phase.{stride_of, store_of};
ghost use Rattle.sound_store.specs.Whole.{whole_in};

// The bytes of a copy: its status, then a page. The bytes of a pair.
const COPY: usize = 33;

const PAIR: usize = 66;

// The status of a good copy. Any other is bad.
const GOOD: u8 = 1;

// Whether the first copy of pair n is good.
fn first_good(bytes: &[u8], n: usize) -> bool
    requires { (n < 4096) × (66 * n + 66 ≤ length bytes.now) }
    ensures { result ≡ is_good (pairs_of bytes.now n).first }
{
    bytes[PAIR * n] == GOOD
}

// Whether the second is.
fn second_good(bytes: &[u8], n: usize) -> bool
    requires { (n < 4096) × (66 * n + 66 ≤ length bytes.now) }
    ensures { result ≡ is_good (pairs_of bytes.now n).second }
{
    bytes[PAIR * n + COPY] == GOOD
}

// Whether the pages of both copies of pair n are the same. All bytes are compared, without a way out before the last.
fn is_alike(bytes: &[u8], n: usize) -> bool
    requires { (n < 4096) × (66 * n + 66 ≤ length bytes.now) }
    ensures { result ≡ same_list (pairs_of bytes.now n).first.page (pairs_of bytes.now n).second.page }
{
    let first = PAIR * n + 1;
    let second = PAIR * n + COPY + 1;
    let mut alike = true;
    for i in 0..32usize {
        alike = alike & (bytes[first + i] == bytes[second + i]);
    }
    alike
}

// Whether pair n is good and alike.
pub fn is_whole(bytes: &[u8], n: usize) -> bool
    requires { (n < 4096) × (66 * n + 66 ≤ length bytes.now) }
    ensures { result ≡ is_whole (pairs_of bytes.now n) }
{
    first_good(bytes, n) & (second_good(bytes, n) & is_alike(bytes, n))
}

// Whether all of the first pairs are.
pub fn all_whole(bytes: &[u8], pages: usize) -> bool
    requires { (pages ≤ 4096) × (66 * pages ≤ length bytes.now) }
    ensures { result ≡ all pages (λ n. is_whole (pairs_of bytes.now n)) }
{
    let mut whole = true;
    for n in 0..pages {
        whole = whole & is_whole(bytes, n);
    }
    whole
}

// Whether every one of the first pages is whole: where pages don't tear each is.
fn pages_whole(store: &[u8], tears: bool, pages: usize) -> bool
    requires { (pages ≤ 4096) × (stride_of tears * pages ≤ length store.now) }
    ensures { result ≡ whole_in tears pages (store_of tears store.now) }
{
    if tears {
        return all_whole(store, pages);
    }
    true
}

// Whether a store of n records has an empty commit page and whole pages.
pub fn is_emptied(store: &[u8], tears: bool, n: usize) -> bool
    requires { Known n × (length store.now ≡ stride_of tears * (1 + (n + n))) }
    ensures { let before = store.now in
        ((g : Geometry) → Layout g n → result ≡ (medium_of tears g).emptied ((medium_of tears g).from_bytes before)) }
{
    let whole = pages_whole(store, tears, 1 + (n + n));
    let c = leaf_commit_page::read_commit(store_write::get_page(store, tears, 0), n);
    let good = c.is_some();
    let empty = c.unwrap_or(0) == 0;
    whole & (good & empty)
}
