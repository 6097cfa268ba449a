// Pages of 32 bytes in the store and in the working buffer. A page is read by value and written whole.
#![tactic(auto)]

ghost use Rattle.std.specs.Prelude.{◌≡◌, ◌+◌, ◌*◌, ◌<◌, ◌≤◌, length, take, drop, get_or, set};
ghost use Rattle.laws.specs.Functions.{updated};
ghost use Rattle.rules.specs.Store.{pages_of};

// How deep transactions nest: the working buffer has a page for each record at each depth, and a record's pages lie side by side.
pub const DEPTHS: usize = 16;

// The bytes of the working buffer.
pub const WORK: usize = 16 * DEPTHS * 32;

// The one page-writing leaf: a page that is lent from the middle of a store takes these bytes. Every page write goes through it.
// A loop: `copy_from_slice` was tried, and stays a call, with the page put on the stack, where the loop compiles to two moves.
pub fn write_page(part: &mut [u8], page: [u8; 32])
    requires { length part.old ≡ 32 }
    ensures { part.new ≡ page }
{
    for i in 0..32 {
        part[i] = page[i];
    }
}

// The 32 bytes that start at `at`. A loop, as in `write_page`: by `copy_from_slice` it is slower.
fn read_page(bytes: &[u8], at: usize) -> [u8; 32]
    requires { at + 32 ≤ length bytes.now }
    ensures { result ≡ take 32 (drop at bytes.now) }
{
    let mut page = [0u8; 32];
    for i in 0..32 {
        page[i] = bytes[at + i];
    }
    page
}

// Page n becomes `page`, and no other page changes.
pub fn put_page(bytes: &mut [u8], n: usize, page: [u8; 32])
    requires { (n < 4096) × (32 * n + 32 ≤ length bytes.old) }
    ensures { pages_of bytes.new ≡ updated n page (pages_of bytes.old) }
{
    let at = 32 * n;
    let end = at + 32;
    write_page(&mut bytes[at..end], page);
}

// Page n.
pub fn get_page(bytes: &[u8], n: usize) -> [u8; 32]
    requires { (n < 4096) × (32 * n + 32 ≤ length bytes.now) }
    ensures { result ≡ pages_of bytes.now n }
{
    read_page(bytes, 32 * n)
}

// Page `from` is copied to page `to` of the same bytes. It isn't `bring`: that one is lent the bytes it reads beside the bytes it writes.
pub fn copy_page(bytes: &mut [u8], from: usize, to: usize)
    requires { (from < 4096) × (to < 4096) × (32 * from + 32 ≤ length bytes.old) × (32 * to + 32 ≤ length bytes.old) }
    ensures { pages_of bytes.new ≡ updated to (pages_of bytes.old from) (pages_of bytes.old) }
{
    let page = get_page(&bytes[..], from);
    put_page(bytes, to, page);
}

// Page `from` of some bytes is copied to page `to` of others: from the store to the working buffer, or back.
pub fn copy_across(bytes: &mut [u8], to: usize, source: &[u8], from: usize)
    requires { (to < 4096) × (from < 4096) × (32 * to + 32 ≤ length bytes.old) × (32 * from + 32 ≤ length source.now) }
    ensures { pages_of bytes.new ≡ updated to (pages_of source.now from) (pages_of bytes.old) }
{
    bring(bytes, to, source, 32 * from);
}

// The page that begins at byte `at` of the store is copied to page `to` of the working buffer.
pub fn bring(bytes: &mut [u8], to: usize, source: &[u8], at: usize)
    requires { (to < 4096) × (32 * to + 32 ≤ length bytes.old) × (at + 32 ≤ length source.now) }
    ensures { pages_of bytes.new ≡ updated to (take 32 (drop at source.now)) (pages_of bytes.old) }
{
    let brought = read_page(source, at);
    put_page(bytes, to, brought);
}

// The byte at an offset of the page that begins at byte `at` of the store.
pub fn byte_at(source: &[u8], at: usize, offset: usize) -> u8
    requires { (offset < 32) × (at + 32 ≤ length source.now) }
    ensures { result ≡ get_or (take 32 (drop at source.now)) offset 0 }
{
    source[at + offset]
}

// The byte of page n at an offset.
pub fn get_byte(bytes: &[u8], n: usize, offset: usize) -> u8
    requires { (n < 4096) × (offset < 32) × (32 * n + 32 ≤ length bytes.now) }
    ensures { result ≡ get_or (pages_of bytes.now n) offset 0 }
{
    byte_at(bytes, 32 * n, offset)
}

// The byte of page n at an offset becomes `value`. For versions in the working buffer: the store is written by whole pages.
pub fn put_byte(bytes: &mut [u8], n: usize, offset: usize, value: u8)
    requires { (n < 4096) × (offset < 32) × (32 * n + 32 ≤ length bytes.old) }
    ensures { pages_of bytes.new ≡ updated n (set (pages_of bytes.old n) offset value) (pages_of bytes.old) }
{
    bytes[32 * n + offset] = value;
}
