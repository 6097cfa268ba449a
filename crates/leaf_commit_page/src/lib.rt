// The commit page, which is page 0 of the store: edition 4 bits, state 4 bits, the map with a bit for each record and record 0 first, the number of ones in
// the map, zeros. A prepared transaction's commit page has the transaction's identity as its fifth byte.
//
// The number of records n tells the edition: 16 records are edition 1, 64 are edition 2. The map fills n / 8 whole bytes behind the first byte, and the
// number of its ones begins in the byte behind them.
#![tactic(auto)]

ghost use Rattle.std.specs.Prelude.{◌≡◌, ◌≢◌, true, cond, ℕ, ◌+◌, ◌*◌, ◌/◌, ◌%◌, ◌^◌, ◌<◌, ◌≤◌, length, take, drop, None, Some, IfSome};
ghost use Rattle.laws.specs.Tests.{same};
ghost use Rattle.laws.specs.Counting.{count};
ghost use Rattle.laws.specs.Bytes.{number, bytes};
ghost use Rattle.rules.specs.Geometry.{Geometry, records};
ghost use Rattle.rules.specs.Store.{commit_page, read_commit, prepared_page, read_prepared, named, map_of};
ghost use Rattle.leaf_set.specs.Sets.{sets};
ghost use Rattle.leaf_commit_page.specs.Heard.{commit_map, map_told, overheard, prepared_told, prepared, understood};
ghost use Rattle.leaf_commit_page.specs.Layout.{Layout, head_of, count_factor, behind_first, Known};

// What a store says of its commit page: whether it can be recovered, and the map in force. It is no Option, since `store_commit::read_map` promises the map
// also of a store that can't be recovered (`understood_in`).
#[derive(Clone, Copy, Debug, PartialEq, Eq)]
pub struct CommitMap {
    pub good: bool,
    pub map: u64,
}

// A prepared transaction: its map and its identity. Where the engine keeps the two, map 0 says that none is prepared.
#[derive(Clone, Copy, Debug, PartialEq, Eq)]
pub struct PreparedMap {
    pub map: u64,
    pub identity: u8,
}

// The first byte is an edition plus a state. The state of an empty commit page is 0.
const EDITION_1: u8 = 16;

const EDITION_2: u8 = 32;

const COMMITTED: u8 = 5;

const PREPARED: u8 = 3;

// How many records a map names.
pub fn ones(map: u64) -> u8
    ensures { ((g : Geometry) → map < 2 ^ records g → result ≡ count (records g) (named g map)) × ((n : ℕ) → map < 2 ^ n → result ≤ n) }
{
    map.count_ones() as u8
}

// Whether a map of n records names record r.
pub fn names(map: u64, n: u8, r: u8) -> bool
    requires { (r < n) × (n ≤ 64) }
    ensures { (g : Geometry) → records g ≡ n → result ≡ named g map r }
{
    (map >> (n - 1 - r)) % 2 == 1
}

// The map of the records whose set has the member t, where words holds a set for each record.
pub fn map_of(words: &[u32], t: u8) -> u64
    requires { (t < 32) × (length words.now ≤ 64) }
    ensures { ((g : Geometry) → records g ≡ length words.now → result ≡ map_of g (λ k. sets words.now k t)) × (result < 2 ^ length words.now) }
{
    let mut map: u64 = 0;
    for &word in words {
        map = appended(map, leaf_set::contains(word, t));
    }
    map
}

// The commit page of a map of n records: the empty commit page where the map is 0, else the committed one.
pub fn commit_page(map: u64, n: usize) -> [u8; 32]
    requires { Known n × (map < 2 ^ n) }
    ensures { (g : Geometry) → Layout g n → result ≡ commit_page g map }
{
    let mut page = lay_map(map, n / 8);
    page[0] = head(map, n);
    page[n / 8 + 1] = ones(map) * place(n);
    page
}

// What a page says as a commit page of n records: its map; none where it is damaged.
pub fn read_commit(page: [u8; 32], n: usize) -> Option<u64>
    requires { Known n }
    ensures { ((g : Geometry) → Layout g n → map_told result ≡ commit_map (read_commit g page)) × ((map_told result).map < 2 ^ n) }
{
    let map = map_in(page, n / 8);
    let good = page == commit_page(map, n);
    good.then_some(map)
}

// The commit page of a prepared transaction. Only sixteen records leave the fifth byte to its identity.
pub fn prepared_page(map: u64, identity: u8) -> [u8; 32]
    requires { map < 65536 }
    ensures { (g : Geometry) → Layout g 16 → result ≡ prepared_page g (prepared map identity) }
{
    let mut held = lay_map(map, 2);
    held[0] = EDITION_1 + PREPARED;
    held[3] = ones(map) * 8;
    held[4] = identity;
    held
}

// What a page says of a prepared transaction. Where transactions can't be prepared (`joint` is false) there is none.
pub fn read_prepared(page: [u8; 32], n: usize, joint: bool) -> Option<PreparedMap>
    requires { Known n × (joint ≡ true → n ≡ 16) }
    ensures { ((g : Geometry) → Layout g n → g.joint ≡ joint → prepared_told result ≡ overheard (read_prepared g page)) × ((prepared_told result).map < 2 ^ n) × IfSome result (λ p. p.map ≢ 0) }
{
    if !joint {
        return None; // nothing can be prepared
    }
    let map = map_in(page, n / 8);
    let identity = page[4];
    if page == prepared_page(map, identity) {
        kept(map, identity)
    } else {
        None
    }
}

// A prepared transaction of this map and identity; none where the map is 0.
fn kept(map: u64, identity: u8) -> Option<PreparedMap>
    ensures { result ≡ cond (same map 0) None (Some (record { map = map; identity = identity })) }
{
    if map == 0 {
        None
    } else {
        Some(PreparedMap { map, identity })
    }
}

// What a page says as a commit page of any kind: the map in force, which is 0 for a prepared page; none where it is damaged.
pub fn read_page(page: [u8; 32], n: usize, joint: bool) -> Option<u64>
    requires { Known n × (joint ≡ true → n ≡ 16) }
    ensures { ((g : Geometry) → Layout g n → g.joint ≡ joint → map_told result ≡ understood g page) × ((map_told result).map < 2 ^ n) }
{
    let c = read_commit(page, n);
    let p = read_prepared(page, n, joint);
    c.or(p.map(|_| 0))
}

// A page of zeros, but for the m bytes behind the first: they are the map's, the most significant first.
fn lay_map(map: u64, m: usize) -> [u8; 32]
    requires { m ≤ 8 }
    ensures { result ≡ behind_first m (bytes m map) }
{
    let mut page = [0u8; 32];
    let spelled = map.to_be_bytes();
    page[1..1 + m].copy_from_slice(&spelled[8 - m..]);
    page
}

// The number that the m bytes behind the first spell.
fn map_in(page: [u8; 32], m: usize) -> u64
    requires { m ≤ 8 }
    ensures { (result ≡ number (take m (drop 1 page))) × (result < 256 ^ m) }
{
    let mut map: u64 = 0;
    for &byte in &page[1..1 + m] {
        map = map * 256 + u64::from(byte);
    }
    map
}

// The map with a further record at its end, which it names or not.
fn appended(map: u64, yes: bool) -> u64
    requires { map < 9223372036854775808 }
    ensures { result ≡ map * 2 + cond yes 1 0 }
{
    map * 2 + u64::from(yes)
}

// The first byte of a map's commit page: edition and state.
fn head(map: u64, n: usize) -> u8
    ensures { result ≡ head_of n + cond (same map 0) 0 5 }
{
    let edition = edition_of(n);
    if map == 0 {
        edition
    } else {
        edition + COMMITTED
    }
}

// The edition of n records, as it stands in the first byte.
fn edition_of(n: usize) -> u8
    ensures { (result ≡ head_of n) × (result ≤ 32) }
{
    if n == 64 { EDITION_2 } else { EDITION_1 }
}

// The count's place in its byte, as a factor: the count has the byte's first five bits in edition 1, and its first seven in edition 2.
fn place(n: usize) -> u8
    ensures { (result ≡ count_factor n) × (result ≤ 8) }
{
    if n == 64 { 2 } else { 8 }
}
