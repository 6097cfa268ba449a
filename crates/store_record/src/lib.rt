// A fresh store, laid page by page; the age of a record, told from its settled page's stamp. Both over atomic pages and over pages that tear, which lie in the
// store as pairs of copies: `tears` tells which.
#![tactic(auto)]

ghost use Rattle.std.specs.Prelude.{◌≡◌, true, cond, ◌+◌, ◌*◌, ◌<◌, ◌≤◌, length, take};
ghost use Rattle.laws.specs.Bytes.{number as spelled};
ghost use Rattle.rules.specs.Geometry.{Geometry, records};
ghost use Rattle.rules.specs.Store.{named, fresh};
ghost use Rattle.rules.specs.Run.{lay_fresh};
ghost use Rattle.rules.specs.Age.{age_of};
ghost use Rattle.rules.specs.Editions.{form_in};
ghost use Rattle.leaf_commit_page.specs.Layout.{Known, Layout};
ghost use Rattle.store_write.specs.Phase.{store_of, shown_in, stride_of};
ghost use Rattle.store_length.specs.Lengths.{store_bytes};
ghost use Rattle.leaf_number.specs.Named.{record_of};
ghost use Rattle.store_record.specs.Ages.{told_as, age_in, age_number, age_left};
ghost use Rattle.store_record.specs.Laying.{LaidTo};
ghost use Rattle.leaf_age.specs.Meaning.{judged_age};

// No cut comes before a page write is whole.
const UNCUT: u8 = 255;

// Page p of a fresh store of n records.
fn fresh_page(p: usize, n: usize) -> [u8; 32]
    requires { Known n }
    ensures { (g : Geometry) → Layout g n → result ≡ fresh g p }
{
    if p == 0 {
        return leaf_commit_page::commit_page(0, n);
    }
    [0; 32]
}

// Every page becomes that of a fresh store of n records.
pub fn lay(store: &mut [u8], tears: bool, n: usize)
    requires { Known n × (length store.old ≡ store_bytes tears n) }
    ensures { (g : Geometry) → Layout g n → LaidTo tears g (1 + (n + n)) store.new }
{
    let pages = 1 + (n + n);
    for p in 0..pages {
        store_write::write_counted(store, tears, p, fresh_page(p, n), UNCUT);
    }
}

// Lays down a fresh store of n records: 0, or 22 where it hasn't the size of a store, and then writes nothing. The answer is a number, since the calls from C hand
// it on as it is.
pub fn lay_fresh(store: &mut [u8], tears: bool, n: usize) -> u8
    requires { Known n }
    ensures { let before = store.old in
        ((g : Geometry) → Layout g n → (result ≡ (lay_fresh (form_in tears g) before).answer) × (store.new ≡ (lay_fresh (form_in tears g) before).store)) }
{
    if store.len() != store_length::store_size(tears, n) {
        return u8::from(Refusal::Length);
    }
    lay(store, tears, n);
    0
}

// Why no age is told: a page has no good copy or the commit page is damaged; the store hasn't the size of a store; there is no such record. Each by the number that
// goes out for it.
#[derive(Clone, Copy, Debug, PartialEq, Eq)]
pub enum Refusal {
    Damaged = 4,
    Length = 22,
    NoSuchRecord = 23,
}

impl From<Refusal> for u8 {
    ghost use Rattle.std.specs.Prelude.{◌≡◌};
    ghost use Rattle.store_record.specs.Ages.{age_refusal};

    ghost from_gives = { λ r n. n ≡ age_refusal r };

    fn from(r: Refusal) -> u8 {
        r as u8
    }
}

// The stamp that a page begins with: four bytes, as an event word of edition 1 has.
fn stamp_on(store: &[u8], tears: bool, p: usize) -> u32
    requires { (p < 4096) × (stride_of tears * p + stride_of tears ≤ length store.now) }
    ensures { result ≡ spelled (take 4 (shown_in tears (store_of tears store.now) p)) }
{
    let page = store_write::get_page(store, tears, p);
    leaf_event::Event::word_at(&page, 0)
}

// The page that has the settled value of record r, of n, under a commit page with this map.
fn settled_page(map: u64, n: usize, r: leaf_number::RecordNumber) -> usize
    requires { (n ≤ 64) × (record_of r < n) }
    ensures { ((g : Geometry) → records g ≡ n → result ≡ cond (named g map (record_of r)) (1 + record_of r) (1 + n + record_of r)) × (result < 1 + (n + n)) }
{
    let at = r.index();
    if leaf_commit_page::names(map, n as u8, r.number()) {
        return 1 + at;
    }
    1 + n + at
}

// The age of record r of a store of the right size, unless some page has no good copy or the commit page is damaged.
fn age_in(
    store: &[u8],
    tears: bool,
    n: usize,
    joint: bool,
    r: leaf_number::RecordNumber,
    clock: leaf_age::Reading,
    limit: leaf_age::Limit,
) -> Result<leaf_age::Judged, Refusal>
    requires { Known n × (joint ≡ true → n ≡ 16) × (length store.now ≡ store_bytes tears n) × (record_of r < n) }
    ensures { (g : Geometry) → Layout g n → g.joint ≡ joint → told_as result ≡ age_in tears g store.now (record_of r) clock.0 limit.0 }
{
    if store_write::any_lost(store, tears, 1 + (n + n)) {
        return Err(Refusal::Damaged);
    }
    let c = leaf_commit_page::read_page(store_write::get_page(store, tears, 0), n, joint);
    let map = c.ok_or(Refusal::Damaged)?;
    let stamp = leaf_age::Reading::new(stamp_on(store, tears, settled_page(map, n, r)));
    Ok(clock.since(stamp).judged_by(limit))
}

// The age of a record, of n: refused with 22, 23 or 4, in this order, or judged.
pub fn age_of(
    store: &[u8],
    tears: bool,
    n: usize,
    joint: bool,
    number: u8,
    clock: leaf_age::Reading,
    limit: leaf_age::Limit,
) -> Result<leaf_age::Judged, Refusal>
    requires { Known n × (joint ≡ true → n ≡ 16) }
    ensures { (g : Geometry) → Layout g n → g.joint ≡ joint → told_as result ≡ age_of (form_in tears g) store.now number clock.0 limit.0 }
{
    if store.len() != store_length::store_size(tears, n) {
        return Err(Refusal::Length);
    }
    let r = leaf_number::RecordNumber::checked(number, n as u8).ok_or(Refusal::NoSuchRecord)?;
    age_in(store, tears, n, joint, r, clock, limit)
}

// The judgement's number, with its age left at the given place.
pub fn leave(judged: leaf_age::Judged, age: &mut i64) -> u8
    ensures { (result ≡ age_number (judged_age judged)) × (age.new ≡ age_left (judged_age judged) age.old) }
{
    match judged {
        leaf_age::Judged::Live(m) => {
            *age = m.value();
            0
        }
        leaf_age::Judged::Ahead(m) => {
            *age = m.value();
            1
        }
        leaf_age::Judged::Stale(m) => {
            *age = m.value();
            2
        }
    }
}

// Tells the age of a record, of n: 0 live, 1 ahead, 2 stale, with the age in minutes left at `age`; or refused with 22, 23 or 4, and `age` stays.
pub fn tell(
    store: &[u8],
    tears: bool,
    n: usize,
    joint: bool,
    number: u8,
    clock: u32,
    limit: u32,
    age: &mut i64,
) -> u8
    requires { Known n × (joint ≡ true → n ≡ 16) }
    ensures { let before = store.now in
        ((g : Geometry) → Layout g n → g.joint ≡ joint
        → (result ≡ age_number (age_of (form_in tears g) before number clock limit)) × (age.new ≡ age_left (age_of (form_in tears g) before number clock limit) age.old)) }
{
    let told = age_of(
        store,
        tears,
        n,
        joint,
        number,
        leaf_age::Reading::new(clock),
        leaf_age::Limit::new(limit),
    );
    match told {
        Ok(judged) => leave(judged, age),
        Err(refusal) => u8::from(refusal),
    }
}
