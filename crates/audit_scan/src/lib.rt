// The history's accepted locks and writes, looked up event by event.
#![tactic(auto)]

ghost use Rattle.std.specs.Prelude.{◌≡◌, IfSome, true, cond, not, ◌&&◌, ◌||◌, ◌<◌, get_or};
ghost use Rattle.laws.specs.Tests.{same};
ghost use Rattle.leaf_event.specs.Meaning.{meaning, InRange};
ghost use Rattle.history.specs.History.{stands_with, writes_to, overlaid};
ghost use Rattle.audit_rules.specs.Plain.{Ledger, grant_blocks, locks_of};
ghost use Rattle.audit_link.specs.Links.{one_of, Bounded, Linked, shows_to};
ghost use Rattle.audit_scan.specs.Scans.{Readable, AllReadable, Ordered, is_any, event_in_bytes, mode_test, locks_at, writes_at, byte_at, grants_to, writes_up_to};

use audit_link::{Left, Links};
use leaf_event::Event;

// A list of events, and the place of the one that comes.
#[derive(Clone, Copy)]
pub struct Listed<'a> {
    pub table: &'a [u32; 16],
    pub events: &'a [u8],
    pub n: usize,
}

// What a transaction can look up in the history before the event that comes.
//   owner[k]   the transaction that event k belongs to, where it is an accepted lock or write; else 0
//   me         the transaction that looks
#[derive(Clone, Copy)]
pub struct View<'a> {
    pub list: Listed<'a>,
    pub owner: &'a [u16; 4096],
    pub links: &'a Links,
    pub me: usize,
}

// The modes of a lock that count.
#[derive(Clone, Copy, Debug, PartialEq, Eq)]
pub enum Modes {
    Any,
    Writing,
}

impl Listed<'_> {
    // Event k.
    pub fn event_at(self, k: usize) -> Event
        requires { Readable self k }
        ensures { (event_in_bytes self.entry.events.now k ≡ meaning result) × InRange result }
    {
        Event::of_word(self.table, Event::word_at(self.events, k))
    }
}

impl Modes {
    // A lock that is asked for with this value counts: 0 asks for write mode.
    fn counts(self, value: u8) -> bool
        ensures { result ≡ (is_any self || same value 0) }
    {
        match self {
            Modes::Any => true,
            Modes::Writing => value == 0,
        }
    }
}

// e is a lock of r in a mode that counts.
fn locks(e: Event, r: u8, modes: Modes) -> bool
    requires { InRange e }
    ensures { result ≡ locks_at (meaning e) r (mode_test (is_any modes)) }
{
    (e.kind == 2) & (e.rec == r) & modes.counts(e.value)
}

// e is a write of r.
fn writes(e: Event, r: u8) -> bool
    requires { InRange e }
    ensures { (result ≡ writes_at (meaning e) r) × (result ≡ true → e.kind ≡ 3) }
{
    (e.kind == 3) & (e.rec == r)
}

impl View<'_> {
    // The transaction that event k belongs to.
    fn owner_of(self, k: usize) -> Option<usize>
        requires { (k < 4096) × Bounded self.owner.now }
        ensures { (one_of result ≡ get_or self.entry.owner.now k 0) × IfSome result (λ i. (0 < i) × (i < 4097)) }
    {
        audit_link::one(self.owner[k])
    }

    // Event k is a lock of r by `me` itself, in a mode that counts. (`own_lock`, `bars`, `own_write` and `lay` ask different things of an event and of who
    // owns it: a closure for each would be no plainer.)
    fn own_lock(self, k: usize, r: u8, modes: Modes) -> bool
        requires { Readable self.list k × Bounded self.owner.now }
        ensures { result ≡ (same (get_or self.entry.owner.now k 0) self.entry.me && locks_at (event_in_bytes self.entry.list.events.now k) r (mode_test (is_any modes))) }
    {
        if self.owner[k] as usize != self.me {
            return false;
        }
        locks(self.list.event_at(k), r, modes)
    }

    // A lock of r by `me` itself was accepted: `me` holds it.
    pub fn holds(self, r: u8, modes: Modes) -> bool
        requires { AllReadable self.list × (0 < self.me) × Bounded self.owner.now }
        ensures { result ≡ locks_of (mode_test (is_any modes)) (λ i. same i self.entry.me) r (grants_to self.entry.owner.now self.entry.list.events.now self.entry.list.n) }
    {
        (0..self.list.n).any(|k| self.own_lock(k, r, modes))
    }

    // Event k is a lock of r that bars `me`.
    fn bars(self, k: usize, r: u8, modes: Modes) -> bool
        requires { Readable self.list k × Ordered self }
        ensures { let i = get_or self.entry.owner.now k 0 in
            let e = event_in_bytes self.entry.list.events.now k in
            ((l : Ledger) → Linked l self.entry.links.now.parent self.entry.links.now.fate
            → result ≡ (not (same i 0) && (grant_blocks l self.entry.me i && locks_at e r (mode_test (is_any modes))))) }
    {
        match self.owner_of(k) {
            None => false,
            Some(i) => {
                if locks(self.list.event_at(k), r, modes) {
                    return self.links.blocks(self.me, i);
                }
                false
            }
        }
    }

    // A lock of r that was accepted bars `me`.
    pub fn barred(self, r: u8, modes: Modes) -> bool
        requires { AllReadable self.list × Ordered self }
        ensures { (l : Ledger) → Linked l self.entry.links.now.parent self.entry.links.now.fate
            → result ≡ locks_of (mode_test (is_any modes)) (grant_blocks l self.entry.me) r (grants_to self.entry.owner.now self.entry.list.events.now self.entry.list.n) }
    {
        (0..self.list.n).any(|k| self.bars(k, r, modes))
    }

    // Event k is a write of r that stands with `me`.
    fn own_write(self, k: usize, r: u8) -> bool
        requires { Readable self.list k × Ordered self }
        ensures { let i = get_or self.entry.owner.now k 0 in
            let e = event_in_bytes self.entry.list.events.now k in
            ((l : Ledger) → Linked l self.entry.links.now.parent self.entry.links.now.fate
            → result ≡ (not (same i 0) && (same (stands_with l.story i) self.entry.me && writes_at e r))) }
    {
        match self.owner_of(k) {
            None => false,
            Some(i) => {
                if writes(self.list.event_at(k), r) {
                    return self.links.stands(Left::Data, i) == self.me;
                }
                false
            }
        }
    }

    // A write of r stands with `me`: it has changed r.
    pub fn changes(self, r: u8) -> bool
        requires { AllReadable self.list × Ordered self }
        ensures { (l : Ledger) → Linked l self.entry.links.now.parent self.entry.links.now.fate
            → result ≡ writes_to (λ i. same (stands_with l.story i) self.entry.me) r (writes_up_to self.entry.owner.now self.entry.list.events.now self.entry.list.n) }
    {
        (0..self.list.n).any(|k| self.own_write(k, r))
    }

    // Event k is laid over a page of r, if it is a write of r that shows to `me`.
    fn lay(self, page: &mut [u8; 32], k: usize, r: u8)
        requires { Readable self.list k × Ordered self }
        ensures { let i = get_or self.entry.owner.now k 0 in
            let e = event_in_bytes self.entry.list.events.now k in
            let before = page.old in
            ((l : Ledger) → Linked l self.entry.links.now.parent self.entry.links.now.fate
            → page.new ≡ cond (not (same i 0) && (shows_to l self.entry.me i && writes_at e r)) (byte_at e before) before) }
    {
        if let Some(i) = self.owner_of(k) {
            let e = self.list.event_at(k);
            if writes(e, r) {
                if self.links.shows(self.me, i) {
                    page[e.offset as usize] = e.value;
                }
            }
        }
    }

    // What `me` reads of r: the settled page at the start, with the writes laid over it that show to `me`.
    pub fn page_of(self, settled: [u8; 32], r: u8) -> [u8; 32]
        requires { AllReadable self.list × Ordered self }
        ensures { (l : Ledger) → Linked l self.entry.links.now.parent self.entry.links.now.fate
            → result ≡ overlaid (shows_to l self.entry.me) r (writes_up_to self.entry.owner.now self.entry.list.events.now self.entry.list.n) settled }
    {
        // A loop: `lay` changes the page in place, so that a fold would only hand it on.
        let mut page = settled;
        for k in 0..self.list.n {
            self.lay(&mut page, k, r);
        }
        page
    }
}
