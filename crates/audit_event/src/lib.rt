// The auditor: it finds the answer that is due to each event in the history so far, and keeps no version and no lock.
//   list            the list of events, and the place of the event that comes
//   tables          what the events before it tell
//   start, store    the bytes of a store: before the first event, and as they are due by now
//   me, t           the transaction whose event it is, as counted in the tables, and the number that it bears
// A contract says of the tables before the event and after it that the event is answered and told as it is due.
#![tactic(auto)]

ghost use Rattle.std.specs.Prelude.{◌≡◌, Result, true, false, cond, not, ◌||◌, List, ℕ, ◌<◌, length, get_or};
ghost use Rattle.std.proofs.Math.Option.{some};
ghost use Rattle.rules.specs.Store.{Page};
ghost use Rattle.rules.specs.Event.{begin, lock, write, read, commit, abort, crash, recover, access_of};
ghost use Rattle.rules.specs.Editions.{edition1};
ghost use Rattle.laws.specs.Tests.{same, under};
ghost use Rattle.history.specs.Demand3.{settled_in};
ghost use Rattle.leaf_event.specs.Meaning.{meaning, InRange};
ghost use Rattle.audit_scan.specs.Scans.{Readable, is_any};
ghost use Rattle.audit_bearer.specs.Tables.{tables_of, Matched};
ghost use Rattle.audit_page.specs.Changed.{made_in, is_cut};
ghost use Rattle.audit_event.specs.Step.{AuditedAs, BearerReady, Childless, Before, InOrder};

use audit_bearer::Tables;
use audit_page::{Done, Written};
use audit_scan::{Listed, Modes, View};
use leaf_event::Event;

// Why an event is refused: the number that the answer gives.
#[derive(Clone, Copy, Debug, PartialEq, Eq)]
pub enum Refusal {
    BadEvent = 1,
    Down = 2,
    Up = 3,
    Damaged = 4,
    NotLive = 5,
    TooDeep = 6,
    NoneFree = 7,
    Barred = 8,
    NotHeld = 9,
    CommitBesideChild = 10,
    BesideChild = 14,
}

impl From<Refusal> for u8 {
    ghost use Rattle.std.specs.Prelude.{◌≡◌};
    ghost use Rattle.audit_event.specs.Step.{event_refusal};

    ghost from_gives = { λ r n. n ≡ event_refusal r };

    fn from(r: Refusal) -> u8 {
        r as u8
    }
}

// A begin under p, while up.
fn begin_event(tables: &mut Tables, p: u8) -> Result<Done, Refusal>
    requires { InOrder tables.old × Matched tables.old.links.fate tables.old.bearer tables.old.begun × (tables.old.begun < 4096) × (tables.old.up ≡ true) }
    ensures { (start : ℕ → Page) (events store : List ℕ) (n : ℕ) →
        let e = some (begin p) in
        Before events n e (tables_of tables.old) → AuditedAs start events n (tables_of tables.old) store e result (tables_of tables.new) store }
{
    let above = tables.bearer_of(p).unwrap_or(0);
    if (p != 31) & (above == 0) {
        return Err(Refusal::NotLive);
    }
    if tables.links.depth_of(above) == 16 {
        return Err(Refusal::TooDeep);
    }
    let t = match tables.first_free() {
        Some(t) => t,
        None => return Err(Refusal::NoneFree),
    };
    let i = tables.begun + 1;
    tables.begun = i;
    tables.bearer[t] = i;
    tables.links.parent[i as usize] = above as u16;
    tables.links.fate[i as usize] = 32 + t as u8;
    Ok(Done::Whole(t as u8))
}

// The modes of a lock that bar one which is asked for with this value: 0 asks for write mode.
fn barring(value: u8) -> Modes
    ensures { is_any result ≡ same value 0 }
{
    if value == 0 {
        return Modes::Any;
    }
    Modes::Writing
}

// A lock of r is asked for by `me`, which has no live child: granted, or refused where it is barred.
fn lock_event(
    list: Listed<'_>,
    tables: &mut Tables,
    me: usize,
    r: u8,
    value: u8,
) -> Result<Done, Refusal>
    requires { Readable list list.n × InOrder tables.old × (me < 4097) × (0 < me) }
    ensures { (start : ℕ → Page) (store : List ℕ) (t : ℕ) →
        let events = list.entry.events.now in
        let n = list.entry.n in
        let before = tables_of tables.old in
        let e = some (lock t r (access_of value)) in
        Before events n e before → BearerReady before t me → Childless before events n me
        → AuditedAs start events n before store e result (tables_of tables.new) store }
{
    let view = View {
        list,
        owner: &tables.owner,
        links: &tables.links,
        me,
    };
    if view.barred(r, barring(value)) {
        return Err(Refusal::Barred);
    }
    tables.owner[list.n] = me as u16;
    Ok(Done::Whole(0))
}

// A byte of r is written by `me`, which has no live child: it must hold the lock in write mode.
fn write_event(list: Listed<'_>, tables: &mut Tables, me: usize, r: u8) -> Result<Done, Refusal>
    requires { Readable list list.n × InOrder tables.old × (me < 4097) × (0 < me) }
    ensures { (start : ℕ → Page) (store : List ℕ) (t o v : ℕ) →
        let events = list.entry.events.now in
        let n = list.entry.n in
        let before = tables_of tables.old in
        let e = some (write t r o v) in
        Before events n e before → BearerReady before t me → Childless before events n me
        → AuditedAs start events n before store e result (tables_of tables.new) store }
{
    let view = View {
        list,
        owner: &tables.owner,
        links: &tables.links,
        me,
    };
    if view.holds(r, Modes::Writing) {
        tables.owner[list.n] = me as u16;
        return Ok(Done::Whole(0));
    }
    Err(Refusal::NotHeld)
}

// A byte of r is read by `me`, which has no live child: it must hold the lock, in any mode.
fn read_event(
    start: &[u8],
    list: Listed<'_>,
    tables: &Tables,
    me: usize,
    r: u8,
    o: usize,
) -> Result<Done, Refusal>
    requires { Readable list list.n × InOrder tables.now × (me < 4097) × (0 < me) × (length start.now ≡ 1056) × (r < 16) × (o < 32) }
    ensures { (store : List ℕ) (t : ℕ) →
        let events = list.entry.events.now in
        let n = list.entry.n in
        let before = tables_of tables.now in
        let e = some (read t r o) in
        Before events n e before → BearerReady before t me → Childless before events n me
        → AuditedAs (settled_in edition1 start.now) events n before store e result before store }
{
    let view = View {
        list,
        owner: &tables.owner,
        links: &tables.links,
        me,
    };
    if view.holds(r, Modes::Any) {
        let page = view.page_of(audit_page::settled_page(start, r), r);
        return Ok(Done::Whole(page[o]));
    }
    Err(Refusal::NotHeld)
}

// An abort of `me`, with a report or without.
fn abort_event(tables: &mut Tables, me: usize, report: bool) -> Result<Done, Refusal>
    requires { InOrder tables.old × (me < 4097) × (0 < me) × (tables.old.up ≡ true) }
    ensures { (start : ℕ → Page) (events store : List ℕ) (n t : ℕ) →
        let before = tables_of tables.old in
        let e = some (abort t report) in
        Before events n e before → get_or tables.old.bearer t 0 ≡ me → tables.old.begun < 4097
        → AuditedAs start events n before store e result (tables_of tables.new) store }
{
    tables.end_within(Some(me));
    tables.links.fate[me] = u8::from(report);
    Ok(Done::Whole(0))
}

// All end, and the store is down.
fn crash_event(tables: &mut Tables) -> Result<Done, Refusal>
    requires { InOrder tables.old }
    ensures { (start : ℕ → Page) (events store : List ℕ) (n : ℕ) →
        let before = tables_of tables.old in
        Before events n (some crash) before → tables.old.begun < 4097 → AuditedAs start events n before store (some crash) result (tables_of tables.new) store }
{
    tables.end_within(None);
    tables.up = false;
    Ok(Done::Whole(0))
}

// The fate of a top transaction after these page writes: it survives if none was cut, or the commit record was written.
fn fate_after(w: Written) -> u8
    ensures { result ≡ cond (not (is_cut w.made) || under w.ones (made_in w.made)) 3 1 }
{
    match w.made {
        Done::Whole(_) => 3,
        Done::Cut(made) => if w.ones < made { 3 } else { 1 },
    }
}

// A commit of `me`, of number t, which has no live child.
fn commit_event(
    start: &[u8],
    store: &mut [u8],
    list: Listed<'_>,
    tables: &mut Tables,
    me: usize,
    t: usize,
    k: u8,
) -> Result<Done, Refusal>
    requires { Readable list list.n × InOrder tables.old × (me < 4097) × (length start.now ≡ 1056) × (length store.old ≡ 1056) × (t < 24) × (tables.old.up ≡ true) }
    ensures { let events = list.entry.events.now in
        let n = list.entry.n in
        let before = tables_of tables.old in
        let e = some (commit t k) in
        tables.old.begun < 4097 → Before events n e before → BearerReady before t me → Childless before events n me
        → AuditedAs (settled_in edition1 start.now) events n before store.old e result (tables_of tables.new) store.new }
{
    if tables.links.above(me).is_some() {
        tables.end(t, 2);
        return Ok(Done::Whole(0));
    }
    let view = View {
        list,
        owner: &tables.owner,
        links: &tables.links,
        me,
    };
    let w = audit_page::commit_writes(start, store, view, k);
    tables.end(t, fate_after(w));
    if let Done::Cut(made) = w.made {
        tables.end_within(None);
        tables.up = false;
        return Ok(Done::Cut(made));
    }
    Ok(w.made)
}

// A recovery, while down: refused where the commit page is damaged.
fn recover_event(store: &mut [u8], tables: &mut Tables, k: u8) -> Result<Done, Refusal>
    requires { (length store.old ≡ 1056) × InOrder tables.old × (tables.old.up ≡ false) }
    ensures { (start : ℕ → Page) (events : List ℕ) (n : ℕ) →
        let before = tables_of tables.old in
        let e = some (recover k) in
        tables.old.begun < 4097 → Before events n e before
        → AuditedAs start events n before store.old e result (tables_of tables.new) store.new }
{
    let Some(map) = audit_page::read_map(store) else {
        return Err(Refusal::Damaged);
    };
    let m = audit_page::recover_writes(store, map, k);
    if let Done::Cut(made) = m {
        tables.end_within(None);
        return Ok(Done::Cut(made));
    }
    tables.up = true;
    Ok(m)
}

// A lock, a write or a read by `me`, which has no live child. (Here and below an event's kind is a number, as leaf_event has it.)
fn record_event(
    start: &[u8],
    list: Listed<'_>,
    tables: &mut Tables,
    me: usize,
    e: Event,
) -> Result<Done, Refusal>
    requires { Readable list list.n × InOrder tables.old × (length start.now ≡ 1056) × InRange e × (me < 4097) × (0 < me) × (1 < e.kind) × (e.kind < 5) }
    ensures { (store : List ℕ) →
        let events = list.entry.events.now in
        let n = list.entry.n in
        let before = tables_of tables.old in
        Before events n (meaning e) before → BearerReady before e.transaction me → Childless before events n me
        → AuditedAs (settled_in edition1 start.now) events n before store (meaning e) result (tables_of tables.new) store }
{
    let kind = e.kind;
    if kind == 2 {
        return lock_event(list, tables, me, e.rec, e.value);
    }
    if kind == 3 {
        return write_event(list, tables, me, e.rec);
    }
    read_event(start, list, tables, me, e.rec, e.offset as usize)
}

// An event of the live transaction `me`, while up.
fn named_event(
    start: &[u8],
    store: &mut [u8],
    list: Listed<'_>,
    tables: &mut Tables,
    me: usize,
    e: Event,
) -> Result<Done, Refusal>
    requires { Readable list list.n × InOrder tables.old × (length start.now ≡ 1056) × (length store.old ≡ 1056) × InRange e × (me < 4097) × (0 < me)
        × (1 < e.kind) × (e.kind < 7) × (e.transaction < 24) × (tables.old.up ≡ true) }
    ensures { let events = list.entry.events.now in
        let n = list.entry.n in
        let before = tables_of tables.old in
        tables.old.begun < 4097 → Before events n (meaning e) before → BearerReady before e.transaction me
        → AuditedAs (settled_in edition1 start.now) events n before store.old (meaning e) result (tables_of tables.new) store.new }
{
    let kind = e.kind;
    if kind == 6 {
        return abort_event(tables, me, e.value != 0);
    }
    let child = tables.is_parent(me);
    if kind == 5 {
        if child {
            return Err(Refusal::CommitBesideChild);
        }
        return commit_event(
            start,
            store,
            list,
            tables,
            me,
            e.transaction as usize,
            e.count,
        );
    }
    if child {
        return Err(Refusal::BesideChild);
    }
    record_event(start, list, tables, me, e)
}

// The answer that is due to the event that comes, which is e, and what it does to the tables and to the pages: for the first eight kinds, or a bad event.
fn plain_event(
    start: &[u8],
    store: &mut [u8],
    list: Listed<'_>,
    tables: &mut Tables,
    e: Event,
) -> Result<Done, Refusal>
    requires { Readable list list.n × (length start.now ≡ 1056) × (length store.old ≡ 1056) × InRange e
        × Before list.events.now list.n (meaning e) (tables_of tables.old) × (e.kind < 9) }
    ensures { AuditedAs (settled_in edition1 start.now) list.entry.events.now list.entry.n (tables_of tables.old) store.old (meaning e) result (tables_of tables.new) store.new }
{
    let kind = e.kind;
    if kind == 0 {
        return Err(Refusal::BadEvent);
    }
    if kind == 7 {
        return crash_event(tables);
    }
    if kind == 8 {
        if tables.up {
            return Err(Refusal::Up);
        }
        return recover_event(store, tables, e.count);
    }
    if !tables.up {
        return Err(Refusal::Down);
    }
    if kind == 1 {
        return begin_event(tables, e.transaction);
    }
    match tables.bearer_of(e.transaction) {
        None => Err(Refusal::NotLive),
        Some(me) => named_event(start, store, list, tables, me, e),
    }
}

// The same for an event of any kind: one of two-phase commit is a bad event here.
pub fn due_event(
    start: &[u8],
    store: &mut [u8],
    list: Listed<'_>,
    tables: &mut Tables,
    e: Event,
) -> Result<Done, Refusal>
    requires { Readable list list.n × (length start.now ≡ 1056) × (length store.old ≡ 1056) × InRange e
        × Before list.events.now list.n (meaning e) (tables_of tables.old) }
    ensures { AuditedAs (settled_in edition1 start.now) list.entry.events.now list.entry.n (tables_of tables.old) store.old (meaning e) result (tables_of tables.new) store.new }
{
    if 8 < e.kind {
        return Err(Refusal::BadEvent);
    }
    plain_event(start, store, list, tables, e)
}
