// The auditor's verdict: from event to event what is due against what was answered, then page by page.
#![tactic(auto)]

ghost use Rattle.std.specs.Prelude.{◌≡◌, Result, IfSome, IfOk, true, cond, not, ◌&&◌, ◌+◌, ◌*◌, ◌<◌, ◌≤◌, length, get_or};
ghost use Rattle.laws.specs.Tests.{same, under};
ghost use Rattle.laws.specs.Counting.{lowest};
ghost use Rattle.rules.specs.Store.{pages_of};
ghost use Rattle.rules.specs.Step.{first_of, is_busy, number_of, value_of};
ghost use Rattle.rules.specs.Run.{words};
ghost use Rattle.rules.specs.Editions.{geometry1, edition1};
ghost use Rattle.history.specs.Demand3.{settled_in};
ghost use Rattle.audit_rules.specs.Plain.{blank_ledger};
ghost use Rattle.audit_rules.specs.Audit.{is_two_phase, some_two_phase, audit_refusals, same_page, audit1};
ghost use Rattle.audit_rules.specs.Walk.{wrong, right, walk};
ghost use Rattle.audit_bearer.specs.Tables.{place_among};
ghost use Rattle.audit_event.specs.Step.{answered_as};
ghost use Rattle.audit_verdict.specs.Codes.{number_in, place_in, audit_refusal, refused_by, verdict_in, Fit};

use audit_bearer::Tables;
use audit_page::Done;
use audit_scan::Listed;
use leaf_event::Event;

// Why an audit is refused: the number that it answers.
#[derive(Clone, Copy, Debug, PartialEq, Eq)]
pub enum Refusal {
    EventsLength = 20,
    AnswersLength = 21,
    StoreLength = 22,
    TwoPhase = 30,
}

impl From<Refusal> for u8 {
    ghost use Rattle.std.specs.Prelude.{◌≡◌};
    ghost use Rattle.audit_verdict.specs.Codes.{audit_refusal};

    ghost from_gives = { λ r n. n ≡ audit_refusal r };

    fn from(r: Refusal) -> u8 {
        r as u8
    }
}

// Whether all belong together; else the first wrong event, or the first wrong page.
#[derive(Clone, Copy, Debug, PartialEq, Eq)]
pub enum Verdict {
    Belongs,
    WrongEvent(u16),
    WrongPage(u16),
}

// The two bytes of an answer.
fn bytes_of(due: Result<Done, audit_event::Refusal>) -> (u8, u8)
    ensures { (result.0 ≡ number_of (answered_as due)) × (result.1 ≡ value_of (answered_as due)) }
{
    match due {
        Ok(Done::Whole(value)) => (0, value),
        Ok(Done::Cut(made)) => (11, made),
        Err(refusal) => (u8::from(refusal), 0),
    }
}

// Answer k is the one that is due.
fn answered(answers: &[u8], k: usize, due: Result<Done, audit_event::Refusal>) -> bool
    requires { (k < 4096) × (2 * k + 2 ≤ length answers.now) }
    ensures { result ≡ (same (get_or answers.now (2 * k) 0) (number_of (answered_as due)) && same (get_or answers.now (2 * k + 1) 0) (value_of (answered_as due))) }
{
    let (number, value) = bytes_of(due);
    let at = 2 * k;
    (answers[at] == number) & (answers[at + 1] == value)
}

// The first of n events whose answer isn't the one that is due; where there is none the store is the one that is due.
fn walk(start: &[u8], store: &mut [u8], events: &[u8], answers: &[u8], n: usize) -> Option<usize>
    requires { (n ≤ 4096) × (4 * n ≤ length events.now) × (2 * n ≤ length answers.now) × (length start.now ≡ 1056) × (length store.old ≡ 1056) }
    ensures { let settled = settled_in edition1 start.now in
        let before = pages_of store.old in
        let after = pages_of store.new in
        let list = words geometry1 n events.now in
        let k = place_among n result in
        IfSome result (λ j. j < n) × (k ≤ n)
        × (walk edition1 settled answers.now blank_ledger before 0 list ≡ cond (under k n) (wrong k) (right after)) }
{
    let table = Event::table();
    let mut tables = Tables::blank();
    // A loop, since each event changes the tables and the store.
    for k in 0..n {
        let list = Listed {
            table: &table,
            events,
            n: k,
        };
        let due = audit_event::due_event(start, store, list, &mut tables, list.event_at(k));
        if !answered(answers, k, due) {
            return Some(k);
        }
    }
    None
}

// Page p differs in two stores.
fn differs(a: &[u8], b: &[u8], p: usize) -> bool
    requires { (p < 33) × (length a.now ≡ 1056) × (length b.now ≡ 1056) }
    ensures { result ≡ not (same_page edition1 a.now b.now p) }
{
    leaf_page::get_page(a, p) != leaf_page::get_page(b, p)
}

// The first page that differs in two stores.
fn first_page(a: &[u8], b: &[u8]) -> Option<usize>
    requires { (length a.now ≡ 1056) × (length b.now ≡ 1056) }
    ensures { (place_among 33 result ≡ lowest 33 (λ p. not (same_page edition1 a.now b.now p))) × IfSome result (λ p. p < 33) }
{
    (0..33usize).position(|p| differs(a, b, p))
}

// The word's kind is one of two-phase commit.
fn is_two_phase(w: u32) -> bool
    ensures { result ≡ is_two_phase geometry1 w }
{
    let kind = w / Event::KIND_PLACE % Event::KIND_SPAN;
    (8 < kind) & (kind < 12)
}

// Such a kind is among the first n events.
fn two_phase(events: &[u8], n: usize) -> bool
    requires { (n ≤ 4096) × (4 * n ≤ length events.now) }
    ensures { result ≡ some_two_phase geometry1 (words geometry1 n events.now) }
{
    // A fold, and no `any`: without a way out it compiles to steps of several events.
    (0..n).fold(
        false,
        |met, k| met | is_two_phase(Event::word_at(events, k)),
    )
}

// A transaction is prepared in a store.
fn prepared(start: &[u8]) -> bool
    requires { length start.now ≡ 1056 }
    ensures { result ≡ is_busy (edition1.medium.prepared (edition1.medium.from_bytes start.now)) }
{
    let p = leaf_commit_page::read_prepared(leaf_page::get_page(start, 0), 16, true);
    p.is_some()
}

// The bytes of a store, by value.
fn copied(store: &[u8]) -> [u8; 1056]
    requires { length store.now ≡ 1056 }
    ensures { result ≡ store.now }
{
    let mut copy = [0u8; 1056];
    copy.copy_from_slice(store);
    copy
}

// The first refusal, in the order of the rules; or there is none.
fn checked(start: &[u8], events: &[u8], answers: &[u8], end: &[u8]) -> Result<(), Refusal>
    ensures { let refusals = audit_refusals edition1 start.now events.now answers.now end.now in
        (first_of refusals ≡ refused_by result)
        × IfOk result (λ u. Fit (length start.now) (length events.now) (length answers.now) (length end.now)) }
{
    if (start.len() != 1056) | (end.len() != 1056) {
        return Err(Refusal::StoreLength);
    }
    let size = events.len();
    if (size % 4 != 0) | (16384 < size) {
        return Err(Refusal::EventsLength);
    }
    let n = size / 4;
    if answers.len() < 2 * n {
        return Err(Refusal::AnswersLength);
    }
    if two_phase(events, n) | prepared(start) {
        return Err(Refusal::TwoPhase);
    }
    Ok(())
}

// Whether a start store, a list of events, its answers and an end store belong together.
fn judged(start: &[u8], events: &[u8], answers: &[u8], end: &[u8]) -> Result<Verdict, Refusal>
    ensures { verdict_in result ≡ audit1 start.now events.now answers.now end.now }
{
    checked(start, events, answers, end)?;
    let mut store = copied(start);
    if let Some(k) = walk(start, &mut store[..], events, answers, events.len() / 4) {
        return Ok(Verdict::WrongEvent(k as u16));
    }
    if let Some(p) = first_page(end, &store[..]) {
        return Ok(Verdict::WrongPage(p as u16));
    }
    Ok(Verdict::Belongs)
}

// The verdict as a number and a place: 0 if all belong together; 1 if not, and the place of the first wrong event; 2, where every event is right, and
// the place of the first wrong page; or a refusal's number.
pub fn audit(start: &[u8], events: &[u8], answers: &[u8], end: &[u8], place: &mut u16) -> u8
    ensures { let verdict = audit1 start.now events.now answers.now end.now in
        (result ≡ number_in verdict) × (place.new ≡ place_in verdict place.old) }
{
    match judged(start, events, answers, end) {
        Ok(Verdict::Belongs) => 0,
        Ok(Verdict::WrongEvent(k)) => {
            *place = k;
            1
        }
        Ok(Verdict::WrongPage(p)) => {
            *place = p;
            2
        }
        Err(refusal) => u8::from(refusal),
    }
}
