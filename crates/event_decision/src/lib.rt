// The decision on a prepared transaction, and the question whether one is prepared.
#![tactic(auto)]

ghost use Rattle.std.specs.Prelude.{◌≡◌, Bool, true, false, not, ◌&&◌, List, ℕ, ◌+◌, ◌*◌, ◌^◌, ◌<◌, length};
ghost use Rattle.std.proofs.Math.Option.{some};
ghost use Rattle.laws.specs.Tests.{same};
ghost use Rattle.rules.specs.Store.{pages_of, read_prepared};
ghost use Rattle.rules.specs.Event.{decide, query};
ghost use Rattle.rules.specs.Commit.{decide_at};
ghost use Rattle.rules.specs.Geometry.{Geometry};
ghost use Rattle.rules.specs.Editions.{Edition, geometry_of, form_in, InNumbers};
ghost use Rattle.leaf_event.specs.Answers.{told_answer};
ghost use Rattle.state_array.specs.Kin.{DerivedSets};
ghost use Rattle.leaf_commit_page.specs.Heard.{prepared};
ghost use Rattle.leaf_commit_page.specs.Layout.{Known, Layout};
ghost use Rattle.store_write.specs.Phase.{PageWritesDone};
ghost use Rattle.state_whole.specs.Lain.{arrays_in, WellSized};
ghost use Rattle.state_whole.specs.Whole.{Arrays, Intact, Stepped, Reserves};

use leaf_event::outcome::{Done, Refusal};
use state_whole::{Derived, State};

// A transaction is prepared with identity i, where `reserved` is the map of what is prepared.
pub fn is_for(reserved: u64, identity: u8, i: u8) -> bool
    ensures { result ≡ (not (same reserved 0) && same identity i) }
{
    (reserved != 0) & (identity == i)
}

// The page writes of the decision on what is prepared, to commit or to abort; the first k of them happen.
fn decide_pages(
    store: &mut [u8],
    map: u64,
    identity: u8,
    records: usize,
    commits: bool,
    k: u8,
) -> store_commit::Made
    requires { Known records × (map < 2 ^ records) × (length store.old ≡ 32 * (1 + (records + records))) }
    ensures { (g : Geometry) →
        let before = pages_of store.old in
        let after = pages_of store.new in
        Layout g records → read_prepared g (before 0) ≡ some (prepared map identity) → PageWritesDone (decide_at g before commits k) after result.made result.crashed }
{
    if commits {
        return store_commit::commit_decided(store, map, records, identity, k);
    }
    store_commit::abort_decided(store, records, k)
}

// The decision on identity i, cut at k: for another than the prepared one it does nothing. What is prepared is read again. Only atomic pages hold what is
// prepared.
pub fn decide_event<const RECORDS: usize, const PLACES: usize, const JOINT: bool>(
    s: &mut State<RECORDS, PLACES>,
    d: &mut Derived,
    store: &mut [u8],
    commits: bool,
    k: u8,
    i: u8,
) -> Result<Done, Refusal>
    requires sized { WellSized s.old }
    requires known { Known RECORDS × (JOINT ≡ true → RECORDS ≡ 16) × (d.old.reserved < 2 ^ RECORDS) }
    requires pages { length store.old ≡ 32 * (1 + (RECORDS + RECORDS)) }
    requires derived_sets { DerivedSets s.old.parent s.old.depth d.old.live d.old.children }
    ensures stepped { (edition : Edition) (work : List ℕ) →
        let before = arrays_in s.old work store.old in
        let after = arrays_in s.new work store.new in
        let form = form_in false (geometry_of edition) in
        InNumbers edition RECORDS JOINT false → Intact form before → s.old.up ≡ 1
        → Reserves false (geometry_of edition) store.old d.old.reserved d.old.identity
        → Stepped form before (some (decide commits k i)) (told_answer result) after
        × Reserves false (geometry_of edition) store.new d.new.reserved d.new.identity }
    ensures derived_sets { DerivedSets s.new.parent s.new.depth d.new.live d.new.children }
    ensures sized { WellSized s.new }
{
    let map = d.reserved;
    let whose = d.identity;
    if !is_for(map, whose, i) {
        return Ok(Done::Whole(0));
    }
    let m = decide_pages(store, map, whose, RECORDS, commits, k);
    let made = m.made;
    let p = store_commit::read_held(&store[..], RECORDS, JOINT, false);
    d.reserved = p.map;
    d.identity = p.identity;
    if m.crashed {
        event_crash::clear_state(s, d);
        return Ok(Done::Cut(made));
    }
    Ok(Done::Whole(made))
}

// Whether a transaction is prepared with identity i: 1, else 0.
pub fn query_event(reserved: u64, identity: u8, i: u8) -> Result<Done, Refusal>
    ensures { (edition : Edition) (tears : Bool) (x : Arrays) →
        let form = form_in tears (geometry_of edition) in
        Intact form x → x.up ≡ 1 → Reserves tears (geometry_of edition) x.store reserved identity → Stepped form x (some (query i)) (told_answer result) x }
{
    if is_for(reserved, identity, i) {
        return Ok(Done::Whole(1));
    }
    Ok(Done::Whole(0))
}
