// A crash, and a recover after it.
#![tactic(auto)]

ghost use Rattle.std.specs.Prelude.{◌≡◌, Bool, true, List, ℕ, ◌+◌, ◌*◌, length, replicate};
ghost use Rattle.std.proofs.Math.Option.{some};
ghost use Rattle.rules.specs.Event.{crash, recover};
ghost use Rattle.rules.specs.Editions.{Edition, geometry_of, form_in, InNumbers};
ghost use Rattle.leaf_event.specs.Answers.{told_answer};
ghost use Rattle.state_array.specs.Kin.{DerivedSets};
ghost use Rattle.leaf_commit_page.specs.Layout.{Known};
ghost use Rattle.store_write.specs.Phase.{stride_of};
ghost use Rattle.state_whole.specs.Lain.{arrays_in, WellSized};
ghost use Rattle.state_whole.specs.Whole.{arrays, Intact, Stepped};

use leaf_event::outcome::{Done, Refusal};
use state_whole::{Derived, State};

// All transactions go, with their locks and versions, and the engine is down.
pub fn clear_state<const RECORDS: usize, const PLACES: usize>(
    s: &mut State<RECORDS, PLACES>,
    d: &mut Derived,
)
    requires { WellSized s.old }
    ensures up_after { (s.new.up ≡ 0) × (s.new.parent ≡ replicate 24 0) × (s.new.depth ≡ replicate 24 0) × (s.new.line ≡ replicate 24 0)
        × (s.new.held ≡ replicate (2 * RECORDS) 0) × (s.new.retained ≡ replicate (2 * RECORDS) 0) × (s.new.writers ≡ replicate RECORDS 0) }
    ensures derived_sets { DerivedSets s.new.parent s.new.depth d.new.live d.new.children }
    ensures prepared { (d.new.reserved ≡ d.old.reserved) × (d.new.identity ≡ d.old.identity) }
    ensures sized { WellSized s.new }
{
    s.up = 0;
    s.parent = [0; 24];
    s.depth = [0; 24];
    s.line = [0; 24];
    d.live = 0;
    d.children = [0; 32];
    let places = 2 * RECORDS;
    state_lock::clear(&mut s.held, places);
    state_lock::clear(&mut s.retained, places);
    state_lock::clear(&mut s.writers, RECORDS);
}

// A crash.
pub fn crash_event<const RECORDS: usize, const PLACES: usize>(
    s: &mut State<RECORDS, PLACES>,
    d: &mut Derived,
) -> Result<Done, Refusal>
    requires { WellSized s.old }
    ensures stepped { (edition : Edition) (tears : Bool) (work store : List ℕ) →
        let before = arrays_in s.old work store in
        let after = arrays_in s.new work store in
        let form = form_in tears (geometry_of edition) in
        Intact form before → Stepped form before (some crash) (told_answer result) after }
    ensures derived_sets { DerivedSets s.new.parent s.new.depth d.new.live d.new.children }
    ensures prepared { (d.new.reserved ≡ d.old.reserved) × (d.new.identity ≡ d.old.identity) }
    ensures sized { WellSized s.new }
{
    clear_state(s, d);
    Ok(Done::Whole(0))
}

// A recovery, cut at k: only while down, over a commit page that is not damaged; where pages can tear, only if every page has a good copy. Refused, it
// changes nothing: pages are mended after that.
pub fn recover_event<
    const RECORDS: usize,
    const PLACES: usize,
    const JOINT: bool,
    const TEARS: bool,
>(s: &mut State<RECORDS, PLACES>, store: &mut [u8], k: u8) -> Result<Done, Refusal>
    requires known { Known RECORDS × (JOINT ≡ true → RECORDS ≡ 16) }
    requires pages { length store.old ≡ stride_of TEARS * (1 + (RECORDS + RECORDS)) }
    ensures stepped { (edition : Edition) (parent depth line held retained writers work : List ℕ) →
        let before = arrays s.old.up parent depth line held retained writers work store.old in
        let after = arrays s.new.up parent depth line held retained writers work store.new in
        let form = form_in TEARS (geometry_of edition) in
        InNumbers edition RECORDS JOINT TEARS → Intact form before → Stepped form before (some (recover k)) (told_answer result) after }
    ensures rest { s.new ≡ record s.old { up = s.new.up } }
{
    if s.up == 1 {
        return Err(Refusal::Up);
    }
    let c = store_commit::read_map(&store[..], RECORDS, JOINT, TEARS);
    let map = c.map;
    if !c.good {
        return Err(Refusal::Damaged);
    }
    let m = store_commit::recover_pages(store, map, RECORDS, TEARS, k);
    let made = m.made;
    if m.crashed {
        return Ok(Done::Cut(made));
    }
    s.up = 1;
    Ok(Done::Whole(made))
}
