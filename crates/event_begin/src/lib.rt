// A begin: under nobody at the top, or under a live transaction.
#![tactic(auto)]

ghost use Rattle.std.specs.Prelude.{◌≡◌, Bool, List, ℕ, ◌<◌, ◌≤◌, length, get_or};
ghost use Rattle.std.proofs.Math.Option.{some};
ghost use Rattle.laws.specs.Bits.{bits};
ghost use Rattle.rules.specs.Event.{begin};
ghost use Rattle.rules.specs.Editions.{depths, Edition, geometry_of, form_in};
ghost use Rattle.leaf_event.specs.Answers.{told_answer};
ghost use Rattle.leaf_set.specs.Sets.{sets};
ghost use Rattle.state_array.specs.Kin.{DerivedSets};
ghost use Rattle.state_whole.specs.Lain.{WellSized};
ghost use Rattle.state_whole.specs.Whole.{arrays, Intact, Stepped};

use leaf_event::outcome::{Done, Refusal};
use state_whole::{Derived, State};

const DEPTH_LIMIT: u8 = leaf_page::DEPTHS as u8;

// A transaction begins under p, which is a live transaction at depth `level`, or 31 and `level` is 0 (then it is a top transaction). `above` is the line of p.
fn begin_under<const RECORDS: usize, const PLACES: usize>(
    s: &mut State<RECORDS, PLACES>,
    d: &mut Derived,
    p: u8,
    level: u8,
    above: u32,
) -> Result<Done, Refusal>
    requires sized { (length s.old.parent ≡ 24) × (length s.old.depth ≡ 24) × (length s.old.line ≡ 24) }
    requires parent { (level < depths) × (level ≡ get_or s.old.depth p 0) × (bits above ≡ sets s.old.line p) × ((level ≡ 0) → p ≡ 31) × (p < 32) }
    requires derived_sets { DerivedSets s.old.parent s.old.depth d.old.live d.old.children }
    ensures stepped { (k : Edition) (tears : Bool) (up : ℕ) (held retained writers work store : List ℕ) →
        let before = arrays up s.old.parent s.old.depth s.old.line held retained writers work store in
        let after = arrays up s.new.parent s.new.depth s.new.line held retained writers work store in
        let form = form_in tears (geometry_of k) in
        Intact form before → up ≡ 1 → Stepped form before (some (begin p)) (told_answer result) after }
    ensures derived_sets { DerivedSets s.new.parent s.new.depth d.new.live d.new.children }
    ensures rest { (s.new ≡ record s.old { parent = s.new.parent; depth = s.new.depth; line = s.new.line }) × (d.new ≡ record d.old { live = d.new.live; children = d.new.children }) }
    ensures sized { WellSized s.old → WellSized s.new }
{
    let f = state_tree::first_free(d.live);
    if f == 24 {
        return Err(Refusal::NoneFree);
    }
    state_tree::give_number(
        &mut s.parent,
        &mut s.depth,
        &mut s.line,
        f,
        p,
        level + 1,
        above,
    );
    state_tree::add_child(&mut d.live, &mut d.children, p, f);
    Ok(Done::Whole(f))
}

// A transaction begins: at the top where p is 31, else under the live transaction p, unless that is at the depth limit.
pub fn begin_event<const RECORDS: usize, const PLACES: usize>(
    s: &mut State<RECORDS, PLACES>,
    d: &mut Derived,
    p: u8,
) -> Result<Done, Refusal>
    requires sized { (length s.old.parent ≡ 24) × (length s.old.depth ≡ 24) × (length s.old.line ≡ 24) }
    requires named { p < 32 }
    requires shallow { (k : ℕ) → get_or s.old.depth k 0 ≤ depths }
    requires derived_sets { DerivedSets s.old.parent s.old.depth d.old.live d.old.children }
    ensures stepped { (k : Edition) (tears : Bool) (up : ℕ) (held retained writers work store : List ℕ) →
        let before = arrays up s.old.parent s.old.depth s.old.line held retained writers work store in
        let after = arrays up s.new.parent s.new.depth s.new.line held retained writers work store in
        let form = form_in tears (geometry_of k) in
        Intact form before → up ≡ 1 → Stepped form before (some (begin p)) (told_answer result) after }
    ensures derived_sets { DerivedSets s.new.parent s.new.depth d.new.live d.new.children }
    ensures rest { (s.new ≡ record s.old { parent = s.new.parent; depth = s.new.depth; line = s.new.line }) × (d.new ≡ record d.old { live = d.new.live; children = d.new.children }) }
    ensures sized { WellSized s.old → WellSized s.new }
{
    if p == 31 {
        return begin_under(s, d, 31, 0, 0);
    }
    if 24 <= p {
        return Err(Refusal::NotLive);
    }
    let i = p as usize;
    let level = s.depth[i];
    if level == 0 {
        return Err(Refusal::NotLive);
    }
    if level == DEPTH_LIMIT {
        return Err(Refusal::TooDeep);
    }
    let above = s.line[i];
    begin_under(s, d, p, level, above)
}
