// Whether the sets of one lock fit each other, and what one transaction has of it fits what others have.
#![tactic(auto)]

ghost use Rattle.std.specs.Prelude.{◌≡◌, true, false, ℕ, ◌<◌};
ghost use Rattle.laws.specs.Bits.{bits};
ghost use Rattle.rules.specs.Geometry.{transactions};
ghost use Rattle.sound_clause.specs.Decides.{Decides};
ghost use Rattle.sound_clause.specs.Clauses.{LockSound, Share};

// The set has transaction numbers only.
fn is_set(s: u32) -> bool
    ensures { Decides result ((t : ℕ) → bits s t ≡ true → t < transactions) }
{
    s / 16777216 == 0
}

// The sets of one lock fit each other: transaction numbers, live, write mode within any mode, versions only in write mode.
pub fn is_lock(
    live: u32,
    held: u32,
    held_writing: u32,
    retained: u32,
    retained_writing: u32,
    writers: u32,
) -> bool
    ensures { Decides result (LockSound (bits live) (bits held) (bits held_writing) (bits retained) (bits retained_writing) (bits writers)) }
{
    let numbered = is_set(held | held_writing | retained | retained_writing | writers);
    let holders_live = leaf_set::within(held, live);
    let retainers_live = leaf_set::within(retained, live);
    let held_nested = leaf_set::within(held_writing, held);
    let retained_nested = leaf_set::within(retained_writing, retained);
    let by_lock = leaf_set::within(writers, held_writing | retained_writing);
    numbered & holders_live & retainers_live & held_nested & retained_nested & by_lock
}

// What t holds and retains of one lock fits what other transactions have of it. `above` are the transactions at or above t, `beneath` those at or beneath it.
pub fn is_share(
    above: u32,
    beneath: u32,
    held: u32,
    held_writing: u32,
    retained: u32,
    retained_writing: u32,
    t: u8,
) -> bool
    requires { t < 24 }
    ensures { Decides result (Share (bits above) (bits beneath) (bits held) (bits held_writing) (bits retained) (bits retained_writing) t) }
{
    let holds = leaf_set::contains(held, t);
    let writes = leaf_set::contains(held_writing, t);
    let retains = leaf_set::contains(retained, t);
    let below_writers = leaf_set::within(retained_writing, above);
    let alone = leaf_set::within(held, leaf_set::single(t));
    let below_all = leaf_set::within(retained, above);
    let aligned = leaf_set::within(retained_writing, above | beneath);
    let holder_beneath = !holds | below_writers;
    let writer_alone = !writes | alone;
    let writer_beneath = !writes | below_all;
    let on_one_line = !retains | aligned;
    holder_beneath & writer_alone & writer_beneath & on_one_line
}

// More than one transaction is in the set.
pub fn is_crowded(s: u32) -> bool
    ensures { result ≡ false → (t u : ℕ) → bits s t ≡ true → bits s u ≡ true → t ≡ u }
{
    if s == 0 {
        return false;
    }
    s & (s - 1) != 0
}
