// Whether the flag, the live transactions, the locks and the store go together.
#![tactic(auto)]

ghost use Rattle.std.specs.Prelude.{◌≡◌, true, List, ℕ, ◌*◌, length};
ghost use Rattle.laws.specs.Bits.{bits};
ghost use Rattle.rules.specs.Store.{read_commit, is_emptied, read_prepared};
ghost use Rattle.rules.specs.Geometry.{Geometry, records};
ghost use Rattle.rules.specs.Editions.{Edition, geometry_of, InNumbers};
ghost use Rattle.state_array.specs.Kin.{lives_in};
ghost use Rattle.leaf_commit_page.specs.Heard.{overheard};
ghost use Rattle.leaf_commit_page.specs.Layout.{Layout};
ghost use Rattle.store_write.specs.Phase.{stride_of};
ghost use Rattle.sound_clause.specs.Decides.{Decides};
ghost use Rattle.sound_clause.specs.Clauses.{Unlocked, StatusSound};

// Nobody has a lock of the records that a map names.
fn are_unlocked(map: u64, held: &[u32; 32], retained: &[u32; 32]) -> bool
    requires { (length held.now ≡ 32) × (length retained.now ≡ 32) }
    ensures { (g : Geometry) → records g ≡ 16 → Decides result (Unlocked g map held.now retained.now) }
{
    if map == 0 {
        return true;
    }
    let mut ok = true;
    for r in 0..16u8 {
        let any = 2 * (r as usize);
        let unlocked = (held[any] | retained[any]) == 0;
        ok = ok & (!leaf_commit_page::names(map, 16, r) | unlocked);
    }
    ok
}

// The map of the prepared transaction, 0 where there is none. An empty commit page has none, and isn't read a second time.
fn prepared_map(page: [u8; 32], empty: bool, joint: bool) -> u64
    requires { (g : Geometry) → Layout g 16 → empty ≡ true → is_emptied (read_commit g page) ≡ true }
    ensures { (g : Geometry) → Layout g 16 → g.joint ≡ joint → result ≡ (overheard (read_prepared g page)).map }
{
    if empty {
        return 0;
    }
    let p = leaf_commit_page::read_prepared(page, 16, joint);
    match p {
        Some(held) => held.map,
        None => 0,
    }
}

// The flag is 0 or 1, nothing is live while down, while up the commit page is empty or prepared and every page whole, and nobody has a lock of a record that
// the prepared transaction changed.
pub fn is_status_sound(
    up: u8,
    live: u32,
    held: &[u32; 32],
    retained: &[u32; 32],
    store: &[u8],
    joint: bool,
    tears: bool,
) -> bool
    requires { (length held.now ≡ 32) × (length retained.now ≡ 32) × (length store.now ≡ stride_of tears * 33) }
    ensures { (edition : Edition) (depth : List ℕ) → InNumbers edition 16 joint tears → bits live ≡ lives_in depth
        → Decides result (StatusSound tears (geometry_of edition) up depth held.now retained.now store.now) }
{
    let idle = leaf_set::within(live, 0);
    let empty = sound_store::is_emptied(store, tears, 16);
    let map = prepared_map(store_write::get_page(store, tears, 0), empty, joint);
    let unlocked = are_unlocked(map, held, retained);
    let prepared = map != 0;
    let is_up = up == 1;
    let flag = up <= 1;
    let down_idle = is_up | idle;
    let up_calm = !is_up | (empty | prepared);
    flag & down_idle & up_calm & unlocked
}
