// Who bears which transaction number, and what becomes of transactions.
#![tactic(auto)]

ghost use Rattle.std.specs.Prelude.{◌≡◌, IfSome, false, cond, not, ◌&&◌, ℕ, ◌<◌, length, get_or, set, replicate};
ghost use Rattle.laws.specs.Tests.{same};
ghost use Rattle.laws.specs.Counting.{any, lowest};
ghost use Rattle.rules.specs.Geometry.{transactions};
ghost use Rattle.audit_link.specs.Links.{one_of, entry_at, Earlier, Bounded};
ghost use Rattle.audit_bearer.specs.Tables.{place_among, tables, tables_of, OthersStay, Matched, takes, Ending};

use audit_link::Links;

// What the events so far tell.
//   owner[k]    the transaction that event k belongs to, where it is an accepted lock or write; else 0
//   links       what has become of each transaction
//   bearer[t]   the transaction that bears number t; 0 where it is free
//   begun       how many transactions have begun
//   up          whether the store is up
#[derive(Drop)]
pub struct Tables {
    pub owner: [u16; 4096],
    pub links: Links,
    pub bearer: [u16; 24],
    pub begun: u16,
    pub up: bool,
}

impl Tables {
    // Before the first event: nothing is told, and the store is down.
    pub fn blank() -> Tables
        ensures { tables_of result ≡ tables (replicate 4096 0) (replicate 4097 0) (replicate 4097 0) (replicate 24 0) 0 false }
    {
        let owner = [0u16; 4096];
        let parent = [0u16; 4097];
        let fate = [0u8; 4097];
        let bearer = [0u16; 24];
        Tables {
            owner,
            links: Links { parent, fate },
            bearer,
            begun: 0,
            up: false,
        }
    }

    // The transaction that bears number t.
    pub fn bearer_of(&self, t: u8) -> Option<usize>
        requires { (length self.now.bearer ≡ 24) × Bounded self.now.bearer }
        ensures { (one_of result ≡ entry_at self.now.bearer t) × IfSome result (λ i. (0 < i) × (i < 4097)) }
    {
        let k = t as usize;
        if k < 24 {
            return audit_link::one(self.bearer[k]);
        }
        None
    }

    // The lowest free number.
    pub fn first_free(&self) -> Option<usize>
        ensures { (place_among 24 result ≡ lowest transactions (λ t. same (entry_at self.now.bearer t) 0)) × IfSome result (λ t. t < 24) }
    {
        (0..24usize).position(|t| self.bearer[t] == 0)
    }

    // Number t is borne, and the parent of who bears it is i.
    fn is_child(&self, t: usize, i: usize) -> bool
        requires { (t < 24) × Bounded self.now.bearer × Earlier self.now.links.parent }
        ensures { let u = entry_at self.now.bearer t in
            result ≡ (not (same u 0) && same (entry_at self.now.links.parent u) i) }
    {
        match audit_link::one(self.bearer[t]) {
            None => false,
            Some(u) => self.links.parent[u] as usize == i,
        }
    }

    // Some live transaction's parent is i.
    pub fn is_parent(&self, i: usize) -> bool
        requires { Bounded self.now.bearer × Earlier self.now.links.parent }
        ensures { let bears = entry_at self.now.bearer in
            result ≡ any transactions (λ t. not (same (bears t) 0) && same (entry_at self.now.links.parent (bears t)) i) }
    {
        (0..24usize).any(|t| self.is_child(t, i))
    }

    // Number t is free again, and its transaction has this fate.
    pub fn end(&mut self, t: usize, new: u8)
        requires { (t < 24) × Bounded self.old.bearer × (length self.old.bearer ≡ 24) × (length self.old.links.fate ≡ 4097) }
        ensures { (self.new.links.fate ≡ set self.old.links.fate (get_or self.old.bearer t 0) new)
            × (self.new.bearer ≡ set self.old.bearer t 0) × OthersStay self.old self.new }
    {
        let i = self.bearer[t] as usize;
        self.links.fate[i] = new;
        self.bearer[t] = 0;
    }

    // i is within a; everyone is, where a is none.
    fn takes(&self, a: Option<usize>, i: usize) -> bool
        requires { (i < 4097) × Earlier self.now.links.parent × IfSome a (λ j. 0 < j) }
        ensures { result ≡ takes self.now.links.parent (one_of a) i }
    {
        match a {
            None => true,
            Some(j) => self.links.within(j, i),
        }
    }

    // Who bears number t ends, if it is live and within a.
    fn end_if(&mut self, t: usize, a: Option<usize>)
        requires { (t < 24) × Bounded self.old.bearer × (length self.old.bearer ≡ 24) × (length self.old.links.fate ≡ 4097)
            × Earlier self.old.links.parent × IfSome a (λ j. 0 < j) }
        ensures { let i = get_or self.old.bearer t 0 in
            let ends = not (same i 0) && takes self.old.links.parent (one_of a) i in
            (self.new.links.fate ≡ cond ends (set self.old.links.fate i 0) self.old.links.fate)
            × (self.new.bearer ≡ cond ends (set self.old.bearer t 0) self.old.bearer) × OthersStay self.old self.new }
    {
        if let Some(i) = audit_link::one(self.bearer[t]) {
            if self.takes(a, i) {
                self.end(t, 0);
            }
        }
    }

    // The live transactions within a end; all, where a is none.
    pub fn end_within(&mut self, a: Option<usize>)
        requires { Bounded self.old.bearer × (length self.old.bearer ≡ 24) × (length self.old.links.fate ≡ 4097)
            × Earlier self.old.links.parent × IfSome a (λ i. 0 < i) }
        ensures { ((begun : ℕ) → begun < 4097 → Matched self.old.links.fate self.old.bearer begun
            → Ending (takes self.old.links.parent (one_of a)) 24 self.old.links.fate self.old.bearer self.new.links.fate self.new.bearer
            × Matched self.new.links.fate self.new.bearer begun)
            × (length self.new.links.fate ≡ 4097) × (length self.new.bearer ≡ 24) × Bounded self.new.bearer × OthersStay self.old self.new }
    {
        // A loop, since each step changes the tables.
        for t in 0..24usize {
            self.end_if(t, a);
        }
    }
}
