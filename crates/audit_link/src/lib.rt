// What has become of the transactions of a history. Transactions are counted from 1 as they begin; 0 is none.
#![tactic(auto)]

ghost use Rattle.std.specs.Prelude.{◌≡◌, Option, IfSome, cond, not, ◌&&◌, ◌+◌, ◌-◌, ◌<◌, ◌≤◌};
ghost use Rattle.laws.specs.Tests.{same};
ghost use Rattle.history.specs.History.{climbs, is_committed};
ghost use Rattle.audit_rules.specs.Plain.{Ledger, rises, height, grant_blocks};
ghost use Rattle.audit_link.specs.Links.{is_locks, one_of, fate_of, passed_of, entry_at, up_in, Earlier, Linked, shows_to};

// What transactions leave to their parents, and what has become of them.
//   parent[i]   the parent of i, begun before it; 0 for a top one
//   fate[i]     0 ended; 1 ended, and its locks went up; 2 a child that committed; 3 a top one that survives; 32 + t: it bears the number t
#[derive(Drop)]
pub struct Links {
    pub parent: [u16; 4097],
    pub fate: [u8; 4097],
}

// What a transaction can leave to its parent.
#[derive(Clone, Copy, Debug, PartialEq, Eq)]
pub enum Left {
    Locks,
    Data,
}

// What a transaction with this fate left went up to its parent.
pub fn goes_up(f: u8, left: Left) -> bool
    ensures { result ≡ cond (is_locks left) (passed_of f) (is_committed (fate_of f)) }
{
    match left {
        Left::Locks => (0 < f) & (f < 32),
        Left::Data => f == 2,
    }
}

// A transaction, or none, as it is counted.
pub fn one(entry: u16) -> Option<usize>
    ensures { (one_of result ≡ entry) × IfSome result (λ j. 0 < j) }
{
    if entry == 0 {
        return None;
    }
    Some(entry as usize)
}

impl Links {
    // The parent of i.
    pub fn above(&self, i: usize) -> Option<usize>
        requires { (i < 4097) × Earlier self.now.parent }
        ensures { (one_of result ≡ entry_at self.now.parent i) × (one_of result ≤ i - 1) × IfSome result (λ j. 0 < j) }
    {
        one(self.parent[i])
    }

    // The transaction with which the locks, or the writes, of i stand by now. (The walks of `stands`, `within` and `depth_of` differ in where they stop and
    // in what they keep: one function for the three would take two closures, and be no plainer.)
    pub fn stands(&self, left: Left, i: usize) -> usize
        requires { (i < 4097) × Earlier self.now.parent }
        ensures { (result ≡ rises (entry_at self.now.parent) (up_in self.now.fate (is_locks left)) i i) × (result ≤ i) }
    {
        let mut at = i;
        while goes_up(self.fate[at], left) {
            match self.above(at) {
                Some(up) => at = up,
                None => return 0,
            }
        }
        at
    }

    // i is a, or a is an ancestor of i.
    pub fn within(&self, a: usize, i: usize) -> bool
        requires { (i < 4097) × Earlier self.now.parent }
        ensures { result ≡ (not (same a 0) && climbs (entry_at self.now.parent) i a i) }
    {
        let mut at = i;
        while at != a {
            match self.above(at) {
                Some(j) => at = j,
                None => return false,
            }
        }
        a != 0
    }

    // i and the transactions above it.
    pub fn depth_of(&self, i: usize) -> usize
        requires { (i < 4097) × Earlier self.now.parent }
        ensures { result ≡ height (entry_at self.now.parent) i i }
    {
        if i == 0 {
            return 0;
        }
        let mut at = i;
        let mut d = 1usize;
        while let Some(j) = self.above(at) {
            at = j;
            d += 1;
        }
        d
    }

    // A lock that i was granted stands in the way of another transaction.
    pub fn blocks(&self, asker: usize, i: usize) -> bool
        requires { (i < 4097) × (asker < 4097) × Earlier self.now.parent }
        ensures { (l : Ledger) → Linked l self.now.parent self.now.fate → result ≡ grant_blocks l asker i }
    {
        let j = self.stands(Left::Locks, i);
        if self.fate[j] < 32 {
            return false;
        }
        if j == i {
            return i != asker;
        }
        !self.within(j, asker)
    }

    // A write of i shows to a transaction: it survives, or it stands with that one or an ancestor.
    pub fn shows(&self, reader: usize, i: usize) -> bool
        requires { (i < 4097) × (reader < 4097) × Earlier self.now.parent }
        ensures { (l : Ledger) → Linked l self.now.parent self.now.fate → result ≡ shows_to l reader i }
    {
        let j = self.stands(Left::Data, i);
        if self.fate[j] == 3 {
            return true;
        }
        self.within(j, reader)
    }
}
