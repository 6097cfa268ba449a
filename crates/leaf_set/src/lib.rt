// A set of transaction numbers: a word, with a bit for each number.
#![tactic(auto)]

ghost use Rattle.std.specs.Prelude.{◌≡◌, not, ◌&&◌, ◌||◌, ◌<◌};
ghost use Rattle.laws.specs.Tests.{same};
ghost use Rattle.laws.specs.Counting.{all};
ghost use Rattle.laws.specs.Bits.{bits};
ghost use Rattle.rules.specs.Geometry.{transactions};

// Transaction t is in s.
pub fn contains(s: u32, t: u8) -> bool
    requires { t < 32 }
    ensures { result ≡ bits s t }
{
    (s >> t) % 2 == 1
}

// The set of t alone.
pub fn single(t: u8) -> u32
    requires { t < 32 }
    ensures { bits result ≡ (λ k. same k t) }
{
    1u32 << t
}

// The members of s, and t.
pub fn with(s: u32, t: u8) -> u32
    requires { t < 32 }
    ensures { bits result ≡ (λ k. bits s k || same k t) }
{
    s | single(t)
}

// The members of s that g doesn't have.
pub fn minus(s: u32, g: u32) -> u32
    ensures { bits result ≡ (λ k. not (bits g k) && bits s k) }
{
    s & (s ^ g)
}

// The members of s other than t.
pub fn without(s: u32, t: u8) -> u32
    requires { t < 32 }
    ensures { bits result ≡ (λ k. not (same k t) && bits s k) }
{
    minus(s, single(t))
}

// Each transaction of s is in o.
pub fn within(s: u32, o: u32) -> bool
    ensures { result ≡ all transactions (λ k. not (bits s k) || bits o k) }
{
    (s & (s ^ o)) % 16777216 == 0
}
