// Sets of numbers below 64, as the bits of one 64-bit word: k is bit k, bit 0 lowest. The contracts hold for any word.
ghost use Rattle.std.specs.Prelude.{◌≡◌, not, ◌&&◌, ◌||◌, ℕ, ◌<◌, eqb};
ghost use Rattle.bitset.specs.Bits.{bit, word_of};

// Whether k is in the set.
pub fn has(w: u64, k: usize) -> bool
    requires { k < 64 }
    ensures { result ≡ bit w k }
{
    (w >> k) % 2 == 1
}

// The set with k added, and with k taken out.
pub fn with(w: u64, k: usize) -> u64
    requires { k < 64 }
    ensures { result ≡ word_of (λ (t : ℕ). eqb t k || bit w t) 64 }
{
    (1u64 << k) | w
}

pub fn without(w: u64, k: usize) -> u64
    requires { k < 64 }
    ensures { result ≡ word_of (λ (t : ℕ). not (eqb t k) && bit w t) 64 }
{
    !(1u64 << k) & w
}

// The numbers below 64 that are in a or not in b.
pub fn or_not(a: u64, b: u64) -> u64
    ensures { result ≡ word_of (λ (t : ℕ). bit a t || not (bit b t)) 64 }
{
    a | !b
}
