// Sets of numbers below 512, as the bits of eight 64-bit words: s is bit s mod 64 (bit 0 lowest) of word floor(s/64).
// The contracts hold for any words.
#![tactic(auto)]

pub mod records;
pub mod word;

ghost use Rattle.std.specs.Prelude.{◌≡◌, ◌&&◌, ◌||◌, false, ℕ, ◌+◌, ◌*◌, ◌<◌, ◌≤◌, eqb, length, get_or};
ghost use Rattle.std.specs.Int.Bits.{bit_and};
ghost use Rattle.std.specs.Int.Count.{ones};
ghost use Rattle.folds.specs.Folds.{count_to};
ghost use Rattle.bitset.specs.Bits.{member, words_of};
ghost use Rattle.bitset.specs.Records.{record_at};

// The words of a set.
pub const SET_WORDS: usize = 8;

// The set with nothing in it.
pub fn empty() -> [u64; SET_WORDS]
    ensures { result ≡ words_of 8 (λ (t : ℕ). false) }
{
    [0u64; SET_WORDS]
}

// Adds s to a set that is lent.
pub fn add_to(set: &mut [u64], s: usize)
    requires { (s < 512) × (length set.old ≡ 8) }
    ensures { set.new ≡ words_of 8 (λ (t : ℕ). eqb t s || member set.old t) }
{
    let i = s / 64;
    let w = set[i];
    set[i] = (1u64 << (s % 64)) | w;
}

// The numbers in a or in b.
pub fn union(a: [u64; SET_WORDS], b: [u64; SET_WORDS]) -> [u64; SET_WORDS]
    ensures { result ≡ words_of 8 (λ (t : ℕ). member a t || member b t) }
{
    let mut both = a;
    for i in 0..SET_WORDS {
        both[i] |= b[i];
    }
    both
}

// How many bits are set both in word i of a and in word j of b.
fn ones_of_both(a: &[u64], i: usize, b: &[u64], j: usize) -> u32
    requires { (i < length a.now) × (j < length b.now) }
    ensures { (result ≡ ones (bit_and (get_or a.now i 0) (get_or b.now j 0))) × (result ≤ 64) }
{
    u64::count_ones(a[i] & b[j])
}

// How many numbers below 256 are in both of two sets of four words, which are read where they stand: from 4i on in a, and from 4j on in b.
pub fn count_both(a: &[u64], i: usize, b: &[u64], j: usize) -> u32
    requires { (4 * i + 3 < length a.now) × (4 * j + 3 < length b.now) }
    ensures { (result ≡ count_to (λ (s : ℕ). member (record_at 4 a.now i) s && member (record_at 4 b.now j) s) 256) × (result ≤ 256) }
{
    let mut sum = 0;
    for k in 0..4 {
        sum += ones_of_both(a, 4 * i + k, b, 4 * j + k);
    }
    sum
}
