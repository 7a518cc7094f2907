// A small number for each set of one cache or of two, kept bit by bit in planes of four words a cache: the sum over given sets, and what a mark does to
// the numbers.
#![tactic(auto)]

ghost use Rattle.std.specs.Prelude.{◌≡◌, ◌&&◌, List, ℕ, ◌+◌, ◌*◌, ◌/◌, ◌%◌, ◌≤◌, ◌<◌, eqb, length};
ghost use Rattle.folds.specs.Folds.{count_to};
ghost use Rattle.bitset.specs.Bits.{member, word_of};
ghost use Rattle.bitset.specs.Records.{record_at};
ghost use Rattle.counts.specs.Planes.{sets_of, in_plane, count_of, largest};
ghost use Rattle.counts.specs.Counted.{most_counted, Counted};
ghost use Rattle.counts.specs.Turns.{MarkApplied};
ghost use Rattle.counts.specs.Carries.{moves, falls, Rippled};

use bitset::count_both;

// The words of the most planes: four, of four words for each of two caches.
pub const PLANE_WORDS: usize = 32;

// No count is larger: 15 blocks, the most of four planes, in each set of two caches.
pub const MOST_COUNTED: u32 = 7680;

// A number for each set of one cache or of two, in up to four planes: the words of plane i are the 4 × caches from 4 × (i × caches) on. The words are last, so
// that no store into them can be one into the other fields, which then need not be read again.
#[derive(Clone, Copy)]
pub struct Counts {
    pub caches: usize,
    pub planes: usize,
    pub words: [u64; PLANE_WORDS],
    ghost some: { 1 ≤ caches },
    ghost pair: { caches ≤ 2 },
    ghost few: { planes ≤ 4 },
    ghost size: { length words ≡ 32 },
}

impl Counts {
    // Every number 0.
    pub fn none(caches: usize, planes: usize) -> Counts
        requires { (1 ≤ caches) × (caches ≤ 2) × (planes ≤ 4) }
        ensures { (result.caches ≡ caches) × (result.planes ≡ planes)
            × ((s : ℕ) → s < sets_of caches → count_of caches result.words 0 planes s ≡ 0) }
    {
        Counts {
            caches,
            planes,
            words: [0; PLANE_WORDS],
        }
    }

    // The useful blocks in the sets of record j of `ecbs`: the sum of their numbers.
    pub fn count_in(&self, ecbs: &[u64], j: usize) -> u32
        requires { 8 * j + 7 < length ecbs.now }
        ensures { (Counted self.now.caches self.now.words self.now.planes (record_at 8 ecbs.now j) result) × (result ≤ most_counted) }
    {
        count_in(&self.words, self.caches, self.planes, ecbs, j)
    }

    // The number of a mark's set as the mark says: one more, one less, or as it was.
    pub fn apply_mark(&mut self, mark: u32)
        requires { (mark < 1024 * self.old.caches)
            × (mark % 4 ≡ 1 → count_of self.old.caches self.old.words 0 self.old.planes (mark / 4) < largest self.old.planes)
            × (mark % 4 ≡ 2 → 1 ≤ count_of self.old.caches self.old.words 0 self.old.planes (mark / 4)) }
        ensures { (MarkApplied self.old.caches self.old.words self.old.planes mark self.new.words)
            × (self.new.caches ≡ self.old.caches) × (self.new.planes ≡ self.old.planes) }
    {
        move_number(&mut self.words, self.caches, self.planes, mark);
    }
}

// The useful blocks in the sets of record j of `ecbs`: the sum of their numbers. Both are read where they stand, and nothing is built of them. The words of
// the record may be any.
pub fn count_in(live: &[u64], caches: usize, planes: usize, ecbs: &[u64], j: usize) -> u32
    requires { (1 ≤ caches) × (caches ≤ 2) × (4 * (planes * caches) ≤ length live.now) × (planes ≤ 4) × (8 * j + 7 < length ecbs.now) }
    ensures { (Counted caches live.now planes (record_at 8 ecbs.now j) result) × (result ≤ most_counted) }
{
    let mut sum: u32 = 0;
    for i in (0..planes).rev() {
        sum = 2 * sum + common(live, caches, i, ecbs, j);
    }
    sum
}

// How many numbers are in plane i and in record j of `ecbs`: the numbers below 256 for one cache, and those below 512 for two.
fn common(live: &[u64], caches: usize, i: usize, ecbs: &[u64], j: usize) -> u32
    requires { (1 ≤ caches) × (caches ≤ 2) × (4 * (i * caches) + 4 * caches ≤ length live.now) × (8 * j + 7 < length ecbs.now) }
    ensures { (result ≡ count_to (λ (s : ℕ). in_plane caches live.now i s && member (record_at 8 ecbs.now j) s) (sets_of caches)) × (result ≤ 512) }
{
    let at = i * caches;
    let first = count_both(live, at, ecbs, 2 * j);
    if caches == 1 {
        return first;
    }
    first + count_both(live, at + 1, ecbs, 2 * j + 1)
}

// The number of a mark's set as the mark says: one more, one less, or as it was.
pub fn apply_mark(live: &mut [u64], caches: usize, planes: usize, mark: u32)
    requires { (mark < 1024 * caches) × (1 ≤ planes) × (planes ≤ 4) × (4 * (planes * caches) ≤ length live.old) × (caches ≤ 2)
        × (mark % 4 ≡ 1 → count_of caches live.old 0 planes (mark / 4) < largest planes)
        × (mark % 4 ≡ 2 → 1 ≤ count_of caches live.old 0 planes (mark / 4)) }
    ensures { (MarkApplied caches live.old planes mark live.new) × (length live.new ≡ length live.old) }
{
    move_number(live, caches, planes, mark);
}

// What `apply_mark` does, and of no plane too: there the words have room for one, and a mark moves no number. There is no branch on the mark, which is a packed
// word for that: the first plane has the carry or the borrow by exclusive or, and of one plane no carry is left.
fn move_number(live: &mut [u64], caches: usize, planes: usize, mark: u32)
    requires { (mark < 1024 * caches) × (4 * caches ≤ length live.old) × (planes ≤ 4) × (4 * (planes * caches) ≤ length live.old) × (caches ≤ 2)
        × (mark % 4 ≡ 1 → count_of caches live.old 0 planes (mark / 4) < largest planes)
        × (mark % 4 ≡ 2 → 1 ≤ count_of caches live.old 0 planes (mark / 4)) }
    ensures { (MarkApplied caches live.old planes mark live.new) × (length live.new ≡ length live.old) }
{
    let at = (mark / 256) as usize;
    let carry = carry_of(mark);
    let w = live[at];
    live[at] = w ^ carry;
    if planes <= 1 {
        return;
    }
    let turned = all_if(mark % 4 == 2);
    carry_on(live, caches, planes, mark, turned, carry & (w ^ turned));
}

// Carries a mark's carry or borrow on, from the second plane: each plane has it by exclusive or, and hands it on where its bit was 1, or for a borrow 0. Most
// numbers are 0 or 1, so that most carries end in the first plane.
fn carry_on(live: &mut [u64], caches: usize, planes: usize, mark: u32, turned: u64, first: u64)
    requires { (mark < 1024 * caches) × (1 ≤ planes) × (planes ≤ 4) × (4 * (planes * caches) ≤ length live.old) × (caches ≤ 2)
        × (turned ≡ word_of (λ (t : ℕ). falls mark) 64) }
    ensures { ((old : List ℕ) → (mark % 4 ≡ 1 → count_of caches old 0 planes (mark / 4) < largest planes)
        → (mark % 4 ≡ 2 → 1 ≤ count_of caches old 0 planes (mark / 4)) → Rippled caches planes mark (mark / 256) old 1 first live.old
        → MarkApplied caches old planes mark live.new) × (length live.new ≡ length live.old) }
{
    let at = (mark / 256) as usize;
    let mut carry = first;
    for i in 1..planes {
        if carry == 0 {
            return;
        }
        let k = 4 * (i * caches) + at;
        let w = live[k];
        live[k] = w ^ carry;
        carry = carry & (w ^ turned);
    }
}

// All bits set where the test holds, and none where not.
fn all_if(test: bool) -> u64
    ensures { result ≡ word_of (λ (t : ℕ). test) 64 }
{
    if test { u64::MAX } else { 0 }
}

// The bit of a mark's set in its word, where the mark moves the set's number.
fn carry_of(mark: u32) -> u64
    ensures { result ≡ word_of (λ (t : ℕ). eqb t (mark / 4 % 64) && moves mark) 64 }
{
    let low = mark % 4;
    u64::from((low == 1) | (low == 2)) << (mark / 4 % 64)
}
