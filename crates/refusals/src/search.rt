// The loops over a board's words: the first that is out of its range, and sums.
ghost use Rattle.std.specs.Prelude.{None, true, ◌≡◌, ℕ, ◌+◌, ◌*◌, ◌≤◌, ◌<◌, length};
ghost use Rattle.folds.specs.Folds.{sum_to};
ghost use Rattle.board.specs.Layout.{word, most_words};
ghost use Rattle.ranges.specs.Parts.{word_ok};
ghost use Rattle.refusals.specs.Found.{bad_in};

use ranges::{Part, word_ok};

// The first of the words from .. end - 1 of a part that is out of its range.
#[tactic(auto, using(crate::proofs::Searches::searched))]
pub(crate) fn first_bad(board: &[u32], part: Part, from: usize, end: usize) -> Option<usize>
    requires { (20 ≤ length board.now) × (end ≤ length board.now) }
    ensures { result ≡ bad_in (word_ok part board.now) from end }
{
    for i in from..end {
        if !word_ok(board, part, i) {
            return Some(i);
        }
    }
    None
}

// Whether all of these words are in their range. It looks at every one of them, so that the machine can take several at a time.
#[inline(always)]
#[tactic(auto, using(crate::proofs::Searches::searched))]
pub(crate) fn all_ok(board: &[u32], part: Part, from: usize, end: usize) -> bool
    requires { (20 ≤ length board.now) × (end ≤ length board.now) }
    ensures { result ≡ true → bad_in (word_ok part board.now) from end ≡ None }
{
    let mut ok = true;
    for i in from..end {
        ok &= word_ok(board, part, i);
    }
    ok
}

// The sum of count words, the first at from and each next one stride further on.
#[tactic(auto, using(crate::proofs::Strides::added))]
pub fn sum_words(board: &[u32], from: usize, stride: usize, count: usize) -> usize
    requires { (count ≤ most_words) × ((k : ℕ) → k < count → from + stride * k < length board.now) }
    ensures { result ≡ sum_to (λ k. word board.now (from + stride * k)) count }
{
    let mut sum = 0;
    for k in 0..count {
        sum += board[from + stride * k] as usize;
    }
    sum
}
