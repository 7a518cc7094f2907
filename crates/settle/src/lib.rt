// What every call does that needs settled times, by the verdict of its checks: the figures, the passes, and the buffers as Analyse leaves them. What the call
// itself answers is read from the answer and the scratch afterwards.
#![tactic(auto)]

ghost use Rattle.std.specs.Prelude.{ℕ, ◌≡◌, ◌≤◌, ◌<◌, length, get_or};
ghost use Rattle.board.specs.Layout.{tasks};
ghost use Rattle.scratch.specs.Scratch.{ScratchRoom};
ghost use Rattle.checks.specs.Accepted.{Analysable};
ghost use Rattle.settle.specs.Begun.{Begun};
ghost use Rattle.settle.specs.Settled.{Settled};

use answers::Answer;
use answers::taken::answer;
use board::Board;
use figures::{FigureWords, MOST_FIGURE_WORDS};
use refusals::{Refusal, Verdict};
use settling::PassRule;

// By the passes of a rule. Counted are the records to fill: none where the call is refused.
pub fn settle<R: PassRule>(
    board: &[u32],
    verdict: Verdict,
    rule: &R,
    times: &mut [u32],
    scratch: &mut [u32],
    figures: &mut FigureWords,
) -> Result<Answer, Refusal>
    requires { verdict ≡ Ok tt → (Analysable board.now (length times.old) (length scratch.old)) × R.suits rule.now (tasks board.now) }
    ensures { Settled (R.step rule.now board.now) verdict board.now times.old scratch.old result
        figures.new times.new scratch.new }
{
    figures.records = 0;
    verdict?;
    let board = Board::of(board);
    let n = board.tasks() as usize;
    begin(&board, n, scratch, figures);
    Ok(answer(&board, n, rule, times, scratch))
}

// The figures of every task: in the scratch as the passes read them, and in the words and the sets as the table is filled from them, with a record for each.
fn begin(board: &Board, n: usize, scratch: &mut [u32], figures: &mut FigureWords)
    requires { ScratchRoom board.now n scratch.old }
    ensures { Begun board.now n scratch.old scratch.new figures.new }
{
    scratch::prepare(board, n, scratch, &mut figures.sets);
    copy(2 * n, 4 * n, scratch, &mut figures.words);
    figures.records = n;
}

// Copies the words from `first` to before `end` to the same places. They are stored one by one: `copy_from_slice` would have the library for C call `memmove`
// too, which it does not need from outside.
fn copy(first: usize, end: usize, from: &[u32], to: &mut [u32; MOST_FIGURE_WORDS])
    requires { (end ≤ length from.now) × (end ≤ 256) }
    ensures { (k : ℕ) → first ≤ k → k < end → get_or to.new k 0 ≡ get_or from.now k 0 }
{
    for k in first..end {
        to[k] = from[k];
    }
}
