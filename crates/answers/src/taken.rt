// What a call does once it is not refused.
ghost use Rattle.std.specs.Prelude.{◌≡◌, ◌-◌, ◌≤◌, length, take};
ghost use Rattle.figures.specs.Overhead.{γ};
ghost use Rattle.sums.specs.Sums.{task_sum};
ghost use Rattle.one_pass.specs.System.{system};
ghost use Rattle.scratch.specs.Scratch.{Passable, Prepared};
ghost use Rattle.checks.specs.Accepted.{OverheadTaken, WeighTaken};
ghost use Rattle.answers.specs.Concluded.{answer_of, times_of, Concluded};

use crate::Answer;
use board::{Board, MOST_SCRATCH};
use figures::ECB_WORDS;
use settling::PassRule;

// The answer, from the passes that were made over the first n words of the scratch. The settled times are in the buffer where they are the answer.
pub fn conclude(
    board: &Board,
    n: usize,
    passes: Option<u32>,
    times: &mut [u32],
    scratch: &[u32],
) -> Answer
    requires { (Passable board.now n scratch.now) × (n ≤ length times.old) }
    ensures { (result ≡ answer_of (system board.now) passes (take n scratch.now))
        × (times.new ≡ times_of (system board.now) passes (take n scratch.now) times.old) }
{
    let Some(made) = passes else {
        return Answer::Spent;
    };
    match settling::late::deliver(board, n, &scratch[..n], times) {
        Some(late) => Answer::Late(late as u32 + 1, made),
        None => Answer::Times(made),
    }
}

// The passes, by a rule, and the answer, over a prepared scratch, which is still prepared, and begins with the settled times unless the passes are spent.
pub fn answer<R: PassRule>(
    board: &Board,
    n: usize,
    rule: &R,
    times: &mut [u32],
    scratch: &mut [u32],
) -> Answer
    requires { (Prepared board.now n scratch.old) × (n ≤ length times.old) × R.suits rule.now n }
    ensures { (Concluded board.now (R.step rule.now board.now) times.old scratch.old result
        times.new scratch.new) × Prepared board.now n scratch.new }
{
    let limit = board.pass_limit();
    let passes = settling::run(board, n, rule, limit, scratch);
    conclude(board, n, passes, times, scratch)
}

// The sum of task i, a number from 1, at the times.
pub fn sum(board: &Board, times: &[u32], i: usize) -> u64
    requires { WeighTaken board.now times.now i }
    ensures { result ≡ task_sum board.now times.now (i - 1) }
{
    let n = board.tasks() as usize;
    let mut words = [0u32; MOST_SCRATCH];
    let mut sets = [0u64; ECB_WORDS];
    scratch::prepare(board, n, &mut words, &mut sets);
    scratch::sum_of(board, n, &words, times, i - 1)
}

// γ(i, j), of tasks that are numbers from 1.
pub fn overhead(board: &Board, i: usize, j: usize) -> u64
    requires { OverheadTaken board.now i j }
    ensures { result ≡ γ board.now (i - 1) (j - 1) }
{
    u64::from(survey::overhead(board, i - 1, j - 1))
}
