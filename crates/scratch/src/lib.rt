// The word scratch: the figures of every task, laid out for the passes, and a task's sum and its parts from them. It is lent, and passes write times into it
// between two sums: a struct over it, the board and n would be made anew for every sum.
#![tactic(auto)]

ghost use Rattle.std.specs.Prelude.{◌≡◌, ◌≤◌, ◌<◌, length};
ghost use Rattle.figures.specs.Survey.{Surveyed};
ghost use Rattle.sums.specs.Sums.{task_sum};
ghost use Rattle.sums.specs.Links.{Linked};
ghost use Rattle.sums.specs.Inputs.{CappedTimes};
ghost use Rattle.interference.specs.Parts.{sum_parts, counts_of};
ghost use Rattle.folds.specs.Stored.{Stored};
ghost use Rattle.scratch.specs.Scratch.{ScratchRoom, RowAddable, with_md, Addable, Added, Prepared};

use board::Board;
use figures::ECB_WORDS;
use figures::row::place;
use interference::{Counted, SumParts, task_parts};

// What a sum has counted before it is made.
const UNCOUNTED: Counted = Counted {
    higher_work: 0,
    core_accesses: 0,
    other_accesses: 0,
};

// Adds each task's MD to its word of the row at `at`.
fn add_row(n: usize, at: usize, scratch: &mut [u32])
    requires { RowAddable n at scratch.old }
    ensures { Stored (with_md n at scratch.old) at n scratch.old scratch.new }
{
    for k in 0..n {
        scratch[at + k] += scratch[3 * n + k];
    }
}

// Adds each column's MD to the rows.
fn add_md(n: usize, scratch: &mut [u32])
    requires { Addable n scratch.old }
    ensures { Added n n scratch.old scratch.new }
{
    for i in 0..n {
        add_row(n, place(n, i), scratch);
    }
}

// Lays out the figures of every task, with each task's ECB as a record of the sets.
pub fn prepare(board: &Board, n: usize, scratch: &mut [u32], sets: &mut [u64; ECB_WORDS])
    requires { ScratchRoom board.now n scratch.old }
    ensures { (Prepared board.now n scratch.new) × (length scratch.new ≡ length scratch.old)
        × (Surveyed board.now n n scratch.new sets.new) }
{
    survey::survey(board, n, true, scratch, sets);
    add_md(n, scratch);
}

// The sum of task i at the times, from a prepared scratch.
pub fn sum_of(board: &Board, n: usize, scratch: &[u32], times: &[u32], i: usize) -> u64
    requires { (Prepared board.now n scratch.now) × (CappedTimes board.now times.now) × (i < n) }
    ensures { result ≡ task_sum board.now times.now i }
{
    let links = linked_tasks::make(board);
    sum_along(board, n, &links, scratch, times, i)
}

// Its six parts.
pub fn parts_of(board: &Board, n: usize, scratch: &[u32], times: &[u32], i: usize) -> SumParts
    requires { (Prepared board.now n scratch.now) × (CappedTimes board.now times.now) × (i < n) }
    ensures { result ≡ sum_parts board.now times.now i }
{
    let links = linked_tasks::make(board);
    let mut counts = UNCOUNTED;
    let sum = along(board, n, &links, scratch, times, i, &mut counts);
    task_parts(board, times, i, u64::from(scratch[2 * n + i]), sum, counts)
}

// The sum along links that are made already: for callers that sum many tasks.
pub fn sum_along(
    board: &Board,
    n: usize,
    links: &[u32],
    scratch: &[u32],
    times: &[u32],
    i: usize,
) -> u64
    requires { (Prepared board.now n scratch.now) × (CappedTimes board.now times.now) × (i < n) × Linked board.now links.now }
    ensures { result ≡ task_sum board.now times.now i }
{
    let mut counts = UNCOUNTED;
    along(board, n, links, scratch, times, i, &mut counts)
}

// The sum along such links, and what it counted, which goes to a lent struct: the callers that need the sum alone do not read it, and a pass of bus 3 takes a tenth
// longer where both are handed back.
fn along(
    board: &Board,
    n: usize,
    links: &[u32],
    scratch: &[u32],
    times: &[u32],
    i: usize,
    counts: &mut Counted,
) -> u64
    requires { (Prepared board.now n scratch.now) × (CappedTimes board.now times.now) × (i < n) × Linked board.now links.now }
    ensures { (result ≡ task_sum board.now times.now i)
        × (counts.new ≡ counts_of board.now times.now i) }
{
    let own = place(n, i);
    let all = place(n, n - 1);
    interference::task_sum(
        board,
        links,
        &scratch[2 * n..3 * n],
        &scratch[own..own + n],
        &scratch[all..all + n],
        times,
        i,
        counts,
    )
}
