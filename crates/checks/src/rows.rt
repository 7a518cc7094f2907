// The rows of the refusal table, for the checks of all calls: those of a board, and those of what else a call takes, for n tasks.
ghost use Rattle.std.specs.Prelude.{◌≡◌, ◌<◌, ◌≤◌, length, Ok};
ghost use Rattle.board.specs.Layout.{tasks, most_tasks};
ghost use Rattle.ranges.specs.Ranges.{within};
ghost use Rattle.refusals.specs.Refusals.{refusal_of};
ghost use Rattle.refusals.specs.Found.{bad_in};
ghost use Rattle.checks.specs.CallRefusals.{task_row, times_row, scratch_row, table_row, buffer_rows, time_ok, time_row};
ghost use Rattle.checks.specs.Accepted.{Judged};

use board::Board;
use refusals::{Refusal, Row, Verdict, check_that, refuse_at};

// The lengths of Analyse's buffers: the words of the times buffer and of the scratch, and the records of the table.
#[derive(Clone, Copy, Debug, PartialEq, Eq)]
pub struct Lengths {
    pub times: usize,
    pub scratch: usize,
    pub table: usize,
}

// Rows 1 to 9: the board's tasks where it passes.
pub fn board_rows(board: &[u32]) -> Result<usize, Refusal>
    ensures { Judged board.now result }
{
    refusals::check(board)?;
    Ok(Board::of(board).tasks() as usize)
}

// Row 10, of a task number.
pub fn task_row(n: usize, i: usize) -> Verdict
    ensures { result ≡ task_row n i }
{
    check_that(Row::TaskNumber, is_number(n, i), i)
}

// Whether a number is one of 1 .. n.
pub(crate) fn is_number(n: usize, number: usize) -> bool
    ensures { result ≡ within 1 n number }
{
    (1..=n).contains(&number)
}

// Row 11, of the words of a times buffer.
pub fn times_row(n: usize, times: usize) -> Verdict
    ensures { result ≡ times_row n times }
{
    check_that(Row::TimesBuffer, n <= times, times)
}

// Row 12, of the words of a scratch.
pub fn scratch_row(n: usize, scratch: usize) -> Verdict
    requires { n ≤ most_tasks }
    ensures { result ≡ scratch_row n scratch }
{
    check_that(Row::Scratch, n * n + 4 * n <= scratch, scratch)
}

// Row 13, of the records of a table.
pub fn table_row(n: usize, table: usize) -> Verdict
    ensures { result ≡ table_row n table }
{
    check_that(Row::FiguresTable, n <= table, table)
}

// Rows 11 to 13, of Analyse's buffers.
#[tactic(auto, using(refusals::proofs::Verdicts::chain))]
pub fn buffer_rows(n: usize, lengths: Lengths) -> Verdict
    requires { n ≤ most_tasks }
    ensures { result ≡ buffer_rows n lengths.times lengths.scratch lengths.table }
{
    times_row(n, lengths.times)?;
    scratch_row(n, lengths.scratch)?;
    table_row(n, lengths.table)
}

// Row 14, of n times; where there are not so many, row 11 refuses. The board is words alone, since with n = 0 it may be one that did not pass.
#[tactic(auto, using(refusals::proofs::Verdicts::first_rows))]
pub fn time_row(board: &[u32], times: &[u32], n: usize) -> Verdict
    requires { 0 < n → (refusal_of board.now ≡ Ok tt) × (n ≡ tasks board.now) }
    ensures { n ≤ length times.now → result ≡ time_row board.now times.now n }
{
    if n == 0 || times.len() < n {
        return Ok(());
    }
    refuse_at(Row::GivenTime, first_over(&Board::of(board), times))
}

// The first of the tasks whose time is above its bound + 1.
#[tactic(auto, using(refusals::proofs::Searches::searched))]
fn first_over(board: &Board, times: &[u32]) -> Option<usize>
    requires { tasks board.now ≤ length times.now }
    ensures { result ≡ bad_in (time_ok board.now times.now) 0 (tasks board.now) }
{
    let n = board.tasks() as usize;
    for k in 0..n {
        if board.bound(k) + 1 < times[k] {
            return Some(k);
        }
    }
    None
}
