// The checks that each call makes of what it takes: the rows of its board, and then its own in the table's order.
#![tactic(auto)]

pub mod order;
pub mod rows;

ghost use Rattle.std.specs.Prelude.{◌≡◌};
ghost use Rattle.checks.specs.CallRefusals.{figures_refusal, overhead_refusal, weigh_refusal, analyse_refusal, in_order_refusal, make_up_refusal};

use order::order_row;
use refusals::Verdict;
pub use rows::Lengths;
use rows::{board_rows, buffer_rows, table_row, task_row, time_row, times_row};

// What `figures` checks, its table being of this many records.
#[tactic(auto, using(refusals::proofs::Verdicts::chain), unfolding(crate::specs::CallRefusals::figures_refusal))]
pub fn check_figures(board: &[u32], room: usize) -> Verdict
    ensures { result ≡ figures_refusal board.now room }
{
    let n = board_rows(board)?;
    table_row(n, room)
}

// What `overhead` checks.
#[tactic(auto, using(refusals::proofs::Verdicts::chain), unfolding(crate::specs::CallRefusals::overhead_refusal))]
pub fn check_overhead(board: &[u32], i: usize, j: usize) -> Verdict
    ensures { result ≡ overhead_refusal board.now i j }
{
    let n = board_rows(board)?;
    task_row(n, i)?;
    task_row(n, j)
}

// What `weigh` checks.
#[tactic(auto, using(crate::proofs::Checks::lengths), unfolding(crate::specs::CallRefusals::weigh_refusal))]
pub fn check_weigh(board: &[u32], times: &[u32], number: usize) -> Verdict
    ensures { result ≡ weigh_refusal board.now times.now number }
{
    let n = board_rows(board)?;
    task_row(n, number)?;
    times_row(n, times.len())?;
    time_row(board, times, n)
}

// What `analyse` checks.
#[tactic(auto, using(refusals::proofs::Verdicts::chain), unfolding(crate::specs::CallRefusals::analyse_refusal))]
pub fn check_analyse(board: &[u32], lengths: Lengths) -> Verdict
    ensures { result ≡ analyse_refusal board.now lengths.times lengths.scratch lengths.table }
{
    let n = board_rows(board)?;
    buffer_rows(n, lengths)
}

// What `analyse_in_order` checks.
#[tactic(auto, using(refusals::proofs::Verdicts::chain), unfolding(crate::specs::CallRefusals::in_order_refusal))]
pub fn check_in_order(board: &[u32], lengths: Lengths, order: &[u32]) -> Verdict
    ensures { result ≡ in_order_refusal board.now lengths.times lengths.scratch lengths.table order.now }
{
    let n = board_rows(board)?;
    buffer_rows(n, lengths)?;
    order_row(n, order)
}

// What `make_up` checks.
#[tactic(auto, using(refusals::proofs::Verdicts::chain), unfolding(crate::specs::CallRefusals::make_up_refusal))]
pub fn check_make_up(board: &[u32], lengths: Lengths, task: usize) -> Verdict
    ensures { result ≡ make_up_refusal board.now lengths.times lengths.scratch lengths.table task }
{
    let n = board_rows(board)?;
    task_row(n, task)?;
    buffer_rows(n, lengths)
}
