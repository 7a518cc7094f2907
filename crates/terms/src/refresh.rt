// The refreshes that can delay a task, by their form.
ghost use Rattle.std.specs.Prelude.{◌≡◌, ◌<◌, ◌≤◌};
ghost use Rattle.board.specs.Layout as at;
ghost use Rattle.sums.specs.Sums as spec;
ghost use Rattle.sums.specs.Inputs.{CappedTimes};

use crate::rows::time;
use board::{Board, Refresh};

// Burst: every interval that begins refreshes all rows.
fn burst(board: &Board, times: &[u32], i: usize) -> u64
    requires { CappedTimes board.now times.now × (i < at.tasks board.now) × (1 ≤ at.refresh board.now) }
    ensures { result ≡ spec.refreshes board.now times.now i 1 }
{
    let t = time(board, times, i);
    let interval = u64::from(board.refresh_interval());
    let rows = u64::from(board.refresh_rows());
    t.div_ceil(interval) * rows
}

// Distributed: evenly spaced refreshes and those put off, at most one for each of the count of bus accesses.
fn distributed(board: &Board, times: &[u32], i: usize, count: u64) -> u64
    requires times { CappedTimes board.now times.now × (i < at.tasks board.now) × (1 ≤ at.refresh board.now) }
    requires count_value { count ≡ spec.bus_accesses board.now times.now i }
    ensures { result ≡ spec.refreshes board.now times.now i 2 }
{
    let t = time(board, times, i);
    let interval = u64::from(board.refresh_interval());
    let rows = u64::from(board.refresh_rows());
    let due = (t * rows).div_ceil(interval) + u64::from(board.put_off());
    count.min(due)
}

// Q, with the count B of bus accesses.
pub fn refreshes(board: &Board, times: &[u32], i: usize, count: u64) -> u64
    requires times { CappedTimes board.now times.now × (i < at.tasks board.now) }
    requires count_value { count ≡ spec.bus_accesses board.now times.now i }
    ensures { result ≡ spec.refreshes board.now times.now i (at.refresh board.now) }
{
    match board.refresh() {
        Refresh::Absent => 0,
        Refresh::Burst => burst(board, times, i),
        Refresh::Distributed => distributed(board, times, i, count),
    }
}
