// The first late task, and the settled times for the caller.
ghost use Rattle.std.specs.Prelude.{◌≡◌, ◌≤◌, length, get_or};
ghost use Rattle.folds.specs.Folds.{fill_to};
ghost use Rattle.board.specs.Layout.{tasks};
ghost use Rattle.one_pass.specs.System.{system};
ghost use Rattle.settling.specs.Delivered.{late_task, delivered};

use board::Board;

// The first task past its bound, where one is.
fn first_late(board: &Board, n: usize, times: &[u32]) -> Option<usize>
    requires { (n ≡ tasks board.now) × (n ≤ length times.now) }
    ensures { result ≡ late_task (system board.now) times.now }
{
    (0..n).find(|i| board.bound(*i) < times[*i])
}

// The first task that settled past its bound, where one did. Where none did, the settled times are then the first n words of `times`.
pub fn deliver(board: &Board, n: usize, settled: &[u32], times: &mut [u32]) -> Option<usize>
    requires { (n ≡ tasks board.now) × (n ≤ length settled.now) × (n ≤ length times.old) }
    ensures { (result ≡ late_task (system board.now) settled.now)
        × (times.new ≡ delivered (system board.now) settled.now times.old) }
{
    let late = first_late(board, n, settled);
    if late.is_none() {
        copy(n, settled, times);
    }
    late
}

// Copies the first n words. They are stored one by one: `copy_from_slice` would have the library for C call `memmove` too, which it does not need from outside.
fn copy(n: usize, from: &[u32], to: &mut [u32])
    requires { (n ≤ length from.now) × (n ≤ length to.old) }
    ensures { to.new ≡ fill_to (λ k. get_or from.now k 0) n to.old }
{
    for k in 0..n {
        to[k] = from[k];
    }
}
