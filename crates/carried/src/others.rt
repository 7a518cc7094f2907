// The accesses of the tasks off one core, task by task.
ghost use Rattle.std.specs.Prelude.{◌≡◌, ◌+◌, ◌<◌, ◌≤◌};
ghost use Rattle.folds.specs.Folds.{only_if};
ghost use Rattle.folds.specs.Reaches.{Reaches};
ghost use Rattle.board.specs.Layout as at;
ghost use Rattle.sums.specs.Sums.{is_other, carry_in};
ghost use Rattle.sums.specs.Limits.{most_accesses};
ghost use Rattle.carried.specs.Terms.{carried_off};

use terms::carry::Window;

// W(j, k), and 0 if task k is on core x.
fn carry_off(window: &Window, x: u32, k: usize) -> u64
    requires { k < at.tasks window.now.board.now }
    ensures { let w = window.now in result ≡ only_if (is_other x (at.core w.board.now k)) (carry_in w.board.now w.times.now w.t w.j k) }
{
    if window.board.core(k) == x {
        0
    } else {
        window.carry_in(k)
    }
}

// The sum of W(j, k) over the tasks up to j off core x.
// It has a loop of its own: with one function for it and for `others_from`, which the compiler then puts in line for neither, a pass of bus 0 takes a quarter longer.
pub fn others(window: &Window, x: u32) -> u64
    ensures { let w = window.now in (result ≡ carried_off w.board.now w.times.now w.t x w.j 0) × (result ≤ most_accesses) }
{
    let mut sum: u64 = 0;
    for k in 0..window.j + 1 {
        sum += carry_off(window, x, k);
    }
    sum
}

// That over the tasks from a up to j, as far as the cap: no more is added once it is reached.
pub fn others_from(window: &Window, x: u32, a: usize, cap: u64) -> u64
    requires { a ≤ window.now.j + 1 }
    ensures { let w = window.now in Reaches cap result (carried_off w.board.now w.times.now w.t x w.j a) × (result ≤ most_accesses) }
{
    let mut sum: u64 = 0;
    for k in a..window.j + 1 {
        if cap <= sum {
            return sum;
        }
        sum += carry_off(window, x, k);
    }
    sum
}
