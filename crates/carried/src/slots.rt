// What the slots of each core let it take of the bus.
ghost use Rattle.std.specs.Prelude.{◌≡◌, ◌*◌, ◌≤◌, min};
ghost use Rattle.folds.specs.Folds.{only_if};
ghost use Rattle.board.specs.Layout as at;
ghost use Rattle.board.specs.Sound.{Between};
ghost use Rattle.sums.specs.Sums.{is_other, over_cores, core_accesses};
ghost use Rattle.sums.specs.Limits.{most_own_accesses};

use crate::cores::Cores;

// Of A(n, y) what the slots of core y let through for each of s accesses of a task on core x, and 0 if y is x.
fn let_through(cores: &Cores, x: u32, y: u32, s: u64) -> u64
    requires { let b = cores.now.window.board.now in Between 1 (at.cores b) y × (3 ≤ at.bus b) × (s ≤ most_own_accesses) }
    ensures { let w = cores.now.window in result ≡ only_if (is_other x y)
        (min (core_accesses w.board.now w.times.now w.t w.j y) (at.slots w.board.now y * s)) }
{
    if y == x {
        return 0;
    }
    let v = u64::from(cores.window.board.slots(y));
    let cap = v * s;
    cores.core_sum(y, cap).min(cap)
}

// That of all cores.
pub fn sum_capped(cores: &Cores, x: u32, s: u64) -> u64
    requires { (3 ≤ at.bus cores.now.window.board.now) × (s ≤ most_own_accesses) }
    ensures { let w = cores.now.window in result ≡ over_cores w.board.now (is_other x)
        (λ y. min (core_accesses w.board.now w.times.now w.t w.j y) (at.slots w.board.now y * s)) }
{
    let mut sum: u64 = 0;
    for y in 1..cores.window.board.cores() + 1 {
        sum += let_through(cores, x, y, s);
    }
    sum
}
