// The accesses of the tasks of whole cores, each along its links.
ghost use Rattle.std.specs.Prelude.{◌≡◌, ◌+◌, ◌-◌, ◌*◌, ◌≤◌};
ghost use Rattle.folds.specs.Reaches.{Reaches};
ghost use Rattle.board.specs.Layout as at;
ghost use Rattle.board.specs.Sound.{Between};
ghost use Rattle.sums.specs.Sums.{core_accesses, lowest};
ghost use Rattle.sums.specs.Limits.{most_cores, most_accesses};
ghost use Rattle.sums.specs.Links.{Linked};
ghost use Rattle.carried.specs.Terms.{cores_from};

use crate::NO_CAP;
use linked_tasks::{above, last_on};
use terms::carry::Window;

// A window of task n, and the links of the cores.
#[derive(Clone, Copy)]
pub struct Cores<'a> {
    pub window: Window<'a>,
    pub links: &'a [u32],
    ghost last: { window.j ≡ lowest window.board.now },
    ghost linked: { Linked window.board.now links.now },
}

// Accesses of the cores before one core, and of the cores after it.
#[derive(Clone, Copy, Debug, PartialEq, Eq)]
pub struct SideSums {
    pub before: u64,
    pub after: u64,
}

impl<'a> Cores<'a> {
    // A(n, y), as far as the cap: no more is added once it is reached.
    pub fn core_sum(&self, y: u32, cap: u64) -> u64
        requires { Between 1 most_cores y }
        ensures { let w = self.now.window in Reaches cap result (core_accesses w.board.now w.times.now w.t w.j y) × (result ≤ most_accesses) }
    {
        let mut sum: u64 = 0;
        let mut next = last_on(self.window.board.words(), self.links, y);
        while let Some(k) = next {
            if cap <= sum {
                return sum;
            }
            sum += self.window.carry_in(k);
            next = above(self.window.board, self.links, k);
        }
        sum
    }

    // The sum of A(n, y) over the cores from `first` up to `last`, as far as the cap.
    fn cores_sum(&self, first: u32, last: u32, cap: u64) -> u64
        requires { Between 1 (last + 1) first × (last ≤ most_cores) }
        ensures { let w = self.now.window in Reaches cap result (cores_from w.board.now w.times.now w.t w.j first last) × (result ≤ most_cores * most_accesses) }
    {
        let mut sum: u64 = 0;
        for y in first..last + 1 {
            if cap <= sum {
                return sum;
            }
            sum += self.core_sum(y, cap - sum);
        }
        sum
    }

    // The sums of A(n, y) over the cores before core x, and over those after it; the latter as far as the cap.
    pub fn sides(&self, x: u32, cap: u64) -> SideSums
        requires { Between 1 (at.cores self.now.window.board.now) x }
        ensures before_value { let w = self.now.window in (result.before ≡ cores_from w.board.now w.times.now w.t w.j 1 (x - 1))
            × (result.before ≤ most_cores * most_accesses) }
        ensures reaches { let w = self.now.window in Reaches cap result.after (cores_from w.board.now w.times.now w.t w.j (x + 1) (at.cores w.board.now))
            × (result.after ≤ most_cores * most_accesses) }
    {
        let before = self.cores_sum(1, x - 1, NO_CAP);
        let after = self.cores_sum(x + 1, self.window.board.cores(), cap);
        SideSums { before, after }
    }
}
