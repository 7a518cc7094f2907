// The releases of the tasks of one core.
ghost use Rattle.std.specs.Prelude.{◌≡◌, ◌+◌, ◌<◌, ◌≤◌, get_or};
ghost use Rattle.board.specs.Layout as at;
ghost use Rattle.figures.specs.Figures.{task_pd};
ghost use Rattle.sums.specs.Sums as spec;
ghost use Rattle.sums.specs.Limits.{most_releases, most_own_accesses, most_higher_work};
ghost use Rattle.sums.specs.Links.{Linked};
ghost use Rattle.sums.specs.Inputs.{Holds, RowInput, release_cost};

use crate::rows::{demand, time, work};
use board::Board;
use folds::ceil_div_tested;
use linked_tasks::above;

// The accesses and the work of some releases.
#[derive(Clone, Copy, Debug, PartialEq, Eq)]
pub struct OwnSums {
    pub accesses: u64,
    pub work: u64,
}

// Task i, the tasks' PD, its row D'(i, _), and the times.
#[derive(Clone, Copy)]
pub struct OwnTask<'a> {
    pub board: &'a Board<'a>,
    pub pd: &'a [u32],
    pub row: &'a [u32],
    pub times: &'a [u32],
    pub i: usize,
    ghost rows: { RowInput board.now row.now times.now i },
    ghost works: { Holds (at.tasks board.now) (task_pd board.now) pd.now },
}

impl<'a> OwnTask<'a> {
    // ceil((t + J_k)/T_k): the releases of task k, which is above task i, within the time of task i.
    fn higher_releases(&self, k: usize) -> u64
        requires { k < self.now.i }
        ensures { let o = self.now in (result ≡ spec.releases o.board.now o.i k (get_or o.times.now o.i 0)) × (result ≤ most_releases) }
    {
        let t = time(self.board, self.times, self.i);
        let span = t + u64::from(self.board.jitter(k));
        ceil_div_tested(span, u64::from(self.board.period(k)))
    }

    // ceil(t/T_i): the releases of task i itself within its time. Apart from the others, so that the loop along the links has no test for the task itself.
    fn own_releases(&self) -> u64
        ensures { let o = self.now in (result ≡ spec.releases o.board.now o.i o.i (get_or o.times.now o.i 0)) × (result ≤ most_releases) }
    {
        let t = time(self.board, self.times, self.i);
        ceil_div_tested(t, u64::from(self.board.period(self.i)))
    }

    // The sums with the releases of task k, which is above task i, added.
    fn with_task(&self, sums: OwnSums, k: usize) -> OwnSums
        requires above { k < self.now.i }
        requires accesses_le_most_own_accesses { (sums.accesses ≤ most_own_accesses) × (sums.work ≤ most_higher_work) }
        ensures accesses_value { let o = self.now in
            result.accesses ≡ sums.accesses + release_cost o.board.now o.times.now o.i (spec.memory_demand o.board.now o.i) k }
        ensures work_value { let o = self.now in result.work ≡ sums.work + release_cost o.board.now o.times.now o.i (task_pd o.board.now) k }
    {
        let n = self.higher_releases(k);
        let accesses = n * demand(self.board, self.row, self.i, k);
        let cycles = n * work(self.board, self.pd, k);
        OwnSums {
            accesses: sums.accesses + accesses,
            work: sums.work + cycles,
        }
    }

    // S, and the work of the tasks above task i on its core, along the links of that core.
    pub fn released(&self, links: &[u32]) -> OwnSums
        requires { Linked self.now.board.now links.now }
        ensures accesses_value { let o = self.now in result.accesses ≡ spec.own_accesses o.board.now o.times.now o.i }
        ensures work_value { let o = self.now in result.work ≡ spec.higher_work o.board.now o.times.now o.i }
    {
        let mut sums = OwnSums {
            accesses: 0,
            work: 0,
        };
        let mut next = above(self.board, links, self.i);
        while let Some(k) = next {
            sums = self.with_task(sums, k);
            next = above(self.board, links, k);
        }
        let last = self.own_releases() * demand(self.board, self.row, self.i, self.i);
        OwnSums {
            accesses: sums.accesses + last,
            ..sums
        }
    }
}
