// W: the accesses of a task with carry-in.
ghost use Rattle.std.specs.Prelude.{◌≡◌, ◌+◌, ◌*◌, ◌/◌, ◌%◌, ◌<◌, ◌≤◌, min};
ghost use Rattle.folds.specs.Folds.{ceil_div};
ghost use Rattle.board.specs.Layout as at;
ghost use Rattle.board.specs.Sound.{Between};
ghost use Rattle.sums.specs.Sums.{carry_in};
ghost use Rattle.sums.specs.Limits.{longest_access, latest_time, longest_window, most_demand};
ghost use Rattle.sums.specs.Inputs.{RowInput};

use crate::rows::{demand, time_and_jitter};
use board::Board;
use folds::ceil_div;

// The whole periods in u cycles.
fn whole_periods(u: u64, period: u64) -> u64
    requires { Between 1 at.longest period × (u ≤ longest_window) }
    ensures { result ≡ u / period }
{
    u / period
}

// As many of some accesses of d cycles as fit into the cycles left: no division where they all do.
fn fitting(demand: u64, d: u64, left: u64) -> u64
    requires { (demand ≤ most_demand) × Between 1 longest_access d × (left ≤ longest_window) }
    ensures { result ≡ min demand (ceil_div left d) }
{
    if demand * d <= left {
        demand
    } else {
        ceil_div(left, d)
    }
}

// The accesses in a window of u cycles, of a task with so many a period: no division of u where it is shorter than a period.
fn in_window(demand: u64, d: u64, period: u64, u: u64) -> u64
    requires { (demand ≤ most_demand) × Between 1 longest_access d × Between 1 at.longest period × (u ≤ longest_window) }
    ensures { result ≡ demand * (u / period) + min demand (ceil_div (u % period) d) }
{
    if u < period {
        fitting(demand, d, u)
    } else {
        demand * whole_periods(u, period) + fitting(demand, d, u % period)
    }
}

// Task j with its row D'(j, _), at some times, and a window of t cycles.
#[derive(Clone, Copy)]
pub struct Window<'a> {
    pub board: &'a Board<'a>,
    pub row: &'a [u32],
    pub times: &'a [u32],
    pub j: usize,
    pub t: u64,
    ghost rows: { RowInput board.now row.now times.now j },
    ghost early: { t ≤ latest_time },
}

impl<'a> Window<'a> {
    // W(j, k).
    pub fn carry_in(&self, k: usize) -> u64
        requires { k < at.tasks self.now.board.now }
        ensures { result ≡ carry_in self.now.board.now self.now.times.now self.now.t self.now.j k }
    {
        let d = u64::from(self.board.access_cycles());
        let accesses = demand(self.board, self.row, self.j, k);
        let span = self.t + time_and_jitter(self.board, self.times, k);
        let busy = accesses * d;
        let period = u64::from(self.board.period(k));
        in_window(accesses, d, period, span.saturating_sub(busy))
    }
}
