// The interference of other cores on the bus, and the parts of a task's sum.
#![tactic(auto)]

ghost use Rattle.std.specs.Prelude.{◌≡◌, ◌<◌, ◌^◌};
ghost use Rattle.board.specs.Layout.{tasks};
ghost use Rattle.figures.specs.Figures.{task_pd};
ghost use Rattle.sums.specs.Sums.{task_sum};
ghost use Rattle.sums.specs.SixParts.{total};
ghost use Rattle.sums.specs.Inputs.{CappedTimes, SumInput};
ghost use Rattle.interference.specs.Parts.{sum_parts, listed, counts_of};

use board::Board;
use bus::interference;
use terms::own::OwnTask;
use terms::refresh::refreshes;
use terms::rows::work;

mod bus;

// The parts of a sum, in cycles: PD, the PD of higher tasks, the accesses of its own core, of other cores, and the one under way,
// and the refreshes.
#[derive(Clone, Copy, Debug, PartialEq, Eq)]
pub struct SumParts {
    pub own_work: u64,
    pub higher_work: u64,
    pub core_accesses: u64,
    pub other_accesses: u64,
    pub blocking_access: u64,
    pub refreshes: u64,
}

impl SumParts {
    // The six numbers, in document 02's order.
    pub fn six(self) -> [u64; 6]
        ensures { result ≡ listed self }
    {
        [
            self.own_work,
            self.higher_work,
            self.core_accesses,
            self.other_accesses,
            self.blocking_access,
            self.refreshes,
        ]
    }

    // The parts added up: of the parts of a sum, that sum.
    pub fn add_parts(self) -> u64
        requires { total (listed self) < 2 ^ 64 }
        ensures { result ≡ total (listed self) }
    {
        self.six().iter().sum()
    }
}

// What a sum counts on its way: the work of higher tasks in cycles, the accesses of its own core, and those of other cores that can delay it.
#[derive(Clone, Copy, Debug, PartialEq, Eq)]
pub struct Counted {
    pub higher_work: u64,
    pub core_accesses: u64,
    pub other_accesses: u64,
}

// Sum_i at these times, as it is printed, from the links of the cores, the tasks' PD and the rows D'(i, _) and D'(n, _). What it counted on the way goes to
// `counts`, early, so that callers who do not read it pay little. The lists come one by one, as parts of the scratch that no struct holds.
pub fn task_sum(
    board: &Board,
    links: &[u32],
    pd: &[u32],
    own: &[u32],
    all: &[u32],
    times: &[u32],
    i: usize,
    counts: &mut Counted,
) -> u64
    requires { SumInput board.now links.now pd.now own.now all.now times.now i }
    ensures { (result ≡ task_sum board.now times.now i)
        × (counts.new ≡ counts_of board.now times.now i) }
{
    let task = OwnTask {
        board,
        pd,
        row: own,
        times,
        i,
    };
    let core = task.released(links);
    let s = core.accesses;
    let higher = core.work;
    *counts = Counted {
        higher_work: higher,
        core_accesses: s,
        other_accesses: 0,
    };
    let busy = work(board, pd, i) + higher;
    let others = interference(board, links, own, all, times, i, s);
    counts.other_accesses = others;
    let count = s + others + 1;
    let d = u64::from(board.access_cycles());
    let dr = u64::from(board.refresh_cycles());
    busy + count * d + refreshes(board, times, i, count) * dr
}

// The parts of Sum_i at these times, from PD_i, the sum, and what it counted: the refreshes are what is left of it.
pub fn task_parts(
    board: &Board,
    times: &[u32],
    i: usize,
    pd: u64,
    sum: u64,
    counts: Counted,
) -> SumParts
    requires { CappedTimes board.now times.now × (i < tasks board.now) × (pd ≡ task_pd board.now i)
        × (sum ≡ task_sum board.now times.now i) × (counts ≡ counts_of board.now times.now i) }
    ensures { result ≡ sum_parts board.now times.now i }
{
    board.sound();
    let d = u64::from(board.access_cycles());
    let five = SumParts {
        own_work: pd,
        higher_work: counts.higher_work,
        core_accesses: counts.core_accesses * d,
        other_accesses: counts.other_accesses * d,
        blocking_access: d,
        refreshes: 0,
    };
    SumParts {
        refreshes: sum - five.add_parts(),
        ..five
    }
}
