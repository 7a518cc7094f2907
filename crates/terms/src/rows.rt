// One accessor a list: the number of task k, with its range.
ghost use Rattle.std.specs.Prelude.{◌≡◌, ◌+◌, ◌<◌, ◌≤◌, get_or};
ghost use Rattle.board.specs.Layout as at;
ghost use Rattle.figures.specs.Figures.{task_pd};
ghost use Rattle.sums.specs.Sums.{memory_demand};
ghost use Rattle.sums.specs.Limits.{latest_time, most_work, most_demand};
ghost use Rattle.sums.specs.Inputs.{Holds, CappedTimes};

use board::Board;

// PD of task k.
pub fn work(board: &Board, pd: &[u32], k: usize) -> u64
    requires { Holds (at.tasks board.now) (task_pd board.now) pd.now × (k < at.tasks board.now) }
    ensures { (result ≡ task_pd board.now k) × (result ≤ most_work) }
{
    board.sound();
    u64::from(pd[k])
}

// D'(j, k), from the row of j.
pub fn demand(board: &Board, row: &[u32], j: usize, k: usize) -> u64
    requires { Holds (at.tasks board.now) (memory_demand board.now j) row.now × (k < at.tasks board.now) }
    ensures { (result ≡ memory_demand board.now j k) × (result ≤ most_demand) }
{
    board.sound();
    u64::from(row[k])
}

// The time of task k.
pub fn time(board: &Board, times: &[u32], k: usize) -> u64
    requires { CappedTimes board.now times.now × (k < at.tasks board.now) }
    ensures { (result ≡ get_or times.now k 0) × (result ≤ latest_time) }
{
    board.sound();
    u64::from(times[k])
}

// The time of task k and its jitter, R + J: added as 32-bit words, which hold it.
pub fn time_and_jitter(board: &Board, times: &[u32], k: usize) -> u64
    requires { CappedTimes board.now times.now × (k < at.tasks board.now) }
    ensures { (result ≡ get_or times.now k 0 + at.jitter board.now k) × (result ≤ latest_time) }
{
    board.sound();
    u64::from(times[k] + board.jitter(k))
}
