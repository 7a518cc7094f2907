// The accesses of other cores that can delay a task, by the bus.
ghost use Rattle.std.specs.Prelude.{◌≡◌, ◌<◌, ◌≤◌, get_or};
ghost use Rattle.board.specs.Layout as at;
ghost use Rattle.sums.specs.Sums as spec;
ghost use Rattle.sums.specs.Limits.{most_own_accesses};
ghost use Rattle.sums.specs.Links.{Linked};
ghost use Rattle.sums.specs.Inputs.{RowInput};

use board::{Board, Bus};
use carried::NO_CAP;
use carried::cores::Cores;
use carried::others::{others, others_from};
use carried::slots::sum_capped;
use terms::carry::Window;
use terms::rows::time;

// Task n.
fn lowest(board: &Board) -> usize
    ensures { result ≡ spec.lowest board.now }
{
    board.tasks() as usize - 1
}

// With s the accesses of the task's own core: those of lower tasks count up to s alone. It is not put in line, so that its two loops have the registers to
// themselves: beside those of the other rules a pass takes up to a quarter longer.
#[inline(never)]
fn fixed_priority(board: &Board, own: &[u32], all: &[u32], times: &[u32], i: usize, s: u64) -> u64
    requires row_input { RowInput board.now own.now times.now i × RowInput board.now all.now times.now (spec.lowest board.now) }
    requires s_value { s ≡ spec.own_accesses board.now times.now i }
    ensures { result ≡ spec.interference board.now times.now i 0 }
{
    let t = time(board, times, i);
    let x = board.core(i);
    let higher = Window {
        board,
        row: own,
        times,
        j: i,
        t,
    };
    let lower = Window {
        board,
        row: all,
        times,
        j: lowest(board),
        t,
    };
    let above = others(&higher, x);
    let below = others_from(&lower, x, i + 1, s);
    above + below.min(s)
}

// The tasks of whole cores, within the time of task i: for the rules that go over them, since one that does not would pay for it too.
fn cores_within<'a>(
    board: &'a Board<'a>,
    links: &'a [u32],
    all: &'a [u32],
    times: &'a [u32],
    i: usize,
) -> Cores<'a>
    requires { RowInput board.now all.now times.now (spec.lowest board.now) × (i < at.tasks board.now) × Linked board.now links.now }
    ensures { let w = result.window in (w.board.now ≡ board.now) × (w.times.now ≡ times.now) × (w.t ≡ get_or times.now i 0)
        × (w.j ≡ spec.lowest board.now) }
{
    let window = Window {
        board,
        row: all,
        times,
        j: lowest(board),
        t: time(board, times, i),
    };
    Cores { window, links }
}

// The accesses of the cores after that of the task count up to s alone.
fn processor_priority(
    board: &Board,
    links: &[u32],
    all: &[u32],
    times: &[u32],
    i: usize,
    s: u64,
) -> u64
    requires row_input { RowInput board.now all.now times.now (spec.lowest board.now) × (i < at.tasks board.now) × Linked board.now links.now }
    requires s_value { s ≡ spec.own_accesses board.now times.now i }
    ensures { result ≡ spec.interference board.now times.now i 1 }
{
    let cores = cores_within(board, links, all, times, i);
    let others = cores.sides(board.core(i), s);
    others.before + others.after.min(s)
}

// The accesses of the cores on both sides, of which a board of one core has none.
fn fifo(board: &Board, links: &[u32], all: &[u32], times: &[u32], i: usize) -> u64
    requires { RowInput board.now all.now times.now (spec.lowest board.now) × (i < at.tasks board.now) × Linked board.now links.now }
    ensures { result ≡ spec.interference board.now times.now i 2 }
{
    if board.cores() == 1 {
        return 0;
    }
    let cores = cores_within(board, links, all, times, i);
    let others = cores.sides(board.core(i), NO_CAP);
    others.before + others.after
}

// The accesses of each other core count up to what its slots let through.
fn round_robin(board: &Board, links: &[u32], all: &[u32], times: &[u32], i: usize, s: u64) -> u64
    requires row_input { RowInput board.now all.now times.now (spec.lowest board.now) × (i < at.tasks board.now) × Linked board.now links.now
        × (3 ≤ at.bus board.now) }
    requires s_value { s ≡ spec.own_accesses board.now times.now i }
    ensures { result ≡ spec.interference board.now times.now i 3 }
{
    let cores = cores_within(board, links, all, times, i);
    sum_capped(&cores, board.core(i), s)
}

// All slots of the other cores, for each of the s accesses.
fn tdma(board: &Board, times: &[u32], i: usize, s: u64) -> u64
    requires slots { (3 ≤ at.bus board.now) × (s ≤ most_own_accesses) }
    requires s_value { s ≡ spec.own_accesses board.now times.now i }
    ensures { result ≡ spec.interference board.now times.now i 4 }
{
    let v = u64::from(board.slots_each());
    (u64::from(board.cores()) - 1) * v * s
}

// The interference of task i, with s the accesses of its own core.
pub fn interference(
    board: &Board,
    links: &[u32],
    own: &[u32],
    all: &[u32],
    times: &[u32],
    i: usize,
    s: u64,
) -> u64
    requires row_input { RowInput board.now own.now times.now i × RowInput board.now all.now times.now (spec.lowest board.now)
        × Linked board.now links.now }
    requires s_value { s ≡ spec.own_accesses board.now times.now i }
    ensures { result ≡ spec.interference board.now times.now i (at.bus board.now) }
{
    match board.bus() {
        Bus::FixedPriority => fixed_priority(board, own, all, times, i, s),
        Bus::ProcessorPriority => processor_priority(board, links, all, times, i, s),
        Bus::Fifo => fifo(board, links, all, times, i),
        Bus::RoundRobin => round_robin(board, links, all, times, i, s),
        Bus::Tdma => tdma(board, times, i, s),
    }
}
