// The points of a trace under a cache or two: the scan over its marks, whose useful blocks raise a row of overheads while it goes by. No point is kept.
ghost use Rattle.std.specs.Prelude.{◌≡◌, true, false, ℕ, ◌+◌, ◌*◌, ◌%◌, ◌≤◌, ◌<◌, length};
ghost use Rattle.folds.specs.Folds.{max_to};
ghost use Rattle.board.specs.Layout.{ways, cache_count};
ghost use Rattle.board.specs.Sound.{Between};
ghost use Rattle.counts.specs.Planes.{sets_of, largest};
ghost use Rattle.figures.specs.Overhead.{evicted_by};
ghost use Rattle.figures.specs.Rows.{on_core_of, raised};
ghost use Rattle.figures.specs.Higher.{Higher};
ghost use Rattle.scan.specs.Levels.{Turning, at_point, Levels};

use board::MOST_TASKS;
use counts::Counts;
use figures::row::Preempted;

// What a mark is mod 4 where it adds a block to its set, and where it takes one from it.
const ADDS: u32 = 1;

const TAKES: u32 = 2;

// Raises the row by the points of a trace of the task, of `len` instructions, whose positions are marked. Where no task above it is on its core, there is
// nothing to raise. A point is counted where a number grew since the last one that was and the next point loses a block, or the points end: whatever sets are
// counted, it has the most useful blocks of all points since. `live` has the numbers of the point at hand.
pub fn raise_points(task: &Preempted, len: usize, marks: &[u32], row: &mut [u32; MOST_TASKS])
    requires { (Levels (cache_count task.now.board.now) marks.now (2 * len) (ways task.now.board.now)) × (1 ≤ cache_count task.now.board.now)
        × (len ≤ 1024) × (2 * len ≤ length marks.now) × Higher task.now.board.now task.now.index task.now.higher.now }
    ensures { (f : ℕ → ℕ → ℕ) → Turning (cache_count task.now.board.now) f marks.now (2 * len)
        → ((s : ℕ) → s < sets_of (cache_count task.now.board.now) → f 0 s ≡ 0)
        → row.new ≡ raised (on_core_of task.now.board.now task.now.index
        (λ (j : ℕ). max_to (at_point (cache_count task.now.board.now) f (evicted_by task.now.board.now j)) len)) task.now.index row.old }
{
    let listed = task.higher;
    let higher = listed.tasks();
    let above = higher.len();
    if above == 0 {
        return;
    }
    let board = task.board;
    let mut live = Counts::none(board.cache_count() as usize, planes_for(board.ways()));
    let mut fresh = false;
    for p in 0..len {
        let x = marks[2 * p];
        let y = marks[2 * p + 1];
        let lost = either(x, y, TAKES) | is_last(p, len);
        if fresh & lost {
            task.raise(&live, row);
        }
        live.apply_mark(x);
        live.apply_mark(y);
        fresh = fresh & !lost | either(x, y, ADDS);
    }
}

// The planes of numbers up to `ways`.
fn planes_for(ways: u32) -> usize
    requires { ways ≤ 8 }
    ensures { (ways ≤ largest result) × Between 1 4 result }
{
    match ways {
        0 | 1 => 1,
        2 | 3 => 2,
        8 => 4,
        _ => 3,
    }
}

// Whether one of the two marks of an instruction is of a kind.
fn either(x: u32, y: u32, kind: u32) -> bool
    ensures { result ≡ false → (x % 4 ≡ kind → ⊥) × (y % 4 ≡ kind → ⊥) }
{
    (x % 4 == kind) | (y % 4 == kind)
}

// Whether the points end after p.
fn is_last(p: usize, end: usize) -> bool
    requires { p < 1024 }
    ensures { p + 1 ≡ end → result ≡ true }
{
    p + 1 == end
}
