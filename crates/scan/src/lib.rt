// One trace of a task: PD, MD and ECB, and what its useful blocks add to a row of overheads.
#![tactic(auto)]

mod points;

ghost use Rattle.std.specs.Prelude.{◌≡◌, ℕ, ◌≤◌, List, Some};
ghost use Rattle.board.specs.Layout.{cache_count};
ghost use Rattle.entries.specs.Marks.{AllEarlier, base_of};
ghost use Rattle.trace.specs.Starts.{Starts};
ghost use Rattle.figures.specs.Higher.{Higher};
ghost use Rattle.scan.specs.Found.{Found};

use bitset::SET_WORDS;
use board::MOST_TASKS;
use entries::Workspace;
use figures::row::Preempted;
use marks::mark_trace;
use points::raise_points;
use trace::cursor::Cursor;
use trace::demand::Demand;
use trace::{BoardTrace, demand};

// PD and MD of one trace of a task. Its evicting cache blocks are added to `ecb`, and the row, where there is one, is raised by its useful blocks. Without a
// cache nothing is evicted or useful. `space` is room to work in, which holds no block of this trace or of a later one. The higher tasks are listed
// where the row is to be raised.
pub fn scan_trace(
    task: &Preempted,
    at: Cursor,
    row: &mut Option<[u32; MOST_TASKS]>,
    ecb: &mut [u64; SET_WORDS],
    space: &mut Workspace,
) -> Demand
    requires { (Starts task.now.board.now at.trace at.start) × (AllEarlier (base_of at.trace) space.old.held)
        × ((l : List ℕ) → row.old ≡ Some l → 1 ≤ cache_count task.now.board.now → Higher task.now.board.now task.now.index task.now.higher.now) }
    ensures { Found task.now.board.now task.now.index at.trace result.pd result.md ecb.old ecb.new row.old row.new space.new.held }
{
    let board = task.board;
    let len = board.trace_length(at.trace) as usize;
    let trace = BoardTrace::at(board.words(), at.start, len);
    if board.cache_count() == 0 {
        return demand::uncached(board, &trace);
    }
    let base = 65536 * (at.trace as u32);
    let md = mark_trace(board, &trace, base, space, ecb);
    if let Some(row) = row {
        raise_points(task, len, &space.marks, row);
    }
    let pd = demand::pd(&trace);
    Demand { pd, md }
}
