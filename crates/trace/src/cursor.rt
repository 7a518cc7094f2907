// The board's traces, one after the other: each starts where the one before it ends.
ghost use Rattle.std.specs.Prelude.{◌≡◌, ◌+◌};
ghost use Rattle.trace.specs.Starts.{start_of, Starts, At};

use board::Board;

// A trace: its number among the board's traces, and the place of its first fetch word.
#[derive(Clone, Copy, Debug, PartialEq, Eq)]
pub struct Cursor {
    pub trace: usize,
    pub start: usize,
}

impl Cursor {
    // The first trace of the first task.
    pub fn first(board: &Board) -> Cursor
        ensures { At board.now 0 0 result.trace result.start }
    {
        let n = board.tasks() as usize;
        let q = board.traces() as usize;
        Cursor {
            trace: 0,
            start: 20 + 5 * n + q,
        }
    }

    // The trace after it.
    pub fn next(self, board: &Board) -> Cursor
        requires { Starts board.now self.trace self.start }
        ensures { (result.trace ≡ self.trace + 1) × (result.start ≡ start_of board.now (self.trace + 1)) }
    {
        let len = board.trace_length(self.trace) as usize;
        Cursor {
            trace: self.trace + 1,
            start: self.start + len,
        }
    }
}
