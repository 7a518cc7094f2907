// The higher tasks on the core of a task, as a list.
ghost use Rattle.std.specs.Prelude.{◌≡◌, ◌≤◌, ◌<◌, [], take};
ghost use Rattle.board.specs.Layout.{most_tasks};
ghost use Rattle.figures.specs.Ready.{Ready};
ghost use Rattle.figures.specs.Rows.{same_core};
ghost use Rattle.figures.specs.Higher.{Higher};

use board::{Board, MOST_TASKS};
use std::marker::Model;

// The tasks above a task on its core, of which a clause sees the list, the lowest first.
#[derive(Drop)]
pub struct HigherTasks {
    tasks: [usize; MOST_TASKS],
    count: usize,
}

impl Model for HigherTasks {
    ghost use Rattle.std.specs.Prelude.{ℕ, List, take, ◌≤◌};
    ghost use Rattle.board.specs.Layout.{most_tasks};

    ghost Value = { List ℕ };

    ghost view = { λ h. take h.count h.tasks };

    ghost invariant = { λ h. h.count ≤ most_tasks };
}

impl HigherTasks {
    // Those above task i.
    pub fn of(board: &Board, i: usize) -> HigherTasks
        requires { Ready board.now i }
        ensures { Higher board.now i result }
    {
        let mut higher = HigherTasks::none();
        higher.list(board, i);
        higher
    }

    // Lists those above task i in place of the ones that were listed, so that one list serves a walk over all tasks.
    pub fn list(&mut self, board: &Board, i: usize)
        requires { Ready board.now i }
        ensures { Higher board.now i self.new }
    {
        self.count = put_above(board, i, &mut self.tasks);
    }

    pub fn tasks(&self) -> &[usize]
        ensures { result.now ≡ self.now }
    {
        &self.tasks[..self.count]
    }

    // None of them, where none is wanted.
    pub fn none() -> HigherTasks
        ensures { result ≡ [] }
    {
        HigherTasks {
            tasks: [0; MOST_TASKS],
            count: 0,
        }
    }
}

// Puts those above task i at the start of the array, and answers how many they are. They are counted beside it, since a count in one struct with it would be
// stored and read again for each of them.
fn put_above(board: &Board, i: usize, tasks: &mut [usize; MOST_TASKS]) -> usize
    requires { Ready board.now i }
    ensures { (Higher board.now i (take result tasks.new)) × (result ≤ most_tasks) }
{
    let mut count = 0;
    for j in (0..i).rev() {
        if on_core_of(board, i, j) {
            tasks[count] = j;
            count += 1;
        }
    }
    count
}

// Whether tasks i and j are on one core.
fn on_core_of(board: &Board, i: usize, j: usize) -> bool
    requires { (Ready board.now i) × (j < i) }
    ensures { result ≡ same_core board.now i j }
{
    board.core(i) == board.core(j)
}
