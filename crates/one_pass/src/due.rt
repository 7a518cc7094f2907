// The tasks that are due: those that read a time which changed since they were summed last. They are bits of one word, and so are the tasks on each core.
ghost use Rattle.std.specs.Prelude.{◌<◌};
ghost use Rattle.board.specs.Layout.{tasks};
ghost use Rattle.one_pass.specs.DueTasks.{OnCores, Joined};

use crate::PassTables;
use bitset::word::{or_not, with};
use board::{Board, Bus};
use linked_tasks::MOST_CORES;

// For each core the word with a bit for each of its tasks.
pub fn cores_of(board: &Board) -> [u64; MOST_CORES]
    ensures { OnCores board.now (tasks board.now) result }
{
    let mut on = [0; MOST_CORES];
    for k in 0..board.tasks() as usize {
        let y = board.core(k) as usize - 1;
        on[y] = with(on[y], k);
    }
    on
}

impl<'a> PassTables<'a> {
    // The tasks that are due once the time of task i has changed: those that are due, itself, and those on other cores, but for TDMA, where no
    // task reads the time of another.
    pub fn joined(&self, due: u64, i: usize) -> u64
        requires { i < self.now.n }
        ensures { Joined self.now.board.now due i result }
    {
        let board = self.board;
        board.sound();
        let own = with(due, i);
        match board.bus() {
            Bus::Tdma => own,
            _ => or_not(own, self.on[board.core(i) as usize - 1]),
        }
    }
}
