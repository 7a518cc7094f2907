// The figures of a task, and the pre-emption overhead.
#![tactic(auto)]

pub mod higher;
pub mod row;

ghost use Rattle.std.specs.Prelude.{◌≡◌, ◌<◌};
ghost use Rattle.figures.specs.Figures.{figure_of};
ghost use Rattle.figures.specs.Survey.{Fillable};

use bitset::SET_WORDS;
use bitset::records::read;
use board::{Board, MOST_TASKS};

// The words of a set for each task.
pub const ECB_WORDS: usize = SET_WORDS * MOST_TASKS;

// The words from which the records of the most tasks are filled: four a task.
pub const MOST_FIGURE_WORDS: usize = 4 * MOST_TASKS;

// One record of the figures table: a task's core, T, D, PD, MD, and an ECB for each cache, the code's first.
#[derive(Clone, Copy, Debug, PartialEq, Eq)]
pub struct Figure {
    pub core: u32,
    pub period: u32,
    pub deadline: u32,
    pub pd: u32,
    pub md: u32,
    pub ecb: [u64; 4],
    pub data_ecb: [u64; 4],
}

// What the figures table is filled from, and how many of its records are: none where a call is refused.
#[derive(Drop)]
pub struct FigureWords {
    pub records: usize,
    pub words: [u32; MOST_FIGURE_WORDS],
    pub sets: [u64; ECB_WORDS],
}

impl FigureWords {
    // As it is before any figures are worked out.
    pub fn empty() -> FigureWords
        ensures { result.records ≡ 0 }
    {
        FigureWords {
            records: 0,
            words: [0; MOST_FIGURE_WORDS],
            sets: [0; ECB_WORDS],
        }
    }

    // The figures of task k.
    pub fn figure_at(&self, board: &Board, k: usize) -> Figure
        requires { (Fillable board.now self.now.records self.now.words self.now.sets) × (k < self.now.records) }
        ensures { result ≡ figure_of board.now k }
    {
        figure_at(board, self.records, &self.words, &self.sets, k)
    }
}

// The figures of task k, from the words and the sets that hold them.
pub fn figure_at(
    board: &Board,
    n: usize,
    words: &[u32],
    sets: &[u64; ECB_WORDS],
    k: usize,
) -> Figure
    requires { (Fillable board.now n words.now sets.now) × (k < n) }
    ensures { result ≡ figure_of board.now k }
{
    Figure {
        core: board.core(k),
        period: board.period(k),
        deadline: board.deadline(k),
        pd: words[2 * n + k],
        md: words[3 * n + k],
        ecb: read(sets, 2 * k),
        data_ecb: read(sets, 2 * k + 1),
    }
}
