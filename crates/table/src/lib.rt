// The lent table of figures, a slice of records.
#![tactic(auto)]

ghost use Rattle.std.specs.Prelude.{◌≡◌, ◌≤◌, length};
ghost use Rattle.folds.specs.Folds.{fill_to};
ghost use Rattle.figures.specs.Figures.{figure_of};
ghost use Rattle.figures.specs.Survey.{Fillable};

use board::Board;
use figures::{ECB_WORDS, Figure, figure_at};

// Writes the figures of the first n tasks to the first n records of the table. The later records are as they were.
pub fn fill(board: &[u32], n: usize, words: &[u32], sets: &[u64; ECB_WORDS], table: &mut [Figure])
    requires { (Fillable board.now n words.now sets.now) × (n ≤ length table.old) }
    ensures { table.new ≡ fill_to (figure_of board.now) n table.old }
{
    // of a board that was refused there is no record, so that only a turn knows that it passed
    for k in 0..n {
        table[k] = figure_at(&Board::of(board), n, words, sets, k);
    }
}
