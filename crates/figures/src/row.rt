// A row of overheads: word j has γ(i, j) of the task i at hand.
ghost use Rattle.std.specs.Prelude.{◌≡◌, ℕ, ◌+◌, ◌*◌, ◌<◌, ◌≤◌, max, get_or, set};
ghost use Rattle.board.specs.Layout.{most_tasks, scratch_words, most_scratch};
ghost use Rattle.bitset.specs.Bits.{member};
ghost use Rattle.bitset.specs.Records.{record_at};
ghost use Rattle.counts.specs.Counted.{count_by};
ghost use Rattle.figures.specs.Ready.{Ready};
ghost use Rattle.figures.specs.Overhead.{evicted_by};
ghost use Rattle.figures.specs.Rows.{Evicted, on_core_of, raised};
ghost use Rattle.figures.specs.Higher.{Higher};

use super::ECB_WORDS;
use super::higher::HigherTasks;
use board::{Board, MOST_TASKS};
use counts::{Counts, MOST_COUNTED};

// Where row i starts in the words of n tasks.
pub fn place(n: usize, i: usize) -> usize
    requires { (i < n) × (n ≤ most_tasks) }
    ensures { (result ≡ 4 * n + i * n) × (result + n ≤ scratch_words n) × (result + n ≤ most_scratch) }
{
    4 * n + i * n
}

// A task, and what can pre-empt it: the tasks above it on its core, where they are listed, and the sets that each of them evicts: record j has those of task j.
#[derive(Drop)]
pub struct Preempted<'a> {
    pub board: &'a Board<'a>,
    pub index: usize,
    pub higher: &'a HigherTasks,
    pub evicted: &'a [u64; ECB_WORDS],
    pub ghost ready: { Ready board.now index },
    pub ghost held: { Evicted board.now index evicted.now },
}

impl<'a> Preempted<'a> {
    // Raises the row by a point of the task, for each task j above it on its core: by the useful blocks of the point in the sets evicted by j. `live` has their
    // numbers. The lowest task is first: the higher ones on the core evict no more than it.
    pub fn raise(&self, live: &Counts, row: &mut [u32; MOST_TASKS])
        requires { Higher self.now.board.now self.now.index self.now.higher.now }
        ensures { row.new ≡ raised (on_core_of self.now.board.now self.now.index
            (λ (j : ℕ). count_by live.now.caches live.now.words live.now.planes (evicted_by self.now.board.now j))) self.now.index row.old }
    {
        let mut most = MOST_COUNTED;
        let higher = self.higher;
        for j in higher.tasks() {
            most = raise_word(row, *j, most, live, self.evicted);
        }
    }
}

// Raises word j of the row by the useful blocks in the sets of record j of `evicted`, which are no more than `most`: they are counted only where that is above
// the word. A number that they are no more than.
fn raise_word(
    row: &mut [u32; MOST_TASKS],
    j: usize,
    most: u32,
    live: &Counts,
    evicted: &[u64; ECB_WORDS],
) -> u32
    requires { (j < 64) × (count_by live.now.caches live.now.words live.now.planes (member (record_at 8 evicted.now j)) ≤ most) }
    ensures { (row.new ≡ set row.old j
        (max (get_or row.old j 0) (count_by live.now.caches live.now.words live.now.planes (member (record_at 8 evicted.now j)))))
        × (count_by live.now.caches live.now.words live.now.planes (member (record_at 8 evicted.now j)) ≤ result) }
{
    let least = row[j];
    if most <= least {
        return most;
    }
    let count = live.count_in(evicted, j);
    row[j] = least.max(count);
    count
}
