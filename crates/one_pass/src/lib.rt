// One pass over the times of a prepared scratch: of all tasks together, or (`visits`) in a chosen order.
#![tactic(auto)]

mod due;
mod visits;

ghost use Rattle.std.specs.Prelude.{◌≡◌, ◌+◌, ◌<◌, get_or, take};
ghost use Rattle.folds.specs.Folds.{fill_to};
ghost use Rattle.passes.specs.Passes.{capped};
ghost use Rattle.folds.specs.Stored.{Stored};
ghost use Rattle.board.specs.Layout.{tasks};
ghost use Rattle.sums.specs.Links.{Linked};
ghost use Rattle.scratch.specs.Scratch.{Passable, Prepared};
ghost use Rattle.one_pass.specs.System.{system};
ghost use Rattle.one_pass.specs.DueTasks.{OnCores, Quiet, Unchanged};
ghost use Rattle.one_pass.specs.Startable.{Startable};

use bitset::word::has;
use board::Board;
use due::cores_of;
use linked_tasks::{LINK_WORDS, MOST_CORES};

// What the passes of a board read besides the scratch, made once for all of them: the board and its number of tasks, the links of the tasks, and for each core
// its tasks as bits of a word.
#[derive(Drop)]
pub struct PassTables<'a> {
    pub board: &'a Board<'a>,
    pub n: usize,
    pub links: [u32; LINK_WORDS],
    pub on: [u64; MOST_CORES],
    ghost all: { n ≡ tasks board.now },
    ghost linked: { Linked board.now links },
    ghost cores: { OnCores board.now (tasks board.now) on },
}

impl<'a> PassTables<'a> {
    pub fn of(board: &'a Board<'a>, n: usize) -> PassTables<'a>
        requires { n ≡ tasks board.now }
        ensures { (result.board.now ≡ board.now) × (result.n ≡ n) }
    {
        let links = linked_tasks::make(board);
        let on = cores_of(board);
        PassTables {
            board,
            n,
            links,
            on,
        }
    }

    // The next time of task i: its sum, or its bound + 1 where the sum is larger.
    pub fn next_time(&self, scratch: &[u32], i: usize) -> u32
        requires { (Startable self.now.board.now self.now.n scratch.now) × (Prepared self.now.board.now self.now.n scratch.now) × (i < self.now.n) }
        ensures { result ≡ capped (system self.now.board.now) (take self.now.n scratch.now) i }
    {
        let n = self.n;
        let sum = scratch::sum_along(self.board, n, &self.links, scratch, &scratch[..n], i);
        let cap = self.board.bound(i) + 1;
        sum.min(u64::from(cap)) as u32
    }

    // One pass: the n words from n on become the next times of the first n words. A task that is not due has its next time already.
    pub fn make_pass(&self, due: u64, scratch: &mut [u32])
        requires { (Startable self.now.board.now self.now.n scratch.old) × (Prepared self.now.board.now self.now.n scratch.old)
            × Quiet self.now.board.now self.now.n due scratch.old }
        ensures { Stored (capped (system self.now.board.now) (take self.now.n scratch.old)) self.now.n self.now.n scratch.old scratch.new }
    {
        for i in 0..self.n {
            let next = if has(due, i) {
                self.next_time(scratch, i)
            } else {
                scratch[i]
            };
            scratch[self.n + i] = next;
        }
    }

    // Moves the n words from n on to the front. Answers the tasks that are due: those that read a time which this changed.
    pub fn advance(&self, words: &mut [u32]) -> u64
        requires { Passable self.now.board.now self.now.n words.old }
        ensures words_after { words.new ≡ fill_to (λ k. get_or words.old (self.now.n + k) 0) self.now.n words.old }
        ensures unchanged { Unchanged self.now.board.now self.now.n words.old result self.now.n }
    {
        let mut due = 0u64;
        for k in 0..self.n {
            let time = words[k];
            let next = words[self.n + k];
            words[k] = next;
            if time != next {
                due = self.joined(due, k);
            }
        }
        due
    }
}
