// One trace of a task: its instructions, its loads, and what they find in memory.
#![tactic(auto)]

pub mod cache;
pub mod cursor;
pub mod demand;

ghost use Rattle.std.specs.Prelude.{◌≡◌, ◌≤◌, ◌<◌};
ghost use Rattle.trace.specs.Traces as of;
ghost use Rattle.trace.specs.Places.{trace_at, Lies};

use std::marker::Model;

// A trace: the board's words, the place of its first fetch word, and its length.
#[derive(Clone, Copy, Debug, PartialEq, Eq)]
pub struct Trace<'a> {
    pub words: &'a [u32],
    pub start: usize,
    pub len: usize,
}

// The trace of len instructions whose first fetch word is word start.
pub fn trace_at<'a>(words: &'a [u32], start: usize, len: usize) -> Trace<'a>
    ensures { (result.words ≡ words.entry) × (result.start ≡ start) × (result.len ≡ len) }
{
    Trace { words, start, len }
}

// A trace that lies within the board's words.
#[derive(Drop)]
pub struct BoardTrace<'a> {
    trace: Trace<'a>,
}

impl<'a> Model for BoardTrace<'a> {
    ghost use Rattle.trace.specs.Traces.{Trace};
    ghost use Rattle.trace.specs.Places.{trace_at, Lies};

    ghost Value = { Trace };

    ghost view = { λ t. trace_at t.trace.words.now t.trace.start t.trace.len };

    ghost invariant = { λ t. Lies t.trace.words.now t.trace.start t.trace.len };
}

impl<'a> BoardTrace<'a> {
    // The trace of len instructions whose first fetch word is word start.
    pub fn at(words: &'a [u32], start: usize, len: usize) -> BoardTrace<'a>
        requires { Lies words.now start len }
        ensures { result ≡ trace_at words.now start len }
    {
        BoardTrace {
            trace: trace_at(words, start, len),
        }
    }

    // Where it lies, for proofs alone.
    pub fn lies(&self)
        ensures { Lies self.now.words self.now.start self.now.len }
    {
        let _trace = self.trace;
    }

    // The number of its instructions.
    pub fn len(&self) -> usize
        ensures { (result ≡ self.now.len) × (result ≤ 1024) }
    {
        self.trace.len
    }

    // The block that instruction p fetches.
    pub fn fetch(&self, p: usize) -> u32
        requires { p < self.now.len }
        ensures { result ≡ of.fetch self.now p }
    {
        self.trace.words[self.trace.start + p]
    }

    // The work word of instruction p: the work words stand as many words further on as the board has instructions.
    pub fn work(&self, p: usize) -> u32
        requires { p < self.now.len }
        ensures { result ≡ of.work self.now p }
    {
        let instructions = self.trace.words[3] as usize;
        self.trace.words[self.trace.start + instructions + p]
    }
}
