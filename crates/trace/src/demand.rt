// The processor demand and the memory demand of a trace.
ghost use Rattle.std.specs.Prelude.{◌&&◌, ◌≡◌, ◌<◌, ◌≤◌, eqb};
ghost use Rattle.folds.specs.Folds.{only_if, sum_to};
ghost use Rattle.board.specs.Layout.{memory};
ghost use Rattle.trace.specs.Traces.{trace_pd, trace_md};
ghost use Rattle.trace.specs.Positions.{accesses};

use super::BoardTrace;
use board::{Board, FIRST_DATA_BLOCK, Memory, work};

// PD: the cycles without memory.
pub fn pd(trace: &BoardTrace) -> u32
    ensures { result ≡ trace_pd trace.now }
{
    let mut sum: u32 = 0;
    for p in 0..trace.len() {
        sum += work::cycles(trace.work(p));
    }
    sum
}

// PD and MD.
#[derive(Clone, Copy, Debug, PartialEq, Eq)]
pub struct Demand {
    pub pd: u32,
    pub md: u32,
}

// PD and MD without a cache, in one scan: with memory 0 nothing is held, and with memory 1 the blocks of the scratchpad.
pub fn uncached(board: &Board, trace: &BoardTrace) -> Demand
    requires { (trace.now.words ≡ board.now) × (memory board.now ≤ 1) }
    ensures { (result.md ≡ trace_md trace.now) × (result.pd ≡ trace_pd trace.now) }
{
    board.sound();
    trace.lies();
    match board.memory() {
        Memory::Plain => demands_past(trace, 0, FIRST_DATA_BLOCK),
        _ => demands_past(
            trace,
            board.held_code(),
            FIRST_DATA_BLOCK + board.held_data(),
        ),
    }
}

// PD, and the bus accesses without a cache: fetches of blocks from low on, reads of blocks from high on, and writes.
fn demands_past(trace: &BoardTrace, low: u32, high: u32) -> Demand
    ensures { (result.md ≡ sum_to (accesses trace.now low high) trace.now.len) × (result.pd ≡ trace_pd trace.now) }
{
    let mut pd: u32 = 0;
    let mut md: u32 = 0;
    for p in 0..trace.len() {
        pd += work::cycles(trace.work(p));
        md += accesses_by(trace, p, low, high);
    }
    Demand { pd, md }
}

// The bus accesses of instruction p. Its kind chooses what its data access counts, and no arm has work of its own, so that there is no branch on it and the sum
// over a trace takes several instructions at a time.
fn accesses_by(trace: &BoardTrace, p: usize, low: u32, high: u32) -> u32
    requires { p < trace.now.len }
    ensures { (result ≡ accesses trace.now low high p) × (result ≤ 3) }
{
    let w = trace.work(p);
    let kind = work::kind(w);
    let fetched = u32::from(low <= trace.fetch(p));
    let read = read_by(kind, high <= work::block(w));
    fetched + read + written_by(kind)
}

// A read counts one where its block is not held.
fn read_by(kind: u32, past: bool) -> u32
    ensures { (result ≡ only_if (eqb kind 1 && past) 1) × (result ≤ 1) }
{
    match kind {
        1 => u32::from(past),
        _ => 0,
    }
}

// A write counts one.
fn written_by(kind: u32) -> u32
    ensures { (result ≡ only_if (eqb kind 2) 1) × (result ≤ 1) }
{
    match kind {
        2 => 1,
        _ => 0,
    }
}
