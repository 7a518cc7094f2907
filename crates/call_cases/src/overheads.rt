// Calls 8 and 9: the overhead of two tasks, and rows of overheads, by `calls::overhead`.
use crate::halves::task;
use crate::print::print_outcome;
use calls::overhead;
use std::io::{Error, Stdout, Write};

// The words are the halves of i and of j. The overhead, or `bad` with number and place.
pub fn one(out: &mut Stdout, given: &[u32], board: &[u32]) -> Result<(), Error> {
    if let [i_low, i_high, j_low, j_high] = given {
        print_outcome(
            out,
            overhead(board, task(*i_low, *i_high), task(*j_low, *j_high)),
        )?;
    }
    Ok(())
}

// The word is n. A line for each task i from 1 to n: `gamma` and the overheads γ(i, j) of the tasks j from 1 to n.
pub fn rows(out: &mut Stdout, given: &[u32], board: &[u32]) -> Result<(), Error> {
    if let [n] = given {
        let n = *n as usize;
        for i in 1..=n {
            row(out, board, i, n)?;
        }
    }
    Ok(())
}

// An overhead is a field, or `bad` with number and place three.
fn row(out: &mut Stdout, board: &[u32], i: usize, n: usize) -> Result<(), Error> {
    write!(out, "gamma")?;
    for j in 1..=n {
        match overhead(board, i, j) {
            Ok(gamma) => write!(out, " {gamma}")?,
            Err(refusal) => write!(out, " bad {} {}", refusal.row.number(), refusal.place)?,
        }
    }
    writeln!(out)
}
