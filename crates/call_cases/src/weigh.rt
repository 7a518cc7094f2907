// Call 3: the sum of a task at given times, by `calls::weigh`.
use crate::halves::task;
use crate::print::print_outcome;
use calls::weigh;
use std::io::{Error, Stdout};

// The first words are the halves of the task's number, the others are the times. The sum, or `bad` with number and place.
pub fn answer(out: &mut Stdout, given: &[u32], board: &[u32]) -> Result<(), Error> {
    if let [low, high, times @ ..] = given {
        print_outcome(out, weigh(board, times, task(*low, *high)))?;
    }
    Ok(())
}
