// Call 1: the verdict of `refusals::check`.
use crate::print::print_refusal;
use std::io::{Error, Stdout, Write};

// `ok`, or `bad` with number and place.
pub fn answer(out: &mut Stdout, board: &[u32]) -> Result<(), Error> {
    match refusals::check(board) {
        Ok(()) => writeln!(out, "ok"),
        Err(refusal) => print_refusal(out, refusal),
    }
}
