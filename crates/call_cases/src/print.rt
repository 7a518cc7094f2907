// Answers on standard output.
use calls::Figure;
use refusals::Refusal;
use std::fmt::Display;
use std::io::{Error, Stdout, Write};

// Each of the numbers after a space.
pub fn print_fields<T: Display>(out: &mut Stdout, numbers: &[T]) -> Result<(), Error> {
    for number in numbers {
        write!(out, " {number}")?;
    }
    Ok(())
}

// The value, or the line of a refusal.
pub fn print_outcome(out: &mut Stdout, outcome: Result<u64, Refusal>) -> Result<(), Error> {
    match outcome {
        Ok(value) => writeln!(out, "{value}"),
        Err(refusal) => print_refusal(out, refusal),
    }
}

// The line of a refusal: `bad`, its number and its place.
pub fn print_refusal(out: &mut Stdout, refusal: Refusal) -> Result<(), Error> {
    writeln!(out, "bad {} {}", refusal.row.number(), refusal.place)
}

// The line of a record: its number from 1, core, T, D, PD, MD and the words of the ECB of each cache.
pub fn print_record(out: &mut Stdout, number: usize, f: &Figure) -> Result<(), Error> {
    write!(out, "{number}")?;
    print_fields(out, &[f.core, f.period, f.deadline, f.pd, f.md])?;
    print_fields(out, &f.ecb)?;
    print_fields(out, &f.data_ecb)?;
    writeln!(out)
}
