// Calls 2 and 6: `calls::figures` with a lent table, every record of which is marked before. Calls 7, 11 and 13: the calls for C that have Analyse's buffers, with
// room for three records, marked and printed as those are.
ghost use Rattle.std.specs.Prelude.{◌≤◌};

use crate::halves::{task, whole};
use crate::lent::{Lent, Reply};
use crate::print::{print_fields, print_outcome, print_record};
use calls::{Figure, figures};
use std::io::{Error, Stdout, Write};

// What every word of a record is before a call: no task is on core 9.
const MARK: u32 = 9;

const MARKED: Figure = Figure {
    core: MARK,
    period: MARK,
    deadline: MARK,
    pd: MARK,
    md: MARK,
    ecb: [MARK as u64; 4],
    data_ecb: [MARK as u64; 4],
};

// The words of a record, and of three.
const WORDS: usize = 21;

const THREE: usize = 63;

// The number of records filled, or `bad` with number and place; then a line for each record that is not as it was, and `same` with how many of 64 are.
pub fn figures_of_64(out: &mut Stdout, board: &[u32]) -> Result<(), Error> {
    let mut table = [MARKED; 64];
    print_outcome(out, figures(board, &mut table))?;
    for (k, f) in table.iter().enumerate() {
        if *f != MARKED {
            print_record(out, k + 1, f)?;
        }
    }
    writeln!(
        out,
        "same {}",
        table.iter().filter(|f| **f == MARKED).count()
    )
}

// The same, with a line for each of three records.
pub fn figures_of_3(out: &mut Stdout, board: &[u32]) -> Result<(), Error> {
    let mut table = [MARKED; 3];
    print_outcome(out, figures(board, &mut table))?;
    for (k, f) in table.iter().enumerate() {
        print_record(out, k + 1, f)?;
    }
    Ok(())
}

// The answer, a line for each of three records, and the six words of times, which were all 7.
pub fn analyse_of_3(out: &mut Stdout, board: &[u32]) -> Result<(), Error> {
    let mut lent = Lent::new(marked_words());
    print_answer(out, lent.analyse(board))?;
    print_buffers(out, &lent)
}

// The same, in the order of a list.
pub fn in_order_of_3(out: &mut Stdout, order: &[u32], board: &[u32]) -> Result<(), Error> {
    let mut lent = Lent::new(marked_words());
    print_answer(out, lent.in_order(board, order))?;
    print_buffers(out, &lent)
}

// The same of how a time is made up; the words are the halves of the task's number.
pub fn make_up_of_3(out: &mut Stdout, given: &[u32], board: &[u32]) -> Result<(), Error> {
    if let [low, high] = given {
        let mut lent = Lent::new(marked_words());
        let mut parts = [0; 6];
        let reply = lent.make_up(board, task(*low, *high), &mut parts);
        print_made_up(out, reply, &parts)?;
        print_buffers(out, &lent)?;
    }
    Ok(())
}

// The words of three records, each as `MARKED` has it: the high half of a word of an ECB is 0.
fn marked_words() -> [u32; THREE] {
    let mut words = [MARK; THREE];
    for (k, word) in words.iter_mut().enumerate() {
        let at = k % WORDS;
        if 5 < at && at % 2 == 0 {
            *word = 0;
        }
    }
    words
}

// `ok` and the passes, `late` with the task and the passes, `spent`, or `bad` with number and place.
fn print_answer(out: &mut Stdout, reply: Reply) -> Result<(), Error> {
    let [first, second] = reply.words;
    match reply.code {
        0 => writeln!(out, "ok {first}"),
        1 => writeln!(out, "late {first} {second}"),
        2 => writeln!(out, "spent"),
        _ => writeln!(out, "bad {first} {second}"),
    }
}

// `ok`, the six parts and the number of the largest; else as an answer.
fn print_made_up(out: &mut Stdout, reply: Reply, parts: &[u64; 6]) -> Result<(), Error> {
    if reply.code == 0 {
        write!(out, "ok")?;
        print_fields(out, parts)?;
        writeln!(out, " {}", reply.words[0])
    } else {
        print_answer(out, reply)
    }
}

// A line for each of three records, and the words of the times.
fn print_buffers(out: &mut Stdout, lent: &Lent<THREE>) -> Result<(), Error> {
    let (records, _) = lent.records.as_chunks();
    for (k, words) in records.iter().enumerate() {
        print_record(out, k + 1, &figure_in(words))?;
    }
    write!(out, "times")?;
    print_fields(out, &lent.times)?;
    writeln!(out)
}

// The record that has these words: core, T, D, PD, MD and the words of the ECB of each cache, the low half of each first.
fn figure_in(words: &[u32; WORDS]) -> Figure {
    Figure {
        core: words[0],
        period: words[1],
        deadline: words[2],
        pd: words[3],
        md: words[4],
        ecb: set_in(words, 5),
        data_ecb: set_in(words, 13),
    }
}

// The four words whose halves stand in the words of a record from an index on.
fn set_in(words: &[u32; WORDS], at: usize) -> [u64; 4]
    requires { at ≤ 13 }
{
    [
        whole(words[at], words[at + 1]),
        whole(words[at + 2], words[at + 3]),
        whole(words[at + 4], words[at + 5]),
        whole(words[at + 6], words[at + 7]),
    ]
}
