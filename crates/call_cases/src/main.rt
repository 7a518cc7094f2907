// Reads lines from standard input and answers the calls on them. A line that begins with `b` has a board's words; any other has the number of a call and
// the words that the call takes beside the board, which is that of the last line with one. The input is made of blocks of 65,536 bytes, at most 64, each
// with whole lines of which the first has a board; a line of dots fills a block up.
#![tactic(auto)]

mod analyse;
mod board_page;
mod halves;
mod lent;
mod lines;
mod make_up;
mod overheads;
mod print;
mod tables;
mod verdict;
mod weigh;

use arrayvec::ArrayVec;
use input::reading::read_full;
use lines::read_words;
use std::io::{Error, Stdin, Stdout};

// The most words of a line with a board, and of any other line.
const BOARD_WORDS: usize = 16400;

const CALL_WORDS: usize = 1024;

fn main(rt: HostRuntime) -> Result<(), Error> {
    let mut from = rt.stdin();
    let mut out = rt.stdout();
    for _ in 0..64 {
        one_block(&mut from, &mut out)?;
    }
    Ok(())
}

fn one_block(from: &mut Stdin, out: &mut Stdout) -> Result<(), Error> {
    let mut text = [0u8; 65536];
    let reading = read_full(from, &mut text);
    all_lines(out, &text[..reading.count])
}

fn all_lines(out: &mut Stdout, text: &[u8]) -> Result<(), Error> {
    let mut board = ArrayVec::<u32, BOARD_WORDS>::new();
    let mut words = ArrayVec::<u32, CALL_WORDS>::new();
    for line in text.split(|byte| *byte == b'\n') {
        if let [b'b', ..] = line {
            read_words(line, &mut board);
        } else {
            read_words(line, &mut words);
            answer(out, words.as_slice(), board.as_slice())?;
        }
    }
    Ok(())
}

// Answers the call of a line.
fn answer(out: &mut Stdout, words: &[u32], board: &[u32]) -> Result<(), Error> {
    match words {
        [call, given @ ..] => answer_call(out, *call, given, board),
        [] => Ok(()),
    }
}

// A call is a function of this crate and an arm here, by the number that the input has for it; a line with another number is passed over.
fn answer_call(out: &mut Stdout, call: u32, given: &[u32], board: &[u32]) -> Result<(), Error> {
    match call {
        1 => verdict::answer(out, board),
        2 => tables::figures_of_64(out, board),
        3 => weigh::answer(out, given, board),
        4 => analyse::answer(out, board),
        5 => board_page::answer(out, board),
        6 => tables::figures_of_3(out, board),
        7 => tables::analyse_of_3(out, board),
        8 => overheads::one(out, given, board),
        9 => overheads::rows(out, given, board),
        10 => analyse::in_order(out, given, board),
        11 => tables::in_order_of_3(out, given, board),
        12 => make_up::answer(out, given, board),
        13 => tables::make_up_of_3(out, given, board),
        14 => make_up::page(out, given, board),
        _ => Ok(()),
    }
}
