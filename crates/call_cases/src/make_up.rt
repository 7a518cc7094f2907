// Calls 12 and 14: what `zuzgravel_make_up` leaves in every buffer that it is lent, with room for three tasks, and the page of the program `makeup`.
use crate::analyse::{RECORDS, print_reply};
use crate::halves::task;
use crate::lent::Lent;
use crate::print::print_fields;
use std::io::{Error, Stdout, Write};

// The most bytes of an argument.
const MOST: usize = 256;

// The words are the halves of the task's number. The code and the two words of the answer, the six words of the parts, which were all 5, and the times and the
// records as of call 4.
pub fn answer(out: &mut Stdout, given: &[u32], board: &[u32]) -> Result<(), Error> {
    if let [low, high] = given {
        let mut lent = Lent::new(RECORDS);
        let mut parts = [5; 6];
        print_reply(out, lent.make_up(board, task(*low, *high), &mut parts))?;
        write!(out, " |")?;
        print_fields(out, &parts)?;
        lent.print(out)?;
    }
    Ok(())
}

// The words are the bytes of the argument, each modulo 256.
pub fn page(out: &mut Stdout, given: &[u32], board: &[u32]) -> Result<(), Error> {
    if given.len() <= MOST {
        let mut argument = [0; MOST];
        for (byte, word) in argument.iter_mut().zip(given) {
            *byte = (*word % 256) as u8;
        }
        print_page(out, &argument[..given.len()], board)?;
    }
    Ok(())
}

fn print_page(out: &mut Stdout, argument: &[u8], board: &[u32]) -> Result<(), Error> {
    let mut bytes = [0; 512];
    let size = makeup_page::board_page(&mut bytes, argument, board);
    out.write_all(&bytes[..size])
}
