// Calls 4 and 10: what `zuzgravel_analyse` and `zuzgravel_analyse_in_order` leave in every buffer that they are lent, with room for three tasks.
use crate::lent::{Lent, Reply};
use crate::print::print_fields;
use std::io::{Error, Stdout, Write};

// The words of three records with 20 to spare, which are all 9.
pub const RECORDS: [u32; 83] = [9; 83];

// The code and the two words of the answer, then the words of times and records.
pub fn answer(out: &mut Stdout, board: &[u32]) -> Result<(), Error> {
    let mut lent = Lent::new(RECORDS);
    print_reply(out, lent.analyse(board))?;
    lent.print(out)
}

// The same, in the order of a list.
pub fn in_order(out: &mut Stdout, order: &[u32], board: &[u32]) -> Result<(), Error> {
    let mut lent = Lent::new(RECORDS);
    print_reply(out, lent.in_order(board, order))?;
    lent.print(out)
}

// The code and the two words of an answer.
pub fn print_reply(out: &mut Stdout, reply: Reply) -> Result<(), Error> {
    write!(out, "{}", reply.code)?;
    print_fields(out, &reply.words)
}
