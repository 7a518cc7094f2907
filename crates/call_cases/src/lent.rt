// The buffers that a call for C with Analyse's is lent: times and scratch with room for three tasks, and the words of records.
use crate::print::print_fields;
use capi::{zuzgravel_analyse, zuzgravel_analyse_in_order, zuzgravel_make_up};
use std::io::{Error, Stdout, Write};

#[derive(Drop)]
pub struct Lent<const N: usize> {
    pub times: [u32; 6],
    pub scratch: [u32; 32],
    pub records: [u32; N],
}

// What such a call hands back: the code of its answer, and the answer's two words.
#[derive(Clone, Copy)]
pub struct Reply {
    pub code: u32,
    pub words: [u64; 2],
}

impl<const N: usize> Lent<N> {
    // The six words of times are all 7.
    pub fn new(records: [u32; N]) -> Self {
        Lent {
            times: [7; 6],
            scratch: [0; 32],
            records,
        }
    }

    pub fn analyse(&mut self, board: &[u32]) -> Reply {
        let mut words = [0; 2];
        let code = zuzgravel_analyse(
            board,
            &mut self.times,
            &mut self.scratch,
            &mut self.records,
            &mut words,
        );
        Reply { code, words }
    }

    pub fn in_order(&mut self, board: &[u32], order: &[u32]) -> Reply {
        let mut words = [0; 2];
        let code = zuzgravel_analyse_in_order(
            board,
            &mut self.times,
            &mut self.scratch,
            &mut self.records,
            order,
            &mut words,
        );
        Reply { code, words }
    }

    pub fn make_up(&mut self, board: &[u32], task: usize, parts: &mut [u64; 6]) -> Reply {
        let mut words = [0; 2];
        let code = zuzgravel_make_up(
            board,
            &mut self.times,
            &mut self.scratch,
            &mut self.records,
            task,
            parts,
            &mut words,
        );
        Reply { code, words }
    }

    // The words of the times and of the records, and the end of the line.
    pub fn print(&self, out: &mut Stdout) -> Result<(), Error> {
        write!(out, " |")?;
        print_fields(out, &self.times)?;
        write!(out, " |")?;
        print_fields(out, &self.records)?;
        writeln!(out)
    }
}
