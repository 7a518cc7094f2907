// The program's input as words, and its page of times as bytes.
#![tactic(auto)]

pub mod boards;
#[cfg(test)]
mod tests;

ghost use Rattle.std.specs.Prelude.{◌≡◌, ◌≤◌, length, take, drop, IfOk};
ghost use Rattle.io.specs.Counts.{IsPrefixLen};
ghost use Rattle.text.specs.Buffer.{Put};
ghost use Rattle.page.specs.Page.{board_page, page_of, Answered};

use answer_page::answer_page;
use board::{MOST_SCRATCH, MOST_TASKS};
use boards::{BoardPage, InputPage, of_input, run_input_page};
use std::io::{Error, Read, Write};
use text::{Page, put_page};

// The most bytes of the page of a board's times.
const MOST: usize = 4096;

// The page of a board's times.
struct Times;

impl BoardPage<MOST> for Times {
    ghost shown = { λ _ b. board_page b };

    fn of_board(&self, board: &[u32]) -> Page<MOST> {
        let mut times = [0u32; MOST_TASKS];
        let mut scratch = [0u32; MOST_SCRATCH];
        let answer = calls::analyse_alone(board, &mut times, &mut scratch);
        let mut page = Page::new();
        answer_page(&mut page, board, &times, answer);
        page
    }
}

impl InputPage<MOST> for Times {
    #[tactic(auto, unfolding(crate::specs::Page::page_of))]
    fn page_of(&self, bytes: &[u8], out: &mut [u8; MOST]) -> usize {
        page_of(bytes, out)
    }
}

// Reads the input until its end, a failed read or 65,537 bytes, and writes its page. Answers whether no read failed; a failed write is the error.
#[tactic(auto, unfolding(crate::specs::Page::page_of))]
pub fn run<R: Read, W: Write>(from: &mut R, to: &mut W) -> Result<bool, Error>
    ensures { IfOk result (Answered page_of (R.remaining from.old) (R.remaining from.new) (W.contents to.old) (W.contents to.new)) }
{
    run_input_page(&Times, from, to)
}

// Puts the page of the input at the start of out, and answers its length. The rest of out is as it was.
#[tactic(auto, using(text::proofs::Buffer::started), unfolding(crate::specs::Page::page_of))]
pub fn page_of(bytes: &[u8], out: &mut [u8; 4096]) -> usize
    ensures out_after { take result out.new ≡ page_of bytes.now }
    ensures out_unchanged { drop result out.new ≡ drop result out.old }
    ensures prefix_len { IsPrefixLen result out.new }
{
    put_page(out, &of_input(&Times, bytes))
}

// Puts the page of a board at the start of out, and answers its length.
#[tactic(auto, using(text::proofs::Buffer::started))]
pub fn board_page(out: &mut [u8], board: &[u32]) -> usize
    requires { 4096 ≤ length out.old }
    ensures put { Put out.old 0 (board_page board.now) out.new result }
    ensures prefix_len { IsPrefixLen result out.new }
{
    put_page(out, &Times.of_board(board))
}
