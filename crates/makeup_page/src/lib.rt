// The program's input as words and its argument as a task's number, and the page of how that task's time is made up as bytes.
#![tactic(auto)]

ghost use Rattle.std.specs.Prelude.{◌≡◌, ◌≤◌, length, take, drop, IfOk};
ghost use Rattle.io.specs.Counts.{IsPrefixLen};
ghost use Rattle.input.specs.Argument.{number_in};
ghost use Rattle.text.specs.Buffer.{Put};
ghost use Rattle.page.specs.Page.{Answered};
ghost use Rattle.makeup_page.specs.MakeUpPage.{board_made_up, make_up_page};

use board::{MOST_SCRATCH, MOST_TASKS};
use input::argument::number_in;
use page::boards::{BoardPage, InputPage, of_input, run_input_page};
use parts_page::made_up_page;
use std::io::{Error, Read, Write};
use text::{Page, put_page};

// The most bytes of the page of how a time is made up.
const MOST: usize = 512;

// The page of how the time of a task is made up, whose number is the argument.
#[derive(Clone, Copy)]
struct MadeUp<'a> {
    argument: &'a [u8],
}

impl BoardPage<MOST> for MadeUp<'_> {
    ghost shown = { λ made b. board_made_up (number_in made.argument.now) b };

    fn of_board(&self, board: &[u32]) -> Page<MOST> {
        let mut times = [0u32; MOST_TASKS];
        let mut scratch = [0u32; MOST_SCRATCH];
        let task = number_in(self.argument) as usize;
        let made = calls::make_up_alone(board, &mut times, &mut scratch, task);
        let mut page = Page::new();
        made_up_page(&mut page, board, task, made);
        page
    }
}

impl InputPage<MOST> for MadeUp<'_> {
    #[tactic(auto, unfolding(crate::specs::MakeUpPage::make_up_page))]
    fn page_of(&self, bytes: &[u8], out: &mut [u8; MOST]) -> usize {
        page_of(self.argument, bytes, out)
    }
}

// Reads the input until its end, a failed read or 65,537 bytes, and writes the page of the task that the argument numbers. Answers whether no read failed; a
// failed write is the error.
#[tactic(auto, unfolding(crate::specs::MakeUpPage::make_up_page))]
pub fn run<R: Read, W: Write>(argument: &[u8], from: &mut R, to: &mut W) -> Result<bool, Error>
    ensures { IfOk result (Answered (make_up_page argument.now) (R.remaining from.old) (R.remaining from.new) (W.contents to.old) (W.contents to.new)) }
{
    run_input_page(&MadeUp { argument }, from, to)
}

// Puts the page of the argument and the input at the start of out, and answers its length. The rest of out is as it was.
#[tactic(auto, using(text::proofs::Buffer::started), unfolding(crate::specs::MakeUpPage::make_up_page))]
pub fn page_of(argument: &[u8], bytes: &[u8], out: &mut [u8; 512]) -> usize
    ensures out_after { take result out.new ≡ make_up_page argument.now bytes.now }
    ensures out_unchanged { drop result out.new ≡ drop result out.old }
    ensures prefix_len { IsPrefixLen result out.new }
{
    put_page(out, &of_input(&MadeUp { argument }, bytes))
}

// Puts the page of a board and the argument at the start of out, and answers its length.
#[tactic(auto, using(text::proofs::Buffer::started))]
pub fn board_page(out: &mut [u8], argument: &[u8], board: &[u32]) -> usize
    requires { 512 ≤ length out.old }
    ensures put { Put out.old 0 (board_made_up (number_in argument.now) board.now) out.new result }
    ensures prefix_len { IsPrefixLen result out.new }
{
    let page = MadeUp { argument }.of_board(board);
    put_page(out, &page)
}
