// The page of a program that reads a board, whatever page it makes of one.
ghost use Rattle.std.specs.Prelude.{◌≡◌, ◌≤◌, length, IfOk, Ok};
ghost use Rattle.input.specs.Input.{input_refusal};
ghost use Rattle.page.specs.Page.{input_page, Answered};

use answer_page::refusal_line;
use board::MOST_WORDS;
use input::reading::read_full;
use input::{decode, refusal};
use std::io::{Error, Read, Write};
use text::{Page, put_page};

// What makes a page of at most N bytes of any board.
pub trait BoardPage<const N: usize> {
    ghost use Rattle.std.specs.Prelude.{ℕ, List};

    ghost shown: { Self → List ℕ → List ℕ };

    fn of_board(&self, board: &[u32]) -> Page<N>
        ensures { result.items ≡ shown self.now board.now };
}

// What puts the page of any input at the start of out, and answers its length.
pub trait InputPage<const N: usize>: BoardPage<N> {
    ghost use Rattle.std.specs.Prelude.{take};

    fn page_of(&self, bytes: &[u8], out: &mut [u8; N]) -> usize
        ensures out_after { take result out.new ≡ input_page (Self.shown self.now) bytes.now }
        ensures fits { result ≤ N };
}

// What makes a page of any board, as what puts the page of any input: by `of_input`. Its pages have room for the line of a refusal.
#[derive(Drop)]
struct WholeInput<'a, const N: usize, P> {
    pages: &'a P,
    ghost room: { (46 ≤ N) × (N ≤ 4096) },
}

impl<const N: usize, P: BoardPage<N>> BoardPage<N> for WholeInput<'_, N, P> {
    ghost shown = { λ whole b. P.shown whole.pages.now b };

    fn of_board(&self, board: &[u32]) -> Page<N> {
        self.pages.of_board(board)
    }
}

impl<const N: usize, P: BoardPage<N>> InputPage<N> for WholeInput<'_, N, P> {
    #[tactic(auto, using(text::proofs::Buffer::started))]
    fn page_of(&self, bytes: &[u8], out: &mut [u8; N]) -> usize {
        put_page(out, &of_input(self, bytes))
    }
}

// Reads the input until its end, a failed read or 65,537 bytes, and writes its page, which has room for the line of a refusal. Answers whether no read failed; a
// failed write is the error.
pub fn run_with<const N: usize, P: BoardPage<N>, R: Read, W: Write>(
    pages: &P,
    from: &mut R,
    to: &mut W,
) -> Result<bool, Error>
    requires { (46 ≤ N) × (N ≤ 4096) }
    ensures { IfOk result (Answered (input_page (P.shown pages.now)) (R.remaining from.old) (R.remaining from.new) (W.contents to.old) (W.contents to.new)) }
{
    run_input_page(&WholeInput { pages }, from, to)
}

// The same, by the page's own `page_of`.
pub fn run_input_page<const N: usize, P: InputPage<N>, R: Read, W: Write>(
    pages: &P,
    from: &mut R,
    to: &mut W,
) -> Result<bool, Error>
    requires { (46 ≤ N) × (N ≤ 4096) }
    ensures { IfOk result (Answered (input_page (P.shown pages.now)) (R.remaining from.old) (R.remaining from.new) (W.contents to.old) (W.contents to.new)) }
{
    let mut bytes = [0u8; 65537];
    let reading = read_full(from, &mut bytes);
    let mut out = [0u8; N];
    let size = pages.page_of(&bytes[..reading.count], &mut out);
    to.write_all(&out[..size])?;
    Ok(reading.whole)
}

// The page of the input.
pub fn of_input<const N: usize, P: BoardPage<N>>(pages: &P, bytes: &[u8]) -> Page<N>
    requires { 46 ≤ N }
    ensures { result.items ≡ input_page (P.shown pages.now) bytes.now }
{
    match refusal(bytes) {
        Ok(()) => of_words(pages, bytes),
        Err(refusal) => {
            let mut page = Page::new();
            refusal_line(&mut page, refusal);
            page
        }
    }
}

// The page of an input that row 15 does not refuse.
fn of_words<const N: usize, P: BoardPage<N>>(pages: &P, bytes: &[u8]) -> Page<N>
    requires { input_refusal bytes.now ≡ Ok tt }
    ensures { result.items ≡ input_page (P.shown pages.now) bytes.now }
{
    let mut words = [0u32; MOST_WORDS];
    let n = decode(bytes, &mut words);
    pages.of_board(&words[..n])
}
