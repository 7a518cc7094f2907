// The checks that a board has to pass: rows 1 to 9 of the refusal table.
#![tactic(auto)]

pub mod search;

ghost use Rattle.std.specs.Prelude.{◌≡◌, ◌+◌, ◌*◌, ◌≤◌, length};
ghost use Rattle.board.specs.Layout.{board_words, lengths_at, first_trace, first_instruction, most_words};
ghost use Rattle.ranges.specs.Parts.{word_ok};
ghost use Rattle.refusals.specs.Refusals.{row_number, refuse_unless, refuse_first, refusal_of};
ghost use Rattle.refusals.specs.Found.{refuse_at, body_rows};

use board::MOST_WORDS;
use ranges::Part;
use search::{all_ok, first_bad, sum_words};

// A row of the refusal table, by what it tests. The numbers are those of the table.
#[derive(Clone, Copy, Debug, PartialEq, Eq)]
pub enum Row {
    // the board has 20 to MOST_WORDS words
    BoardSize = 1,
    // a header word is in its range
    HeaderWord = 2,
    // the board has as many words as its header says
    BoardLength = 3,
    // a task's word is in its range
    TaskWord = 4,
    // the tasks' trace counts sum to the number of traces
    TraceSum = 5,
    // a trace's length is in its range
    TraceLength = 6,
    // the trace lengths sum to the number of instructions
    LengthSum = 7,
    // a fetched block is one of the code
    FetchedBlock = 8,
    // a work word has a kind, and a block for its kind
    WorkWord = 9,
    // a number given for a task is one of a task
    TaskNumber = 10,
    // the times buffer has a word for each task
    TimesBuffer = 11,
    // the scratch has words enough for the tasks
    Scratch = 12,
    // the figures table has a record for each task
    FiguresTable = 13,
    // a time given is not past its bound by more than one
    GivenTime = 14,
    // the program's input is as many bytes as whole words, and not too many
    InputBytes = 15,
    // a list of task numbers names each task once
    TaskList = 16,
}

// A row that refuses, and its place.
#[derive(Clone, Copy, Debug, PartialEq, Eq)]
pub struct Refusal {
    pub row: Row,
    pub place: usize,
}

// What a check says: nothing where all is well, and else what refuses.
pub type Verdict = Result<(), Refusal>;

impl Row {
    // The row's number in the table.
    pub fn number(self) -> usize
        ensures { result ≡ row_number self }
    {
        self as usize
    }
}

// Rows 1 to 9: all that a board alone decides.
#[tactic(auto, using(crate::proofs::Verdicts::chain), unfolding(crate::specs::Refusals::refusal_of))]
pub fn check(board: &[u32]) -> Verdict
    ensures { result ≡ refusal_of board.now }
{
    let len = board.len();
    check_that(Row::BoardSize, (20..=MOST_WORDS).contains(&len), len)?;
    check_words(Row::HeaderWord, board, Part::Header, 0, 20)?;
    let words = board_words(board);
    check_that(Row::BoardLength, len == words, words)?;
    check_body(board)
}

// The words that a board of that many tasks, traces and instructions has.
fn board_words(board: &[u32]) -> usize
    requires { 20 ≤ length board.now }
    ensures { result ≡ board_words board.now }
{
    let n = board[1] as usize;
    let q = board[2] as usize;
    let g = board[3] as usize;
    20 + 5 * n + q + g + g
}

// Rows 4 to 9, of a board that passes rows 1 to 3.
#[tactic(auto, using(crate::proofs::Verdicts::chain))]
fn check_body(board: &[u32]) -> Verdict
    requires { (length board.now ≤ most_words) × (length board.now ≡ board_words board.now) }
    ensures { result ≡ body_rows board.now }
{
    let n = board[1] as usize;
    let q = board[2] as usize;
    let g = board[3] as usize;
    let lengths = 20 + 5 * n;
    let fetches = lengths + q;
    let works = fetches + g;
    check_words(Row::TaskWord, board, Part::Tasks, 20, lengths)?;
    check_that(Row::TraceSum, trace_sum(board, n) == q, 20)?;
    check_words(Row::TraceLength, board, Part::Lengths, lengths, fetches)?;
    check_that(Row::LengthSum, length_sum(board, lengths, q) == g, lengths)?;
    check_words(Row::FetchedBlock, board, Part::Fetches, fetches, works)?;
    check_words(Row::WorkWord, board, Part::Works, works, works + g)
}

// The sum of the trace counts of n tasks.
fn trace_sum(board: &[u32], n: usize) -> usize
    requires { (n ≤ most_words) × (20 + 5 * n ≤ length board.now) }
    ensures { result ≡ first_trace board.now n }
{
    sum_words(board, 23, 5, n)
}

// The sum of the lengths of q traces, which stand from `lengths` on.
fn length_sum(board: &[u32], lengths: usize, q: usize) -> usize
    requires { (q ≤ most_words) × (lengths ≡ lengths_at board.now) × (lengths + q ≤ length board.now) }
    ensures { result ≡ first_instruction board.now q }
{
    sum_words(board, lengths, 1, q)
}

// A row that tests the words from .. end - 1 of a part, ascending. They are looked at one by one only where not all are in their range.
#[inline(always)]
#[tactic(auto, using(crate::proofs::Verdicts::first_rows))]
fn check_words(row: Row, board: &[u32], part: Part, from: usize, end: usize) -> Verdict
    requires { (20 ≤ length board.now) × (end ≤ length board.now) }
    ensures { result ≡ refuse_first row (word_ok part board.now) from end }
{
    if all_ok(board, part, from, end) {
        return Ok(());
    }
    refuse_at(row, first_bad(board, part, from, end))
}

// A row that tests one thing.
#[tactic(auto, unfolding(crate::specs::Refusals::refuse_unless))]
pub fn check_that(row: Row, test: bool, place: usize) -> Verdict
    ensures { result ≡ refuse_unless row test place }
{
    if test {
        Ok(())
    } else {
        Err(Refusal { row, place })
    }
}

// A row that refuses at the place that a search found, if it found one.
pub fn refuse_at(row: Row, found: Option<usize>) -> Verdict
    ensures { result ≡ refuse_at row found }
{
    match found {
        Some(place) => Err(Refusal { row, place }),
        None => Ok(()),
    }
}
