// The range of each word of a board.
#![tactic(auto)]

ghost use Rattle.std.specs.Prelude.{◌≡◌, ◌≤◌, ◌<◌, length};
ghost use Rattle.board.specs.Layout.{is_ways};
ghost use Rattle.ranges.specs.Ranges.{header_ok, task_ok, work_ok, test_if, range_if, sets_or_held};
ghost use Rattle.ranges.specs.Ranges.{within as Ranges·within};
ghost use Rattle.ranges.specs.Parts.{word_ok};

use board::{FIRST_DATA_BLOCK, LONGEST, MOST_PUT_OFF, MOST_REFRESH_ROWS, MOST_SETS, work};

// The parts of a board whose words are tested, in their order.
#[derive(Clone, Copy, Debug, PartialEq, Eq)]
pub enum Part {
    Header,
    Tasks,
    Lengths,
    Fetches,
    Works,
}

// Whether x is in low .. high. Both tests are made, since `contains` of a range has a branch, of which there is none here for the reason that `work_ok` gives.
pub fn within(low: u32, high: u32, x: u32) -> bool
    ensures { result ≡ Ranges·within low high x }
{
    (low <= x) & (x <= high)
}

// Whether x is in low .. high where it is in use, and 0 where not.
fn range_if(used: bool, low: u32, high: u32, x: u32) -> bool
    ensures { result ≡ range_if used low high x }
{
    if used { within(low, high, x) } else { x == 0 }
}

// Whether x may be the sets of a cache where there is one, else the blocks that a scratchpad holds where there is one, and 0 where there is neither.
fn sets_or_held(cached: bool, held: bool, x: u32) -> bool
    ensures { result ≡ sets_or_held cached held x }
{
    if cached {
        within(1, MOST_SETS, x)
    } else {
        range_if(held, 0, FIRST_DATA_BLOCK, x)
    }
}

// Whether x may be the ways of a cache where there is one, and 0 where not.
fn ways_if(cached: bool, x: u32) -> bool
    ensures { result ≡ test_if cached is_ways x }
{
    if cached {
        matches!(x, 0 | 1 | 2 | 4 | 8)
    } else {
        x == 0
    }
}

// Words 17 and above are spare. Memory, bus and refresh are numbers here: a board that has not passed may have any.
#[tactic(auto, using(crate::proofs::Rows::header_spare), unfolding(crate::specs::Ranges::header_ranges, crate::specs::Ranges::header_ok))]
fn header_ok(board: &[u32], i: usize) -> bool
    requires { (20 ≤ length board.now) × (i < length board.now) }
    ensures { result ≡ header_ok board.now i }
{
    let memory = board[4];
    let held = memory == 1;
    let cached = 2 <= memory;
    let slotted = 3 <= board[5];
    let refresh = board[8];
    let refreshed = 1 <= refresh;
    let x = board[i];
    match i {
        0 => within(1, 8, x),
        1 => within(1, 64, x),
        2 => within(1, 512, x),
        3 => within(1, 8192, x),
        4 => within(0, 3, x),
        5 => within(0, 4, x),
        6 => range_if(slotted, 1, 8, x),
        7 => within(1, 255, x),
        8 => within(0, 2, x),
        9 => range_if(refreshed, 1, LONGEST, x),
        10 => range_if(refreshed, 1, MOST_REFRESH_ROWS, x),
        11 => range_if(refreshed, 0, 255, x),
        12 => 1 <= x,
        13 => sets_or_held(cached, held, x),
        14 => sets_or_held(memory == 3, held, x),
        15 => ways_if(cached, x),
        16 => range_if(refresh == 2, 0, MOST_PUT_OFF, x),
        _ => x == 0,
    }
}

// The tasks start at word 20, so word i of the board is word i mod 5 of its task: core, T, D, trace count, J.
#[tactic(auto, unfolding(crate::specs::Ranges::task_ranges, crate::specs::Ranges::task_ok))]
fn task_ok(board: &[u32], i: usize) -> bool
    requires { (20 ≤ length board.now) × (i < length board.now) }
    ensures { result ≡ task_ok board.now i }
{
    let x = board[i];
    let field = i % 5;
    match field {
        0 => within(1, board[0], x),
        1 => within(1, LONGEST, x),
        2 => within(1, board[i - 1], x),
        3 => within(1, 8, x),
        _ => within(0, board[i - 2], x),
    }
}

// Kind 0 executes, 1 reads and 2 writes. There is no branch on the kind: those of a board that is new to the machine cannot be foreseen.
fn work_ok(board: &[u32], i: usize) -> bool
    requires { i < length board.now }
    ensures { result ≡ work_ok board.now i }
{
    let x = board[i];
    let kind = work::kind(x);
    let block = work::block(x);
    let executes = (kind == 0) & (block == 0);
    let moves = (kind != 0) & (kind <= 2) & (FIRST_DATA_BLOCK <= block);
    executes | moves
}

// Whether word i of the board is in its range, as a word of that part. It is put in line, so that a loop over one part has that part's test alone.
#[inline(always)]
pub fn word_ok(board: &[u32], part: Part, i: usize) -> bool
    requires { (20 ≤ length board.now) × (i < length board.now) }
    ensures { result ≡ word_ok part board.now i }
{
    match part {
        Part::Header => header_ok(board, i),
        Part::Tasks => task_ok(board, i),
        Part::Lengths => within(1, 1024, board[i]),
        Part::Fetches => board[i] < FIRST_DATA_BLOCK,
        Part::Works => work_ok(board, i),
    }
}
