// All that each call does but for its table, which has room for so many records: its checks, what it does by their verdict, and its last step. Counted are the
// records to fill: none where it is refused. Each has its own check and its own promise, and shares the rest, `settle`.
#![tactic(auto)]

mod reasons;

ghost use Rattle.std.specs.Prelude.{◌≡◌, length};
ghost use Rattle.checks.specs.CallRefusals.{figures_refusal, analyse_refusal, in_order_refusal, make_up_refusal};
ghost use Rattle.answers.specs.Answers.{figures_answer};
ghost use Rattle.answers.specs.Records.{RecordsToFill};
ghost use Rattle.answers.specs.Demand.{Analysed};
ghost use Rattle.answers.specs.InOrder.{AnalysedInOrder};
ghost use Rattle.answers.specs.MakeUp.{MadeUpAll};

use answers::{Answer, MadeUp};
use board::Board;
use checks::{Lengths, check_analyse, check_figures, check_in_order, check_make_up};
use figures::FigureWords;
use reasons::made_up;
use refusals::Refusal;
use settle::settle;
use settling::{InOrder, Together};

pub fn analyse(
    board: &[u32],
    times: &mut [u32],
    scratch: &mut [u32],
    room: usize,
    figures: &mut FigureWords,
) -> Result<Answer, Refusal>
    ensures { RecordsToFill (analyse_refusal board.now (length times.old) (length scratch.old) room)
        board.now room figures.new
        × Analysed board.now times.old scratch.old room result times.new scratch.new }
{
    let lengths = Lengths {
        times: times.len(),
        scratch: scratch.len(),
        table: room,
    };
    let verdict = check_analyse(board, lengths);
    settle(board, verdict, &Together, times, scratch, figures)
}

pub fn analyse_in_order<'a>(
    board: &'a [u32],
    times: &mut [u32],
    scratch: &mut [u32],
    room: usize,
    figures: &mut FigureWords,
    order: &'a [u32],
) -> Result<Answer, Refusal>
    ensures { RecordsToFill (in_order_refusal board.now (length times.old) (length scratch.old) room order.now)
        board.now room figures.new
        × AnalysedInOrder board.now times.old scratch.old room order.now result times.new scratch.new }
{
    let lengths = Lengths {
        times: times.len(),
        scratch: scratch.len(),
        table: room,
    };
    let verdict = check_in_order(board, lengths, order);
    settle(board, verdict, &InOrder { order }, times, scratch, figures)
}

pub fn make_up(
    board: &[u32],
    times: &mut [u32],
    scratch: &mut [u32],
    room: usize,
    figures: &mut FigureWords,
    task: usize,
) -> Result<MadeUp, Refusal>
    ensures { RecordsToFill (make_up_refusal board.now (length times.old) (length scratch.old) room task)
        board.now room figures.new
        × MadeUpAll board.now times.old scratch.old room task result times.new scratch.new }
{
    let lengths = Lengths {
        times: times.len(),
        scratch: scratch.len(),
        table: room,
    };
    let verdict = check_make_up(board, lengths, task);
    let answer = settle(board, verdict, &Together, times, scratch, figures);
    made_up(board, answer, scratch, task)
}

pub fn figures(board: &[u32], room: usize, figures: &mut FigureWords) -> Result<u64, Refusal>
    ensures { (RecordsToFill (figures_refusal board.now room) board.now room figures.new)
        × (result ≡ figures_answer board.now room) }
{
    figures.records = 0;
    check_figures(board, room)?;
    let board = Board::of(board);
    let n = board.tasks() as usize;
    survey::survey(&board, n, false, &mut figures.words, &mut figures.sets);
    figures.records = n;
    Ok(n as u64)
}
