// The page of an answer.
#![tactic(auto)]

ghost use Rattle.std.specs.Prelude.{◌≡◌, ◌++◌, ◌+◌, ◌≤◌, ◌<◌, length, Ok};
ghost use Rattle.board.specs.Layout.{tasks};
ghost use Rattle.refusals.specs.Refusals.{row_number};
ghost use Rattle.answers.specs.declared.Answer.TheVariants.{Times};
ghost use Rattle.answer_page.specs.AnswerPage.{task_line, task_lines, bad_line, answer_page};
ghost use Rattle.answer_page.specs.Printable.{Printable};

use answers::Answer;
use board::Board;
use refusals::Refusal;
use text::lines::{number_line, pair_line};
use text::{Page, put_number};

// Puts the line of task k: four words, at most 44 bytes.
#[tactic(auto, using(text::proofs::Fields::put_more, text::proofs::Fields::put_last))]
fn task_line<const N: usize>(page: &mut Page<N>, board: &Board, times: &[u32], k: usize)
    requires { (k < tasks board.now) × (k < length times.now) × (length page.old.items + 54 ≤ N) }
    ensures put { page.new.items ≡ page.old.items ++ task_line board.now times.now k }
    ensures most { length page.new.items ≤ length page.old.items + 44 }
{
    board.sound();
    put_number(page, k as u64 + 1, b' ');
    put_number(page, u64::from(board.core(k)), b' ');
    put_number(page, u64::from(times[k]), b' ');
    put_number(page, u64::from(board.deadline(k)), b'\n');
}

// Puts the lines of all tasks.
#[tactic(auto, using(text::proofs::Fields::joined))]
fn task_lines<const N: usize>(page: &mut Page<N>, board: &Board, times: &[u32])
    requires { (tasks board.now ≤ length times.now) × (length page.old.items + 2826 ≤ N) }
    ensures { page.new.items ≡ page.old.items ++ task_lines board.now times.now (tasks board.now) }
{
    for k in 0..board.tasks() as usize {
        task_line(page, board, times, k);
    }
}

// Puts the page of times: the number of tasks and the passes, then a line a task.
#[tactic(auto, using(text::proofs::Fields::put_then), unfolding(crate::specs::AnswerPage::answer_page))]
fn times_page<const N: usize>(page: &mut Page<N>, board: &Board, times: &[u32], passes: u32)
    requires { (tasks board.now ≤ length times.now) × (length page.old.items + 4096 ≤ N) }
    ensures { page.new.items ≡ page.old.items ++ answer_page board.now times.now (Ok (Times passes)) }
{
    pair_line(page, b"ok", u64::from(board.tasks()), u64::from(passes));
    task_lines(page, board, times);
}

// Puts the line of a refusal: at most 46 bytes.
pub fn refusal_line<const N: usize>(page: &mut Page<N>, refusal: Refusal)
    requires { length page.old.items + 46 ≤ N }
    ensures { page.new.items ≡ page.old.items ++ bad_line (row_number refusal.row) refusal.place }
{
    pair_line(
        page,
        b"bad",
        refusal.row.number() as u64,
        refusal.place as u64,
    );
}

// Puts the page of an answer, with the times of its tasks in `times`.
#[tactic(auto, unfolding(crate::specs::AnswerPage::answer_page))]
pub fn answer_page<const N: usize>(
    page: &mut Page<N>,
    board: &[u32],
    times: &[u32],
    answer: Result<Answer, Refusal>,
)
    requires { Printable board.now times.now answer × (length page.old.items + 4096 ≤ N) }
    ensures { page.new.items ≡ page.old.items ++ answer_page board.now times.now answer }
{
    match answer {
        Ok(Answer::Times(passes)) => times_page(page, &Board::of(board), times, passes),
        Ok(Answer::Late(task, passes)) => pair_line(
            page,
            b"late",
            u64::from(task),
            u64::from(passes),
        ),
        Ok(Answer::Spent) => number_line(page, b"spent", u64::from(Board::of(board).pass_limit())),
        Err(refusal) => refusal_line(page, refusal),
    }
}
