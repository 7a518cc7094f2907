// The calls for C and Rust, on numbers and word slices; `capi_c` exports them for C, and include/zuzgravel.h declares them. Each takes every input, returns a code,
// and puts the two numbers of its answer into the two words of `answer`, also where it refuses.
#![tactic(auto, using(replies::proofs::Records::filled))]

ghost use Rattle.std.specs.Prelude.{Result, ◌≡◌, length};
ghost use Rattle.refusals.specs.declared.Refusal.{Refusal};
ghost use Rattle.answers.specs.declared.Answer.{Answer};
ghost use Rattle.answers.specs.declared.MadeUp.{MadeUp};
ghost use Rattle.checks.specs.CallRefusals.{figures_refusal, analyse_refusal, in_order_refusal, make_up_refusal};
ghost use Rattle.answers.specs.Answers.{figures_answer, overhead_answer, weigh_answer};
ghost use Rattle.answers.specs.Demand.{Analysed};
ghost use Rattle.answers.specs.InOrder.{AnalysedInOrder};
ghost use Rattle.answers.specs.MakeUp.{MadeUpAll};
ghost use Rattle.replies.specs.Replies.{outcome_code, outcome_words, answer_code, answer_words, made_up_code, made_up_words, parts_after};
ghost use Rattle.replies.specs.Records.{record_room, records_after};

use figures::FigureWords;
use replies::parts::of_made_up;
use replies::reply::{of_answer, of_outcome};
use replies::table::{RECORD_WORDS, fill_words};

// Figures: the records of the tasks as words, RECORD_WORDS a record; the value is their number.
pub fn zuzgravel_figures(board: &[u32], records: &mut [u32], answer: &mut [u64; 2]) -> u32
    ensures code { result ≡ outcome_code (figures_answer board.now (record_room records.old)) }
    ensures answer { answer.new ≡ outcome_words (figures_answer board.now (record_room records.old)) }
    ensures records { records.new ≡ records_after board.now
        (figures_refusal board.now (record_room records.old)) records.old }
{
    // these lines stand in each call with records, as in crate `calls`: what a closure that lends the buffers leaves in them is not known to who calls it
    let mut figures = FigureWords::empty();
    let outcome = works::figures(board, records.len() / RECORD_WORDS, &mut figures);
    fill_words(
        board,
        figures.records,
        &figures.words,
        &figures.sets,
        records,
    );
    of_outcome(outcome, answer)
}

// Overhead: the value is γ(i, j); tasks are their numbers from 1.
pub fn zuzgravel_overhead(board: &[u32], i: usize, j: usize, answer: &mut [u64; 2]) -> u32
    ensures code { result ≡ outcome_code (overhead_answer board.now i j) }
    ensures answer { answer.new ≡ outcome_words (overhead_answer board.now i j) }
{
    of_outcome(calls::overhead(board, i, j), answer)
}

// Weigh: the value is the sum of task i, a number from 1, at these times.
pub fn zuzgravel_weigh(board: &[u32], times: &[u32], i: usize, answer: &mut [u64; 2]) -> u32
    ensures code { result ≡ outcome_code (weigh_answer board.now times.now i) }
    ensures answer { answer.new ≡ outcome_words (weigh_answer board.now times.now i) }
{
    of_outcome(calls::weigh(board, times, i), answer)
}

// Analyse: the settled times into `times` where they are the answer, and the records as `zuzgravel_figures` writes them unless refused.
pub fn zuzgravel_analyse(
    board: &[u32],
    times: &mut [u32],
    scratch: &mut [u32],
    records: &mut [u32],
    answer: &mut [u64; 2],
) -> u32
    ensures reply { (r : Result Answer Refusal) × (result ≡ answer_code r) × (answer.new ≡ answer_words r)
        × Analysed board.now times.old scratch.old (record_room records.old) r times.new scratch.new }
    ensures records { records.new ≡ records_after board.now
        (analyse_refusal board.now (length times.old) (length scratch.old) (record_room records.old)) records.old }
{
    let mut figures = FigureWords::empty();
    let room = records.len() / RECORD_WORDS;
    let found = works::analyse(board, times, scratch, room, &mut figures);
    fill_words(
        board,
        figures.records,
        &figures.words,
        &figures.sets,
        records,
    );
    of_answer(found, answer)
}

// Analyse in the order of a list of task numbers: buffers as those of `zuzgravel_analyse`.
pub fn zuzgravel_analyse_in_order<'a>(
    board: &'a [u32],
    times: &mut [u32],
    scratch: &mut [u32],
    records: &mut [u32],
    order: &'a [u32],
    answer: &mut [u64; 2],
) -> u32
    ensures reply { (r : Result Answer Refusal) × (result ≡ answer_code r) × (answer.new ≡ answer_words r)
        × AnalysedInOrder board.now times.old scratch.old (record_room records.old) order.now r times.new scratch.new }
    ensures records { records.new ≡ records_after board.now
        (in_order_refusal board.now (length times.old) (length scratch.old) (record_room records.old) order.now) records.old }
{
    let mut figures = FigureWords::empty();
    let room = records.len() / RECORD_WORDS;
    let found = works::analyse_in_order(board, times, scratch, room, &mut figures, order);
    fill_words(
        board,
        figures.records,
        &figures.words,
        &figures.sets,
        records,
    );
    of_answer(found, answer)
}

// How a time is made up: the six parts of the sum of a task, a number from 1, into `parts`, and the number of the largest as the value; buffers as those of
// `zuzgravel_analyse`.
pub fn zuzgravel_make_up(
    board: &[u32],
    times: &mut [u32],
    scratch: &mut [u32],
    records: &mut [u32],
    task: usize,
    parts: &mut [u64; 6],
    answer: &mut [u64; 2],
) -> u32
    ensures reply { (r : Result MadeUp Refusal) × (result ≡ made_up_code r) × (answer.new ≡ made_up_words r) × (parts.new ≡ parts_after r parts.old)
        × MadeUpAll board.now times.old scratch.old (record_room records.old) task r times.new scratch.new }
    ensures records { records.new ≡ records_after board.now
        (make_up_refusal board.now (length times.old) (length scratch.old) (record_room records.old) task) records.old }
{
    let mut figures = FigureWords::empty();
    let room = records.len() / RECORD_WORDS;
    let made = works::make_up(board, times, scratch, room, &mut figures, task);
    fill_words(
        board,
        figures.records,
        &figures.words,
        &figures.sets,
        records,
    );
    of_made_up(made, parts, answer)
}
