// The public calls: figures, overhead, weigh, analyse, its sibling analyse_in_order, and make_up. The types of their answers and of the table are passed on, so that a
// caller imports them from here.
#![tactic(auto, using(crate::proofs::Table::filled))]

ghost use Rattle.std.specs.Prelude.{◌≡◌, length};
ghost use Rattle.board.specs.Layout.{most_tasks};
ghost use Rattle.checks.specs.CallRefusals.{figures_refusal, analyse_refusal, in_order_refusal, make_up_refusal};
ghost use Rattle.answers.specs.Answers.{figures_answer, overhead_answer, weigh_answer, table_after};
ghost use Rattle.answers.specs.Demand.{Analysed};
ghost use Rattle.answers.specs.InOrder.{AnalysedInOrder};
ghost use Rattle.answers.specs.MakeUp.{MadeUpAll};

pub use answers::{Answer, MadeUp, PARTS, Part};
use board::{Board, MOST_TASKS};
pub use figures::Figure;
use figures::FigureWords;
pub use interference::SumParts;
pub use refusals::{Refusal, Row};

// The response times of a board. Unless refused, the table is filled as `figures` fills it, and the scratch ends with free contents.
pub fn analyse(
    board: &[u32],
    times: &mut [u32],
    scratch: &mut [u32],
    table: &mut [Figure],
) -> Result<Answer, Refusal>
    ensures analysed { Analysed board.now times.old scratch.old (length table.old)
        result times.new scratch.new }
    ensures table { table.new ≡ table_after board.now
        (analyse_refusal board.now (length times.old) (length scratch.old) (length table.old))
        table.old }
{
    // these lines stand in each call with a table: what a closure that lends the buffers leaves in them is not known to who calls it
    let mut figures = FigureWords::empty();
    let answer = works::analyse(board, times, scratch, table.len(), &mut figures);
    table::fill(board, figures.records, &figures.words, &figures.sets, table);
    answer
}

// `analyse` with passes that visit the tasks in the order of a list of task numbers, each task using the newest times. It answers by its own passes, and
// leaves the buffers as `analyse` does; its times are those of `analyse`, and it needs no more passes.
pub fn analyse_in_order<'a>(
    board: &'a [u32],
    times: &mut [u32],
    scratch: &mut [u32],
    table: &mut [Figure],
    order: &'a [u32],
) -> Result<Answer, Refusal>
    ensures analysed_in_order { AnalysedInOrder board.now times.old scratch.old (length table.old)
        order.now result times.new scratch.new }
    ensures table { table.new ≡ table_after board.now
        (in_order_refusal board.now (length times.old) (length scratch.old) (length table.old) order.now)
        table.old }
{
    let mut figures = FigureWords::empty();
    let answer = works::analyse_in_order(board, times, scratch, table.len(), &mut figures, order);
    table::fill(board, figures.records, &figures.words, &figures.sets, table);
    answer
}

// How the time of a task, a number from 1, is made up at the settled times: the six parts of its sum, and the number of the largest. The buffers are those of
// `analyse`, and are left as it leaves them.
pub fn make_up(
    board: &[u32],
    times: &mut [u32],
    scratch: &mut [u32],
    table: &mut [Figure],
    task: usize,
) -> Result<MadeUp, Refusal>
    ensures made_up_all { MadeUpAll board.now times.old scratch.old (length table.old)
        task result times.new scratch.new }
    ensures table { table.new ≡ table_after board.now
        (make_up_refusal board.now (length times.old) (length scratch.old) (length table.old) task)
        table.old }
{
    let mut figures = FigureWords::empty();
    let made = works::make_up(board, times, scratch, table.len(), &mut figures, task);
    table::fill(board, figures.records, &figures.words, &figures.sets, table);
    made
}

// `analyse` for callers that want no figures, as the program: it answers as with a table of 64 records, and meets demand 3 as `analyse` does.
pub fn analyse_alone(
    board: &[u32],
    times: &mut [u32],
    scratch: &mut [u32],
) -> Result<Answer, Refusal>
    ensures { Analysed board.now times.old scratch.old most_tasks result times.new scratch.new }
{
    let mut figures = FigureWords::empty();
    works::analyse(board, times, scratch, MOST_TASKS, &mut figures)
}

// `make_up` for callers that want no figures, as the program: it answers as with a table of 64 records.
pub fn make_up_alone(
    board: &[u32],
    times: &mut [u32],
    scratch: &mut [u32],
    task: usize,
) -> Result<MadeUp, Refusal>
    ensures { MadeUpAll board.now times.old scratch.old most_tasks task result times.new scratch.new }
{
    let mut figures = FigureWords::empty();
    works::make_up(board, times, scratch, MOST_TASKS, &mut figures, task)
}

// The figures of every task, one record a task; the later records are untouched. Answers the number of records filled.
pub fn figures(board: &[u32], table: &mut [Figure]) -> Result<u64, Refusal>
    ensures answer { result ≡ figures_answer board.now (length table.old) }
    ensures table { table.new ≡ table_after board.now
        (figures_refusal board.now (length table.old)) table.old }
{
    let mut figures = FigureWords::empty();
    let outcome = works::figures(board, table.len(), &mut figures);
    table::fill(board, figures.records, &figures.words, &figures.sets, table);
    outcome
}

// The pre-emption overhead γ(i, j); tasks are their numbers from 1.
#[tactic(auto, using(answers::proofs::Outcomes::outcomes), unfolding(answers::specs::Answers::overhead_answer))]
pub fn overhead(board: &[u32], i: usize, j: usize) -> Result<u64, Refusal>
    ensures { result ≡ overhead_answer board.now i j }
{
    checks::check_overhead(board, i, j)?;
    Ok(answers::taken::overhead(&Board::of(board), i, j))
}

// The sum of task i at the times; a task is its number from 1.
#[tactic(auto, using(answers::proofs::Outcomes::outcomes), unfolding(answers::specs::Answers::weigh_answer))]
pub fn weigh(board: &[u32], times: &[u32], i: usize) -> Result<u64, Refusal>
    ensures { result ≡ weigh_answer board.now times.now i }
{
    checks::check_weigh(board, times, i)?;
    Ok(answers::taken::sum(&Board::of(board), times, i))
}
