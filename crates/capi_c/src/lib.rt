// The calls of `capi` as the static library exports them for C; include/zuzgravel.h declares them. In C an array is one pointer, with no length.
#![tactic(auto)]

ghost use Rattle.std.specs.Prelude.{Result, ◌≡◌, length};
ghost use Rattle.refusals.specs.declared.Refusal.{Refusal};
ghost use Rattle.answers.specs.declared.Answer.{Answer};
ghost use Rattle.answers.specs.declared.MadeUp.{MadeUp};
ghost use Rattle.checks.specs.CallRefusals.{figures_refusal, analyse_refusal, in_order_refusal, make_up_refusal};
ghost use Rattle.answers.specs.Answers.{figures_answer, overhead_answer, weigh_answer};
ghost use Rattle.answers.specs.Demand.{Analysed};
ghost use Rattle.answers.specs.InOrder.{AnalysedInOrder};
ghost use Rattle.answers.specs.MakeUp.{MadeUpAll};
ghost use Rattle.replies.specs.Replies.{outcome_code, outcome_words, answer_code, answer_words, made_up_code, made_up_words, parts_after};
ghost use Rattle.replies.specs.Records.{record_room, records_after};

// Figures: the records of the tasks as words, RECORD_WORDS a record; the value is their number.
#[unsafe(no_mangle)]
pub extern "C" fn zuzgravel_figures(
    board: &[u32],
    records: &mut [u32],
    answer: &mut [u64; 2],
) -> u32
    ensures code { result ≡ outcome_code (figures_answer board.now (record_room records.old)) }
    ensures answer { answer.new ≡ outcome_words (figures_answer board.now (record_room records.old)) }
    ensures records { records.new ≡ records_after board.now
        (figures_refusal board.now (record_room records.old)) records.old }
{
    capi::zuzgravel_figures(board, records, answer)
}

// Overhead: the value is γ(i, j); tasks are their numbers from 1.
#[unsafe(no_mangle)]
pub extern "C" fn zuzgravel_overhead(
    board: &[u32],
    i: usize,
    j: usize,
    answer: &mut [u64; 2],
) -> u32
    ensures code { result ≡ outcome_code (overhead_answer board.now i j) }
    ensures answer { answer.new ≡ outcome_words (overhead_answer board.now i j) }
{
    capi::zuzgravel_overhead(board, i, j, answer)
}

// Weigh: the value is the sum of task i, a number from 1, at these times.
#[unsafe(no_mangle)]
pub extern "C" fn zuzgravel_weigh(
    board: &[u32],
    times: &[u32],
    i: usize,
    answer: &mut [u64; 2],
) -> u32
    ensures code { result ≡ outcome_code (weigh_answer board.now times.now i) }
    ensures answer { answer.new ≡ outcome_words (weigh_answer board.now times.now i) }
{
    capi::zuzgravel_weigh(board, times, i, answer)
}

// Analyse: the settled times into `times` where they are the answer, and the records as `zuzgravel_figures` writes them unless refused.
#[unsafe(no_mangle)]
pub extern "C" fn zuzgravel_analyse(
    board: &[u32],
    times: &mut [u32],
    scratch: &mut [u32],
    records: &mut [u32],
    answer: &mut [u64; 2],
) -> u32
    ensures reply { (r : Result Answer Refusal) × (result ≡ answer_code r) × (answer.new ≡ answer_words r)
        × Analysed board.now times.old scratch.old (record_room records.old) r times.new scratch.new }
    ensures records { records.new ≡ records_after board.now
        (analyse_refusal board.now (length times.old) (length scratch.old) (record_room records.old)) records.old }
{
    capi::zuzgravel_analyse(board, times, scratch, records, answer)
}

// Analyse in the order of a list of task numbers: buffers as those of `zuzgravel_analyse`.
#[unsafe(no_mangle)]
pub extern "C" fn zuzgravel_analyse_in_order<'a>(
    board: &'a [u32],
    times: &mut [u32],
    scratch: &mut [u32],
    records: &mut [u32],
    order: &'a [u32],
    answer: &mut [u64; 2],
) -> u32
    ensures reply { (r : Result Answer Refusal) × (result ≡ answer_code r) × (answer.new ≡ answer_words r)
        × AnalysedInOrder board.now times.old scratch.old (record_room records.old) order.now r times.new scratch.new }
    ensures records { records.new ≡ records_after board.now
        (in_order_refusal board.now (length times.old) (length scratch.old) (record_room records.old) order.now) records.old }
{
    capi::zuzgravel_analyse_in_order(board, times, scratch, records, order, answer)
}

// How a time is made up: the six parts of the sum of a task, a number from 1, into `parts`, and the number of the largest as the value; buffers as those of
// `zuzgravel_analyse`.
#[unsafe(no_mangle)]
pub extern "C" fn zuzgravel_make_up(
    board: &[u32],
    times: &mut [u32],
    scratch: &mut [u32],
    records: &mut [u32],
    task: usize,
    parts: &mut [u64; 6],
    answer: &mut [u64; 2],
) -> u32
    ensures reply { (r : Result MadeUp Refusal) × (result ≡ made_up_code r) × (answer.new ≡ made_up_words r) × (parts.new ≡ parts_after r parts.old)
        × MadeUpAll board.now times.old scratch.old (record_room records.old) task r times.new scratch.new }
    ensures records { records.new ≡ records_after board.now
        (make_up_refusal board.now (length times.old) (length scratch.old) (record_room records.old) task) records.old }
{
    capi::zuzgravel_make_up(board, times, scratch, records, task, parts, answer)
}
