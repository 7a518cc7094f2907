// One walk over all tasks and their traces, for PD, MD, ECB and the overheads.
#![tactic(auto)]

ghost use Rattle.std.specs.Prelude.{◌≡◌, true, ℕ, ◌+◌, ◌*◌, ◌<◌, ◌≤◌, List, length, Some, option_map};
ghost use Rattle.bitset.specs.Bits.{words_of};
ghost use Rattle.board.specs.Layout.{tasks, scratch_words};
ghost use Rattle.entries.specs.Marks.{AllEarlier, base_of};
ghost use Rattle.trace.specs.Starts.{At};
ghost use Rattle.figures.specs.Ready.{Ready};
ghost use Rattle.figures.specs.Figures.{task_pd, task_md, evicting};
ghost use Rattle.figures.specs.Overhead.{reloads, γ};
ghost use Rattle.figures.specs.Rows.{Evicting, Evicted, Cores, on_core_of, raised};
ghost use Rattle.figures.specs.Higher.{Higher};
ghost use Rattle.figures.specs.Survey.{Surveyed, Overheads, Written};

use bitset::SET_WORDS;
use bitset::records::{read, write};
use board::{Board, MOST_SCRATCH, MOST_TASKS};
use entries::{HELD_WORDS, MARK_WORDS, Workspace};
use figures::ECB_WORDS;
use figures::higher::HigherTasks;
use figures::row::{Preempted, place};
use scan::scan_trace;
use trace::cursor::Cursor;

// The words of a set for each of the cores, numbered from 1, and for the number 0.
const CORE_WORDS: usize = SET_WORDS * 9;

// The figures of the tasks below count, and with `rows` the overheads of each with every task: `rows` is what the caller wants, beside no value. The words are one
// slice, since a caller lends them as its scratch.
pub fn survey(
    board: &Board,
    count: usize,
    rows: bool,
    words: &mut [u32],
    sets: &mut [u64; ECB_WORDS],
)
    requires { (count ≤ tasks board.now) × (4 * tasks board.now ≤ length words.old)
        × (rows ≡ true → scratch_words (tasks board.now) ≤ length words.old) }
    ensures { (Surveyed board.now (tasks board.now) count words.new sets.new)
        × (rows ≡ true → Overheads board.now (tasks board.now) count words.new)
        × (length words.new ≡ length words.old) }
{
    board.sound();
    let n = board.tasks() as usize;
    let mut cores = [0u64; CORE_WORDS];
    let mut evicted = [0u64; ECB_WORDS];
    let mut row = rows.then_some([0u32; MOST_TASKS]);
    let mut space = Workspace {
        held: [0; HELD_WORDS],
        marks: [0; MARK_WORDS],
    };
    let mut higher = HigherTasks::none();
    let mut at = Cursor::first(board);
    for i in 0..count {
        let found = survey_task(board, i, at, &evicted, &mut row, &mut higher, &mut space);
        keep(board, i, found.ecb, sets, &mut cores, &mut evicted);
        store(words, n, i, &found, &row);
        at = found.next;
    }
}

// γ(i, j).
pub fn overhead(board: &Board, i: usize, j: usize) -> u32
    requires { (i < tasks board.now) × (j < tasks board.now) }
    ensures { result ≡ γ board.now i j }
{
    let n = board.tasks() as usize;
    let mut words = [0u32; MOST_SCRATCH];
    let mut sets = [0u64; ECB_WORDS];
    survey(board, i + 1, true, &mut words, &mut sets);
    words[place(n, i) + j]
}

// The figures of one task, and the first trace of the next.
#[derive(Clone, Copy)]
struct Found {
    pd: u32,
    md: u32,
    ecb: [u64; SET_WORDS],
    next: Cursor,
}

// The figures of task i, whose first trace is `first`. The row, where there is one, is raised by what the task adds to γ(i, j) of each higher task j on its
// core; `evicted` has the sets that each of those evicts.
fn survey_task(
    board: &Board,
    i: usize,
    first: Cursor,
    evicted: &[u64; ECB_WORDS],
    row: &mut Option<[u32; MOST_TASKS]>,
    higher: &mut HigherTasks,
    space: &mut Workspace,
) -> Found
    requires { (Ready board.now i) × (At board.now i 0 first.trace first.start) × (Evicted board.now i evicted.now)
        × (AllEarlier (base_of first.trace) space.old.held) }
    ensures { (result.pd ≡ task_pd board.now i) × (result.md ≡ task_md board.now i) × (result.ecb ≡ words_of 8 (evicting board.now i))
        × (At board.now (i + 1) 0 result.next.trace result.next.start)
        × (row.new ≡ option_map (raised (on_core_of board.now i (λ (j : ℕ). reloads board.now j i)) i) row.old)
        × (AllEarlier (base_of result.next.trace) space.new.held) }
{
    let wanted = row.is_some() & (1 <= board.cache_count());
    list_higher(board, i, wanted, higher);
    let task = Preempted {
        board,
        index: i,
        higher,
        evicted,
    };
    let mut at = first;
    let mut pd: u32 = 0;
    let mut md: u32 = 0;
    let mut ecb = bitset::empty();
    for _r in 0..board.trace_count(i) {
        let demand = scan_trace(&task, at, row, &mut ecb, space);
        pd = pd.max(demand.pd);
        md = md.max(demand.md);
        at = at.next(board);
    }
    Found {
        pd,
        md,
        ecb,
        next: at,
    }
}

// Lists the higher tasks of task i, where they are wanted.
fn list_higher(board: &Board, i: usize, wanted: bool, higher: &mut HigherTasks)
    requires { Ready board.now i }
    ensures { wanted ≡ true → Higher board.now i higher.new }
{
    if wanted {
        higher.list(board, i);
    }
}

// Keeps the ECB of task i as record i of `sets`, and joined with those before it on its core as record i of `evicted`.
fn keep(
    board: &Board,
    i: usize,
    ecb: [u64; SET_WORDS],
    sets: &mut [u64; ECB_WORDS],
    cores: &mut [u64; CORE_WORDS],
    evicted: &mut [u64; ECB_WORDS],
)
    requires { (Ready board.now i) × (ecb ≡ words_of 8 (evicting board.now i)) × (Evicting board.now i sets.old)
        × (Cores board.now i cores.old) × (Evicted board.now i evicted.old) }
    ensures { (Evicting board.now (i + 1) sets.new) × (Cores board.now (i + 1) cores.new)
        × (Evicted board.now (i + 1) evicted.new) }
{
    let x = board.core(i) as usize;
    let joined = bitset::union(read(cores, x), ecb);
    write(cores, x, joined);
    write(evicted, i, joined);
    write(sets, i, ecb);
}

// Writes PD and MD of task i to their words and, where there is one, its row.
fn store(words: &mut [u32], n: usize, i: usize, found: &Found, row: &Option<[u32; MOST_TASKS]>)
    requires { (i < n) × (n ≤ 64) × (4 * n ≤ length words.old)
        × ((l : List ℕ) → row.now ≡ Some l → scratch_words n ≤ length words.old) }
    ensures { (Written n i found.now.pd found.now.md row.now words.old words.new)
        × (length words.new ≡ length words.old) }
{
    words[2 * n + i] = found.pd;
    words[3 * n + i] = found.md;
    if let Some(row) = row {
        let at = place(n, i);
        words[at..at + n].copy_from_slice(&row[..n]);
    }
}
