// The figures table as 32-bit words.
ghost use Rattle.std.specs.Prelude.{◌≡◌, ◌+◌, ◌*◌, ◌≤◌, length, get_or};
ghost use Rattle.folds.specs.Folds.{fill_to};
ghost use Rattle.folds.specs.Stored.{Stored};
ghost use Rattle.figures.specs.Survey.{Fillable};
ghost use Rattle.replies.specs.Records.{record_words, low_half, high_half, ecb_halves, figure_words, table_word};

use board::Board;
use figures::{ECB_WORDS, Figure, figure_at};

// The words of a record.
pub const RECORD_WORDS: usize = 21;

// Fills the first n records with the figures of the tasks below n. The words past them stay as they are.
pub fn fill_words(
    board: &[u32],
    n: usize,
    words: &[u32],
    sets: &[u64; ECB_WORDS],
    records: &mut [u32],
)
    requires { (Fillable board.now n words.now sets.now) × (record_words * n ≤ length records.old) }
    ensures { records.new ≡ fill_to (table_word board.now) (record_words * n) records.old }
{
    // of a board that was refused there is no record, so that only a turn knows that it passed
    for k in 0..n {
        let figure = figure_at(&Board::of(board), n, words, sets, k);
        store(records, k, words_of(figure));
    }
}

// Stores the words of record k.
fn store(records: &mut [u32], k: usize, words: [u32; RECORD_WORDS])
    requires { record_words * k + record_words ≤ length records.old }
    ensures { Stored (λ w. get_or words w 0) (record_words * k) record_words records.old records.new }
{
    let at = RECORD_WORDS * k;
    records[at..at + RECORD_WORDS].copy_from_slice(&words);
}

// The words of one record. It is a function, since only the crate of a type may give it a `From`.
fn words_of(f: Figure) -> [u32; RECORD_WORDS]
    ensures { result ≡ figure_words f }
{
    let mut words = [0; RECORD_WORDS];
    words[..5].copy_from_slice(&[f.core, f.period, f.deadline, f.pd, f.md]);
    words[5..13].copy_from_slice(&halves(f.ecb));
    words[13..].copy_from_slice(&halves(f.data_ecb));
    words
}

// The four words of an ECB, each as its low and its high half.
fn halves(ecb: [u64; 4]) -> [u32; 8]
    ensures { result ≡ ecb_halves ecb }
{
    [
        low_half(ecb[0]),
        high_half(ecb[0]),
        low_half(ecb[1]),
        high_half(ecb[1]),
        low_half(ecb[2]),
        high_half(ecb[2]),
        low_half(ecb[3]),
        high_half(ecb[3]),
    ]
}

fn low_half(x: u64) -> u32
    ensures { result ≡ low_half x }
{
    (x % (1 << 32)) as u32
}

fn high_half(x: u64) -> u32
    ensures { result ≡ high_half x }
{
    (x >> 32) as u32
}
