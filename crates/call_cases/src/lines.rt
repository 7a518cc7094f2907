// The words of a line: in decimal, and x*n for n words x.
use arrayvec::ArrayVec;

// What has been read of a run of words: nothing, its word, or the word and how often it stands in the line.
#[derive(Clone, Copy, Debug, PartialEq, Eq)]
enum Run {
    Absent,
    Once(u32),
    Times(u32, u32),
}

// Leaves the words of a line; those that do not fit are dropped. A byte that is no digit ends a run, but for the star within it.
pub fn read_words<const N: usize>(line: &[u8], words: &mut ArrayVec<u32, N>) {
    words.clear();
    let mut run = Run::Absent;
    for byte in line {
        run = with_byte(run, *byte, words);
    }
    put_run(words, run);
}

// The run with one byte more; one that the byte ends is put among the words.
fn with_byte<const N: usize>(run: Run, byte: u8, words: &mut ArrayVec<u32, N>) -> Run {
    match (run, digit_of(byte)) {
        (Run::Absent, Some(digit)) => Run::Once(digit),
        (Run::Once(word), Some(digit)) => Run::Once(with_digit(word, digit)),
        (Run::Times(word, times), Some(digit)) => Run::Times(word, with_digit(times, digit)),
        (Run::Once(word), None) if byte == b'*' => Run::Times(word, 0),
        (ended, None) => {
            put_run(words, ended);
            Run::Absent
        }
    }
}

// The digit that a byte stands for.
fn digit_of(byte: u8) -> Option<u32> {
    char::from(byte).to_digit(10)
}

// The number x with one decimal digit more, modulo 2^32.
fn with_digit(x: u32, digit: u32) -> u32 {
    x.wrapping_mul(10).wrapping_add(digit)
}

// Adds as many of the words of a run as fit.
fn put_run<const N: usize>(words: &mut ArrayVec<u32, N>, run: Run) {
    let (word, times) = match run {
        Run::Absent => (0, 0),
        Run::Once(word) => (word, 1),
        Run::Times(word, times) => (word, times),
    };
    for _ in 0..times {
        if words.try_push(word).is_err() {
            break;
        }
    }
}
