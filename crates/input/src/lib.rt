// A program's input: its bytes from a reader, bytes as little-endian words, and row 15 of the refusal table; and the number in its argument.
#![tactic(auto)]

pub mod argument;
pub mod reading;

ghost use Rattle.std.specs.Prelude.{◌≡◌, ◌/◌, ◌≤◌, length, take};
ghost use Rattle.io.specs.Counts.{IsPrefixLen};
ghost use Rattle.input.specs.Input.{words_in, input_refusal};

use refusals::{Row, Verdict, check_that};

// Puts the whole words of the input at the start of words, and answers how many there are.
pub fn decode(bytes: &[u8], words: &mut [u32]) -> usize
    requires { length bytes.now / 4 ≤ length words.old }
    ensures words_after { take result words.new ≡ words_in bytes.now }
    ensures prefix_len { IsPrefixLen result words.new }
{
    let (chunks, _) = bytes.as_chunks();
    for (k, chunk) in chunks.iter().enumerate() {
        words[k] = u32::from_le_bytes(*chunk);
    }
    chunks.len()
}

// Row 15: over 65,536 bytes or not a multiple of 4. The bytes that count as read are at most one past the largest board, where the program stops.
#[tactic(auto, unfolding(crate::specs::Input::input_refusal))]
pub fn refusal(bytes: &[u8]) -> Verdict
    ensures { result ≡ input_refusal bytes.now }
{
    let count = bytes.len().min(65537);
    check_that(Row::InputBytes, (count <= 65536) & (count % 4 == 0), count)
}
