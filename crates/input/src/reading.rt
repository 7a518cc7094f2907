// The bytes of a program's input, from any reader.
ghost use Rattle.std.specs.Prelude.{◌≡◌, ◌<◌, length, take, true};
ghost use Rattle.std.specs.Io.KnownBytes.{Consumes, IsAtEnd};
ghost use Rattle.io.specs.Counts.{IsPrefixLen};

use std::io::Read;

// How many bytes were read, and whether no read failed. The bytes before a failed read count too, so that this is no Result.
#[derive(Clone, Copy)]
pub struct Reading {
    pub count: usize,
    pub whole: bool,
}

// Reads until the buffer is full, the input ends or a read fails, which counts as its end. The bytes read are put at the start of the buffer. Each read says how
// many bytes it gave, so that this counts them in a `while`.
pub fn read_full<R: Read>(from: &mut R, bytes: &mut [u8]) -> Reading
    ensures prefix_len { IsPrefixLen result.count bytes.new }
    ensures taken { Consumes (R.remaining from.old) (R.remaining from.new) (take result.count bytes.new) }
    ensures ended { result.whole ≡ true → result.count < length bytes.new → IsAtEnd (R.remaining from.new) }
{
    let mut count = 0;
    while count < bytes.len() {
        match from.read(&mut bytes[count..]) {
            Ok(0) => break,
            Ok(n) => count += n,
            Err(_) => {
                return Reading {
                    count,
                    whole: false,
                };
            }
        }
    }
    Reading { count, whole: true }
}
