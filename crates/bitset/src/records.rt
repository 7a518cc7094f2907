// Records of a lent buffer, N words each: sets of eight words, and their halves of four.
ghost use Rattle.std.specs.Prelude.{◌≡◌, ◌+◌, ◌*◌, ◌≤◌, length, get_or};
ghost use Rattle.folds.specs.Stored.{Stored};
ghost use Rattle.bitset.specs.Records.{record_at};

// Record q: the N words from N × q on.
pub fn read<const N: usize>(buffer: &[u64], q: usize) -> [u64; N]
    requires { N * q + N ≤ length buffer.now }
    ensures { result ≡ record_at N buffer.now q }
{
    let mut words = [0; N];
    words.copy_from_slice(&buffer[N * q..N * q + N]);
    words
}

// Stores N words as record q.
pub fn write<const N: usize>(buffer: &mut [u64], q: usize, words: [u64; N])
    requires { N * q + N ≤ length buffer.old }
    ensures { Stored (λ k. get_or words.entry k 0) (N * q) N buffer.old buffer.new }
{
    buffer[N * q..N * q + N].copy_from_slice(&words);
}
