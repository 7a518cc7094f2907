// A work word taken apart: kind × 2^28 + Δ × 2^16 + block.
ghost use Rattle.std.specs.Prelude.{◌≡◌, ◌<◌};
ghost use Rattle.board.specs.Layout.{kind_of, cycles_of, block_of};

// The kind, of any word: 0 execute, 1 read, 2 write, and of no word of a board that passed another. It is a number, since the scans of the traces go by it: with
// an enum in between they take a tenth longer, and without a cache twice as long.
pub fn kind(w: u32) -> u32
    ensures { result ≡ kind_of w }
{
    w / 268435456
}

// Δ, the cycles without memory.
pub fn cycles(w: u32) -> u32
    ensures { (result ≡ cycles_of w) × (result < 4096) }
{
    w / 65536 % 4096
}

// The data block, 0 for execute.
pub fn block(w: u32) -> u32
    ensures { (result ≡ block_of w) × (result < 65536) }
{
    w % 65536
}
