// The blocks held in the sets of a cache, as words of a lent array, and the sizes of what the scan of a trace works in.
#![tactic(auto)]

ghost use Rattle.std.specs.Prelude.{◌≡◌, ◌+◌, ◌*◌, ◌≤◌, ◌<◌, length, IfSome};
ghost use Rattle.entries.specs.Entries.{found, position_of, shifted};

// Room for eight blocks in each of the 512 places of two caches, and for two marks of each of 1,024 instructions.
pub const HELD_WORDS: usize = 4096;

pub const MARK_WORDS: usize = 2048;

// What the scan of a trace works in: the blocks held in each place, and the marks of the positions.
#[derive(Clone, Copy)]
pub struct Workspace {
    pub held: [u64; HELD_WORDS],
    pub marks: [u32; MARK_WORDS],
    ghost room: { length held ≡ 4096 },
    ghost positions: { length marks ≡ 2048 },
}

// Loads a block, whose key is x, in position e into the set whose entries are the `ways` words from `from` on: it comes to the front. The position of its
// last load where it was held, and none where the load misses. An entry of an earlier trace is lost first, and none past it is looked at.
pub fn touch(held: &mut [u64], from: usize, ways: usize, base: u64, x: u64, e: u64) -> Option<u64>
    requires { (from + ways ≤ length held.old) × (x ≤ 4503599627370496) × (e < 2048) }
    ensures { (result ≡ position_of (found base x held.old from ways))
        × (held.new ≡ shifted base x (x * 2048 + e) held.old from ways) × IfSome result (λ p. p < 2048) }
{
    let mut carried = x * 2048 + e;
    for k in from..from + ways {
        let entry = held[k];
        held[k] = carried;
        if entry / 2048 == x {
            return Some(entry % 2048);
        }
        if entry / 2048 <= base {
            return None;
        }
        carried = entry;
    }
    None
}
