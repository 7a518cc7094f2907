// A load into a set of a cache, in position e of a trace. Each function tells what the load makes of the blocks held and of the marks, and gives 1 where it
// misses.
ghost use Rattle.std.specs.Prelude.{◌≡◌, ◌+◌, ◌≤◌, ◌<◌};
ghost use Rattle.entries.specs.Marks.{position_held, position_marks, position_missed};

use entries::{Workspace, touch};

// A load into set s. Where it hits, the position of the block's last load is marked as kept.
pub fn mark_ways(
    base: u32,
    ways: usize,
    s: usize,
    block: u32,
    e: usize,
    space: &mut Workspace,
) -> u32
    requires { (ways ≤ 8) × (s < 512) × (e < 2048) × (block < 65536) }
    ensures { (result ≡ position_missed base ways s (block + 1) space.old.held)
        × (space.new.held ≡ position_held base ways s (block + 1) e space.old.held)
        × (space.new.marks ≡ position_marks base ways s (block + 1) e space.old.held space.old.marks) × (result ≤ 1) }
{
    let x = (base as u64) + ((block as u64) + 1);
    let Some(last) = touch(&mut space.held, s * ways, ways, base as u64, x, e as u64) else {
        space.marks[e] = 4 * (s as u32);
        return 1;
    };
    space.marks[e] = 4 * (s as u32) + 2;
    let i = last as usize;
    space.marks[i] |= 1;
    0
}

// The same for sets that hold one block, without a branch on whether the load hits: where it misses, the other position's mark is written as it was.
pub fn mark_one(base: u32, s: usize, block: u32, e: usize, space: &mut Workspace) -> u32
    requires { (s < 512) × (e < 2048) × (block < 65536) }
    ensures { (result ≡ position_missed base 1 s (block + 1) space.old.held)
        × (space.new.held ≡ position_held base 1 s (block + 1) e space.old.held)
        × (space.new.marks ≡ position_marks base 1 s (block + 1) e space.old.held space.old.marks) × (result ≤ 1) }
{
    let x = (base as u64) + ((block as u64) + 1);
    let entry = space.held[s];
    space.held[s] = x * 2048 + (e as u64);
    let hit = u32::from(entry / 2048 == x);
    space.marks[e] = 4 * (s as u32) + 2 * hit;
    let i = (entry % 2048) as usize;
    space.marks[i] |= hit;
    1 - hit
}
