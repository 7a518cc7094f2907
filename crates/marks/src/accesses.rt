// The accesses of an instruction under a cache, one at a time, each to the cache that its block lies in. Each function tells what its position makes of the
// blocks held and of the marks, and gives 1 where it uses the bus.
ghost use Rattle.std.specs.Prelude.{◌≡◌, ◌||◌, ℕ, ◌+◌, ◌≤◌, ◌<◌, eqb};
ghost use Rattle.folds.specs.Folds.{only_if};
ghost use Rattle.bitset.specs.Bits.{member, words_of};
ghost use Rattle.board.specs.Layout.{kind_of, block_of};
ghost use Rattle.entries.specs.Marks.{position_held, position_marks, position_missed};
ghost use Rattle.trace.specs.Caches.{place_in};
ghost use Rattle.marks.specs.Accesses.{load_of, data_touches};

use super::loads::{mark_one, mark_ways};
use bitset::{SET_WORDS, add_to};
use board::work;
use entries::Workspace;
use trace::cache::Cache;

// The data access of a work word, in position e: a read loads its block, and a write touches it alone.
pub fn mark_data(
    cache: Cache,
    base: u32,
    w: u32,
    e: usize,
    space: &mut Workspace,
    ecb: &mut [u64; SET_WORDS],
) -> u32
    requires { (e < 2048) × (kind_of w ≤ 2) }
    ensures { (result ≡ position_missed base cache.ways (place_in cache (block_of w)) (load_of w) space.old.held + only_if (eqb (kind_of w) 2) 1)
        × (space.new.held ≡ position_held base cache.ways (place_in cache (block_of w)) (load_of w) e space.old.held)
        × (space.new.marks ≡ position_marks base cache.ways (place_in cache (block_of w)) (load_of w) e space.old.held space.old.marks)
        × (ecb.new ≡ words_of 8 (λ (s : ℕ). member ecb.old s || data_touches cache w s)) × (result ≤ 1) }
{
    match work::kind(w) {
        0 => {
            space.marks[e] = 0;
            0
        }
        1 => mark_load(cache, base, work::block(w), e, space, ecb),
        _ => {
            add_to(ecb, cache.place_of(work::block(w)));
            space.marks[e] = 0;
            1
        }
    }
}

// A load of a block in position e.
pub fn mark_load(
    cache: Cache,
    base: u32,
    block: u32,
    e: usize,
    space: &mut Workspace,
    ecb: &mut [u64; SET_WORDS],
) -> u32
    requires { (e < 2048) × (block < 65536) }
    ensures { (result ≡ position_missed base cache.ways (place_in cache block) (block + 1) space.old.held)
        × (space.new.held ≡ position_held base cache.ways (place_in cache block) (block + 1) e space.old.held)
        × (space.new.marks ≡ position_marks base cache.ways (place_in cache block) (block + 1) e space.old.held space.old.marks)
        × (ecb.new ≡ words_of 8 (λ (s : ℕ). member ecb.old s || eqb (place_in cache block) s)) × (result ≤ 1) }
{
    let s = cache.place_of(block);
    add_to(ecb, s);
    if cache.ways == 1 {
        mark_one(base, s, block, e, space)
    } else {
        mark_ways(base, cache.ways, s, block, e, space)
    }
}
