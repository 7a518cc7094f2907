// The place that a block has in the caches of a board, without a division.
ghost use Rattle.std.specs.Prelude.{◌≡◌, ◌+◌, ◌/◌, ◌≤◌};
ghost use Rattle.board.specs.Layout.{most_sets};

use board::{Board, MOST_SETS};

// A cache: the place of its first set, its sets, its ways, and 2^24 / sets + 1: a block times this, divided by 2^24, is the block divided by the sets. Its
// places are among those of two caches.
#[derive(Clone, Copy, Debug, PartialEq, Eq)]
pub struct Cache {
    pub first: u32,
    pub sets: u32,
    pub ways: usize,
    pub inverse: u64,
    ghost near: { first ≤ most_sets },
    ghost some: { 1 ≤ sets },
    ghost few: { sets ≤ most_sets },
    ghost narrow: { ways ≤ 8 },
    ghost reciprocal: { inverse ≡ 16777216 / sets + 1 },
}

impl Cache {
    ghost use Rattle.std.specs.Prelude.{◌<◌};
    ghost use Rattle.board.specs.Sound.{Between};
    ghost use Rattle.trace.specs.Cache.{all_sets};
    ghost use Rattle.trace.specs.Caches.{place_in};

    // The cache whose first set is at place `first`.
    fn at(first: u32, sets: u32, ways: usize) -> Cache
        requires { (first ≤ most_sets) × (Between 1 most_sets sets) × (ways ≤ 8) }
        ensures { (result.first ≡ first) × (result.sets ≡ sets) × (result.ways ≡ ways) }
    {
        Cache {
            first,
            sets,
            ways,
            inverse: 16777216 / u64::from(sets) + 1,
        }
    }

    // The place of a block.
    pub fn place_of(self, block: u32) -> usize
        requires { block < 65536 }
        ensures { (result ≡ place_in self block) × (result < all_sets) }
    {
        let quotient = (u64::from(block) * self.inverse / 16777216) as u32;
        (self.first + (block - quotient * self.sets)) as usize
    }
}

// The caches of a board that has one or two: where the code blocks lie, and where the data blocks do.
#[derive(Clone, Copy, Debug, PartialEq, Eq)]
pub struct Caches {
    pub of_code: Cache,
    pub of_data: Cache,
}

impl Caches {
    ghost use Rattle.board.specs.Layout.{cache_count};
    ghost use Rattle.trace.specs.Caches.{CachesOf};

    // The caches of a board: one for code and data, or the data cache's places after all that the code cache may have.
    pub fn of(board: &Board) -> Caches
        requires { 1 ≤ cache_count board.now }
        ensures { CachesOf board.now result.of_code result.of_data }
    {
        board.sound();
        let ways = board.ways() as usize;
        let of_code = Cache::at(0, board.cache_sets(), ways);
        if board.cache_count() == 2 {
            let of_data = Cache::at(MOST_SETS, board.data_sets(), ways);
            Caches { of_code, of_data }
        } else {
            Caches {
                of_code,
                of_data: of_code,
            }
        }
    }
}
