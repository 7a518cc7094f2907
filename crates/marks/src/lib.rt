// The scan of a trace under a cache or two: MD, the places that it touches, and a mark for each of its positions.
#![tactic(auto)]

mod accesses;
mod loads;

ghost use Rattle.std.specs.Prelude.{◌≡◌, ◌||◌, ℕ, ◌*◌, ◌≤◌};
ghost use Rattle.bitset.specs.Bits.{member, words_of};
ghost use Rattle.board.specs.Layout.{cache_count, ways};
ghost use Rattle.entries.specs.Marks.{Marked, AllEarlier, next_base};
ghost use Rattle.trace.specs.Cache.{place_of};
ghost use Rattle.trace.specs.Traces.{trace_md, evicts};
ghost use Rattle.trace.specs.Positions.{load_at};

use accesses::{mark_data, mark_load};
use bitset::SET_WORDS;
use board::Board;
use entries::Workspace;
use trace::BoardTrace;
use trace::cache::Caches;

// MD of a trace of a board with a cache or two: its loads that miss, and its writes. The places of all blocks that it touches are added to `ecb`, and each of
// its positions is marked. The blocks held may be what earlier traces left, since `base` is another for each trace.
pub fn mark_trace(
    board: &Board,
    trace: &BoardTrace,
    base: u32,
    space: &mut Workspace,
    ecb: &mut [u64; SET_WORDS],
) -> u32
    requires { (trace.now.words ≡ board.now) × (1 ≤ cache_count board.now) × (AllEarlier base space.old.held) }
    ensures { (result ≡ trace_md trace.now)
        × (Marked (place_of board.now) (ways board.now) (load_at trace.now) space.new.marks (2 * trace.now.len))
        × (ecb.new ≡ words_of 8 (λ (s : ℕ). member ecb.old s || evicts trace.now s))
        × (AllEarlier (next_base base) space.new.held) }
{
    board.sound();
    trace.lies();
    let caches = Caches::of(board);
    let mut n: u32 = 0;
    for p in 0..trace.len() {
        let block = trace.fetch(p);
        let w = trace.work(p);
        n += mark_load(caches.of_code, base, block, 2 * p, space, ecb);
        n += mark_data(caches.of_data, base, w, 2 * p + 1, space, ecb);
    }
    n
}
