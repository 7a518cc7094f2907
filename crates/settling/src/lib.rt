// The passes of a board, over a prepared scratch, by any rule for one pass.
#![tactic(auto)]

pub mod late;
mod rule;

ghost use Rattle.std.specs.Prelude.{◌≡◌};
ghost use Rattle.scratch.specs.Scratch.{Prepared};
ghost use Rattle.one_pass.specs.System.{system};
ghost use Rattle.settling.specs.Settling.{passes_of, Ended};

use board::Board;
use one_pass::PassTables;
pub use rule::{InOrder, PassRule, Together};

// Makes passes from all zeros until one changes nothing, at most `limit` of them. Answers the passes needed, where the limit allows them: the settled times
// are then the first n words.
pub fn run<R: PassRule>(
    board: &Board,
    n: usize,
    rule: &R,
    limit: u32,
    scratch: &mut [u32],
) -> Option<u32>
    requires { Prepared board.now n scratch.old × R.suits rule.now n }
    ensures { (result ≡ passes_of (system board.now) (R.step rule.now board.now) limit)
        × Ended (system board.now) (R.step rule.now board.now) limit scratch.old scratch.new
        × Prepared board.now n scratch.new }
{
    let tables = PassTables::of(board, n);
    run_by(&tables, rule, limit, scratch)
}

// The same, by the tables of the board.
fn run_by<R: PassRule>(
    tables: &PassTables,
    rule: &R,
    limit: u32,
    scratch: &mut [u32],
) -> Option<u32>
    requires { Prepared tables.now.board.now tables.now.n scratch.old × R.suits rule.now tables.now.n }
    ensures { (result ≡ passes_of (system tables.now.board.now) (R.step rule.now tables.now.board.now) limit)
        × Ended (system tables.now.board.now) (R.step rule.now tables.now.board.now) limit scratch.old scratch.new
        × Prepared tables.now.board.now tables.now.n scratch.new }
{
    scratch[..tables.n].fill(0);
    let mut due = !0u64;
    for made in 0..limit {
        if !rule.pass(tables, &mut due, scratch) {
            return Some(made + 1);
        }
    }
    None
}
