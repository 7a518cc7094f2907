// Row 16: the list of task numbers of a call that visits the tasks in a chosen order.
ghost use Rattle.std.specs.Prelude.{◌≡◌, ◌≤◌, length};
ghost use Rattle.board.specs.Layout.{most_tasks};
ghost use Rattle.refusals.specs.Found.{bad_in};
ghost use Rattle.checks.specs.CallRefusals.{number_ok, order_row};

use crate::rows::is_number;
use bitset::word::{has, with};
use refusals::{Row, Verdict, check_that, refuse_at};

// Row 16, of a list of task numbers: its length, and then its numbers.
#[tactic(auto, using(crate::proofs::Checks::lengths))]
pub fn order_row(n: usize, order: &[u32]) -> Verdict
    requires { n ≤ most_tasks }
    ensures { result ≡ order_row n order.now }
{
    let len = order.len();
    check_that(Row::TaskList, len == n, len)?;
    refuse_at(Row::TaskList, first_misnamed(n, order))
}

// The first number of the list that is outside 1 .. n or named before. The numbers before it, less 1 each, are the set `seen`.
#[tactic(auto, using(refusals::proofs::Searches::searched))]
fn first_misnamed(n: usize, order: &[u32]) -> Option<usize>
    requires { n ≤ most_tasks }
    ensures { result ≡ bad_in (number_ok n order.now) 0 (length order.now) }
{
    let mut seen = 0u64;
    for (k, word) in order.iter().enumerate() {
        let number = *word as usize;
        if !is_number(n, number) {
            return Some(k);
        }
        let task = number - 1;
        if has(seen, task) {
            return Some(k);
        }
        seen = with(seen, task);
    }
    None
}
