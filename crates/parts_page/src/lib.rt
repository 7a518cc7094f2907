// The page of how a time is made up.
#![tactic(auto)]

ghost use Rattle.std.specs.Prelude.{◌≡◌, [], ◌∷◌, ◌++◌, ◌+◌, ◌-◌, ◌≤◌, length, Ok};
ghost use Rattle.folds.specs.Folds.{join_to};
ghost use Rattle.interference.specs.Parts.{listed};
ghost use Rattle.answers.specs.PartNumbers.{part_number};
ghost use Rattle.answers.specs.declared.MadeUp.TheVariants.{Parts};
ghost use Rattle.text.specs.Text.{decimal, line, reason_text};
ghost use Rattle.parts_page.specs.PartsPage.{part_name, part_line, last_lines, made_up_page};
ghost use Rattle.parts_page.specs.Printable.{Printable};

use answer_page::refusal_line;
use answers::{MadeUp, PARTS, Part};
use board::Board;
use interference::SumParts;
use refusals::Refusal;
use text::lines::number_line;
use text::{Page, put_field, put_number};

// The name of a part: at most 15 bytes.
#[tactic(auto, unfolding(crate::specs::PartsPage::part_name))]
fn name(part: Part) -> &'static [u8]
    ensures { (result.now ≡ part_name (part_number part - 1)) × (length result.now ≤ 15) }
{
    match part {
        Part::OwnWork => b"own-work",
        Part::HigherWork => b"higher-work",
        Part::CoreAccesses => b"core-accesses",
        Part::OtherAccesses => b"other-accesses",
        Part::BlockingAccess => b"blocking-access",
        Part::Refreshes => b"refreshes",
    }
}

// Puts the lines of the six parts: at most 37 bytes each.
#[tactic(auto, using(text::proofs::Fields::joined, crate::proofs::Names::part_at))]
fn part_lines<const N: usize>(page: &mut Page<N>, parts: SumParts)
    requires { length page.old.items + 222 ≤ N }
    ensures put { page.new.items ≡ page.old.items ++ join_to (part_line (listed parts)) 6 }
    ensures most { length page.new.items ≤ length page.old.items + 222 }
{
    for (k, cycles) in parts.six().iter().enumerate() {
        number_line(page, name(PARTS[k]), *cycles);
    }
}

// Puts the number of the reason and its name: at most 44 bytes.
#[tactic(auto, using(text::proofs::Fields::put_more, text::proofs::Fields::put_last))]
fn reason_line<const N: usize>(page: &mut Page<N>, reason: Part)
    requires { length page.old.items + 44 ≤ N }
    ensures { page.new.items ≡ page.old.items ++ line (reason_text ∷ decimal (part_number reason) ∷ part_name (part_number reason - 1) ∷ []) }
{
    put_field(page, b"reason", b' ');
    put_number(page, u64::from(reason.number()), b' ');
    put_field(page, name(reason), b'\n');
}

// Puts the lines after the parts, of a task by its number from 1: their sum, the deadline, the largest time that is not late and the reason, at most 133 bytes.
#[tactic(auto, using(text::proofs::Fields::put_then))]
fn last_lines<const N: usize>(
    page: &mut Page<N>,
    board: &Board,
    task: usize,
    parts: SumParts,
    reason: Part,
)
    requires { Printable board.now task (Ok (Parts parts reason)) × (length page.old.items + 133 ≤ N) }
    ensures { page.new.items ≡ page.old.items ++ last_lines board.now (task - 1) (listed parts) (part_number reason) }
{
    number_line(page, b"sum", parts.add_parts());
    number_line(page, b"deadline", u64::from(board.deadline(task - 1)));
    number_line(page, b"largest-time", u64::from(board.bound(task - 1)));
    reason_line(page, reason);
}

// Puts the page of the parts of a task.
#[tactic(auto, using(text::proofs::Fields::put_then), unfolding(crate::specs::PartsPage::made_up_page))]
fn parts_page<const N: usize>(
    page: &mut Page<N>,
    board: &Board,
    task: usize,
    parts: SumParts,
    reason: Part,
)
    requires { Printable board.now task (Ok (Parts parts reason)) × (length page.old.items + 512 ≤ N) }
    ensures { page.new.items ≡ page.old.items ++ made_up_page board.now (task - 1) (Ok (Parts parts reason)) }
{
    part_lines(page, parts);
    last_lines(page, board, task, parts, reason);
}

// Puts the page of how the time of a task is made up.
#[tactic(auto, unfolding(crate::specs::PartsPage::made_up_page))]
pub fn made_up_page<const N: usize>(
    page: &mut Page<N>,
    board: &[u32],
    task: usize,
    made: Result<MadeUp, Refusal>,
)
    requires { Printable board.now task made × (length page.old.items + 512 ≤ N) }
    ensures { page.new.items ≡ page.old.items ++ made_up_page board.now (task - 1) made }
{
    match made {
        Ok(MadeUp::Parts(parts, reason)) => parts_page(
            page,
            &Board::of(board),
            task,
            parts,
            reason,
        ),
        Ok(MadeUp::Spent) => number_line(page, b"spent", u64::from(Board::of(board).pass_limit())),
        Err(refusal) => refusal_line(page, refusal),
    }
}
