// The last step of `make_up`: the six parts of a task's sum at the settled times, and the largest of them.
ghost use Rattle.std.specs.Prelude.{◌≡◌, ◌-◌, ◌<◌};
ghost use Rattle.board.specs.Layout.{tasks};
ghost use Rattle.board.specs.Sound.{Between};
ghost use Rattle.sums.specs.SixParts.{reason};
ghost use Rattle.passes.specs.Passes.{settled};
ghost use Rattle.interference.specs.Parts.{listed};
ghost use Rattle.answers.specs.Answers.{system};
ghost use Rattle.answers.specs.MakeUp.{made_up_at};
ghost use Rattle.answers.specs.PartNumbers.{part_number};
ghost use Rattle.settle.specs.Settled.{AtSettled, WhereSettled};
ghost use Rattle.works.specs.MadeUp.{made_up_from};

use answers::{Answer, MadeUp, PARTS, Part};
use board::Board;
use interference::SumParts;
use refusals::Refusal;

// What `make_up` answers of a task's number, by the answer that its board's passes gave.
pub fn made_up(
    board: &[u32],
    answer: Result<Answer, Refusal>,
    scratch: &[u32],
    task: usize,
) -> Result<MadeUp, Refusal>
    requires { WhereSettled answer (AtSettled board.now scratch.now × Between 1 (tasks board.now) task) }
    ensures { result ≡ made_up_from answer board.now (task - 1) }
{
    match answer? {
        Answer::Times(_) | Answer::Late(_, _) => {
            Ok(parts_at(&Board::of(board), scratch, task - 1))
        }
        Answer::Spent => Ok(MadeUp::Spent),
    }
}

// The parts of task i and the reason, at the settled times.
fn parts_at(board: &Board, scratch: &[u32], i: usize) -> MadeUp
    requires { (AtSettled board.now scratch.now) × (i < tasks board.now) }
    ensures { result ≡ made_up_at board.now (settled (system board.now)) i }
{
    let n = board.tasks() as usize;
    let parts = scratch::parts_of(board, n, scratch, &scratch[..n], i);
    MadeUp::Parts(parts, reason_of(parts))
}

// The largest part, the earliest of equals.
fn reason_of(parts: SumParts) -> Part
    ensures { part_number result ≡ reason (listed parts) }
{
    let all = parts.six();
    let mut at = 0;
    for k in 1..PARTS.len() {
        if all[at] < all[k] {
            at = k;
        }
    }
    PARTS[at]
}
