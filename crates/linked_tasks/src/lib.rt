// The tasks of each core linked to one another, so that a sum over one core meets no task of another.
#![tactic(auto)]

ghost use Rattle.std.specs.Prelude.{◌≡◌, ◌+◌, ◌-◌, ◌<◌};
ghost use Rattle.folds.specs.Folds.{last_to};
ghost use Rattle.board.specs.Layout as at;
ghost use Rattle.board.specs.Sound.{Between};
ghost use Rattle.sums.specs.Limits.{most_cores};
ghost use Rattle.sums.specs.Links.{is_on, Linked};
ghost use Rattle.linked_tasks.specs.Numbered.{task_numbered};

use board::{Board, MOST_TASKS};

// ℓ.
pub const MOST_CORES: usize = 8;

// The words of the links: one a task, then one a core.
pub const LINK_WORDS: usize = MOST_TASKS + MOST_CORES;

// Where the last task of core y stands.
fn last_place(y: u32) -> usize
    requires { Between 1 most_cores y }
    ensures { result ≡ at.most_tasks + (y - 1) }
{
    MOST_TASKS + (y as usize - 1)
}

// The links: for each task, the number from 1 of the next one above it on its core; then, for each core, that of its last task. 0 where there is none: a
// number from 1 is one word and `Option<u32>` two, and the sums along the links wait for each of them. Callers get the task itself, or none, from
// `above` and `last_on`.
pub fn make(board: &Board) -> [u32; LINK_WORDS]
    ensures { Linked board.now result }
{
    let mut links = [0; LINK_WORDS];
    for k in 0..board.tasks() as usize {
        let at = last_place(board.core(k));
        links[k] = links[at];
        links[at] = k as u32 + 1;
    }
    links
}

// The next task above task k on its core.
pub fn above(board: &Board, links: &[u32], k: usize) -> Option<usize>
    requires { Linked board.now links.now × (k < at.tasks board.now) }
    ensures { result ≡ task_numbered (last_to (is_on board.now (at.core board.now k)) k) }
{
    board.sound();
    (links[k] as usize).checked_sub(1)
}

// The last task on core y.
pub fn last_on(board: &[u32], links: &[u32], y: u32) -> Option<usize>
    requires { Linked board.now links.now × Between 1 most_cores y }
    ensures { result ≡ task_numbered (last_to (is_on board.now y) (at.tasks board.now)) }
{
    (links[last_place(y)] as usize).checked_sub(1)
}
