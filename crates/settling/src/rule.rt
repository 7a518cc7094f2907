// The rules by which a pass is made: of all tasks together, or of one after the other in the order of a list of task numbers.
ghost use Rattle.std.specs.Prelude.{ℕ, List, take};
ghost use Rattle.board.specs.Layout.{tasks};
ghost use Rattle.passes.specs.Passes.{pass};
ghost use Rattle.passes.specs.Visits.{in_order, Permutation};
ghost use Rattle.passes.specs.Ascending.{Ascending};
ghost use Rattle.passes.proofs.InOrder.{in_order-ascending};
ghost use Rattle.one_pass.specs.System.{system};
ghost use Rattle.one_pass.specs.Visiting.{Visitable, Visited};
ghost use Rattle.one_pass.proofs.Sums.{system-mono, system-ascending};

use one_pass::PassTables;

// A rule for a pass, which a loop over passes is handed.
pub trait PassRule {
    // The times after a pass, by the board's words and the times before it.
    ghost step: { Self → List ℕ → List ℕ → List ℕ };

    // That it is for a board of so many tasks.
    ghost suits: { Self → ℕ → Type 0 };

    // Makes a pass: the first n words of the scratch are the times. Answers whether one of them changed.
    fn pass(&self, tables: &PassTables, due: &mut u64, scratch: &mut [u32]) -> bool
        requires { Visitable tables.now.board.now tables.now.n due.old scratch.old × suits self.now tables.now.n }
        ensures { Visited tables.now.n (step self.now tables.now.board.now (take tables.now.n scratch.old)) scratch.old scratch.new result
            × Visitable tables.now.board.now tables.now.n due.new scratch.new };

    // By this its passes settle at the least choice of times.
    ghost ascends: { (r : Self) (b : List ℕ) → suits r (tasks b) → Ascending (system b) (step r b) };
}

// All times together, each from the times before the pass.
#[derive(Clone, Copy, Debug)]
pub struct Together;

impl PassRule for Together {
    ghost step = { λ _ b. pass (system b) };

    ghost suits = { λ _ _. Unit };

    fn pass(&self, tables: &PassTables, due: &mut u64, scratch: &mut [u32]) -> bool {
        tables.make_pass(*due, scratch);
        let n = tables.n;
        let (times, next) = scratch.split_at(n);
        if times == &next[..n] {
            return false;
        }
        *due = tables.advance(scratch);
        true
    }

    ghost ascends = { λ _ b _. system-ascending b };
}

// The tasks in turn, in the order of a list of their numbers, each from the newest times.
#[derive(Clone, Copy, Debug)]
pub struct InOrder<'a> {
    pub order: &'a [u32],
}

impl<'a> PassRule for InOrder<'a> {
    ghost step = { λ r b. in_order (system b) r.order.now };

    ghost suits = { λ r n. Permutation n r.order.now };

    fn pass(&self, tables: &PassTables, due: &mut u64, scratch: &mut [u32]) -> bool {
        tables.visit_all(self.order, due, scratch)
    }

    ghost ascends = { λ r b suited. in_order-ascending (system b) (system-mono b) suited };
}
