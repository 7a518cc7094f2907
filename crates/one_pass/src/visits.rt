// A pass that visits the tasks in the order of a list of task numbers, each task using the newest times, over a prepared scratch.
ghost use Rattle.std.specs.Prelude.{◌<◌, take};
ghost use Rattle.passes.specs.Visits.{visit, in_order, Permutation};
ghost use Rattle.one_pass.specs.System.{system};
ghost use Rattle.one_pass.specs.Visiting.{Visitable, Visited};

use crate::PassTables;
use bitset::word::{has, without};

impl<'a> PassTables<'a> {
    // One visit: task i gets its next time at the newest times. Answers whether that changed it. A task that is not due has its next time already.
    fn visit_task(&self, i: usize, due: &mut u64, scratch: &mut [u32]) -> bool
        requires { Visitable self.now.board.now self.now.n due.old scratch.old × (i < self.now.n) }
        ensures { Visited self.now.n (visit (system self.now.board.now) (take self.now.n scratch.old) i) scratch.old scratch.new result
            × Visitable self.now.board.now self.now.n due.new scratch.new }
    {
        if !has(*due, i) {
            return false;
        }
        let next = self.next_time(scratch, i);
        if scratch[i] == next {
            *due = without(*due, i);
            return false;
        }
        scratch[i] = next;
        *due = self.joined(*due, i);
        true
    }

    // One pass: a visit to each task of the list in turn. Answers whether a time changed.
    pub fn visit_all(&self, order: &[u32], due: &mut u64, scratch: &mut [u32]) -> bool
        requires { Visitable self.now.board.now self.now.n due.old scratch.old × Permutation self.now.n order.now }
        ensures { Visited self.now.n (in_order (system self.now.board.now) order.now (take self.now.n scratch.old)) scratch.old scratch.new result
            × Visitable self.now.board.now self.now.n due.new scratch.new }
    {
        let mut changed = false;
        for number in order {
            let i = *number as usize - 1;
            changed |= self.visit_task(i, due, scratch);
        }
        changed
    }
}
