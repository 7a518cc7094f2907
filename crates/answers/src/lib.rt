// What the calls answer.
#![tactic(auto)]

pub mod taken;

ghost use Rattle.std.specs.Prelude.{◌≡◌};
ghost use Rattle.answers.specs.PartNumbers.{part_number};

use interference::SumParts;

// What `analyse` answers where no row refuses: the passes; the late task and the passes; the limit spent.
#[derive(Clone, Copy, Debug, PartialEq, Eq)]
pub enum Answer {
    Times(u32),
    Late(u32, u32),
    Spent,
}

// What `make_up` answers where no row refuses: the six parts of the task's sum and the largest of them; the limit spent.
#[derive(Clone, Copy, Debug, PartialEq, Eq)]
pub enum MadeUp {
    Parts(SumParts, Part),
    Spent,
}

// The parts of a sum, with their numbers.
#[derive(Clone, Copy, Debug, PartialEq, Eq)]
pub enum Part {
    OwnWork = 1,
    HigherWork,
    CoreAccesses,
    OtherAccesses,
    BlockingAccess,
    Refreshes,
}

// All of them, in order.
pub const PARTS: [Part; 6] = [
    Part::OwnWork,
    Part::HigherWork,
    Part::CoreAccesses,
    Part::OtherAccesses,
    Part::BlockingAccess,
    Part::Refreshes,
];

impl Part {
    // Its number, from 1.
    pub fn number(self) -> u32
        ensures { result ≡ part_number self }
    {
        self as u32
    }
}
