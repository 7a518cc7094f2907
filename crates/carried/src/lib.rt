// The accesses of the tasks off a core: task by task, core by core, and capped by slots. A sum that counts only up to a cap stops there.
#![tactic(auto)]

pub mod cores;
pub mod others;
pub mod slots;

// A cap that no sum reaches, since none is as large: `cap <= sum` is then the only test of a loop, where an `Option<u64>` would have it make two.
pub const NO_CAP: u64 = u64::MAX;
