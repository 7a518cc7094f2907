// The terms of a task's sum: S with the work of higher tasks, W, and the refreshes.
#![tactic(auto)]

pub mod carry;
pub mod own;
pub mod refresh;
pub mod rows;
