// A task's sum: its definition and the laws of it. The code of its terms is in crate terms.
#![tactic(auto)]
