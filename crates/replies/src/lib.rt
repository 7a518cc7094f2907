// What the calls for C and Rust hand back as words: a code and two words for an answer, six more for the parts of a sum, and the records of the figures table.
#![tactic(auto)]

pub mod parts;
pub mod reply;
pub mod table;
