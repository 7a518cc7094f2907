// A board's layout: its fields, and the numbers that bound them.
#![tactic(auto)]

mod fields;
mod kinds;
pub mod work;

pub use fields::Board;
pub use kinds::{Bus, Memory, Refresh};

// The words of the largest board.
pub const MOST_WORDS: usize = 16384;

// The largest period and refresh interval.
pub const LONGEST: u32 = 268435455;

pub const MOST_REFRESH_ROWS: u32 = 65535;

pub const MOST_PUT_OFF: u32 = 8;

// Blocks below it hold code, the others data; a scratchpad holds at most as many of each.
pub const FIRST_DATA_BLOCK: u32 = 32768;

// The most sets of a cache.
pub const MOST_SETS: u32 = 256;

// The tasks of the largest board, and the words of scratch for them.
pub const MOST_TASKS: usize = 64;

pub const MOST_SCRATCH: usize = MOST_TASKS * MOST_TASKS + 4 * MOST_TASKS;
