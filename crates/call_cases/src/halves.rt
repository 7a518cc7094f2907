// A number in two words of a line or of a record, which have 32 bits.

// The number with this low and this high half.
pub fn whole(low: u32, high: u32) -> u64 {
    4294967296 * u64::from(high) + u64::from(low)
}

// The same as the number of a task, so that a line can have one above 2^32.
pub fn task(low: u32, high: u32) -> usize {
    whole(low, high) as usize
}
