// What a board has of each of several kinds, by the number in its word.

// The memory that stands between the cores and the bus.
#[derive(Clone, Copy, Debug, PartialEq, Eq)]
pub enum Memory {
    Plain,
    Scratchpad,
    OneCache,
    TwoCaches,
}

// The rule by which cores share the bus.
#[derive(Clone, Copy, Debug, PartialEq, Eq)]
pub enum Bus {
    FixedPriority,
    ProcessorPriority,
    Fifo,
    RoundRobin,
    Tdma,
}

// The form in which the memory is refreshed.
#[derive(Clone, Copy, Debug, PartialEq, Eq)]
pub enum Refresh {
    Absent,
    Burst,
    Distributed,
}
