// The limits of document 01, each named once.

// Memory is 65,536 bytes.
pub const MEMORY_BYTES: usize = 65536;

// The last stamp, and the last clock value from which a machine steps: 2^62.
pub const LAST_CLOCK: u64 = 0x4000_0000_0000_0000;

// A timetable has at most 4,096 stamps, and a trace as many records.
pub const MOST_STAMPS: usize = 4096;

// A run has a budget of at most 1,000,000 steps.
pub const MOST_BUDGET: u64 = 1000000;

// A sheet has at most 32,768 bytes.
pub const MOST_SHEET_BYTES: usize = 32768;
