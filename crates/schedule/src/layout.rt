// How many bytes the seven sizes of a file have, and how many each entry has: in a file a kind and an operand, in a trace an outcome and a value.
pub const SIZES_BYTES: usize = 28;

pub const ENTRY_BYTES: usize = 5;

// How many bytes the longest trace has: that of 4,096 entries.
pub const LONGEST_TRACE: usize = 20484;
