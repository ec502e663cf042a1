// The cells of feed memory.
use rules::limits::LONGEST_FILE;

// In the first cell 0 where no load is open, else one more than the total.
pub const TOTAL: usize = 0;

// Then the bytes, eight to a cell, the first lowest.
pub const BYTES: usize = 1;

pub const BYTE_CELLS: usize = 8192;

// The fixed length of feed memory.
pub const SIZE: usize = 8193;

// The total grows no further than this, and of so many no byte is kept.
pub const TOO_MANY: usize = LONGEST_FILE + 1;
