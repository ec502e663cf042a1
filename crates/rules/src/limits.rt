// Document 01, "Numbers that bound it", for the code. specs/Limits.antt has the same for the definitions; a number that differed would
// leave a contract unproved.

// Program addresses are 0 to 4,095, and the next address is 0 to 4,096.
pub const PROGRAM_WORDS: usize = 4096;

// Bytes of a file, and of a line without its end.
pub const LONGEST_FILE: usize = 65536;

pub const LONGEST_LINE: usize = 80;

// Bytes of a piece of a file that is fed.
pub const LONGEST_PIECE: usize = 512;

pub const MOST_SYMBOLS: usize = 256;

// Of a module; blocks 4 and 13 count together.
pub const MOST_ENTRIES: u16 = 64;

pub const MOST_EXTERNALS: u16 = 64;

pub const EXTERNAL_ROOM: usize = MOST_EXTERNALS as usize;

// Of a library section.
pub const MOST_MODULES: u16 = 256;

pub const MODULE_ROOM: usize = MOST_MODULES as usize;

// Of a number in a file: its octal digits, and its value.
pub const MOST_DIGITS: usize = 6;

pub const LARGEST_NUMBER: u32 = 0o177777;

// Characters of a name.
pub const LONGEST_NAME: usize = 6;

// Of an FPB record.
pub const MOST_SUB_RECORDS: u16 = 7;

pub const LARGEST_BASE: u64 = 4095;

// What HIGH and a highest reference are where there is none.
// Kept: document 02 says it so, and rules' `high` and C's answers with it.
pub const NO_ADDRESS: usize = 65535;
