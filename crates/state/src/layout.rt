// The regions of state memory: four cells of header, then four tables.
// The header: how many symbols there are, the next address, the mark, and a cell that is 0.
pub const COUNT: usize = 0;

pub const NEXT: usize = 1;

pub const MARK: usize = 2;

pub const SPARE: usize = 3;

// The tables: of symbols their names and values, of program words their texts and tags.
pub const NAMES: usize = 4;

pub const VALUES: usize = 260;

pub const TEXTS: usize = 516;

pub const TAGS: usize = 4612;

// The fixed length of state memory.
pub const SIZE: usize = 8708;

// The marks, each with the number in its cell.
#[derive(Clone, Copy, PartialEq, Eq)]
pub enum Mark {
    Unmarked = 0,
    Broken = 1,
    Frozen = 2,
}

// Stands in the value's cell of a defined symbol, so that no value looks undefined.
pub const DEFINED: u64 = 65536;

// Tags: no word, a plain one; REFERENCE + i is one that refers to symbol i.
pub const UNPLACED: u64 = 0;

pub const PLAIN: u64 = 1;

pub const REFERENCE: u64 = 2;
