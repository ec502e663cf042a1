// The reading of a file, line by line.
use crate::line::{CodeWord, Entry, Expected};

// The block whose records are being read: its offset and count, how many of its records are to come, and how many
// sub-records of the open parameter record.
#[derive(Clone, Copy, Default)]
pub struct OpenBlock {
    pub offset: u16,
    pub count: u16,
    pub remaining: u16,
    pub subs: u16,
}

// The object module being read: whether there is one, its title, the line of its TITLE header, and how many entries and
// externals it has so far.
// Kept: the line is noted before the module is inside (`title_header`), so that it has no place in an Option of the module; and the
// definitions `at_end`, `header_step`, `module_done` and the law `ends_too_soon` say by `inside` what is open.
#[derive(Clone, Copy, Default)]
pub struct OpenModule {
    pub inside: bool,
    pub title: u64,
    pub line: u32,
    pub entries: u16,
    pub externals: u16,
}

// The library section being read: whether there is one, the line of its LSB header, and how many modules it has so far.
// Kept: `inside` stands as it does in the module, for the same definitions.
#[derive(Clone, Copy, Default)]
pub struct OpenSection {
    pub inside: bool,
    pub line: u32,
    pub modules: u16,
}

// Where the reading stands between two lines, and what the next line has to be. The block stands first: it is one word of the machine
// there, and behind a field of one byte it would lie across two, for which the machine waits at each line.
#[derive(Clone, Copy, Default)]
pub struct Mode {
    pub block: OpenBlock,
    pub expected: Expected,
    pub object: OpenModule,
    pub section: OpenSection,
}

// One part of a module, in file order.
#[derive(Clone, Copy)]
pub enum Part {
    EntryPart(Entry),
    ExternalPart(u64),
    // A CODE header.
    BlockPart { offset: u16, count: u16 },
    // A code word, at its address from the module's base.
    WordPart { address: u32, word: CodeWord },
}

// What a line does to the reading.
#[derive(Clone, Copy)]
pub enum Step {
    // Answer 6, 7 or 8, or one of 17 to 21, at a column (0 where none is named).
    // Kept: rules' definitions and theorems (`misplaced`, `fault_number`, `right_column`) say answers by the documents' numbers.
    Stop { number: u64, column: usize },
    Next(Mode),
    // The next mode, with one part of the open module.
    Add(Mode, Part),
    // The next mode; the open module, or the open section, is complete, and its header stood at this line.
    CloseModule(Mode, u32),
    CloseSection(Mode, u32),
}

// Why reading stops: an answer's number, the line of the file, and the column, 0 where none is named.
// Kept: rules' definitions and theorems (`is_file_fault`, `right_column`) say answers by the documents' numbers.
#[derive(Clone, Copy)]
pub struct Stop {
    pub number: u64,
    pub line: u32,
    pub column: usize,
}

// What reading a whole file comes to.
pub type Reading = Result<(), Stop>;
