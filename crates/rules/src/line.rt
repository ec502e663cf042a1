// What one line of an object file says.

// What is wrong with a line. specs/Faults.antt gives each kind's answer.
#[derive(Clone, Copy)]
pub enum FaultKind {
    // A byte outside 32 to 126, or an 81st byte.
    IllegalByte,
    // A marker that differs, a code that is unknown or no number.
    BadMarker,
    // A field too few or too many.
    FieldCount,
    BadNumber,
    BadName,
    // A relocation type, the number before it, or an entry type.
    BadType,
}

// A fault and the column, from 1, that it is told at.
#[derive(Clone, Copy)]
pub struct Fault {
    pub kind: FaultKind,
    pub column: usize,
}

// What a field of a line has to be.
#[derive(Clone, Copy)]
pub enum Kind {
    // A number; one outside low to high is the fault named.
    Number {
        low: u16,
        high: u16,
        outside: FaultKind,
    },
    Name,
    Anything,
    // The marker of the block with this code.
    Marker(u16),
}

// How a code word's fourth quarter is completed: not at all, by an external with its number, or by a type carried unread.
#[derive(Clone, Copy)]
pub enum Relocation {
    Plain,
    External(u16),
    Unread(u16),
}

// A code word: its four quarters, the first highest, and its relocation.
#[derive(Clone, Copy)]
pub struct CodeWord {
    pub text: u64,
    pub relocation: Relocation,
}

// An entry record.
#[derive(Clone, Copy)]
pub struct Entry {
    pub name: u64,
    pub value: u16,
    pub relocated: bool,
    pub parameters: u16,
}

// A block's header.
#[derive(Clone, Copy)]
pub enum Header {
    CodeBlock { count: u16, offset: u16 },
    EndBlock,
    TitleBlock,
    EntryBlock(u16),
    ExternalBlock(u16),
    LibraryStart,
    LibraryEnd,
    DataBlock(u16),
    InitBlock(u16),
    ParameterBlock(u16),
}

// What the next line of a file has to be, where it has a field.
#[derive(Clone, Copy, Default)]
pub enum Expected {
    #[default]
    AnyHeader,
    OpeningTitle,
    ClosingTitle,
    CodeRecord,
    EntryRecord,
    ExternalRecord,
    DataRecord,
    InitRecord,
    ParameterRecord,
    SubRecord,
}

// What a line says, given what was expected of it: a variant for each thing that can be expected.
#[derive(Clone, Copy)]
pub enum LineAnswer {
    Bad(Fault),
    Blank,
    Head(Header),
    Opening(u64),
    Closing(u64),
    Code(CodeWord),
    Entered(Entry),
    Mentioned(u64),
    // A record that is read and has no effect.
    Ignored,
    // A parameter record, with the number of its sub-records.
    Parameter(u16),
    Sub,
}
