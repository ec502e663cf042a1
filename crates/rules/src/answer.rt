// What the calls answer.
ghost use Rattle.std.specs.Prelude.{◌≡◌};
ghost use Rattle.rules.specs.Answers.{reason_number};

// The numbers of documents 01 and 02. specs/Answers.antt has them with their names.
// Kept: rules' definitions and theorems say answers by the documents' numbers, and C is answered by them. Code refuses by `Reason`.
pub const DONE: u64 = 0;

pub const BUFFER: u64 = 1;

pub const DAMAGED: u64 = 2;

pub const RESET: u64 = 3;

pub const FROZEN: u64 = 4;

pub const TOO_LONG: u64 = 5;

pub const LINE: u64 = 6;

pub const PLACE: u64 = 7;

pub const LIST: u64 = 8;

pub const ROOM: u64 = 9;

pub const OVERLAP: u64 = 10;

pub const ARG: u64 = 11;

pub const RANGE: u64 = 12;

pub const DUPLICATE: u64 = 13;

pub const TABLE: u64 = 14;

pub const NAME: u64 = 15;

pub const OUT: u64 = 16;

pub const FIELDS: u64 = 17;

pub const NUMBER: u64 = 18;

pub const SYMBOL: u64 = 19;

pub const MARKER: u64 = 20;

pub const TYPE: u64 = 21;

pub const FEED: u64 = 23;

// Why a call refuses, by the number that it then answers.
#[derive(Clone, Copy, PartialEq, Eq)]
pub enum Reason {
    Buffer = 1,
    Damaged = 2,
    Reset = 3,
    Frozen = 4,
    TooLong = 5,
    Line = 6,
    Place = 7,
    List = 8,
    Room = 9,
    Overlap = 10,
    Arg = 11,
    Range = 12,
    Duplicate = 13,
    Table = 14,
    Name = 15,
    Out = 16,
    Fields = 17,
    Number = 18,
    Symbol = 19,
    Marker = 20,
    Type = 21,
    Feed = 23,
}

impl Reason {
    pub fn number(self) -> u64
        ensures { result ≡ reason_number self }
    {
        self as u64
    }
}

// Why a walk goes no further: an answer's number and a line of the file; both are 0 where it goes on.
// Kept: rules' definitions (`refusal`, `accepted`, `walked`) say answers by the documents' numbers.
#[derive(Clone, Copy)]
pub struct Refusal {
    pub number: u64,
    pub line: u64,
}

// The answers: number and line, then what the call gives, which is 0 in a refusal.
// Kept: C reads them, and rules' definitions and theorems (`load_answer`, `right_column`) say answers by the documents' numbers.

// LOAD. column is that of a line's fault, and 0 where none is named.
#[repr(C)]
#[derive(Clone, Copy, PartialEq, Eq)]
pub struct LoadAnswer {
    pub number: u64,
    pub line: u64,
    pub column: u64,
    pub rounds: u64,
}

// A piece of a file that is fed. advice, line and column are those of a fault that is told early, and 0 where none is.
#[repr(C)]
#[derive(Clone, Copy, PartialEq, Eq)]
pub struct FeedAnswer {
    pub number: u64,
    pub advice: u64,
    pub line: u64,
    pub column: u64,
}

// FORCE, BASE and RESET; a feed's opening and its drop.
#[repr(C)]
#[derive(Clone, Copy)]
pub struct CallAnswer {
    pub number: u64,
    pub line: u64,
}

#[repr(C)]
#[derive(Clone, Copy)]
pub struct MemoryAnswer {
    pub number: u64,
    pub line: u64,
    pub high: u64,
}

// SYMBOLS. none is 1 past the end; defined is 1 or 0.
#[repr(C)]
#[derive(Clone, Copy)]
pub struct SymbolAnswer {
    pub number: u64,
    pub line: u64,
    pub none: u64,
    pub name: u64,
    pub value: u64,
    pub defined: u64,
}

// UNDEFINED: the same, with the highest address that refers to the symbol.
#[repr(C)]
#[derive(Clone, Copy)]
pub struct UndefinedAnswer {
    pub number: u64,
    pub line: u64,
    pub none: u64,
    pub name: u64,
    pub value: u64,
    pub defined: u64,
    pub highest: u64,
}

// END, with the image's length.
#[repr(C)]
#[derive(Clone, Copy)]
pub struct EndAnswer {
    pub number: u64,
    pub line: u64,
    pub length: u64,
}
