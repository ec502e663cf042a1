// The line for a refused call, and the line for advice.
use crate::page::{Page, say};
use answers::answer_name;
use rules::answer::{
    CallAnswer, DONE, EndAnswer, FeedAnswer, LoadAnswer, MemoryAnswer, RESET, UndefinedAnswer,
};
use std::fmt;
use std::fmt::Write;
use std::io::{Eprint, Print};

// An answer and the place that it names. A column of 0 is none, and is not told.
#[derive(Clone, Copy)]
pub struct Fault {
    pub number: u64,
    pub line: u64,
    pub column: u64,
}

impl fmt::Display for Fault {
    fn fmt<W: fmt::Write>(&self, f: &mut fmt::Formatter<W>) -> fmt::Result {
        let name = answer_name(self.number);
        let number = self.number;
        let line = self.line;
        let column = self.column;
        write!(f, "{name} {number:06o} LINE {line:06o}")?;
        if column != 0 {
            write!(f, " COLUMN {column:06o}")?;
        }
        Ok(())
    }
}

// The longest line has 46 bytes, and `RESET!!!` stands before one.
const LONGEST: usize = 64;

// Tells a refusal. Was the call done?
pub fn tell(rt: &(impl Print + Eprint), fault: Fault) -> bool {
    if fault.number == DONE {
        return true;
    }
    if fault.number == RESET {
        say(rt, b"RESET!!!\n");
    }
    let mut bytes = [0u8; LONGEST];
    let mut page = Page::new(&mut bytes);
    let _ = writeln!(page, "F {fault}");
    say(rt, page.text());
    false
}

// Tells the fault that a piece brought to light, if it brought one.
pub fn advise(rt: &(impl Print + Eprint), a: FeedAnswer) {
    let fault = Fault {
        number: a.advice,
        line: a.line,
        column: a.column,
    };
    if fault.number == DONE {
        return;
    }
    let mut bytes = [0u8; LONGEST];
    let mut page = Page::new(&mut bytes);
    let _ = writeln!(page, "ADVICE {fault}");
    say(rt, page.text());
}

// Of a load, which alone names a column.
impl From<LoadAnswer> for Fault {
    fn from(a: LoadAnswer) -> Self {
        Fault {
            number: a.number,
            line: a.line,
            column: a.column,
        }
    }
}

impl From<CallAnswer> for Fault {
    fn from(a: CallAnswer) -> Self {
        at_line(a.number, a.line)
    }
}

impl From<MemoryAnswer> for Fault {
    fn from(a: MemoryAnswer) -> Self {
        at_line(a.number, a.line)
    }
}

impl From<UndefinedAnswer> for Fault {
    fn from(a: UndefinedAnswer) -> Self {
        at_line(a.number, a.line)
    }
}

impl From<EndAnswer> for Fault {
    fn from(a: EndAnswer) -> Self {
        at_line(a.number, a.line)
    }
}

fn at_line(number: u64, line: u64) -> Fault {
    Fault {
        number,
        line,
        column: 0,
    }
}
