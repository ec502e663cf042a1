// What S, U and E print of a state.
use crate::page::{Name, Page, octal};
use linker::{lnk100_memory, lnk100_symbols, lnk100_undefined};
use rules::answer::{MemoryAnswer, UndefinedAnswer};
use rules::limits::MOST_SYMBOLS;
use std::fmt;
use std::fmt::Write;

const SYMBOLS: u64 = MOST_SYMBOLS as u64;

// The line of HIGH.
pub fn write_high(page: &mut Page, high: u64) -> fmt::Result {
    writeln!(page, "HIGH={high:06o}")
}

// A symbol as a listing tells it: its value, or the highest address that refers to it where it is undefined.
#[derive(Clone, Copy)]
pub struct Row {
    name: Name,
    address: u64,
    is_defined: bool,
}

// Rows are put by their bytes, since there may be so many.
impl Row {
    // In the symbol table.
    fn put(self, page: &mut Page) {
        let [a, b, c, d, e, f] = self.name.bytes();
        let [u, v, w, x, y, z] = octal(self.address);
        if self.is_defined {
            page.put(&[a, b, c, d, e, f, b' ', u, v, w, x, y, z, b'\n']);
        } else {
            page.put(&[a, b, c, d, e, f, b' ', u, v, w, x, y, z, b' ', b'U', b'\n']);
        }
    }

    // Among the undefined symbols.
    fn put_undefined(self, page: &mut Page) {
        let [a, b, c, d, e, f] = self.name.bytes();
        let [u, v, w, x, y, z] = octal(self.address);
        page.put(&[
            a, b, c, d, e, f, b' ', b' ', b' ', u, v, w, x, y, z, b' ', b'U', b'\n',
        ]);
    }
}

// The rows of a listing, and nothing behind them. They are all fetched before one is put: each call tests the whole state, and where
// nothing but these is written between the calls, the compiler makes one test for all of them.
pub type Rows = [Option<Row>; MOST_SYMBOLS];

// MEMORY, and a row for each symbol in table order.
pub fn table_rows(state: &[u64]) -> (MemoryAnswer, Rows) {
    let memory = lnk100_memory(state);
    let mut rows = [None; MOST_SYMBOLS];
    let mut nth: u64 = 0;
    for index in 0..MOST_SYMBOLS {
        let s = lnk100_symbols(state, index as u64);
        if s.none == 1 {
            break;
        }
        let is_defined = s.defined == 1;
        let mut address = s.value;
        if !is_defined {
            address = lnk100_undefined(state, nth).highest;
            nth = nth.saturating_add(1);
        }
        rows[index] = Some(Row {
            name: Name(s.name),
            address,
            is_defined,
        });
    }
    (memory, rows)
}

// The first answer of UNDEFINED, and a row for each undefined symbol.
pub fn undefined_rows(state: &[u64]) -> (UndefinedAnswer, Rows) {
    let first = lnk100_undefined(state, 0);
    let mut rows = [None; MOST_SYMBOLS];
    for index in 0..MOST_SYMBOLS {
        let u = lnk100_undefined(state, index as u64);
        if u.none == 1 {
            break;
        }
        rows[index] = Some(Row {
            name: Name(u.name),
            address: u.highest,
            is_defined: false,
        });
    }
    (first, rows)
}

// The symbol table with its heading. An undefined symbol stands with the highest address that refers to it.
pub fn write_table(page: &mut Page, high: u64, rows: &Rows) -> fmt::Result {
    write_high(page, high)?;
    writeln!(page, "\nSYMBOL TABLE\n\nSYMBOL VALUE")?;
    for row in rows.iter().map_while(|row| *row) {
        row.put(page);
    }
    Ok(())
}

// The undefined symbols.
pub fn put_undefined(page: &mut Page, rows: &Rows) {
    for row in rows.iter().map_while(|row| *row) {
        row.put_undefined(page);
    }
}

// What E prints once the image is in its file: the first defined symbol, HIGH, and how many symbols are undefined, if any is. All of it is
// fetched before it is written, as a listing's rows are.
pub fn write_end(page: &mut Page, state: &[u64]) -> fmt::Result {
    let high = lnk100_memory(state).high;
    let first = (0..SYMBOLS)
        .map(|index| lnk100_symbols(state, index))
        .take_while(|s| s.none != 1)
        .find(|s| s.defined == 1);
    let count = (0..SYMBOLS)
        .map(|index| lnk100_undefined(state, index))
        .take_while(|u| u.none != 1)
        .count();
    if let Some(s) = first {
        let name = Name(s.name);
        write!(page, "{name}     ")?;
    }
    write_high(page, high)?;
    if count != 0 {
        writeln!(page, "{count:06o} UNDEFINED SYMBOLS")?;
    }
    Ok(())
}
