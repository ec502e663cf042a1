// Rows: what each says of its module or section.
ghost use Rattle.std.specs.Prelude.{◌≤◌, ◌<◌, ◌^◌, ◌≡◌};
ghost use Rattle.tables.specs.Tables.{most_cells, row_head, row_body, kind_told, kind_in, line_in, start_in, end_in, cells_in, RowsOf};

use crate::cells::{body_at, head_at};

// What a row is of: a module that stands free, a module of a section, a section. The number stands in the low two bits of the row's
// first cell.
#[derive(Clone, Copy, PartialEq, Eq)]
pub enum RowKind {
    Free = 1,
    Member = 2,
    Section = 3,
}

// The line of the TITLE or LSB header stands above the kind.
const KINDS: u64 = 4;

// The second cell has the range's start and, above it, its end.
const STARTS: u64 = 65536;

// A row without a kind has number 0.
pub fn row_head(kind: Option<RowKind>, line: u32) -> u64
    ensures { result ≡ row_head (kind_told kind) line }
{
    kind.map_or(0, |k| k as u64) + KINDS * (line as u64)
}

pub fn row_body(start: usize, end: usize) -> u64
    requires { (start ≤ 65535) × (end ≤ 65535) }
    ensures { result ≡ row_body start end }
{
    start as u64 + STARTS * (end as u64)
}

// The modules of a section: so many rows, from row `first` on.
#[derive(Clone, Copy)]
pub struct Section {
    pub first: usize,
    pub count: usize,
}

// The two tables of a file, as the reading has filled them.
#[derive(Clone, Copy)]
pub struct Tables<'p, 'r> {
    pub parts: &'p [u64],
    pub rows: &'r [u64],
}

impl<'p, 'r> Tables<'p, 'r> {
    // The kind of row i. No row that the reading writes has none.
    pub fn kind(self, i: usize) -> Option<RowKind>
        requires { i ≤ most_cells }
        ensures { kind_told result ≡ kind_in self.entry.rows.now i }
    {
        match head_at(self.rows, i) % KINDS {
            1 => Some(RowKind::Free),
            2 => Some(RowKind::Member),
            3 => Some(RowKind::Section),
            _ => None,
        }
    }

    // The line of its header.
    pub fn line(self, i: usize) -> u64
        requires { i ≤ most_cells }
        ensures { result ≡ line_in self.entry.rows.now i }
    {
        head_at(self.rows, i) / KINDS
    }

    // Where the parts of a module, or the rows of a section, begin.
    pub fn start(self, i: usize) -> usize
        requires { i ≤ most_cells }
        ensures { result ≡ start_in self.entry.rows.now i }
    {
        (body_at(self.rows, i) % STARTS) as usize
    }

    // Where they end.
    pub fn end(self, i: usize) -> usize
        requires { i ≤ most_cells }
        ensures { (result ≡ end_in self.entry.rows.now i) × (result < 2 ^ 48) }
    {
        (body_at(self.rows, i) / STARTS) as usize
    }

    pub fn section(self, i: usize) -> Section
        requires { i ≤ most_cells }
        ensures { RowsOf self.entry.rows.now i result }
    {
        let first = self.start(i);
        Section {
            first,
            count: self.end(i).saturating_sub(first),
        }
    }

    // The cells of the module of row i, lent by the parts alone. A range that passes the table's end stops there.
    pub fn module_cells(self, i: usize) -> &'p [u64]
        requires { i ≤ most_cells }
        ensures { result.now ≡ cells_in self.entry.parts.now (start_in self.entry.rows.now i) (end_in self.entry.rows.now i) }
    {
        let end = self.parts.len().min(2 * self.end(i));
        let start = end.min(2 * self.start(i));
        &self.parts[start..end]
    }
}
