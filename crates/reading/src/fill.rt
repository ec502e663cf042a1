// Writing the two tables, one element at the end at a time.
ghost use Rattle.std.specs.Prelude.{◌≡◌, ◌+◌, ◌*◌, ◌<◌, length};
ghost use Rattle.reading.specs.TwoTables.{empty, add_part, add_module, add_section};
ghost use Rattle.reading.specs.Filling.{Put, filled_of, PartRoom, RowRoom, parts_in, rows_in, Fills};

use rules::reading::Part;
use tables::parts::{part_body, part_head};
use tables::rows::{RowKind, row_body, row_head};

// How many parts and rows are written, and where the parts of the open module and the rows of the open section begin.
#[derive(Clone, Copy, Default)]
pub struct Filled {
    pub parts: usize,
    pub rows: usize,
    pub object: usize,
    pub section: usize,
}

// Empty tables.
#[tactic(auto, unfolding(crate::specs::TwoTables::empty))]
pub fn nothing() -> Filled
    ensures { result ≡ filled_of empty }
{
    Filled::default()
}

// Two cells: element i of a table.
fn put(cells: &mut [u64], i: usize, head: u64, body: u64)
    requires { 2 * i + 1 < length cells.old }
    ensures { Put i head body cells.old cells.new }
{
    cells[2 * i] = head;
    cells[2 * i + 1] = body;
}

// One part of the open module.
pub fn add_part(parts: &mut [u64], filled: Filled, part: Part) -> Filled
    requires { PartRoom filled parts.old }
    ensures { Fills parts_in (add_part part) filled parts.old result parts.new }
{
    put(parts, filled.parts, part_head(part), part_body(part));
    Filled {
        parts: filled.parts + 1,
        ..filled
    }
}

// The open module is complete; its header stood at this line.
pub fn close_module(rows: &mut [u64], filled: Filled, member: bool, line: u32) -> Filled
    requires { RowRoom filled rows.old }
    ensures { Fills rows_in (add_module member line) filled rows.old result rows.new }
{
    let body = row_body(filled.object, filled.parts);
    if member {
        put(
            rows,
            filled.rows,
            row_head(Some(RowKind::Member), line),
            body,
        );
        return Filled {
            rows: filled.rows + 1,
            object: filled.parts,
            ..filled
        };
    }
    put(rows, filled.rows, row_head(Some(RowKind::Free), line), body);
    Filled {
        rows: filled.rows + 1,
        object: filled.parts,
        section: filled.rows + 1,
        ..filled
    }
}

// The open section is complete; its header stood at this line.
pub fn close_section(rows: &mut [u64], filled: Filled, line: u32) -> Filled
    requires { RowRoom filled rows.old }
    ensures { Fills rows_in (add_section line) filled rows.old result rows.new }
{
    let body = row_body(filled.section, filled.rows);
    put(
        rows,
        filled.rows,
        row_head(Some(RowKind::Section), line),
        body,
    );
    Filled {
        rows: filled.rows + 1,
        object: filled.parts,
        section: filled.rows + 1,
        ..filled
    }
}
