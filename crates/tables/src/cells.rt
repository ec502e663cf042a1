// Elements of a table by their numbers; what is past its end is 0.
ghost use Rattle.std.specs.Prelude.{◌≤◌, ◌≡◌, get_or};
ghost use Rattle.tables.specs.Tables.{most_cells, head_in, body_in};

// Room for the parts, and for the rows, of any file of 65,536 bytes: a part takes two bytes of it, a row nine.
pub const PART_ROOM: usize = 65536;

pub const ROW_ROOM: usize = 14562;

// A cell of a table, 0 past its end.
pub fn cell(cells: &[u64], i: usize) -> u64
    ensures { result ≡ get_or cells.now i 0 }
{
    cells.get(i).copied().unwrap_or(0)
}

// The first cell of element i.
pub fn head_at(cells: &[u64], i: usize) -> u64
    requires { i ≤ most_cells }
    ensures { result ≡ head_in cells.now i }
{
    cell(cells, 2 * i)
}

// The second cell of element i.
pub fn body_at(cells: &[u64], i: usize) -> u64
    requires { i ≤ most_cells }
    ensures { result ≡ body_in cells.now i }
{
    cell(cells, 2 * i + 1)
}
