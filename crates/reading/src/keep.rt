// What a line adds is kept, or is not: a piece of a file that is fed is read for its faults alone.
// Kept: a trait with two implementations in place of `keep` proves, but it makes two loops of the one. Two loops over the same functions
// were measured, and a LOAD of externals then took 1,370 us in place of 610 (docs/PERFORMANCE.md). A struct that holds both slices would
// need a clause on the name of each slice's loan in every function that it is passed to, and so would be no plainer.
ghost use Rattle.std.specs.Prelude.{true, ◌≡◌};
ghost use Rattle.reading.specs.TwoTables.{add_part, add_module, add_section};
ghost use Rattle.reading.specs.Filling.{PartRoom, RowRoom, parts_in, rows_in, Fills};

use crate::fill::{Filled, add_part, close_module, close_section};
use rules::reading::Part;

pub fn keep_part(keep: bool, parts: &mut [u64], filled: Filled, part: Part) -> Filled
    requires { keep ≡ true → PartRoom filled parts.old }
    ensures { keep ≡ true → Fills parts_in (add_part part) filled parts.old result parts.new }
{
    if !keep {
        return filled;
    }
    add_part(parts, filled, part)
}

pub fn keep_module(keep: bool, rows: &mut [u64], filled: Filled, member: bool, line: u32) -> Filled
    requires { keep ≡ true → RowRoom filled rows.old }
    ensures { keep ≡ true → Fills rows_in (add_module member line) filled rows.old result rows.new }
{
    if !keep {
        return filled;
    }
    close_module(rows, filled, member, line)
}

pub fn keep_section(keep: bool, rows: &mut [u64], filled: Filled, line: u32) -> Filled
    requires { keep ≡ true → RowRoom filled rows.old }
    ensures { keep ≡ true → Fills rows_in (add_section line) filled rows.old result rows.new }
{
    if !keep {
        return filled;
    }
    close_section(rows, filled, line)
}
