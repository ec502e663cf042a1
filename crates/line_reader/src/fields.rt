// The next field of a line of the file, of which no byte is copied.
ghost use Rattle.text.specs.Scan.{InFile};
ghost use Rattle.text.specs.FieldBounds.{NextField, PartOf};

use text::fields::next_field;
use text::lines::line_part;

// The next field of the line from `at` to `stop`, as that part of the file: empty where there is none.
pub fn next_part<'a>(file: &'a [u8], at: usize, stop: usize) -> &'a [u8]
    requires { InFile at stop file.now }
    ensures field { NextField at stop file.entry result }
    ensures part { PartOf file.entry result }
{
    next_field(line_part(file, at, stop), 0)
}
