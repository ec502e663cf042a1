// Numbers: one to six octal digits, at most 177777.
ghost use Rattle.std.specs.Prelude.{◌≡◌, ◌≤◌, length};
ghost use Rattle.rules.specs.Text.{number_of};
ghost use Rattle.text.specs.Values.{value_in, small};
ghost use Rattle.text.specs.Digits.{DigitsRead, FieldRead};

use crate::fields::next_field;
use crate::scan::SPACE;
use rules::limits::MOST_DIGITS;

// Digits at the front of a text, at most six: their value, and where they end.
#[derive(Clone, Copy)]
pub struct DigitRun {
    pub value: u32,
    pub end: usize,
}

pub fn digits(line: &[u8], at: usize) -> DigitRun
    requires { at ≤ length line.now }
    ensures { DigitsRead at (length line.now) line.now result }
{
    let most = line.len().min(at + MOST_DIGITS);
    let mut value: u32 = 0;
    for i in at..most {
        let digit = line[i];
        if digit < b'0' || b'7' < digit {
            return DigitRun { value, end: i };
        }
        value = value * 8 + u32::from(digit - b'0');
    }
    DigitRun { value, end: most }
}

fn as_number(value: u32) -> Option<u16>
    ensures { value_in result ≡ small value }
{
    u16::try_from(value).ok()
}

pub fn read_number(field: &[u8]) -> Option<u16>
    ensures { value_in result ≡ number_of field.now }
{
    let n = field.len();
    let run = digits(field, 0);
    if n == 0 || run.end != n {
        return None;
    }
    as_number(run.value)
}

// A field as a number, and where the field ends where it starts at the position asked for.
#[derive(Clone, Copy)]
pub struct NumberField {
    pub number: Option<u16>,
    pub end: usize,
}

// The field is looked for first.
fn any_field(line: &[u8], at: usize) -> NumberField
    requires { at ≤ length line.now }
    ensures { FieldRead at (length line.now) line.now result }
{
    let field = next_field(line, at);
    NumberField {
        number: read_number(field),
        end: at + field.len(),
    }
}

// The next field of the line as a number. Where it starts at `at`, is all digits and no more than six, one pass reads it.
pub fn field_number(line: &[u8], at: usize) -> NumberField
    requires { at ≤ length line.now }
    ensures { FieldRead at (length line.now) line.now result }
{
    let run = digits(line, at);
    let end = run.end;
    if end == at || end < line.len() && line[end] != SPACE {
        return any_field(line, at);
    }
    NumberField {
        number: as_number(run.value),
        end,
    }
}
