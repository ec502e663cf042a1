// A field against the kind that it has to be.
ghost use Rattle.std.specs.Prelude.{◌≡◌, ◌+◌, ◌≤◌, ◌<◌, length};
ghost use Rattle.rules.specs.declared.line.FaultKind.TheVariants.{BadNumber};
ghost use Rattle.rules.specs.declared.line.Kind.TheVariants.{Number as NumberKind, Name as NameKind};
ghost use Rattle.rules.specs.Line.{fault, read_field, in_bounds, held};
ghost use Rattle.text.specs.Values.{value_in};
ghost use Rattle.line.specs.Fields.{held_in, as_held, value_in_field, Starts, Ends, Reads};

use rules::limits::LARGEST_NUMBER;
use rules::line::{Fault, FaultKind, Kind};
use text::fields::{field_from, field_start};
use text::markers::is_marker;
use text::names::read_name;
use text::numbers::{field_number, read_number};

const LARGEST: u16 = LARGEST_NUMBER as u16;

// The highest relocation type, and the only one that refers to an external.
pub const EXTERNAL_TYPE: u16 = 5;

pub const NUMBER: Kind = Kind::Number {
    low: 0,
    high: LARGEST,
    outside: FaultKind::BadNumber,
};

// What a field of a kind holds: a number, or a packed name. What it does not hold is 0.
#[derive(Clone, Copy)]
pub struct Value {
    pub number: u16,
    pub name: u64,
}

// A field that is of its kind, as it was read, and where it ends.
#[derive(Clone, Copy)]
pub struct FieldFrom<T> {
    pub value: T,
    pub end: usize,
}

// A fault that is told at the byte at i, the first being in column 1.
pub fn fault_at(kind: FaultKind, i: usize) -> Fault
    requires { i < usize.MAX }
    ensures { result ≡ fault kind (i + 1) }
{
    Fault {
        kind,
        column: i + 1,
    }
}

// A number, held to its bounds.
#[tactic(auto, unfolding(rules::specs::Line::held, rules::specs::Line::in_bounds))]
fn within(number: Option<u16>, low: u16, high: u16, outside: FaultKind) -> Result<u16, FaultKind>
    ensures { held_in result ≡ in_bounds low high outside (held BadNumber (value_in number)) }
{
    match number {
        Some(n) if low <= n && n <= high => Ok(n),
        Some(_) => Err(outside),
        None => Err(FaultKind::BadNumber),
    }
}

// What a field holds that has to be of this kind.
#[tactic(auto, unfolding(rules::specs::Line::read_field_over, rules::specs::Line::held))]
fn read_field(field: &[u8], kind: Kind) -> Result<Value, FaultKind>
    ensures { as_held kind result ≡ read_field kind field.now }
{
    match kind {
        Kind::Number { low, high, outside } => Ok(Value {
            number: within(read_number(field), low, high, outside)?,
            name: 0,
        }),
        Kind::Name => match read_name(field) {
            Some(name) => Ok(Value { number: 0, name }),
            None => Err(FaultKind::BadName),
        },
        Kind::Marker(code) if !is_marker(field, code) => Err(FaultKind::BadMarker),
        _ => Ok(Value { number: 0, name: 0 }),
    }
}

// Where the next field from i on starts. A field too few is told behind the line's last byte.
fn start_of(line: &[u8], i: usize) -> Result<usize, Fault>
    requires { i ≤ length line.now }
    ensures { Starts i line.now result }
{
    let start = field_start(line, i);
    if start == line.len() {
        return Err(fault_at(FaultKind::FieldCount, line.len()));
    }
    Ok(start)
}

// There is no field from i on. A field too many is told where it starts.
pub fn no_more(line: &[u8], i: usize) -> Result<(), Fault>
    requires { i ≤ length line.now }
    ensures { Ends i line.now result }
{
    let start = field_start(line, i);
    if start < line.len() {
        return Err(fault_at(FaultKind::FieldCount, start));
    }
    Ok(())
}

// The next field, of any kind.
#[tactic(auto, using(text::proofs::FieldLaws::start_again))]
pub fn field_at(line: &[u8], i: usize, kind: Kind) -> Result<FieldFrom<Value>, Fault>
    requires { i ≤ length line.now }
    ensures { Reads (value_in_field kind) kind i line.now result }
{
    let start = start_of(line, i)?;
    let field = field_from(line, start);
    match read_field(field, kind) {
        Ok(value) => Ok(FieldFrom {
            value,
            end: start + field.len(),
        }),
        Err(wrong) => Err(fault_at(wrong, start)),
    }
}

// The next field as a name.
#[tactic(auto, using(text::proofs::FieldLaws::start_again), unfolding(rules::specs::Line::read_field_over, rules::specs::Line::held))]
pub fn name_at(line: &[u8], i: usize) -> Result<FieldFrom<u64>, Fault>
    requires { i ≤ length line.now }
    ensures { Reads (λ name. name) NameKind i line.now result }
{
    let start = start_of(line, i)?;
    let field = field_from(line, start);
    match read_name(field) {
        Some(value) => Ok(FieldFrom {
            value,
            end: start + field.len(),
        }),
        None => Err(fault_at(FaultKind::BadName, start)),
    }
}

// The next field as a number within bounds. Most are read in one pass. Inlined, so that the bounds are constants: else a section of
// entries takes 4 % more instructions.
#[inline(always)]
#[tactic(auto, unfolding(rules::specs::Line::read_field_over))]
pub fn bounded_at(
    line: &[u8],
    i: usize,
    low: u16,
    high: u16,
    outside: FaultKind,
) -> Result<FieldFrom<u16>, Fault>
    requires { i ≤ length line.now }
    ensures { Reads (λ number. number) (NumberKind low high outside) i line.now result }
{
    let start = start_of(line, i)?;
    let field = field_number(line, start);
    match within(field.number, low, high, outside) {
        Ok(value) => Ok(FieldFrom {
            value,
            end: field.end,
        }),
        Err(kind) => Err(fault_at(kind, start)),
    }
}

// The next field as a number.
pub fn number_at(line: &[u8], i: usize) -> Result<FieldFrom<u16>, Fault>
    requires { i ≤ length line.now }
    ensures { Reads (λ number. number) (NumberKind 0 65535 BadNumber) i line.now result }
{
    bounded_at(line, i, 0, LARGEST, FaultKind::BadNumber)
}
