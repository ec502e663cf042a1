// The headers of blocks.
ghost use Rattle.std.specs.Prelude.{◌≡◌, ◌+◌, length};
ghost use Rattle.rules.specs.Text.{fields_of};
ghost use Rattle.rules.specs.Line.{fault, row_of, header_shape_in, shape_for, line_of};
ghost use Rattle.rules.specs.declared.line.FaultKind.TheVariants.{BadMarker};
ghost use Rattle.rules.specs.declared.line.LineAnswer.TheVariants.{Head};
ghost use Rattle.rules.specs.declared.line.Expected.TheVariants.{AnyHeader};
ghost use Rattle.text.specs.FieldBounds.{field_start};
ghost use Rattle.line.specs.Fitting.{said_as, shape_said};
ghost use Rattle.line.specs.Fields.{StartsAt};

use crate::fields::{NUMBER, fault_at};
use crate::fitting::fit;
use rules::line::{Fault, FaultKind, Header, Kind, LineAnswer};
use text::fields::next_field;
use text::numbers::read_number;

// A header's code has told its shape already.
const CODE: Kind = Kind::Anything;

// The header of the block with this code. No block with it is a fault of the code.
#[tactic(auto, unfolding(rules::specs::Line::row_of, rules::specs::Line::row_in, rules::specs::Line::headers, rules::specs::Line::read_as_over, rules::specs::Line::said, rules::specs::Line::header_shape_in, crate::specs::Fitting::shape_said, crate::specs::Fitting::values_of))]
fn block_line(line: &[u8], code: u16, unknown: Fault) -> Result<Header, Fault>
    ensures { said_as Head result ≡ shape_said (header_shape_in (row_of code)) unknown (length line.now + 1) (fields_of line.now) }
{
    match code {
        0 => {
            let n = fit(line, &[CODE, NUMBER, NUMBER, Kind::Marker(0)])?;
            Ok(Header::CodeBlock {
                count: n.numbers[1],
                offset: n.numbers[2],
            })
        }
        1 => {
            fit(line, &[CODE, Kind::Marker(1)])?;
            Ok(Header::EndBlock)
        }
        3 => {
            fit(line, &[CODE, Kind::Marker(3)])?;
            Ok(Header::TitleBlock)
        }
        4 => Ok(Header::EntryBlock(fit(line, &[CODE, NUMBER, Kind::Marker(4)])?.numbers[1])),
        5 => Ok(Header::ExternalBlock(fit(line, &[CODE, NUMBER, Kind::Marker(5)])?.numbers[1])),
        6 => {
            fit(line, &[CODE, Kind::Marker(6)])?;
            Ok(Header::LibraryStart)
        }
        7 => {
            fit(line, &[CODE, Kind::Marker(7)])?;
            Ok(Header::LibraryEnd)
        }
        8 => {
            let n = fit(line, &[CODE, NUMBER, Kind::Name, NUMBER, Kind::Marker(8)])?;
            Ok(Header::DataBlock(n.numbers[1]))
        }
        9 => Ok(Header::InitBlock(fit(line, &[CODE, NUMBER, Kind::Marker(9)])?.numbers[1])),
        10 => Ok(Header::ParameterBlock(fit(line, &[CODE, NUMBER, Kind::Marker(10)])?.numbers[1])),
        11 => Ok(Header::EntryBlock(fit(line, &[CODE, NUMBER, Kind::Marker(11)])?.numbers[1])),
        _ => Err(unknown),
    }
}

// A header, whose code starts at `start`.
fn header_at(line: &[u8], start: usize) -> Result<Header, Fault>
    requires { StartsAt 0 line.now start }
    ensures { said_as Head result ≡ shape_said (shape_for AnyHeader (fields_of line.now)) (fault BadMarker (start + 1)) (length line.now + 1) (fields_of line.now) }
{
    let unknown = fault_at(FaultKind::BadMarker, start);
    let Some(code) = read_number(next_field(line, start)) else {
        return Err(unknown);
    };
    block_line(line, code, unknown)
}

// What a line says where a header is expected, whose first field starts at `start`. A line with no field is skipped.
pub fn header_line(line: &[u8], start: usize) -> Result<LineAnswer, Fault>
    requires { start ≡ field_start 0 (length line.now) line.now }
    ensures { said_as (λ answer. answer) result ≡ line_of AnyHeader (length line.now + 1) (fields_of line.now) }
{
    if start == line.len() {
        return Ok(LineAnswer::Blank);
    }
    Ok(LineAnswer::Head(header_at(line, start)?))
}
