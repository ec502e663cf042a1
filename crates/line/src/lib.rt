// What one line of an object file says, by what is expected of it.
#![tactic(auto)]

ghost use Rattle.std.specs.Prelude.{◌≡◌, ◌+◌, length};
ghost use Rattle.rules.specs.Limits.{longest_line};
ghost use Rattle.rules.specs.Text.{legal_front, fields_of};
ghost use Rattle.rules.specs.declared.line.FaultKind.TheVariants.{BadMarker};
ghost use Rattle.rules.specs.Line.{fault, shape_for, line_of, test_bytes, line_answer};
ghost use Rattle.line.specs.Fields.{StartsAt};
ghost use Rattle.line.specs.Fitting.{said_as, shape_said};

use crate::fields::{NUMBER, fault_at};
use crate::fitting::fit;
use crate::headers::header_line;
use crate::named::{entry_line, name_alone};
use crate::records::code_line;
use rules::limits::MOST_SUB_RECORDS;
use rules::line::{Expected, Fault, FaultKind, Kind, LineAnswer};
use text::fields::field_start;

mod fields;
mod fitting;
mod headers;
mod named;
mod records;

// How many sub-records follow a parameter record.
const SUB_RECORDS: Kind = Kind::Number {
    low: 0,
    high: MOST_SUB_RECORDS,
    outside: FaultKind::BadNumber,
};

// What the line says, whose first field starts at `start`.
#[tactic(auto, unfolding(rules::specs::Line::shape_for, rules::specs::Line::read_as_over, rules::specs::Line::record_shape, rules::specs::Line::said, crate::specs::Fitting::shape_said, crate::specs::Fitting::values_of))]
fn shape_line(line: &[u8], start: usize, expected: Expected) -> Result<LineAnswer, Fault>
    requires { StartsAt 0 line.now start }
    ensures { said_as (λ answer. answer) result ≡ shape_said (shape_for expected (fields_of line.now)) (fault BadMarker (start + 1)) (length line.now + 1) (fields_of line.now) }
{
    match expected {
        Expected::AnyHeader => header_line(line, start),
        Expected::OpeningTitle => Ok(LineAnswer::Opening(name_alone(line)?)),
        Expected::ClosingTitle => Ok(LineAnswer::Closing(name_alone(line)?)),
        Expected::CodeRecord => Ok(LineAnswer::Code(code_line(line, start)?)),
        Expected::EntryRecord => Ok(LineAnswer::Entered(entry_line(line)?)),
        Expected::ExternalRecord => Ok(LineAnswer::Mentioned(name_alone(line)?)),
        Expected::DataRecord => {
            fit(line, &[NUMBER, NUMBER])?;
            Ok(LineAnswer::Ignored)
        }
        Expected::InitRecord => {
            fit(line, &[Kind::Anything; 5])?;
            Ok(LineAnswer::Ignored)
        }
        Expected::ParameterRecord => {
            let n = fit(line, &[NUMBER, NUMBER, SUB_RECORDS])?;
            Ok(LineAnswer::Parameter(n.numbers[2]))
        }
        Expected::SubRecord => {
            fit(line, &[NUMBER, NUMBER])?;
            Ok(LineAnswer::Sub)
        }
    }
}

// What the fields of the line say. A line with no field is skipped.
fn fields_say(line: &[u8], expected: Expected) -> Result<LineAnswer, Fault>
    ensures { said_as (λ answer. answer) result ≡ line_of expected (length line.now + 1) (fields_of line.now) }
{
    let start = field_start(line, 0);
    if start == line.len() {
        return Ok(LineAnswer::Blank);
    }
    shape_line(line, start, expected)
}

// The first illegal byte, or the 81st, is a fault of the line too: the leftmost is told.
#[tactic(auto, unfolding(rules::specs::Line::test_bytes, rules::specs::Line::within, rules::specs::Line::fault_in))]
fn test_bytes(front: usize, size: usize, answer: LineAnswer) -> LineAnswer
    ensures { result ≡ test_bytes front size answer }
{
    if size <= front {
        return answer;
    }
    match answer {
        LineAnswer::Bad(fault) if fault.column <= front => answer,
        _ => LineAnswer::Bad(fault_at(FaultKind::IllegalByte, front)),
    }
}

// What the line says, given what is expected of it; `front` of its bytes are legal before one is not.
#[tactic(auto, unfolding(rules::specs::Line::line_answer_over))]
pub fn line_answer(line: &[u8], front: usize, expected: Expected) -> LineAnswer
    requires { front ≡ legal_front longest_line line.now }
    ensures { result ≡ line_answer expected line.now }
{
    let answer = match fields_say(line, expected) {
        Ok(answer) => answer,
        Err(fault) => LineAnswer::Bad(fault),
    };
    test_bytes(front, line.len(), answer)
}
