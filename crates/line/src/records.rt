// The code records.
ghost use Rattle.std.specs.Prelude.{false, ◌≡◌, ◌+◌, length};
ghost use Rattle.rules.specs.Text.{fields_of};
ghost use Rattle.rules.specs.Line.{read_as, record_shape, linked_code, starred, code_shape, word_of, relocation_of};
ghost use Rattle.rules.specs.declared.line.LineAnswer.TheVariants.{Code};
ghost use Rattle.text.specs.FieldBounds.{field_start};
ghost use Rattle.line.specs.Fitting.{said_as};

use crate::fields::{EXTERNAL_TYPE, NUMBER, no_more, number_at};
use crate::fitting::fit;
use rules::line::{CodeWord, Fault, FaultKind, Kind, Relocation};
use text::fields::next_field;
use text::markers::is_star;

// The number before a relocation's type.
const ZERO: Kind = Kind::Number {
    low: 0,
    high: 0,
    outside: FaultKind::BadType,
};

const RELOCATION_TYPE: Kind = Kind::Number {
    low: 1,
    high: EXTERNAL_TYPE,
    outside: FaultKind::BadType,
};

fn word(a: u16, b: u16, c: u16, d: u16) -> u64
    ensures { result ≡ word_of a b c d }
{
    (((a as u64) * 65536 + b as u64) * 65536 + c as u64) * 65536 + d as u64
}

fn relocation_of(kind: u16, arg: u16) -> Relocation
    ensures { result ≡ relocation_of kind arg }
{
    if kind == EXTERNAL_TYPE {
        return Relocation::External(arg);
    }
    Relocation::Unread(kind)
}

// A code record with an asterisk: four quarters and a relocation.
#[tactic(auto, unfolding(rules::specs::Line::read_as_over, rules::specs::Line::record_shape, rules::specs::Line::said, crate::specs::Fitting::values_of))]
fn linked_line(line: &[u8]) -> Result<CodeWord, Fault>
    ensures { said_as Code result ≡ read_as (record_shape linked_code) (length line.now + 1) (fields_of line.now) }
{
    let n = fit(
        line,
        &[
            Kind::Anything,
            NUMBER,
            NUMBER,
            NUMBER,
            NUMBER,
            ZERO,
            RELOCATION_TYPE,
            NUMBER,
        ],
    )?;
    Ok(CodeWord {
        text: word(n.numbers[1], n.numbers[2], n.numbers[3], n.numbers[4]),
        relocation: relocation_of(n.numbers[6], n.numbers[7]),
    })
}

// A code record without one: four quarters. Those in their usual form, most of all lines, crate `usual` reads ahead of this. Within the
// reading's loop its columns would take registers from what the loop keeps.
#[inline(never)]
fn plain_line(line: &[u8]) -> Result<CodeWord, Fault>
    requires { starred (fields_of line.now) ≡ false }
    ensures { said_as Code result ≡ read_as (code_shape (fields_of line.now)) (length line.now + 1) (fields_of line.now) }
{
    let mut text: u64 = 0;
    let mut i = 0;
    for _ in 0..4usize {
        let quarter = number_at(line, i)?;
        text = text * 65536 + quarter.value as u64;
        i = quarter.end;
    }
    no_more(line, i)?;
    Ok(CodeWord {
        text,
        relocation: Relocation::Plain,
    })
}

// Is the first field, which starts at `start`, an asterisk? Of most lines its first byte tells. A line with no field is read as a plain one.
pub fn code_line(line: &[u8], start: usize) -> Result<CodeWord, Fault>
    requires { start ≡ field_start 0 (length line.now) line.now }
    ensures { said_as Code result ≡ read_as (code_shape (fields_of line.now)) (length line.now + 1) (fields_of line.now) }
{
    if start == line.len() {
        return plain_line(line);
    }
    if line[start] != b'*' {
        return plain_line(line);
    }
    if is_star(next_field(line, start)) {
        return linked_line(line);
    }
    plain_line(line)
}
