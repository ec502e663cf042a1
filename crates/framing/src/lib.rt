// Headers and titles in their usual form: the right fields, with spaces between and around them, and a code of one digit. They are read in
// one pass. A line in any other form is declined, by `None`, and then read as every line can be: nothing is told of faults here.
#![tactic(auto)]

ghost use Rattle.std.specs.Prelude.{◌≤◌, ◌<◌, length, IfSome};
ghost use Rattle.rules.specs.declared.line.Expected.TheVariants.{AnyHeader};
ghost use Rattle.framing.specs.Framing.{TextEnds, CountStands, Begun, HeaderEnded, title_by, LineSaid};

use rules::line::{Expected, Header, LineAnswer};
use runs::fields::{gap_end, name_end, number_end, spaces_end};
use runs::lines::line_end;
use text::markers::marker_text;
use text::names::read_name;
use text::numbers::read_number;

// What a header or a title says, and where the next line starts.
#[derive(Clone, Copy)]
pub struct Frame {
    pub answer: LineAnswer,
    pub next: usize,
}

// The code of a header, which is one digit, and where the field behind it starts.
#[derive(Clone, Copy)]
struct Code {
    digit: u8,
    behind: usize,
}

// A number of a header, and where the field behind it starts.
#[derive(Clone, Copy)]
struct Count {
    behind: usize,
    value: u16,
}

// Where the text ends that stands at i.
fn text_end(file: &[u8], i: usize, text: &[u8]) -> Option<usize>
    requires { i ≤ length file.now }
    ensures { IfSome result (TextEnds file.now i text.now) }
{
    file[i..].starts_with(text).then_some(i + text.len())
}

// The code of the line at `at`, with spaces behind it.
fn code_at(file: &[u8], at: usize) -> Option<Code>
    requires { at < length file.now }
    ensures { IfSome result (λ c. Begun file.now at c.behind c.digit) }
{
    let start = spaces_end(file, at);
    let digit = *file.get(start)?;
    let behind = gap_end(file, start + 1)?;
    Some(Code { digit, behind })
}

// The number at i, with spaces behind it.
fn count_at(file: &[u8], i: usize) -> Option<Count>
    requires { i ≤ length file.now }
    ensures { IfSome result (λ n. CountStands file.now i n.behind n.value) }
{
    let end = number_end(file, i)?;
    let behind = gap_end(file, end)?;
    let value = read_number(&file[i..end])?;
    Some(Count { behind, value })
}

// The marker at i and the end of the line from `at` on, which is that header. Inlined, so that the marker and the header are constants.
#[inline(always)]
fn ended(file: &[u8], at: usize, i: usize, marker: &[u8], header: Header) -> Option<Frame>
    requires { (at ≤ i) × (i ≤ length file.now) }
    ensures { IfSome result (HeaderEnded file.now at i marker.now header) }
{
    let end = text_end(file, i, marker)?;
    let next = line_end(file, at, end)?;
    Some(Frame {
        answer: LineAnswer::Head(header),
        next,
    })
}

// A header of any block.
fn header(file: &[u8], at: usize) -> Option<Frame>
    requires { at < length file.now }
    ensures { IfSome result (λ f. LineSaid AnyHeader at file.now f.answer f.next) }
{
    let Code { digit, behind: i } = code_at(file, at)?;
    match digit {
        b'0' => {
            let count = count_at(file, i)?;
            let offset = count_at(file, count.behind)?;
            let header = Header::CodeBlock {
                count: count.value,
                offset: offset.value,
            };
            ended(file, at, offset.behind, marker_text(0), header)
        }
        b'1' => ended(file, at, i, marker_text(1), Header::EndBlock),
        b'3' => ended(file, at, i, marker_text(3), Header::TitleBlock),
        b'4' => {
            let Count { behind, value } = count_at(file, i)?;
            ended(file, at, behind, marker_text(4), Header::EntryBlock(value))
        }
        b'5' => {
            let Count { behind, value } = count_at(file, i)?;
            ended(
                file,
                at,
                behind,
                marker_text(5),
                Header::ExternalBlock(value),
            )
        }
        b'6' => ended(file, at, i, marker_text(6), Header::LibraryStart),
        b'7' => ended(file, at, i, marker_text(7), Header::LibraryEnd),
        _ => None,
    }
}

// A title: the one that opens a module, or the one that closes it.
fn title(file: &[u8], at: usize, opens: bool) -> Option<Frame>
    requires { at < length file.now }
    ensures { IfSome result (λ f. LineSaid (title_by opens) at file.now f.answer f.next) }
{
    let start = spaces_end(file, at);
    let end = name_end(file, start)?;
    let behind = line_end(file, at, end)?;
    let name = read_name(&file[start..end])?;
    let answer = if opens {
        LineAnswer::Opening(name)
    } else {
        LineAnswer::Closing(name)
    };
    Some(Frame {
        answer,
        next: behind,
    })
}

// The line at `at`, where it is a header or a title in its usual form.
pub fn usual_frame(file: &[u8], at: usize, expected: Expected) -> Option<Frame>
    requires { at < length file.now }
    ensures { IfSome result (λ f. LineSaid expected at file.now f.answer f.next) }
{
    match expected {
        Expected::AnyHeader => header(file, at),
        Expected::OpeningTitle => title(file, at, true),
        Expected::ClosingTitle => title(file, at, false),
        _ => None,
    }
}
