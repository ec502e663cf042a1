// Records in their usual form, read in one pass. Most lines of a file are code records of four numbers with spaces between them and
// the line's end right behind the last. A line in any other form is declined, and then read as every line can be: nothing is told of faults here.
#![tactic(auto)]

ghost use Rattle.std.specs.Prelude.{◌≡◌, ◌≤◌, ◌<◌, length, IfSome};
ghost use Rattle.rules.specs.declared.line.Expected.TheVariants.{CodeRecord};
ghost use Rattle.usual.specs.Words.{parts, Ending, WordRead};

use rules::limits::{LARGEST_NUMBER, LONGEST_LINE};
use rules::line::Expected;
use text::fields::field_start;
use text::numbers::digits;
use text::scan::{CR, LF, SPACE};

// The word of a code record without a relocation, and where the next line starts.
#[derive(Clone, Copy)]
pub struct UsualWord {
    pub text: u64,
    pub next: usize,
}

// Does the byte part quarter k from what stands behind it? A CR may begin the line's end.
#[tactic(auto, unfolding(crate::specs::Words::parts))]
fn parts(k: usize, byte: u8) -> bool
    ensures { result ≡ parts k byte }
{
    if k < 3 {
        return byte == SPACE;
    }
    byte == LF || byte == CR
}

// Where the next line starts, behind an LF or a CR at `end`. A CR ends no line without an LF.
fn line_ended(file: &[u8], end: usize) -> Option<usize>
    requires { end < length file.now }
    ensures { IfSome result (Ending file.now end) }
{
    if file[end] == LF {
        return Some(end + 1);
    }
    let lf = end + 1;
    if lf == file.len() || file[lf] != LF {
        return None;
    }
    Some(lf + 1)
}

fn plain_word(file: &[u8], at: usize) -> Option<UsualWord>
    requires { at ≤ length file.now }
    ensures { IfSome result (WordRead CodeRecord at file.now) }
{
    let mut text: u64 = 0;
    let mut i = at;
    for k in 0..4 {
        let start = field_start(file, i);
        let run = digits(file, start);
        let end = run.end;
        if end == start || LARGEST_NUMBER < run.value || end == file.len() {
            return None;
        }
        if !parts(k, file[end]) {
            return None;
        }
        text = text * 65536 + u64::from(run.value);
        i = end;
    }
    if LONGEST_LINE < i - at {
        return None;
    }
    let next = line_ended(file, i)?;
    Some(UsualWord { text, next })
}

// The line at `at`, where a code record is expected and it has the usual form.
pub fn usual_word(file: &[u8], at: usize, expected: Expected) -> Option<UsualWord>
    requires { at ≤ length file.now }
    ensures { IfSome result (WordRead expected at file.now) }
{
    match expected {
        Expected::CodeRecord => plain_word(file, at),
        _ => None,
    }
}
