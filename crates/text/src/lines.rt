// The lines of a file.
ghost use Rattle.std.specs.Prelude.{◌≡◌, ◌<◌, ◌≤◌, length};
ghost use Rattle.text.specs.Scan.{InFile, Found};
ghost use Rattle.text.specs.LineEnds.{legal_end, line_stop, NextLine, LinePart};

use crate::scan::{CR, LF, SPACE, TILDE, find_byte, past};
use rules::limits::LONGEST_LINE;

// Where a line stops, its end left out, and where the next one starts; and how many legal bytes stand at the line's front, at
// most 80.
#[derive(Clone, Copy)]
pub struct LineSpan {
    pub stop: usize,
    pub next: usize,
    pub front: usize,
}

// The first position from `at` on whose byte is illegal, or the file's end.
fn legal_end(file: &[u8], at: usize) -> usize
    requires { at ≤ length file.now }
    ensures { Found at (length file.now) (legal_end at (length file.now) file.now) result }
{
    past(file, at, |b| SPACE <= b && b <= TILDE)
}

// Where the line that starts at `at` stops, whose LF, or else the file's end, is at `lf`. A CR is dropped only just before an LF.
fn line_stop(file: &[u8], at: usize, lf: usize) -> usize
    requires { lf ≤ length file.now }
    ensures { result ≡ line_stop at lf file.now }
{
    if at < lf && lf < file.len() && file[lf - 1] == CR {
        return lf - 1;
    }
    lf
}

// The line that starts at `at`. An LF is an illegal byte itself, so one pass finds both.
pub fn next_line(file: &[u8], at: usize) -> LineSpan
    requires { at < length file.now }
    ensures { NextLine at file.now result }
{
    let illegal = legal_end(file, at);
    let lf = find_byte(file, illegal, LF);
    let stop = line_stop(file, at, lf);
    LineSpan {
        stop,
        next: file.len().min(lf + 1),
        front: LONGEST_LINE.min(illegal.min(stop) - at),
    }
}

// The line from `at` to `stop`, as that part of the file.
#[tactic(auto, unfolding(crate::specs::Scan::part))]
pub fn line_part<'a>(file: &'a [u8], at: usize, stop: usize) -> &'a [u8]
    requires { InFile at stop file.now }
    ensures { LinePart at stop file.entry result }
{
    &file[at..stop]
}
