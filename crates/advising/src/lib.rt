// The first reading fault of a file's whole lines, told while the file is still coming. The lines are read as LOAD reads them, but
// nothing is kept of what they say.
#![tactic(auto)]

ghost use Rattle.std.specs.Prelude.{◌≤◌, ◌≡◌, length, take, MatchOption};
ghost use Rattle.rules.specs.Limits.{longest_file};
ghost use Rattle.advising.specs.Whole.{LinesEnd, NoneFrom, IsLast, early_fault};

use reading::{Place, read_on};
use rules::reading::Reading;
use steps::modes::at_start;
use text::scan::LF;

// The last LF.
fn last_lf(bytes: &[u8]) -> Option<usize>
    ensures { MatchOption result (NoneFrom 0 bytes.now) (λ i. IsLast bytes.now i) }
{
    bytes.iter().rposition(|b| *b == LF)
}

// Where the whole lines of the first n bytes end.
pub fn lines_end(file: &[u8], n: usize) -> usize
    requires { n ≤ length file.now }
    ensures { LinesEnd file.now n result }
{
    match last_lf(&file[..n]) {
        Some(last) => last + 1,
        None => 0,
    }
}

// The first fault of the lines up to `end`, where the whole lines of the first `old` bytes have none.
pub fn early_fault(file: &[u8], old: usize, end: usize) -> Reading
    requires { (old ≤ end) × (end ≤ length file.now) × (end ≤ longest_file) }
    ensures { result ≡ early_fault (take old file.now) (take end file.now) }
{
    let done = lines_end(file, old);
    let start = Place {
        at: 0,
        line: 1,
        mode: at_start(),
    };
    // A fault that stands in the old lines has been told.
    let Ok(before) = read_on(&file[..done], start) else {
        return Ok(());
    };
    let behind = Place {
        at: done,
        line: before.line,
        mode: before.mode,
    };
    read_on(&file[..end], behind).map(|_| ())
}
