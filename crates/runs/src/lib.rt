// Records that follow each other in their usual form: the right fields, with spaces between them and, where they stand in columns, around
// them. They are found to be right without their values, and without a mode made anew for each. A line in any other form ends the run,
// and is then read as every line can be: nothing is told of faults here.
// Kept: the file and a position in it as two parameters. A struct of both would be no plainer: what is promised speaks of two positions in
// the same file, where a field starts and where it ends, so each answer would hold the file once more.
#![tactic(auto)]

pub mod fields;
pub mod lines;
pub mod modes;

ghost use Rattle.std.specs.Prelude.{◌≤◌, length, IfSome};
ghost use Rattle.runs.specs.Runs.{LineRead, RecordsRead};

use crate::lines::{entry, external, pair, word};
use rules::line::Expected;

// So many records, and where the line behind them starts.
#[derive(Clone, Copy)]
pub struct Run {
    pub count: usize,
    pub next: usize,
}

// The line at `at`, where it is such a record: where the next line starts.
fn usual_line(file: &[u8], at: usize, expected: Expected) -> Option<usize>
    requires { at ≤ length file.now }
    ensures { IfSome result (LineRead expected at file.now) }
{
    match expected {
        Expected::CodeRecord => word(file, at),
        Expected::EntryRecord => entry(file, at),
        Expected::ExternalRecord => external(file, at),
        Expected::DataRecord => pair(file, at),
        _ => None,
    }
}

// The records from `at` on, at most so many. Kept: a `while`, since the count is part of the answer; a `for` would have to make that twice.
pub fn read_records(file: &[u8], at: usize, expected: Expected, most: usize) -> Run
    requires { at ≤ length file.now }
    ensures { RecordsRead expected at file.now most result }
{
    let mut run = Run { count: 0, next: at };
    while run.count < most {
        let Some(next) = usual_line(file, run.next, expected) else {
            break;
        };
        run = Run {
            count: run.count + 1,
            next,
        };
    }
    run
}
