// The lines of a file, read one after the other: for a load into the two tables, or for their first fault alone.
#![tactic(auto)]

pub mod fill;
pub mod keep;
pub mod said;

ghost use Rattle.std.specs.Prelude.{◌+◌, ◌≤◌, ◌≡◌, length};
ghost use Rattle.rules.specs.Line.{code_word};
ghost use Rattle.rules.specs.declared.line.Relocation.TheVariants.{Plain};
ghost use Rattle.reading.specs.Filling.{Lent, ReadInto};
ghost use Rattle.reading.specs.Lines.{RunFrom, Begins, LinesInto, ReadOn};
ghost use Rattle.rules.specs.Limits.{longest_file};

use crate::fill::{Filled, nothing};
use crate::keep::{keep_module, keep_part, keep_section};
use crate::said::said_at;
use rules::line::{CodeWord, Expected, Relocation};
use rules::reading::{Mode, Reading, Step, Stop};
use runs::modes::{records_done, room};
use runs::{Run, read_records};
use steps::lines::{at_end, step_of};
use steps::modes::{at_start, record_done, renewed};
use steps::records::word_part;
use text::scan::LF;
use usual::usual_word;

// Where the reading of a file's lines begins: at a position, with the number of the line there, in a mode.
#[derive(Clone, Copy)]
pub struct Place {
    pub at: usize,
    pub line: u32,
    pub mode: Mode,
}

// Where the reading stands behind lines without a fault, and the number of the line that comes next.
#[derive(Clone, Copy)]
pub struct Clean {
    pub mode: Mode,
    pub line: u32,
}

// How far lines have been read: to their end, or to the first fault.
pub type Reached = Result<Clean, Stop>;

#[derive(Clone, Copy)]
pub struct LinesRead {
    pub reached: Reached,
    pub filled: Filled,
}

// What reading a file came to, and how many parts and rows stand in the tables.
#[derive(Clone, Copy)]
pub struct FileRead {
    pub reading: Reading,
    pub parts: usize,
    pub rows: usize,
}

// A code word without a relocation.
fn plain(text: u64) -> CodeWord
    ensures { result ≡ code_word text Plain }
{
    CodeWord {
        text,
        relocation: Relocation::Plain,
    }
}

// Records in their usual form, which need not be looked at one by one where nothing of them is kept.
fn run_from(file: &[u8], at: usize, here: Mode, keep: bool) -> Run
    requires { at ≤ length file.now }
    ensures { RunFrom file.now at here keep result }
{
    if keep {
        return Run { count: 0, next: at };
    }
    read_records(file, at, here.expected, room(here))
}

// Every line is looked at once; what it adds is written at once, so that a fault leaves the tables as they stand there. A code word in
// its usual form needs no step built for it: most lines are such. Neither does a line that is empty.
pub fn read_lines(
    file: &[u8],
    from: Place,
    keep: bool,
    parts: &mut [u64],
    rows: &mut [u64],
) -> LinesRead
    requires { Begins file.now from keep parts.old rows.old }
    ensures { LinesInto file.now from keep parts.old rows.old result parts.new rows.new }
{
    let mut mode = from.mode;
    let mut filled = nothing();
    let mut line = from.line;
    let mut at = from.at;
    // Kept: a while, since a turn goes on by the bytes of a line, of a run or of a word.
    while at < file.len() {
        let n = line;
        line += 1;
        if file[at] == LF {
            at += 1;
            continue;
        }
        let here = renewed(mode);
        let run = run_from(file, at, here, keep);
        if 0 < run.count {
            mode = records_done(here, run.count as u16);
            line = n + run.count as u32;
            at = run.next;
            continue;
        }
        if let Some(word) = usual_word(file, at, here.expected) {
            filled = keep_part(keep, parts, filled, word_part(here, plain(word.text)));
            mode = record_done(Expected::CodeRecord, here);
            at = word.next;
            continue;
        }
        let said = said_at(file, at, here.expected, keep);
        let step = step_of(n, here, said.answer);
        at = said.next;
        match step {
            Step::Stop { number, column } => {
                let reached = Err(Stop {
                    number,
                    line: n,
                    column,
                });
                return LinesRead { reached, filled };
            }
            Step::Next(m) => mode = m,
            Step::Add(m, part) => {
                filled = keep_part(keep, parts, filled, part);
                mode = m;
            }
            Step::CloseModule(m, header) => {
                filled = keep_module(keep, rows, filled, m.section.inside, header);
                mode = m;
            }
            Step::CloseSection(m, header) => {
                filled = keep_section(keep, rows, filled, header);
                mode = m;
            }
        }
    }
    // Made anew here too: else each turn would take the padding of its mode along to the end.
    let mode = renewed(mode);
    let reached = Ok(Clean { mode, line });
    LinesRead { reached, filled }
}

// A whole file, into the tables.
pub fn read_file(file: &[u8], parts: &mut [u64], rows: &mut [u64]) -> FileRead
    requires { Lent file.now parts.old rows.old }
    ensures { ReadInto file.now parts.old rows.old result parts.new rows.new }
{
    let start = Place {
        at: 0,
        line: 1,
        mode: at_start(),
    };
    let read = read_lines(file, start, true, parts, rows);
    FileRead {
        reading: read
            .reached
            .and_then(|clean| at_end(clean.line, clean.mode)),
        parts: read.filled.parts,
        rows: read.filled.rows,
    }
}

// The lines from a place on, for their first fault.
pub fn read_on(file: &[u8], from: Place) -> Reached
    requires { (from.at ≤ length file.now) × (from.line ≤ from.at + 1) × (length file.now ≤ longest_file) }
    ensures { ReadOn file.now from result }
{
    let mut parts = [0u64; 1];
    let mut rows = [0u64; 1];
    let read = read_lines(file, from, false, &mut parts, &mut rows);
    read.reached
}
