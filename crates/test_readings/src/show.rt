// Printing what reading a file came to. Numbers of the file stand in octal, lines, columns and counts in decimal.
ghost use Rattle.std.specs.Prelude.{◌≤◌, length};
ghost use Rattle.rules.specs.Limits.{longest_file};

use reading::read_file;
use rules::limits::LONGEST_FILE;
use rules::line::{CodeWord, Entry, Relocation};
use rules::reading::{Part, Reading};
use std::io::Print;
use tables::cells::{PART_ROOM, ROW_ROOM};
use tables::iter::Parts;
use tables::parts::part_of;
use tables::rows::{RowKind, Tables};
use test_script::{Name, say};

fn show_entry(rt: &impl Print, e: Entry) {
    let name = Name(e.name);
    let value = e.value;
    let kind = if e.relocated { "relocated" } else { "absolute" };
    let parameters = e.parameters;
    let _ = println!(rt; "  entry {name} {value:06o} {kind}, parameters {parameters:06o}");
}

fn show_word(rt: &impl Print, address: u32, word: CodeWord) {
    let a = word.text >> 48;
    let b = word.text >> 32 & 0xffff;
    let c = word.text >> 16 & 0xffff;
    let d = word.text & 0xffff;
    let _ = print!(rt; "  word {address:06o}:  {a:06o} {b:06o} {c:06o} {d:06o}");
    let _ = match word.relocation {
        Relocation::Plain => println!(rt; " plain"),
        Relocation::External(k) => println!(rt; " external {k:06o}"),
        Relocation::Unread(kind) => println!(rt; " type {kind:06o}"),
    };
}

fn show_part(rt: &impl Print, part: Part) {
    match part {
        Part::EntryPart(e) => show_entry(rt, e),
        Part::ExternalPart(packed) => {
            let name = Name(packed);
            let _ = println!(rt; "  external {name}");
        }
        Part::BlockPart { offset, count } => {
            let _ = println!(rt; "  code at {offset:06o}, count {count:06o}");
        }
        Part::WordPart { address, word } => show_word(rt, address, word),
    }
}

// How many of n elements are printed: all, or none where there are more than `most`.
fn shown(n: usize, most: usize) -> usize
    ensures { result ≤ most }
{
    if n <= most { n } else { 0 }
}

// The first n rows.
fn show_rows(rt: &impl Print, tables: Tables, n: usize)
    requires { n ≤ 8 }
{
    for i in 0..n {
        let kind = match tables.kind(i) {
            Some(RowKind::Free) => "module",
            Some(RowKind::Member) => "library module",
            Some(RowKind::Section) => "section",
            None => "no row",
        };
        let line = tables.line(i);
        let start = tables.start(i);
        let end = tables.end(i);
        let _ = println!(rt; "  {kind}, line {line}, from {start} to {end}");
    }
}

fn show_reading(rt: &impl Print, reading: Reading) {
    let _ = match reading {
        Ok(()) => print!(rt; ": complete"),
        Err(stop) => print!(rt;
            ": stopped by {} at line {}, column {}",
            stop.number, stop.line, stop.column
        ),
    };
}

// Reads the file into these tables and prints what it came to.
fn show_read(rt: &impl Print, file: &[u8], parts: &mut [u64; PART_ROOM], rows: &mut [u64; ROW_ROOM])
    requires { length file.now ≤ longest_file }
{
    let r = read_file(file, parts, rows);
    show_reading(rt, r.reading);
    let _ = println!(rt; "; parts {}, rows {}", r.parts, r.rows);
    for part in Parts::of(parts).take(shown(r.parts, 30)) {
        show_part(rt, part_of(part.head, part.body));
    }
    show_rows(rt, Tables { parts, rows }, shown(r.rows, 8));
}

// One case: its label, then what its file came to.
pub fn show(rt: &impl Print, label: &[u8], file: &[u8]) {
    say(rt, label);
    let mut parts = [0u64; PART_ROOM];
    let mut rows = [0u64; ROW_ROOM];
    if file.len() <= LONGEST_FILE {
        show_read(rt, file, &mut parts, &mut rows);
    }
}
