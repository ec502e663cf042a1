// A script that a program plays: its lines, their operands, and the files that stand in it; and how the programs print.
#![tactic(auto)]

ghost use Rattle.std.specs.Prelude.{◌+◌, ◌≤◌, length};
ghost use Rattle.std.specs.Iterator.{at_most};

use std::fmt;
use std::io::{Print, Read};

// One read, into the text from `at` on: how many bytes it gave. A failed read ends the script as its end does.
fn read_more(source: &mut impl Read, text: &mut [u8], at: usize) -> usize
    requires { at ≤ length text.old }
    ensures { at + result ≤ length text.new }
{
    source.read(&mut text[at..]).unwrap_or(0)
}

// Reads until the text is full, the source ends or a read fails. Answers how many bytes it put at the front of the text.
pub fn read_script(source: &mut impl Read, text: &mut [u8]) -> usize
    ensures { result ≤ length text.new }
{
    let mut size = 0;
    for _ in 0..text.len() {
        let n = read_more(source, text, size);
        if n == 0 {
            return size;
        }
        size += n;
    }
    size
}

// What is left of a script: its lines, each with its end.
#[derive(Drop)]
pub struct Script<'a> {
    rest: &'a [u8],
}

// The file below a line, and the line with a dot behind it.
#[derive(Clone, Copy)]
pub struct ScriptFile<'a> {
    pub text: &'a [u8],
    pub stop: &'a [u8],
}

impl<'a> Script<'a> {
    pub fn new(text: &'a [u8]) -> Self {
        Script { rest: text }
    }

    // The lines below, up to one that starts with a dot.
    pub fn file(&mut self) -> ScriptFile<'a> {
        let text = self.rest;
        let size = if text.starts_with(b".") {
            0
        } else {
            match text.windows(2).position(|w| w[0] == b'\n' && w[1] == b'.') {
                Some(i) => i + 1,
                None => text.len(),
            }
        };
        self.rest = &text[size..];
        ScriptFile {
            text: &text[..size],
            stop: self.next().unwrap_or(&text[..0]),
        }
    }
}

impl<'a> Iterator for Script<'a> {
    type Item = &'a [u8];

    ghost remaining = { λ s. at_most (length s.rest.now) };

    fn next(&mut self) -> Option<&'a [u8]> {
        if self.rest.is_empty() {
            return None;
        }
        let end = match self.rest.iter().position(|b| *b == b'\n') {
            Some(i) => i + 1,
            None => self.rest.len(),
        };
        let line = &self.rest[..end];
        self.rest = &self.rest[end..];
        Some(line)
    }
}

// The letter of a line, 0 where the line is empty.
pub fn letter(line: &[u8]) -> u8 {
    line.first().copied().unwrap_or(0)
}

// What stands behind a line's letter and the space, without the line's end.
pub fn operand(line: &[u8]) -> &[u8] {
    if line.len() < 4 {
        return &line[..0];
    }
    &line[2..line.len() - 1]
}

// A decimal number of at most seven digits. The ASCII codes of 0 to 9 are 48 and up.
pub fn number_of(digits: &[u8]) -> u64 {
    digits.iter().fold(0, |n: u64, digit| n % 1000000 * 10 + u64::from(*digit % 16))
}

// The first cells, or all of them where there are not so many.
pub fn front(cells: &mut [u64], size: usize) -> &mut [u64] {
    let n = size.min(cells.len());
    &mut cells[..n]
}

// What cannot be written is missed where the output is held to the stored one.
pub fn say(rt: &impl Print, text: &[u8]) {
    let _ = rt.write_all(text);
}

// A packed name, which ends in zeros where it is shorter than six.
#[derive(Clone, Copy)]
pub struct Name(pub u64);

impl fmt::Display for Name {
    fn fmt<W: fmt::Write>(&self, f: &mut fmt::Formatter<W>) -> fmt::Result {
        for byte in self.0.to_be_bytes().iter().filter(|byte| **byte != 0) {
            f.write_char(char::from(*byte))?;
        }
        Ok(())
    }
}
