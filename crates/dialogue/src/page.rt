// Text put together in lent bytes. What does not fit is left out; no text of the dialogue is that long.
ghost use Rattle.std.specs.Prelude.{◌≤◌, length as length_of};

use std::fmt;
use std::io::{Eprint, Print};

#[derive(Drop)]
pub struct Page<'a> {
    bytes: &'a mut [u8],
    length: usize,
    ghost within: { length ≤ length_of bytes.now },
}

impl<'a> Page<'a> {
    pub fn new(bytes: &'a mut [u8]) -> Self {
        Page { bytes, length: 0 }
    }

    pub fn text(&self) -> &[u8] {
        &self.bytes[..self.length]
    }

    pub fn put(&mut self, text: &[u8]) {
        let from = self.length;
        let to = self.bytes.len().min(from.saturating_add(text.len()));
        self.bytes[from..to].copy_from_slice(&text[..to - from]);
        self.length = to;
    }
}

impl<'a> fmt::Write for Page<'a> {
    fn write_str(&mut self, text: &str) -> fmt::Result {
        self.put(text.as_bytes());
        Ok(())
    }
}

// A packed name, padded to six with spaces.
#[derive(Clone, Copy)]
pub struct Name(pub u64);

impl Name {
    pub fn bytes(self) -> [u8; 6] {
        let [_, _, a, b, c, d, e, f] = self.0.to_be_bytes();
        [a, b, c, d, e, f].map(|byte| if byte == 0 { b' ' } else { byte })
    }
}

impl fmt::Display for Name {
    fn fmt<W: fmt::Write>(&self, f: &mut fmt::Formatter<W>) -> fmt::Result {
        for byte in &self.bytes() {
            f.write_char(char::from(*byte))?;
        }
        Ok(())
    }
}

fn octal_digit(value: u64) -> u8 {
    b'0' + (value % 8) as u8
}

// Six octal digits.
pub fn octal(value: u64) -> [u8; 6] {
    [
        octal_digit(value / 32768),
        octal_digit(value / 4096),
        octal_digit(value / 512),
        octal_digit(value / 64),
        octal_digit(value / 8),
        octal_digit(value),
    ]
}

// Writes to standard output; where that fails, standard error is told. Where that fails too, nobody is left to be told.
pub fn say(rt: &(impl Print + Eprint), text: &[u8]) {
    if let Err(e) = rt.write_all(text) {
        let _ = eprintln!(rt; "standard output: {e}");
    }
}
