// Standard input by lines. It is read ahead in pieces.
ghost use Rattle.std.specs.Prelude.{◌≤◌};

use std::io::{Eprint, Read};

// Bytes that are read at once.
const READ_AHEAD: usize = 4096;

// The longest path and a CR.
const LONGEST_COMMAND: usize = 4096;

// A line that is longer than any command or path.
#[derive(Clone, Copy)]
pub struct TooLong;

#[derive(Drop)]
pub struct Lines<S> {
    source: S,
    // The bytes of `keys` from `at` to `end` were read and not yet taken.
    keys: [u8; READ_AHEAD],
    at: usize,
    end: usize,
    // Standard input has ended, and is not read again.
    is_over: bool,
    line: [u8; LONGEST_COMMAND],
    ghost within: { end ≤ 4096 },
}

impl<S: Read + Drop> Lines<S> {
    pub fn new(source: S) -> Self {
        Lines {
            source,
            keys: [0; READ_AHEAD],
            at: 0,
            end: 0,
            is_over: false,
            line: [0; LONGEST_COMMAND],
        }
    }

    // A failed read ends the input as its end does, so standard error is told.
    fn refill(&mut self, rt: &impl Eprint) {
        self.at = 0;
        self.end = match self.source.read(&mut self.keys) {
            Ok(n) => n,
            Err(e) => {
                let _ = eprintln!(rt; "standard input: {e}");
                0
            }
        };
        self.is_over = self.end == 0;
    }

    fn next_byte(&mut self, rt: &impl Eprint) -> Option<u8> {
        if self.at >= self.end && !self.is_over {
            self.refill(rt);
        }
        let byte = *self.keys[..self.end].get(self.at)?;
        self.at += 1;
        Some(byte)
    }

    // The next line's text, without its CR and the spaces at both ends. It is read to its end also where it is too long.
    pub fn next_line(&mut self, rt: &impl Eprint) -> Option<Result<&[u8], TooLong>> {
        let mut length = 0;
        let mut is_long = false;
        for _ in 0..u64::MAX {
            let Some(byte) = self.next_byte(rt) else {
                if length == 0 && !is_long {
                    return None;
                }
                break;
            };
            if byte == b'\n' {
                break;
            }
            if length < LONGEST_COMMAND {
                self.line[length] = byte;
                length += 1;
            } else {
                is_long = true;
            }
        }
        if is_long {
            return Some(Err(TooLong));
        }
        Some(Ok(trimmed(&self.line[..length])))
    }
}

fn is_text(byte: &u8) -> bool {
    *byte != b' '
}

fn trimmed(line: &[u8]) -> &[u8] {
    let text = line.strip_suffix(b"\r").unwrap_or(line);
    let text = match text.iter().rposition(is_text) {
        Some(last) => &text[..last + 1],
        None => &text[..0],
    };
    match text.iter().position(is_text) {
        Some(first) => &text[first..],
        None => text,
    }
}
