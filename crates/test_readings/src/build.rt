// A file put together of the lines of the script. What does not fit into it is left out.
ghost use Rattle.std.specs.Prelude.{◌<◌, ◌≤◌};

use test_script::{Script, number_of};

const ROOM: usize = 65536;

#[derive(Drop)]
pub struct Built {
    bytes: [u8; ROOM],
    size: usize,
    ghost within: { size ≤ 65536 },
}

fn hex(digit: u8) -> u8
    ensures { result < 16 }
{
    if digit < b':' {
        digit % 16
    } else {
        (digit % 16 + 9) % 16
    }
}

// The byte that a text starts with, by its escape \n, \r or \xhh or as it stands, and what stands behind it.
fn first_byte(text: &[u8]) -> Option<(u8, &[u8])> {
    if let Some(rest) = text.strip_prefix(b"\\n") {
        return Some((b'\n', rest));
    }
    if let Some(rest) = text.strip_prefix(b"\\r") {
        return Some((b'\r', rest));
    }
    if text.starts_with(b"\\x") && text.len() >= 4 {
        return Some((hex(text[2]) * 16 + hex(text[3]), &text[4..]));
    }
    let (first, rest) = text.split_first()?;
    Some((*first, rest))
}

impl Built {
    pub fn new() -> Self {
        Built {
            bytes: [0; ROOM],
            size: 0,
        }
    }

    pub fn text(&self) -> &[u8] {
        &self.bytes[..self.size]
    }

    // The text as it stands.
    pub fn put(&mut self, text: &[u8]) {
        let n = text.len().min(ROOM - self.size);
        let end = self.size + n;
        self.bytes[self.size..end].copy_from_slice(&text[..n]);
        self.size = end;
    }

    // The text with its escapes turned into bytes.
    pub fn put_escaped(&mut self, text: &[u8]) {
        let mut rest = text;
        for _ in 0..text.len() {
            let Some((byte, behind)) = first_byte(rest) else {
                return;
            };
            self.put(&[byte]);
            rest = behind;
        }
    }

    // A line of the script, with its end; or of `\n text` the text n times.
    fn put_line(&mut self, line: &[u8]) {
        let Some(repeated) = line.strip_prefix(b"\\") else {
            self.put(line);
            return;
        };
        let spec = repeated.strip_suffix(b"\n").unwrap_or(repeated);
        let gap = spec.iter().position(|byte| *byte == b' ');
        let gap = gap.unwrap_or(spec.len());
        let text = spec.get(gap + 1..).unwrap_or(b"");
        for _ in 0..number_of(&spec[..gap]) {
            self.put_escaped(text);
        }
    }

    pub fn put_lines(&mut self, lines: &[u8]) {
        for line in Script::new(lines) {
            self.put_line(line);
        }
    }
}
