// The line reader: it holds the file and the position of its next line. Its methods are few and thin; the work is `next_line`'s, a
// cursor over a plain slice.
#![tactic(auto)]

pub mod fields;

ghost use Rattle.std.specs.Prelude.{◌≡◌, ◌<◌, length};
ghost use Rattle.text.specs.LineEnds.{NextLine};

use text::lines::{LineSpan, next_line};

#[derive(Clone, Copy)]
pub struct LineReader<'a> {
    pub src: &'a [u8],
    pub at: usize,
}

impl<'a> LineReader<'a> {
    // A reader of the file, at its first line.
    pub fn new(src: &'a [u8]) -> Self
        ensures { (result.src ≡ src.entry) × (result.at ≡ 0) }
    {
        LineReader { src, at: 0 }
    }

    // The reader at another position of its file.
    pub fn moved(self, at: usize) -> Self
        ensures { (result.src ≡ self.entry.src) × (result.at ≡ at) }
    {
        LineReader { at, ..self }
    }

    // Where the reader's next line stops, and where the one behind it starts.
    pub fn next(self) -> LineSpan
        requires { self.at < length self.src.now }
        ensures { NextLine self.entry.at self.entry.src.now result }
    {
        next_line(self.src, self.at)
    }
}

// The same for a caller that holds the file and the position apart.
pub fn line_from(file: &[u8], at: usize) -> LineSpan
    requires { at < length file.now }
    ensures { NextLine at file.now result }
{
    LineReader::new(file).moved(at).next()
}
