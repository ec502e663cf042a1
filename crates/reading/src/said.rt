// What a line says, and where the next one starts.
ghost use Rattle.std.specs.Prelude.{◌<◌, length, IfSome};
ghost use Rattle.framing.specs.Framing.{LineSaid};

use framing::{Frame, usual_frame};
use line::line_answer;
use line_reader::line_from;
use rules::line::Expected;
use text::lines::line_part;

// A header or a title in its usual form, where nothing of what the lines say is kept.
fn frame_from(file: &[u8], at: usize, expected: Expected, keep: bool) -> Option<Frame>
    requires { at < length file.now }
    ensures { IfSome result (λ f. LineSaid expected at file.now f.answer f.next) }
{
    if keep {
        return None;
    }
    usual_frame(file, at, expected)
}

// The line at `at`, given what is expected of it.
pub fn said_at(file: &[u8], at: usize, expected: Expected, keep: bool) -> Frame
    requires { at < length file.now }
    ensures { LineSaid expected at file.now result.answer result.next }
{
    if let Some(frame) = frame_from(file, at, expected, keep) {
        return frame;
    }
    let span = line_from(file, at);
    Frame {
        answer: line_answer(line_part(file, at, span.stop), span.front, expected),
        next: span.next,
    }
}
