// What a line does, and what the end of the file comes to.
ghost use Rattle.std.specs.Prelude.{◌≡◌};
ghost use Rattle.rules.specs.Reading.{step_of, at_end};

use crate::headers::header_step;
use crate::modes::{enter_module, record_done};
use crate::records::{
    closing_step, entry_step, external_step, parameter_step, sub_step, word_step,
};
use crate::stops::bad_line;
use rules::answer::Reason;
use rules::line::{Expected, LineAnswer};
use rules::reading::{Mode, Reading, Step, Stop};

// What line n does where it says this and the reading stands at m.
#[tactic(auto, unfolding(rules::specs::Reading::step_of))]
pub fn step_of(n: u32, m: Mode, answer: LineAnswer) -> Step
    ensures { result ≡ step_of n m answer }
{
    match answer {
        LineAnswer::Bad(fault) => bad_line(fault),
        LineAnswer::Blank => Step::Next(m),
        LineAnswer::Head(h) => header_step(n, m, h),
        LineAnswer::Opening(title) => Step::Next(enter_module(title, m)),
        LineAnswer::Closing(title) => closing_step(m, title),
        LineAnswer::Code(word) => word_step(m, word),
        LineAnswer::Entered(e) => entry_step(m, e),
        LineAnswer::Mentioned(name) => external_step(m, name),
        LineAnswer::Ignored => Step::Next(record_done(m.expected, m)),
        LineAnswer::Parameter(size) => parameter_step(m, size),
        LineAnswer::Sub => sub_step(m),
    }
}

// The reading of a file that ends before line n.
#[tactic(auto, unfolding(rules::specs::Reading::at_end, rules::specs::Reading::is_header))]
pub fn at_end(n: u32, m: Mode) -> Reading
    ensures { result ≡ at_end n m }
{
    let cut = Err(Stop {
        number: Reason::Place.number(),
        line: n,
        column: 0,
    });
    if m.object.inside || m.section.inside {
        return cut;
    }
    match m.expected {
        Expected::AnyHeader => Ok(()),
        _ => cut,
    }
}
