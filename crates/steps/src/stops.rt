// Where reading stops: at the fault of a line, with its column; or at a line that is legal in itself, by 7 or 8.
ghost use Rattle.std.specs.Prelude.{◌≡◌};
ghost use Rattle.rules.specs.Answers.{reason_number};
ghost use Rattle.rules.specs.Faults.{fault_number};
ghost use Rattle.rules.specs.Reading.{misplaced, list_full};
ghost use Rattle.rules.specs.declared.reading.Step.TheVariants.{Stop};

use rules::answer::Reason;
use rules::line::{Fault, FaultKind};
use rules::reading::Step;

fn stop(reason: Reason, column: usize) -> Step
    ensures { result ≡ Stop (reason_number reason) column }
{
    Step::Stop {
        number: reason.number(),
        column,
    }
}

#[tactic(auto, unfolding(rules::specs::Faults::fault_number))]
fn fault_number(kind: FaultKind) -> Reason
    ensures { reason_number result ≡ fault_number kind }
{
    match kind {
        FaultKind::IllegalByte => Reason::Line,
        FaultKind::BadMarker => Reason::Marker,
        FaultKind::FieldCount => Reason::Fields,
        FaultKind::BadNumber => Reason::Number,
        FaultKind::BadName => Reason::Symbol,
        FaultKind::BadType => Reason::Type,
    }
}

pub fn bad_line(fault: Fault) -> Step
    ensures { result ≡ Stop (fault_number fault.kind) fault.column }
{
    stop(fault_number(fault.kind), fault.column)
}

pub fn misplaced() -> Step
    ensures { result ≡ misplaced }
{
    stop(Reason::Place, 0)
}

pub fn list_full() -> Step
    ensures { result ≡ list_full }
{
    stop(Reason::List, 0)
}
