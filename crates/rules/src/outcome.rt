// What a call answers, by its outcome: a refusal tells its number, and what the call gives is then 0.
ghost use Rattle.std.specs.Prelude.{◌≡◌};
ghost use Rattle.rules.specs.Answers.{reason_number, answer_number};
ghost use Rattle.rules.specs.Calls.{call_answer};
ghost use Rattle.rules.specs.Outcomes.{memory_told, end_told, load_fault, load_told, piece_told};

use crate::answer::{
    CallAnswer, DONE, EndAnswer, FeedAnswer, LoadAnswer, MemoryAnswer, Reason, Refusal,
};
use crate::reading::{Reading, Stop};

impl From<Result<(), Reason>> for CallAnswer {
    ghost from_gives = { λ outcome a. a ≡ call_answer (answer_number outcome) };

    fn from(outcome: Result<(), Reason>) -> CallAnswer {
        let number = match outcome {
            Ok(()) => DONE,
            Err(reason) => reason.number(),
        };
        CallAnswer { number, line: 0 }
    }
}

impl From<Result<usize, Reason>> for MemoryAnswer {
    ghost from_gives = { λ outcome a. a ≡ memory_told outcome };

    fn from(outcome: Result<usize, Reason>) -> MemoryAnswer {
        let (number, high) = match outcome {
            Ok(high) => (DONE, high as u64),
            Err(reason) => (reason.number(), 0),
        };
        MemoryAnswer {
            number,
            line: 0,
            high,
        }
    }
}

impl From<Result<usize, Reason>> for EndAnswer {
    ghost from_gives = { λ outcome a. a ≡ end_told outcome };

    fn from(outcome: Result<usize, Reason>) -> EndAnswer {
        let (number, length) = match outcome {
            Ok(length) => (DONE, length as u64),
            Err(reason) => (reason.number(), 0),
        };
        EndAnswer {
            number,
            line: 0,
            length,
        }
    }
}

// Why a load is refused: an answer's number, and the line and the column of the file that it names, 0 where it names none.
// Kept: rules' definitions and theorems (`is_file_fault`, `right_column`) say answers by the documents' numbers.
#[derive(Clone, Copy)]
pub struct LoadFault {
    pub number: u64,
    pub line: u64,
    pub column: u64,
}

impl From<Reason> for LoadFault {
    ghost from_gives = { λ reason f. f ≡ load_fault (reason_number reason) 0 0 };

    fn from(reason: Reason) -> LoadFault {
        LoadFault {
            number: reason.number(),
            line: 0,
            column: 0,
        }
    }
}

impl From<Stop> for LoadFault {
    ghost from_gives = { λ stop f. f ≡ load_fault stop.number stop.line stop.column };

    fn from(stop: Stop) -> LoadFault {
        LoadFault {
            number: stop.number,
            line: stop.line as u64,
            column: stop.column as u64,
        }
    }
}

impl From<Refusal> for LoadFault {
    ghost from_gives = { λ refusal f. f ≡ load_fault refusal.number refusal.line 0 };

    fn from(refusal: Refusal) -> LoadFault {
        LoadFault {
            number: refusal.number,
            line: refusal.line,
            column: 0,
        }
    }
}

impl From<Result<usize, LoadFault>> for LoadAnswer {
    ghost from_gives = { λ outcome a. a ≡ load_told outcome };

    fn from(outcome: Result<usize, LoadFault>) -> LoadAnswer {
        match outcome {
            Ok(rounds) => LoadAnswer {
                number: DONE,
                line: 0,
                column: 0,
                rounds: rounds as u64,
            },
            Err(fault) => LoadAnswer {
                number: fault.number,
                line: fault.line,
                column: fault.column,
                rounds: 0,
            },
        }
    }
}

impl From<Result<Reading, Reason>> for FeedAnswer {
    ghost from_gives = { λ outcome a. a ≡ piece_told outcome };

    #[tactic(auto, unfolding(crate::specs::Feed::advised))]
    fn from(outcome: Result<Reading, Reason>) -> FeedAnswer {
        let zeros = FeedAnswer {
            number: DONE,
            advice: 0,
            line: 0,
            column: 0,
        };
        match outcome {
            Ok(Ok(())) => zeros,
            Ok(Err(stop)) => FeedAnswer {
                advice: stop.number,
                line: stop.line as u64,
                column: stop.column as u64,
                ..zeros
            },
            Err(reason) => FeedAnswer {
                number: reason.number(),
                ..zeros
            },
        }
    }
}
