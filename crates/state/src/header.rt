// The header of state memory: how many symbols there are, the next address, the mark.
ghost use Rattle.std.specs.Prelude.{◌≤◌, ◌≡◌, length};
ghost use Rattle.rules.specs.Limits.{program_words};
ghost use Rattle.rules.specs.Answers.{answer_number};
ghost use Rattle.rules.specs.State.{marked};
ghost use Rattle.rules.specs.Calls.{shut_by};
ghost use Rattle.state.specs.Layout.{decode, mark_meant};
ghost use Rattle.state.specs.Good.{Good, Holds, with_next};

use crate::layout::{COUNT, MARK, Mark, NEXT};
use rules::answer::Reason;

pub fn symbol_count(state: &[u64]) -> usize
    requires { Good state.now }
    ensures { result ≡ length (decode state.now).symbols }
{
    state[COUNT] as usize
}

pub fn next_address(state: &[u64]) -> usize
    requires { Good state.now }
    ensures { result ≡ (decode state.now).next }
{
    state[NEXT] as usize
}

pub fn set_next(state: &mut [u64], next: usize)
    requires good { Good state.old }
    requires next_le_program_words { next ≤ program_words }
    ensures { Holds state.new (with_next next (decode state.old)) }
{
    state[NEXT] = next as u64;
}

pub fn mark(state: &[u64]) -> Mark
    requires { Good state.now }
    ensures { mark_meant result ≡ (decode state.now).mark }
{
    let cell = state[MARK];
    if cell == Mark::Unmarked as u64 {
        return Mark::Unmarked;
    }
    if cell == Mark::Broken as u64 {
        return Mark::Broken;
    }
    Mark::Frozen
}

pub fn set_mark(state: &mut [u64], mark: Mark)
    requires { Good state.old }
    ensures { Holds state.new (marked (mark_meant mark) (decode state.old)) }
{
    state[MARK] = mark as u64;
}

#[tactic(auto, unfolding(rules::specs::Calls::shut_by))]
// Does the mark refuse LOAD, FORCE and BASE?
pub fn shut_by(state: &[u64]) -> Result<(), Reason>
    requires { Good state.now }
    ensures { answer_number result ≡ shut_by (decode state.now).mark }
{
    match mark(state) {
        Mark::Unmarked => Ok(()),
        Mark::Broken => Err(Reason::Reset),
        Mark::Frozen => Err(Reason::Frozen),
    }
}
