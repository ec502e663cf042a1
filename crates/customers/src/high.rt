// HIGH before and after other calls: only a load raises it, and only RESET takes it back.
ghost use Rattle.std.specs.Prelude.{◌≡◌};
ghost use Rattle.state.specs.Sequence.{NotLower};

use linker::{lnk100_base, lnk100_force, lnk100_load, lnk100_memory};
use rules::answer::MemoryAnswer;

// Each asks MEMORY twice, and answers both of its answers.

// Whatever is forced, MEMORY answers as it did.
#[tactic(auto, using(crate::proofs::StepLaws::force_same))]
pub fn force_between(state: &mut [u64], name: &[u8]) -> (MemoryAnswer, MemoryAnswer)
    ensures { result.1 ≡ result.0 }
{
    let first = lnk100_memory(state);
    lnk100_force(state, name);
    let second = lnk100_memory(state);
    (first, second)
}

// Wherever the base moves, MEMORY answers as it did.
#[tactic(auto, using(crate::proofs::StepLaws::base_same))]
pub fn base_between(state: &mut [u64], address: u64) -> (MemoryAnswer, MemoryAnswer)
    ensures { result.1 ≡ result.0 }
{
    let first = lnk100_memory(state);
    lnk100_base(state, address);
    let second = lnk100_memory(state);
    (first, second)
}

// The lab of request 1/14: whatever stands in memory, wherever the base moves and whatever is loaded there, HIGH is not lower.
pub fn step_back(
    state: &mut [u64],
    address: u64,
    work: &mut [u64],
    file: &[u8],
) -> (MemoryAnswer, MemoryAnswer)
    ensures { NotLower result.0 result.1 }
{
    let first = lnk100_memory(state);
    lnk100_base(state, address);
    lnk100_load(state, work, file);
    let second = lnk100_memory(state);
    (first, second)
}
