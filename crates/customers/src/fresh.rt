// After RESET: nothing is there, and nothing tells what memory held before.
ghost use Rattle.std.specs.Prelude.{◌≡◌};
ghost use Rattle.rules.specs.Calls.{memory_answer, symbol_none, undefined_none};
ghost use Rattle.customers.specs.Words.{HasLength, ResetKept, memories, Linked, SameLinks};

use linker::{
    lnk100_end, lnk100_load, lnk100_memory, lnk100_reset, lnk100_symbols, lnk100_undefined,
};
use rules::answer::{
    CallAnswer, EndAnswer, LoadAnswer, MemoryAnswer, SymbolAnswer, UndefinedAnswer,
};

// RESET is done on any memory of its length, and refuses any other.
#[tactic(auto, using(crate::proofs::FreshLaws::reset_kept))]
pub fn reset(state: &mut [u64]) -> CallAnswer
    ensures { ResetKept state.old result state.new }
{
    lnk100_reset(state)
}

// After RESET no symbol is listed, at any index.
#[tactic(auto, using(crate::proofs::FreshLaws::nothing_listed))]
pub fn reset_then_list(state: &mut [u64], index: u64) -> SymbolAnswer
    ensures { HasLength state.old → result ≡ symbol_none 0 1 }
{
    lnk100_reset(state);
    lnk100_symbols(state, index)
}

// After RESET no symbol is undefined.
#[tactic(auto, using(crate::proofs::FreshLaws::nothing_undefined))]
pub fn reset_then_list_undefined(state: &mut [u64], index: u64) -> UndefinedAnswer
    ensures { HasLength state.old → result ≡ undefined_none 0 1 }
{
    lnk100_reset(state);
    lnk100_undefined(state, index)
}

// After RESET there is no highest address.
#[tactic(auto, using(crate::proofs::FreshLaws::nothing_high))]
pub fn reset_then_ask(state: &mut [u64]) -> MemoryAnswer
    ensures { HasLength state.old → result ≡ memory_answer 0 65535 }
{
    lnk100_reset(state);
    lnk100_memory(state)
}

// What a link answers: its LOAD and its END.
// Kept: a struct where the other customers answer pairs, since its names part the four answers of two links.
#[derive(Clone, Copy)]
pub struct LinkAnswers {
    pub load: LoadAnswer,
    pub end: EndAnswer,
}

// A link of one file, from RESET to the image.
#[tactic(auto, using(crate::proofs::FreshLaws::linked))]
pub fn link(state: &mut [u64], work: &mut [u64], file: &[u8], out: &mut [u8]) -> LinkAnswers
    ensures { Linked (memories state.old work.old out.old) file.now result.load result.end (memories state.new work.new out.new) }
{
    lnk100_reset(state);
    let load = lnk100_load(state, work, file);
    let end = lnk100_end(state, out);
    LinkAnswers { load, end }
}

// Last week's card and this week's: two memories that held different things, and one file. Answers, images and states are equal.
pub fn link_two(
    first: &mut [u64],
    second: &mut [u64],
    work: &mut [u64],
    file: &[u8],
    out: &mut [u8],
    again: &mut [u8],
) -> (LinkAnswers, LinkAnswers)
    ensures { HasLength first.old → HasLength second.old → out.old ≡ again.old → SameLinks result.0.load result.1.load result.0.end result.1.end first.new second.new out.new again.new }
{
    let a = link(first, work, file, out);
    let b = link(second, work, file, again);
    (a, b)
}
