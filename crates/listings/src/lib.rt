// The calls that only look: MEMORY, SYMBOLS and UNDEFINED. They work on broken and frozen states too.
#![tactic(auto)]

ghost use Rattle.std.specs.Prelude.{◌≡◌};
ghost use Rattle.rules.specs.Calls.{memory as memory_answer, symbols as symbols_answer, undefined as undefined_answer};
ghost use Rattle.state.specs.Layout.{lent};
ghost use Rattle.rules.specs.Outcomes.{memory_told};
ghost use Rattle.listings.specs.Told.{symbol_told, undefined_told};

use rules::answer::{DONE, MemoryAnswer, Reason, SymbolAnswer, UndefinedAnswer};
use soundness::memory::check;
use state::header::symbol_count;
use state::table::{Listed, symbol_at, undefined_position};
use state::words::{high, highest};

#[inline(always)]
#[tactic(auto, using(crate::proofs::ListingLaws::memory_refused, crate::proofs::ListingLaws::memory_is))]
fn try_memory(state: &[u64]) -> Result<usize, Reason>
    ensures { memory_told result ≡ memory_answer (lent state.now) }
{
    check(state)?;
    Ok(high(state))
}

// HIGH. Inlined up to the caller of the call, so that one who asks for more makes one test of the state for all of it.
#[inline(always)]
pub fn memory(state: &[u64]) -> MemoryAnswer
    ensures { result ≡ memory_answer (lent state.now) }
{
    try_memory(state).into()
}

// A symbol; past the end none is 1.
// Kept: a function and no From, since neither of its two types is of this crate.
fn symbol_answer(told: Result<Option<Listed>, Reason>) -> SymbolAnswer
    ensures { result ≡ symbol_told told }
{
    let zeros = SymbolAnswer {
        number: DONE,
        line: 0,
        none: 0,
        name: 0,
        value: 0,
        defined: 0,
    };
    match told {
        Ok(Some(symbol)) => SymbolAnswer {
            name: symbol.name,
            value: symbol.value.unwrap_or(0),
            defined: symbol.value.is_some() as u64,
            ..zeros
        },
        Ok(None) => SymbolAnswer { none: 1, ..zeros },
        Err(reason) => SymbolAnswer {
            number: reason.number(),
            ..zeros
        },
    }
}

#[tactic(auto, using(crate::proofs::ListingLaws::symbols_refused, crate::proofs::ListingLaws::symbols_past, crate::proofs::ListingLaws::symbols_at))]
fn try_symbols(state: &[u64], index: u64) -> Result<Option<Listed>, Reason>
    ensures { symbol_told result ≡ symbols_answer (lent state.now) index }
{
    check(state)?;
    if symbol_count(state) as u64 <= index {
        return Ok(None);
    }
    Ok(Some(symbol_at(state, index as usize)))
}

// The symbol at an index in table order.
pub fn symbols(state: &[u64], index: u64) -> SymbolAnswer
    ensures { result ≡ symbols_answer (lent state.now) index }
{
    symbol_answer(try_symbols(state, index))
}

fn undefined_answer(told: Result<Option<(Listed, usize)>, Reason>) -> UndefinedAnswer
    ensures { result ≡ undefined_told told }
{
    let highest = match told {
        Ok(Some((_, address))) => address as u64,
        _ => 0,
    };
    let symbol = symbol_answer(told.map(|found| found.map(|(symbol, _)| symbol)));
    UndefinedAnswer {
        number: symbol.number,
        line: symbol.line,
        none: symbol.none,
        name: symbol.name,
        value: symbol.value,
        defined: symbol.defined,
        highest,
    }
}

#[tactic(auto, using(crate::proofs::ListingLaws::undefined_refused, crate::proofs::ListingLaws::undefined_end))]
fn try_undefined(state: &[u64], index: u64) -> Result<Option<(Listed, usize)>, Reason>
    ensures { undefined_told result ≡ undefined_answer (lent state.now) index }
{
    check(state)?;
    let Some(position) = undefined_position(state, index) else {
        return Ok(None);
    };
    Ok(Some((symbol_at(state, position), highest(state, position))))
}

// The undefined symbol at an index, with the highest address that refers to it.
pub fn undefined(state: &[u64], index: u64) -> UndefinedAnswer
    ensures { result ≡ undefined_answer (lent state.now) index }
{
    undefined_answer(try_undefined(state, index))
}
