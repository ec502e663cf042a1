// FORCE and BASE: what they do after RESET, and what they refuse.
ghost use Rattle.customers.specs.Words.{Forced, Moved};

use linker::{
    lnk100_base, lnk100_force, lnk100_load, lnk100_reset, lnk100_symbols, lnk100_undefined,
};
use rules::answer::{CallAnswer, LoadAnswer, SymbolAnswer, UndefinedAnswer};

// A FORCE, and the first undefined symbol behind it.
pub fn force_then_list(state: &mut [u64], name: &[u8]) -> (CallAnswer, UndefinedAnswer)
    ensures { Forced state.old name.now result.0 result.1 }
{
    lnk100_reset(state);
    let force = lnk100_force(state, name);
    let listed = lnk100_undefined(state, 0);
    (force, listed)
}

// A BASE, a load there, and a symbol that is listed behind it.
pub fn base_then_load(
    state: &mut [u64],
    address: u64,
    work: &mut [u64],
    file: &[u8],
    index: u64,
) -> (CallAnswer, LoadAnswer, SymbolAnswer)
    ensures { Moved state.old address file.now index result.0 result.1 result.2 }
{
    lnk100_reset(state);
    let base = lnk100_base(state, address);
    let load = lnk100_load(state, work, file);
    let listed = lnk100_symbols(state, index);
    (base, load, listed)
}
