// LOAD: what it keeps, clears, takes and leaves, and its rounds.
ghost use Rattle.customers.specs.Words.{LoadKept, Listed};

use linker::{lnk100_load, lnk100_symbols};
use rules::answer::{LoadAnswer, SymbolAnswer};

pub fn load(state: &mut [u64], work: &mut [u64], file: &[u8]) -> LoadAnswer
    ensures { LoadKept state.old work.old file.now result state.new work.new }
{
    lnk100_load(state, work, file)
}

// A load, and a symbol that is listed behind it.
pub fn load_then_list(
    state: &mut [u64],
    work: &mut [u64],
    file: &[u8],
    index: u64,
) -> (LoadAnswer, SymbolAnswer)
    ensures { Listed state.old file.now index result.0 result.1 }
{
    let load = lnk100_load(state, work, file);
    let symbol = lnk100_symbols(state, index);
    (load, symbol)
}
