// A visit of a round to a module, which takes it or not. A walk that is refused takes nothing.
ghost use Rattle.std.specs.Prelude.{◌<◌};
ghost use Rattle.state.specs.Good.{Good};
ghost use Rattle.order.specs.Order.{Ordered};
ghost use Rattle.search.specs.Libraries.{LibrarySound, module_of};
ghost use Rattle.search.specs.Searching.{Visited, refusal_after};
ghost use Rattle.search.specs.Flags.{Candidates};

use crate::candidates::{Flags, mark_undefined};
use crate::library::Library;
use crate::modules::is_needed;
use order::Order;
use placing::place_row;
use rules::answer::{DONE, Refusal};
use state::header::symbol_count;

// Takes the i-th module of the section, if it is not taken yet, the walk goes on and one of its entries is undefined. The answer is
// then the refusal behind it.
pub fn visit_module(
    library: Library,
    i: usize,
    taken: bool,
    refusal: Refusal,
    candidates: &mut Flags,
    order: &mut Order,
    state: &mut [u64],
) -> Option<Refusal>
    requires library_sound { LibrarySound library × (i < library.section.count) }
    requires candidates { Candidates library refusal state.old candidates.old }
    requires good { Good state.old × Ordered state.old order.old }
    ensures visited { Visited (module_of library.entry i) taken refusal state.old result state.new }
    ensures candidates { Candidates library.entry (refusal_after refusal result) state.new candidates.new }
    ensures ordered { Ordered state.new order.new }
{
    if taken {
        return None;
    }
    if refusal.number != DONE {
        return None;
    }
    let row = library.section.first + i;
    if !is_needed(library.tables.module_cells(row), order, state) {
        return None;
    }
    let known = symbol_count(state);
    let after = place_row(library.tables, row, refusal, order, state);
    mark_undefined(library, known, state, candidates);
    Some(after)
}
