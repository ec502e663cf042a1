// The rounds of a section's search.
ghost use Rattle.std.specs.Prelude.{◌≡◌};
ghost use Rattle.state.specs.Good.{Good};
ghost use Rattle.order.specs.Order.{Ordered};
ghost use Rattle.search.specs.Libraries.{LibrarySound, LibraryOwns, modules_of};
ghost use Rattle.search.specs.Searching.{Rounded, Sought};
ghost use Rattle.search.specs.Flags.{Candidates};

use crate::candidates::{Flags, mark_undefined};
use crate::library::Library;
use crate::visits::visit_module;
use order::Order;
use rules::answer::{DONE, Refusal};
use rules::limits::MODULE_ROOM;

// After a round: how many modules it took, and the refusal.
#[derive(Clone, Copy)]
pub struct Round {
    pub took: usize,
    pub refusal: Refusal,
}

// Visits the candidates that are not taken yet in their order.
fn one_round(
    library: Library,
    refusal: Refusal,
    candidates: &mut Flags,
    taken: &mut Flags,
    order: &mut Order,
    state: &mut [u64],
) -> Round
    requires library_sound { LibrarySound library }
    requires candidates { Candidates library refusal state.old candidates.old }
    requires good { Good state.old × Ordered state.old order.old }
    ensures rounded { Rounded (modules_of library.entry) taken.old refusal state.old result taken.new state.new }
    ensures candidates { Candidates library.entry result.refusal state.new candidates.new }
    ensures ordered { Ordered state.new order.new }
{
    let mut round = Round { took: 0, refusal };
    for i in 0..library.section.count {
        if !candidates[i] {
            continue;
        }
        if let Some(after) = visit_module(
            library,
            i,
            taken[i],
            round.refusal,
            candidates,
            order,
            state,
        ) {
            taken[i] = true;
            round = Round {
                took: round.took + 1,
                refusal: after,
            };
        }
    }
    round
}

// The candidates at the start of a section; in a walk that is refused already there are none.
fn first_candidates(library: Library, refusal: Refusal, state: &[u64], candidates: &mut Flags)
    requires owns { refusal.number ≡ 0 → LibraryOwns library }
    requires good { Good state.now }
    ensures { Candidates library.entry refusal state.now candidates.new }
{
    if refusal.number == DONE {
        mark_undefined(library, 0, state, candidates);
    }
}

// After a search: the refusal, and the number of rounds.
#[derive(Clone, Copy)]
pub struct Searched {
    pub refusal: Refusal,
    pub rounds: usize,
}

// Rounds until one takes nothing.
// Kept: the refusal is handed on, where a Result would end the search: Sought counts the rounds of a walk that is refused too.
pub fn search(library: Library, refusal: Refusal, order: &mut Order, state: &mut [u64]) -> Searched
    requires library_sound { LibrarySound library }
    requires owns { refusal.number ≡ 0 → LibraryOwns library }
    requires good { Good state.old × Ordered state.old order.old }
    ensures sought { Sought (modules_of library.entry) refusal state.old result state.new }
    ensures ordered { Ordered state.new order.new }
{
    let mut candidates = [false; MODULE_ROOM];
    first_candidates(library, refusal, state, &mut candidates);
    let mut taken = [false; MODULE_ROOM];
    let mut took = 1;
    let mut told = refusal;
    let mut rounds = 0;
    // Kept: a while, since the rounds are counted for the answer and end by what a round took.
    while 0 < took {
        let round = one_round(library, told, &mut candidates, &mut taken, order, state);
        took = round.took;
        told = round.refusal;
        rounds += 1;
    }
    Searched {
        refusal: told,
        rounds,
    }
}
