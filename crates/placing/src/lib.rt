// Placing a module: the tests 9 to 14 in their order, and its effect on the state as they pass.
#![tactic(auto)]

mod names;
mod symbols;
mod tests;
mod words;

ghost use Rattle.std.specs.Prelude.{◌<◌};
ghost use Rattle.rules.specs.Answers.{answer_number};
ghost use Rattle.rules.specs.Reading.{module_at};
ghost use Rattle.rules.proofs.ReadingLaws.{ModuleSound};
ghost use Rattle.tables.specs.Tables.{most_cells, module_in};
ghost use Rattle.tables.specs.Iter.{parts_in};
ghost use Rattle.state.specs.Layout.{decode};
ghost use Rattle.state.specs.Good.{Good};
ghost use Rattle.order.specs.Order.{Ordered};
ghost use Rattle.placing.specs.Effects.{Tried};
ghost use Rattle.placing.specs.Walks.{PlacedRow};

use crate::symbols::{enter, mention_all};
use crate::tests::{bad_arguments, out_of_range, survey};
use crate::words::{lay, link};
use order::Order;
use rules::answer::{DONE, Reason, Refusal};
use rules::limits::PROGRAM_WORDS;
use state::header::{next_address, set_next};
use tables::iter::Parts;
use tables::rows::Tables;

// Why the module is refused, if it is. After a refusal the state is good, but not the one before: the caller has a copy of that.
fn place(parts: Parts, order: &mut Order, state: &mut [u64]) -> Result<(), Reason>
    requires module_sound { ModuleSound (module_at 0 (parts_in parts)) }
    requires good { Good state.old × Ordered state.old order.old }
    ensures { Tried (decode state.old) (module_at 0 (parts_in parts.entry)) (answer_number result) state.new × Ordered state.new order.new }
{
    let base = next_address(state);
    let extent = survey(parts);
    let end = base + extent.length;
    if PROGRAM_WORDS < end {
        return Err(Reason::Room);
    }
    lay(parts, base, state)?;
    if bad_arguments(parts, extent.externals) {
        return Err(Reason::Arg);
    }
    if out_of_range(parts, base) {
        return Err(Reason::Range);
    }
    enter(parts, base, order, state)?;
    let at = mention_all(parts, order, state)?;
    link(parts, base, &at, state);
    set_next(state, end);
    Ok(())
}

// Places the module of a row. A walk that is refused already stays as it is.
// Kept: the refusal is handed on, where a Result would end the walk. The definitions (walk_item and search_section of rules/specs/Load)
// go on from item to item and count the rounds of a walk that is refused too, and walk's clause tells them.
pub fn place_row(
    tables: Tables,
    row: usize,
    refusal: Refusal,
    order: &mut Order,
    state: &mut [u64],
) -> Refusal
    requires row_lt_most_cells { row < most_cells }
    requires module_sound { ModuleSound (module_in tables.parts.now tables.rows.now row) }
    requires good { Good state.old × Ordered state.old order.old }
    ensures { PlacedRow (module_in tables.entry.parts.now tables.entry.rows.now row) refusal state.old result state.new × Ordered state.new order.new }
{
    if refusal.number != DONE {
        return refusal;
    }
    match place(Parts::of(tables.module_cells(row)), order, state) {
        Ok(()) => Refusal {
            number: DONE,
            line: 0,
        },
        Err(reason) => Refusal {
            number: reason.number(),
            line: tables.line(row),
        },
    }
}
