// Whether a module is needed.
ghost use Rattle.std.specs.Prelude.{◌&&◌, ◌≡◌};
ghost use Rattle.rules.specs.Reading.{module_at};
ghost use Rattle.rules.specs.State.{is_undefined};
ghost use Rattle.rules.specs.Load.{is_needed};
ghost use Rattle.tables.specs.Tables.{parts_of};
ghost use Rattle.tables.specs.Heads.{is_entry};
ghost use Rattle.state.specs.Layout.{decode};
ghost use Rattle.state.specs.Good.{Good};
ghost use Rattle.order.specs.Order.{Ordered};

use order::{Order, defined};
use tables::heads::is_entry;
use tables::iter::{PartCells, Parts};

// Is it an entry whose name is undefined in the table?
fn is_needed_entry(part: PartCells, order: &Order, state: &[u64]) -> bool
    requires { Good state.now × Ordered state.now order.now }
    ensures { result ≡ (is_entry part.head && is_undefined part.body (decode state.now).symbols) }
{
    is_entry(part.head) && defined(state, order, part.body) == Some(false)
}

// Is one of the module's entries undefined in the table?
pub fn is_needed(cells: &[u64], order: &Order, state: &[u64]) -> bool
    requires { Good state.now × Ordered state.now order.now }
    ensures { result ≡ is_needed (decode state.now) (module_at 0 (parts_of cells.now)) }
{
    Parts::of(cells).any(|part| is_needed_entry(part, order, state))
}
