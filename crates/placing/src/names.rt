// Entries of one name, for test 13.
ghost use Rattle.std.specs.Prelude.{◌≡◌, eqb};
ghost use Rattle.rules.specs.Text.{any};
ghost use Rattle.state.specs.Layout.{decode};
ghost use Rattle.state.specs.Good.{Good};
ghost use Rattle.order.specs.Order.{Ordered};
ghost use Rattle.tables.specs.Heads.{names_in};
ghost use Rattle.tables.specs.Iter.{parts_in};
ghost use Rattle.placing.specs.Passes.{is_repeated, repeated};

use order::{Order, defined};
use tables::heads::is_entry;
use tables::iter::{PartCells, Parts};

// Is there an entry of this name among the parts?
pub fn enters(mut parts: Parts, name: u64) -> bool
    ensures { result ≡ any (eqb name) (names_in (parts_in parts.entry)) }
{
    parts.any(|p| is_entry(p.head) && name == p.body)
}

// Is the part an entry whose name is defined, or is entered again by the rest?
fn is_repeated(part: PartCells, rest: Parts, order: &Order, state: &[u64]) -> bool
    requires { Good state.now × Ordered state.now order.now }
    ensures { result ≡ is_repeated (decode state.now).symbols part (parts_in rest.entry) }
{
    is_entry(part.head)
        && (defined(state, order, part.body) == Some(true) || enters(rest, part.body))
}

// Is an entry the second of its name, the table's included?
pub fn duplicates(mut parts: Parts, order: &Order, state: &[u64]) -> bool
    requires { Good state.now × Ordered state.now order.now }
    ensures { result ≡ repeated (decode state.now).symbols (names_in (parts_in parts.entry)) }
{
    while let Some(part) = parts.next() {
        if is_repeated(part, parts, order, state) {
            return true;
        }
    }
    false
}
