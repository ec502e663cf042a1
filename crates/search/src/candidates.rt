// The candidates of a section: a flag for each module that enters a name which stands undefined in the table. A clear flag says that
// none of the module's entries is undefined, so that a round passes it by without a look at its parts. Flags are set when a symbol
// joins the table undefined: once for each symbol, however many rounds there are. The index of the section's entries tells which
// module enters a name.
ghost use Rattle.std.specs.Prelude.{◌≡◌, drop, eqb};
ghost use Rattle.rules.specs.State.{is_undefined};
ghost use Rattle.state.specs.Layout.{decode};
ghost use Rattle.state.specs.Good.{Good};
ghost use Rattle.index.specs.Index.{Indexed};
ghost use Rattle.search.specs.Flags.{Marked};

use crate::library::Library;
use index::{find, owner};
use rules::limits::MODULE_ROOM;
use state::header::symbol_count;
use state::table::symbol_at;

// A flag for each module of a section.
pub type Flags = [bool; MODULE_ROOM];

// The module that enters this name is a candidate.
fn mark_owner(library: Library, name: u64, candidates: &mut Flags)
    requires { Indexed library.tables.parts.now library.index.now }
    ensures { Marked library.entry.tables.parts.now library.entry.index.now (eqb name) candidates.old candidates.new }
{
    if let Some(entry) = find(library.tables.parts, library.index, name) {
        candidates[owner(library.index, entry)] = true;
    }
}

// So are the modules that enter a name which stands undefined in the table, at position `from` or behind it.
pub fn mark_undefined(library: Library, from: usize, state: &[u64], candidates: &mut Flags)
    requires indexed { Indexed library.tables.parts.now library.index.now }
    requires good { Good state.now }
    ensures { Marked library.entry.tables.parts.now library.entry.index.now (λ x. is_undefined x (drop from (decode state.now).symbols)) candidates.old candidates.new }
{
    for j in (from..symbol_count(state)).rev() {
        let symbol = symbol_at(state, j);
        if symbol.value.is_none() {
            mark_owner(library, symbol.name, candidates);
        }
    }
}
