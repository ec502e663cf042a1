// The code words of a module. They are put plain first, since test 10 comes before the symbols join the table; when these
// have their positions, the words that refer to an external are put again.
ghost use Rattle.std.specs.Prelude.{◌≤◌, length};
ghost use Rattle.rules.specs.Limits.{program_words};
ghost use Rattle.rules.specs.Placing.{externals_in, code_in};
ghost use Rattle.tables.specs.Iter.{parts_in};
ghost use Rattle.state.specs.Layout.{decode};
ghost use Rattle.state.specs.Good.{Good, Holds};
ghost use Rattle.placing.specs.Effects.{Laid, Linkable, relinked};

use rules::answer::Reason;
use rules::limits::EXTERNAL_ROOM;
use state::words::{is_placed, put_plain, put_reference};
use tables::heads::{address, argument, is_reference, is_word};
use tables::iter::Parts;

// 10 where a word is placed already. Those in front of it are then put, and the rest is not.
pub fn lay(parts: Parts, base: usize, state: &mut [u64]) -> Result<(), Reason>
    requires base_le_program_words { base ≤ program_words }
    requires good { Good state.old }
    ensures { Laid base (code_in (parts_in parts.entry)) (decode state.old) result state.new }
{
    for part in parts {
        if is_word(part.head) {
            let at = base + address(part.head);
            if is_placed(state, at) {
                return Err(Reason::Overlap);
            }
            put_plain(state, at, part.body);
        }
    }
    Ok(())
}

// Links each word that refers to an external: `at` has the externals' positions in the table.
pub fn link(parts: Parts, base: usize, at: &[u16; EXTERNAL_ROOM], state: &mut [u64])
    requires base_le_program_words { base ≤ program_words }
    requires good { Good state.old }
    requires linkable { Linkable (length (externals_in (parts_in parts))) (code_in (parts_in parts)) at.now (decode state.old) }
    ensures { Holds state.new (relinked base at.now (code_in (parts_in parts.entry)) (decode state.old)) }
{
    for part in parts {
        if is_reference(part.head) {
            let symbol = at[argument(part.head) - 1] as usize;
            put_reference(state, base + address(part.head), part.body, symbol);
        }
    }
}
