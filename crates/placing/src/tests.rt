// What the tests 9, 11 and 12 ask of a module's parts.
ghost use Rattle.std.specs.Prelude.{◌≤◌, ◌≡◌};
ghost use Rattle.rules.specs.Limits.{program_words};
ghost use Rattle.rules.specs.Text.{any};
ghost use Rattle.rules.specs.Placing.{entries_in, code_in};
ghost use Rattle.tables.specs.Iter.{parts_in};
ghost use Rattle.placing.specs.Passes.{bad_code, over_range, is_bad, is_over, Surveyed};

use rules::limits::LARGEST_NUMBER;
use tables::heads::{argument, block_end, entry_value, is_external, is_reference, is_relocated};
use tables::iter::Parts;

#[derive(Clone, Copy)]
pub struct Extent {
    pub length: usize,
    pub externals: usize,
}

pub fn survey(parts: Parts) -> Extent
    ensures { Surveyed (parts_in parts.entry) result }
{
    let mut length = 0;
    let mut externals = 0;
    for part in parts {
        length = block_end(part.head).max(length);
        externals += usize::from(is_external(part.head));
    }
    Extent { length, externals }
}

// Is it a word that refers to external 0, or to one beyond the module's?
#[tactic(auto, unfolding(crate::specs::Passes::is_bad))]
fn is_bad(head: u64, externals: usize) -> bool
    ensures { result ≡ is_bad externals head }
{
    let k = argument(head);
    is_reference(head) && (k == 0 || externals < k)
}

// Does a word refer to external 0, or to one beyond the module's?
pub fn bad_arguments(mut parts: Parts, externals: usize) -> bool
    ensures { result ≡ any (bad_code externals) (code_in (parts_in parts.entry)) }
{
    parts.any(|p| is_bad(p.head, externals))
}

// Is it a relocated entry over 65,535?
#[tactic(auto, unfolding(crate::specs::Passes::is_over))]
fn is_over(head: u64, base: usize) -> bool
    requires { base ≤ program_words }
    ensures { result ≡ is_over base head }
{
    is_relocated(head) && (LARGEST_NUMBER as usize) < entry_value(head, base)
}

// Does a relocated entry go over 65,535?
pub fn out_of_range(mut parts: Parts, base: usize) -> bool
    requires { base ≤ program_words }
    ensures { result ≡ any (over_range base) (entries_in (parts_in parts.entry)) }
{
    parts.any(|p| is_over(p.head, base))
}
