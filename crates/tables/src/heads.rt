// What the first cell of a part says by itself, so that a pass skips the kinds that it does not care for without making the part.
ghost use Rattle.std.specs.Prelude.{◌≤◌, cond, ◌≡◌};
ghost use Rattle.rules.specs.Limits.{program_words};
ghost use Rattle.tables.specs.Heads.{is_entry, is_relocated, value_of, is_external, block_end, is_word, is_reference, address_of, argument_of};

use crate::parts::{ADDRESSES, KINDS, NUMBERS, PartKind, kind_of};

pub fn is_entry(head: u64) -> bool
    ensures { result ≡ is_entry head }
{
    matches!(
        kind_of(head),
        PartKind::AbsoluteEntry | PartKind::RelocatedEntry
    )
}

pub fn is_relocated(head: u64) -> bool
    ensures { result ≡ is_relocated head }
{
    kind_of(head) == PartKind::RelocatedEntry
}

// Only a relocated entry moves with the base.
#[tactic(auto, unfolding(crate::specs::Heads::value_of))]
pub fn entry_value(head: u64, base: usize) -> usize
    requires { base ≤ program_words }
    ensures { result ≡ value_of base head }
{
    let value = (head / KINDS % NUMBERS) as usize;
    if is_relocated(head) {
        return value + base;
    }
    value
}

pub fn is_external(head: u64) -> bool
    ensures { result ≡ is_external head }
{
    kind_of(head) == PartKind::External
}

// The end of a block's words; 0 where it has none, and for any other part.
#[tactic(auto, unfolding(crate::specs::Heads::block_end))]
pub fn block_end(head: u64) -> usize
    ensures { result ≡ block_end head }
{
    let count = head / KINDS / NUMBERS % NUMBERS;
    if kind_of(head) != PartKind::Block || count == 0 {
        return 0;
    }
    (head / KINDS % NUMBERS + count) as usize
}

pub fn is_word(head: u64) -> bool
    ensures { result ≡ is_word head }
{
    matches!(
        kind_of(head),
        PartKind::PlainWord | PartKind::Reference | PartKind::UnreadWord
    )
}

pub fn is_reference(head: u64) -> bool
    ensures { result ≡ is_reference head }
{
    kind_of(head) == PartKind::Reference
}

// A word's address from the base of its module.
pub fn address(head: u64) -> usize
    ensures { result ≡ address_of head }
{
    (head / KINDS % ADDRESSES) as usize
}

// The number of the external that a word refers to.
pub fn argument(head: u64) -> usize
    ensures { result ≡ argument_of head }
{
    (head / KINDS / ADDRESSES % NUMBERS) as usize
}
