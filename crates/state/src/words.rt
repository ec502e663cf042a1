// The program words. An address past the last one holds no word, and nothing is put there.
ghost use Rattle.std.specs.Prelude.{◌≤◌, ◌<◌, ◌≡◌, ◌==◌, not, length, get_or, set};
ghost use Rattle.std.specs.List.{fold};
ghost use Rattle.std.specs.Int.Bits.{bit_or};
ghost use Rattle.rules.specs.Limits.{program_words, most_symbols};
ghost use Rattle.rules.specs.State.{unplaced, plain, refers, is_placed, highest as highest_in, high as high_in};
ghost use Rattle.state.specs.Layout.{decode, text_cell};
ghost use Rattle.state.specs.Good.{Good, Holds, with_words};
ghost use Rattle.state.specs.Words.{Tagged, LastOf, LastEight, UnplacedFrom};

use crate::layout::{PLAIN, REFERENCE, TAGS, TEXTS, UNPLACED};
use rules::limits::{NO_ADDRESS, PROGRAM_WORDS};

pub fn is_placed(state: &[u64], address: usize) -> bool
    requires { Good state.now }
    ensures { result ≡ is_placed (get_or (decode state.now).words address unplaced) }
{
    if PROGRAM_WORDS <= address {
        return false;
    }
    state[TAGS + address] != UNPLACED
}

pub fn put_plain(state: &mut [u64], address: usize, text: u64)
    requires { Good state.old }
    ensures { Holds state.new (with_words (set (decode state.old).words address (plain text)) (decode state.old)) }
{
    if PROGRAM_WORDS <= address {
        return;
    }
    state[TEXTS + address] = text;
    state[TAGS + address] = PLAIN;
}

pub fn put_reference(state: &mut [u64], address: usize, text: u64, symbol: usize)
    requires good { Good state.old }
    requires symbol_in_bounds { symbol < length (decode state.old).symbols }
    ensures { Holds state.new (with_words (set (decode state.old).words address (refers text symbol)) (decode state.old)) }
{
    if PROGRAM_WORDS <= address {
        return;
    }
    state[TEXTS + address] = text;
    state[TAGS + address] = REFERENCE + symbol as u64;
}

// The text of a word, 0 where none is placed.
pub fn text(state: &[u64], address: usize) -> u64
    requires good { Good state.now }
    requires address_lt_program_words { address < program_words }
    ensures { result ≡ text_cell (get_or (decode state.now).words address unplaced) }
{
    state[TEXTS + address]
}

// What the word placed at an address is: a plain one, or one that refers to a symbol.
#[derive(Clone, Copy)]
pub enum Placed {
    Plain,
    Refers(usize),
}

// None where no word is placed.
pub fn tag(state: &[u64], address: usize) -> Option<Placed>
    requires good { Good state.now }
    requires address_lt_program_words { address < program_words }
    ensures { Tagged (decode state.now) address result }
{
    match state[TAGS + address] {
        UNPLACED => None,
        PLAIN => Some(Placed::Plain),
        tag => Some(Placed::Refers((tag - REFERENCE) as usize)),
    }
}

// The last tag of a word that refers as this one does.
fn last_reference(tags: &[u64], reference: u64) -> Option<usize>
    ensures { LastOf (λ tag. tag == reference) tags.now result }
{
    tags.iter().rposition(|tag| *tag == reference)
}

// The highest address that refers to a symbol, 65,535 if none.
// Kept: the number is the papers' own, rules' definition `highest` answers it, and so does every caller.
pub fn highest(state: &[u64], symbol: usize) -> usize
    requires good { Good state.now }
    requires symbol_le_most_symbols { symbol ≤ most_symbols }
    ensures { result ≡ highest_in symbol (decode state.now).words }
{
    last_reference(&state[TAGS..], REFERENCE + symbol as u64).unwrap_or(NO_ADDRESS)
}

// The union of eight tags: 0 if no word is placed there. One test serves for eight words.
fn eight_tags(tags: &[u64; 8]) -> u64
    ensures { result ≡ fold bit_or 0 tags.now }
{
    tags.iter().fold(0, |all, tag| all | *tag)
}

// The last eight tags of which one is that of a placed word.
fn last_eight(eights: &[[u64; 8]]) -> Option<usize>
    ensures { LastEight eights.now result }
{
    eights.iter().rposition(|eight| eight_tags(eight) != 0)
}

// A position from which on no tag is that of a placed word. How low it is matters for speed alone: `last_placed` looks at each tag
// below it.
fn unplaced_from(tags: &[u64]) -> usize
    ensures { UnplacedFrom tags.now result }
{
    let (front, eights) = tags.as_rchunks::<8>();
    match last_eight(eights) {
        Some(k) => front.len() + 8 * (k + 1),
        None => front.len(),
    }
}

// The last tag of a placed word, one by one.
fn last_tag(tags: &[u64]) -> Option<usize>
    ensures { LastOf (λ tag. not (tag == 0)) tags.now result }
{
    tags.iter().rposition(|tag| *tag != UNPLACED)
}

// The last tag of a placed word: down by eights to one that holds a word.
fn last_placed(tags: &[u64]) -> Option<usize>
    ensures { LastOf (λ tag. not (tag == 0)) tags.now result }
{
    last_tag(&tags[..unplaced_from(tags)])
}

// HIGH: the highest address that holds a placed word, 65,535 if none is placed.
// Kept: the number is the papers' own, as above.
pub fn high(state: &[u64]) -> usize
    requires { Good state.now }
    ensures { result ≡ high_in (decode state.now).words }
{
    last_placed(&state[TAGS..]).unwrap_or(NO_ADDRESS)
}
