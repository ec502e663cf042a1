// The tests of soundness, each over a region of state memory.
ghost use Rattle.std.specs.Prelude.{◌+◌, ◌<◌, ◌≤◌, ◌≡◌, ◌==◌, ◌&&◌, not, length, drop};
ghost use Rattle.std.specs.List.{fold, list_all, zip};
ghost use Rattle.std.specs.Int.Bits.{bit_or};
ghost use Rattle.rules.specs.Text.{is_packed};
ghost use Rattle.rules.specs.Limits.{most_symbols};
ghost use Rattle.state.specs.Layout.{size};
ghost use Rattle.soundness.specs.Checks.{header_sound, zero_between, value_sound, symbols_sound, HasMet, Alone, names_differ, word_sound, words_sound};

use crate::name::is_packed;
use rules::limits::{LARGEST_NUMBER, MOST_SYMBOLS, PROGRAM_WORDS};
use state::layout::{
    COUNT, DEFINED, MARK, Mark, NAMES, NEXT, PLAIN, SIZE, SPARE, TAGS, TEXTS, UNPLACED, VALUES,
};

#[tactic(auto, unfolding(crate::specs::Checks::header_sound))]
pub fn header_sound(state: &[u64]) -> bool
    requires { length state.now ≡ size }
    ensures { result ≡ header_sound state.now }
{
    state[COUNT] <= MOST_SYMBOLS as u64
        && state[NEXT] <= PROGRAM_WORDS as u64
        && state[MARK] <= Mark::Frozen as u64
        && state[SPARE] == 0
}

// The union of eight cells.
fn union_of(cells: &[u64; 8]) -> u64
    ensures { result ≡ fold bit_or 0 cells.now }
{
    cells.iter().fold(0, |all, cell| all | *cell)
}

// Are eight cells zero? One test serves for all of them.
fn eight_zero(cells: &[u64; 8]) -> bool
    ensures { result ≡ list_all (λ cell. cell == 0) cells.now }
{
    union_of(cells) == 0
}

fn eights_zero(eights: &[[u64; 8]]) -> bool
    ensures { result ≡ list_all (list_all (λ cell. cell == 0)) eights.now }
{
    eights.iter().all(|eight| eight_zero(eight))
}

fn each_zero(cells: &[u64]) -> bool
    ensures { result ≡ list_all (λ cell. cell == 0) cells.now }
{
    cells.iter().all(|cell| *cell == 0)
}

// Eight cells a turn, up to the first eight that are not all zero; one by one those that are left.
fn all_zero(cells: &[u64]) -> bool
    ensures { result ≡ list_all (λ cell. cell == 0) cells.now }
{
    let (eights, rest) = cells.as_chunks::<8>();
    eights_zero(eights) && each_zero(rest)
}

pub fn zero_between(state: &[u64], from: usize, to: usize) -> bool
    requires { to ≤ length state.now }
    ensures { result ≡ zero_between state.now from to }
{
    all_zero(&state[from.min(to)..to])
}

#[tactic(auto, unfolding(crate::specs::Checks::value_sound))]
fn value_sound(v: u64) -> bool
    ensures { result ≡ value_sound v }
{
    v == 0 || DEFINED <= v && v <= DEFINED + LARGEST_NUMBER as u64
}

fn each_symbol_sound(names: &[u64], values: &[u64]) -> bool
    ensures { result ≡ list_all (λ s. is_packed s.0 && value_sound s.1) (zip names.now values.now) }
{
    names
        .iter()
        .zip(values)
        .all(|(name, value)| is_packed(*name) && value_sound(*value))
}

pub fn symbols_sound(state: &[u64], n: usize) -> bool
    requires state_len { length state.now ≡ size }
    requires n_le_most_symbols { n ≤ most_symbols }
    ensures { result ≡ symbols_sound state.now n }
{
    each_symbol_sound(&state[NAMES..NAMES + n], &state[VALUES..VALUES + n])
}

// No name from position i on is x.
fn unlike_from(names: &[u64], x: u64, i: usize) -> bool
    ensures { result ≡ list_all (λ name. not (name == x)) (drop i names.now) }
{
    names.iter().skip(i).all(|name| *name != x)
}

// The filter has a flag for each remainder of a name.
const REMAINDERS: u64 = 3989;

type Filter = [u8; 4096];

// Is the name of symbol i that of no later one? The filter has met the remainders of the names behind it, and meets that of this
// one. Only where it had met it already the names behind are looked through.
fn stands_alone(state: &[u64], i: usize, n: usize, met: &mut Filter) -> bool
    requires state_len { length state.now ≡ size }
    requires i_lt_n { (i < n) × (n ≤ most_symbols) }
    requires has_met { HasMet state.now n (i + 1) met.old }
    ensures { Alone state.now n i result met.new }
{
    let name = state[NAMES + i];
    let h = (name % REMAINDERS) as usize;
    if met[h] == 0 {
        met[h] = 1;
        return true;
    }
    unlike_from(&state[NAMES..NAMES + n], name, i + 1)
}

// From the last name to the first.
pub fn names_differ(state: &[u64], n: usize) -> bool
    requires state_len { length state.now ≡ size }
    requires n_le_most_symbols { n ≤ most_symbols }
    ensures { result ≡ names_differ state.now n }
{
    let mut met = [0; 4096];
    for i in (0..n).rev() {
        if !stands_alone(state, i, n, &mut met) {
            return false;
        }
    }
    true
}

// Its text is read only where no word is placed.
#[tactic(auto, unfolding(crate::specs::Checks::word_sound))]
fn word_sound(text: &u64, tag: u64, n: usize) -> bool
    requires { n ≤ most_symbols }
    ensures { result ≡ word_sound n text.now tag }
{
    if tag == UNPLACED {
        return *text == 0;
    }
    tag <= n as u64 + PLAIN
}

fn each_word_sound(texts: &[u64], tags: &[u64], n: usize) -> bool
    requires { n ≤ most_symbols }
    ensures { result ≡ list_all (λ w. word_sound n w.0 w.1) (zip texts.now tags.now) }
{
    texts
        .iter()
        .zip(tags)
        .all(|(text, tag)| word_sound(text, *tag, n))
}

pub fn words_sound(state: &[u64], n: usize) -> bool
    requires state_len { length state.now ≡ size }
    requires n_le_most_symbols { n ≤ most_symbols }
    ensures { result ≡ words_sound state.now n }
{
    each_word_sound(&state[TEXTS..TAGS], &state[TAGS..SIZE], n)
}
