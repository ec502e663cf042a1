// State memory as a call finds it.
ghost use Rattle.std.specs.Prelude.{◌≡◌, length};
ghost use Rattle.rules.specs.Answers.{answer_number};
ghost use Rattle.state.specs.Layout.{size, sound_cells};
ghost use Rattle.soundness.specs.Checks.{Refusal};

use crate::cells::{header_sound, names_differ, symbols_sound, words_sound, zero_between};
use rules::answer::Reason;
use state::layout::{COUNT, NAMES, SIZE, TEXTS, VALUES};

// Are these cells, of which there are as many as there should be, those of a sound state?
fn holds_state(state: &[u64]) -> bool
    requires { length state.now ≡ size }
    ensures { result ≡ sound_cells state.now }
{
    if !header_sound(state) {
        return false;
    }
    let n = state[COUNT] as usize;
    if !zero_between(state, NAMES + n, VALUES) {
        return false;
    }
    if !zero_between(state, VALUES + n, TEXTS) {
        return false;
    }
    if !symbols_sound(state, n) {
        return false;
    }
    if !names_differ(state, n) {
        return false;
    }
    words_sound(state, n)
}

// Refuses memory of a wrong length, and damaged memory.
pub fn check(state: &[u64]) -> Result<(), Reason>
    ensures { Refusal state.now (answer_number result) }
{
    if state.len() != SIZE {
        return Err(Reason::Buffer);
    }
    if !holds_state(state) {
        return Err(Reason::Damaged);
    }
    Ok(())
}
