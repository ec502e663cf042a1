// The calls that change a state: RESET, BASE, FORCE and END. Each tests what document 01 names, in its order, and asks nothing of
// what it is lent.
#![tactic(auto)]

ghost use Rattle.std.specs.Prelude.{◌≡◌};
ghost use Rattle.rules.specs.Answers.{answer_number};
ghost use Rattle.rules.specs.Calls.{call_answer, reset as reset_outcome, base as base_outcome, force as force_outcome, end as end_outcome};
ghost use Rattle.rules.specs.Outcomes.{end_told};
ghost use Rattle.rules.specs.Placing.{mention as mentioned_in};
ghost use Rattle.state.specs.Layout.{lent, decode};
ghost use Rattle.state.specs.Good.{Good};
ghost use Rattle.state.specs.Table.{Joined};
ghost use Rattle.state.specs.Promise.{Called, Ended};

use image::{image_length, write_image};
use order::{ROOM, make};
use rules::answer::{CallAnswer, EndAnswer, Reason};
use rules::limits::LARGEST_BASE;
use soundness::memory::check;
use state::header::{mark, set_mark, set_next, shut_by};
use state::layout::{Mark, SIZE};
use text::names::read_name;

#[tactic(auto, using(crate::proofs::CommandLaws::reset_short, crate::proofs::CommandLaws::reset_done))]
fn try_reset(state: &mut [u64]) -> Result<(), Reason>
    ensures { Called (reset_outcome (lent state.old)) state.old (call_answer (answer_number result)) state.new }
{
    if state.len() != SIZE {
        return Err(Reason::Buffer);
    }
    state::memory::reset(state);
    Ok(())
}

// The fresh state.
pub fn reset(state: &mut [u64]) -> CallAnswer
    ensures { Called (reset_outcome (lent state.old)) state.old result state.new }
{
    try_reset(state).into()
}

#[tactic(auto, using(crate::proofs::CommandLaws::base_unsound, crate::proofs::CommandLaws::base_shut, crate::proofs::CommandLaws::base_over, crate::proofs::CommandLaws::base_done))]
fn try_base(state: &mut [u64], address: u64) -> Result<(), Reason>
    ensures { Called (base_outcome (lent state.old) address) state.old (call_answer (answer_number result)) state.new }
{
    check(state)?;
    shut_by(state)?;
    if LARGEST_BASE < address {
        return Err(Reason::Range);
    }
    set_next(state, address as usize);
    Ok(())
}

// The next address.
pub fn base(state: &mut [u64], address: u64) -> CallAnswer
    ensures { Called (base_outcome (lent state.old) address) state.old result state.new }
{
    try_base(state, address).into()
}

// The name joins the table undefined, if it is new, as an external does in a load: by an order of the table's names. Nothing changes
// where it is new and the table full.
fn mention(state: &mut [u64], name: u64) -> Result<(), Reason>
    requires { Good state.old }
    ensures { Joined (mentioned_in name (decode state.old).symbols) (decode state.old) result state.new }
{
    let mut order = [0u8; ROOM];
    make(state, &mut order);
    order::mention(state, &mut order, name)?;
    Ok(())
}

#[tactic(auto, using(crate::proofs::CommandLaws::force_unsound, crate::proofs::CommandLaws::force_shut, crate::proofs::CommandLaws::force_illegal, crate::proofs::CommandLaws::force_joined))]
fn try_force(state: &mut [u64], name: &[u8]) -> Result<(), Reason>
    ensures { Called (force_outcome (lent state.old) name.now) state.old (call_answer (answer_number result)) state.new }
{
    check(state)?;
    shut_by(state)?;
    let Some(packed) = read_name(name) else {
        return Err(Reason::Name);
    };
    mention(state, packed)
}

// A name as an undefined symbol.
pub fn force(state: &mut [u64], name: &[u8]) -> CallAnswer
    ensures { Called (force_outcome (lent state.old) name.now) state.old result state.new }
{
    try_force(state, name).into()
}

#[tactic(auto, using(crate::proofs::CommandLaws::end_unsound, crate::proofs::CommandLaws::end_broken, crate::proofs::CommandLaws::end_short, crate::proofs::CommandLaws::end_written))]
fn try_end(state: &mut [u64], out: &mut [u8]) -> Result<usize, Reason>
    ensures { Ended (end_outcome (lent state.old) out.old) state.old (end_told result) state.new out.new }
{
    check(state)?;
    if mark(state) == Mark::Broken {
        return Err(Reason::Reset);
    }
    let n = image_length(state);
    if out.len() < n {
        return Err(Reason::Out);
    }
    write_image(state, out);
    set_mark(state, Mark::Frozen);
    Ok(n)
}

// The image, which freezes the state.
pub fn end(state: &mut [u64], out: &mut [u8]) -> EndAnswer
    ensures { Ended (end_outcome (lent state.old) out.old) state.old result state.new out.new }
{
    try_end(state, out).into()
}
