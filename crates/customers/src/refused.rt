// A broken link is refused until the reset, and a frozen one takes no more loads.
ghost use Rattle.std.specs.Prelude.{◌≡◌, length};
ghost use Rattle.rules.specs.Limits.{work_size};
ghost use Rattle.rules.specs.Calls.{load_answer, call_answer, end_answer};
ghost use Rattle.customers.specs.Words.{Broke};

use linker::{lnk100_base, lnk100_end, lnk100_force, lnk100_load};
use rules::answer::{CallAnswer, EndAnswer, LoadAnswer};

// After a load that was refused for its file, a load of any file is refused by 3.
pub fn load_again(
    state: &mut [u64],
    work: &mut [u64],
    file: &[u8],
    other: &[u8],
) -> (LoadAnswer, LoadAnswer)
    ensures { Broke result.0 → result.1 ≡ load_answer 3 0 0 0 }
{
    let first = lnk100_load(state, work, file);
    let second = lnk100_load(state, work, other);
    (first, second)
}

// So is any FORCE.
pub fn force_after(
    state: &mut [u64],
    work: &mut [u64],
    file: &[u8],
    name: &[u8],
) -> (LoadAnswer, CallAnswer)
    ensures { Broke result.0 → result.1 ≡ call_answer 3 }
{
    let load = lnk100_load(state, work, file);
    let call = lnk100_force(state, name);
    (load, call)
}

// So is any BASE.
pub fn base_after(
    state: &mut [u64],
    work: &mut [u64],
    file: &[u8],
    address: u64,
) -> (LoadAnswer, CallAnswer)
    ensures { Broke result.0 → result.1 ≡ call_answer 3 }
{
    let load = lnk100_load(state, work, file);
    let call = lnk100_base(state, address);
    (load, call)
}

// So is END, which then writes nothing.
pub fn end_after(
    state: &mut [u64],
    work: &mut [u64],
    file: &[u8],
    out: &mut [u8],
) -> (LoadAnswer, EndAnswer)
    ensures { Broke result.0 → (result.1 ≡ end_answer 3 0) × (out.new ≡ out.old) }
{
    let load = lnk100_load(state, work, file);
    let end = lnk100_end(state, out);
    (load, end)
}

// Once END is done, a load is refused by 4.
pub fn load_after_end(
    state: &mut [u64],
    work: &mut [u64],
    file: &[u8],
    out: &mut [u8],
) -> (EndAnswer, LoadAnswer)
    ensures { result.0.number ≡ 0 → length work.old ≡ work_size → result.1 ≡ load_answer 4 0 0 0 }
{
    let end = lnk100_end(state, out);
    let load = lnk100_load(state, work, file);
    (end, load)
}
