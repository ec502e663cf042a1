// LOAD, with memory of any length.
use crate::leaving::{are_zero, tell_state, tell_work};
use linker::{STATE_CELLS, WORK_CELLS, lnk100_load};
use rules::answer::LoadAnswer;
use rules::limits::LONGEST_FILE;
use std::io::Print;
use test_script::{front, say};

// One cell more than work memory has, so that what stands behind it is seen too.
pub const MORE_CELLS: usize = WORK_CELLS + 1;

fn tell(rt: &impl Print, a: LoadAnswer) {
    let _ = print!(rt;
        "LOAD: {}, line {}, column {}, rounds {}",
        a.number, a.line, a.column, a.rounds
    );
}

// LOAD with the first `size` of cells that are all 5 as work memory.
pub fn load(rt: &impl Print, state: &mut [u64; STATE_CELLS], size: usize, file: &[u8]) {
    let before = *state;
    let mut work = [5u64; MORE_CELLS];
    tell(rt, lnk100_load(state, front(&mut work, size), file));
    tell_work(rt, &work, size);
    tell_state(rt, &before, state);
}

// One byte more than a file may have.
const MORE_BYTES: usize = LONGEST_FILE + 1;

// LOAD of so many line ends.
pub fn load_blank(rt: &impl Print, state: &mut [u64; STATE_CELLS], count: usize) {
    let blank = [b'\n'; MORE_BYTES];
    load(rt, state, WORK_CELLS, &blank[..count.min(MORE_BYTES)]);
}

// LOAD with the first `size` of cells that are all zero as the state.
pub fn load_into(rt: &impl Print, size: usize, file: &[u8]) {
    let mut cells = [0u64; MORE_CELLS];
    let mut work = [5u64; MORE_CELLS];
    tell(
        rt,
        lnk100_load(front(&mut cells, size), front(&mut work, WORK_CELLS), file),
    );
    tell_work(rt, &work, WORK_CELLS);
    say(
        rt,
        if are_zero(&cells) {
            b"; state same\n".as_slice()
        } else {
            b"; state changed\n"
        },
    );
}
