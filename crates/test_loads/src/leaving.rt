// What a call left of the cells that it was lent.
use crate::loads::MORE_CELLS;
use linker::STATE_CELLS;
use std::io::Print;

// The end of a call's line. Cell 2 of a state is its mark: 0 none, 1 broken, 2 frozen.
pub fn tell_state(rt: &impl Print, before: &[u64; STATE_CELLS], after: &[u64; STATE_CELLS]) {
    let mut unmarked = *after;
    unmarked[2] = before[2];
    let _ = if before == after {
        println!(rt; "; state same")
    } else if *before == unmarked {
        println!(rt; "; state same but for the mark, now {}", after[2])
    } else {
        println!(rt; "; state changed")
    };
}

fn all_are(cells: &[u64], value: u64) -> bool {
    cells.iter().all(|cell| *cell == value)
}

// Cells that were all zero, and are so still.
pub fn are_zero(cells: &[u64; MORE_CELLS]) -> bool {
    all_are(cells, 0)
}

// Of cells that were all 5 the first `size` were lent as work memory.
pub fn tell_work(rt: &impl Print, cells: &[u64; MORE_CELLS], size: usize) {
    let zeros = cells.iter().position(|cell| *cell != 0);
    let _ = if all_are(cells, 5) {
        print!(rt; "; work untouched")
    } else if zeros.unwrap_or(MORE_CELLS) != size {
        print!(rt; "; work not zero")
    } else if !all_are(cells.get(size..).unwrap_or(&[]), 5) {
        print!(rt; "; work zero, cells behind it changed")
    } else {
        print!(rt; "; work zero")
    };
}
