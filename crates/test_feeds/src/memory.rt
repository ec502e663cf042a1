// What stands in the cells that a call was lent, and what became of them.
use linker::{FEED_CELLS, STATE_CELLS, WORK_CELLS};
use std::io::Print;

// One cell more than a call is lent, so that what stands behind is seen too.
const MORE_FEED: usize = FEED_CELLS + 1;

const MORE_WORK: usize = WORK_CELLS + 1;

pub type State = [u64; STATE_CELLS];

pub type Feed = [u64; MORE_FEED];

pub type Work = [u64; MORE_WORK];

pub const NO_STATE: State = [0; STATE_CELLS];

pub const NO_FEED: Feed = [0; MORE_FEED];

// Work memory is all 5 before a call.
pub const USED_WORK: Work = [5; MORE_WORK];

fn all_are(cells: &[u64], value: u64) -> bool {
    cells.iter().all(|cell| *cell == value)
}

// ---- state memory

// Cell 2 of a state is its mark: 0 none, 1 broken, 2 frozen.
pub fn tell_state(rt: &impl Print, before: &State, after: &State) {
    let mut unmarked = *after;
    unmarked[2] = before[2];
    let _ = if before == after {
        print!(rt; "; state as before")
    } else if *before == unmarked {
        print!(rt; "; state as before but for the mark, now {}", after[2])
    } else {
        print!(rt; "; state changed")
    };
}

// ---- work memory

// Of cells that were all 5 the first `size` were lent: are they zero, and is what stands behind as it was?
pub fn work_zero(cells: &Work, size: usize) -> bool {
    let zeros = cells.iter().position(|cell| *cell != 0);
    zeros.unwrap_or(MORE_WORK) == size && all_are(cells.get(size..).unwrap_or(&[]), 5)
}

pub fn tell_work(rt: &impl Print, cells: &Work, size: usize) {
    let _ = if all_are(cells, 5) {
        print!(rt; "; work as before")
    } else if work_zero(cells, size) {
        print!(rt; "; work zero")
    } else {
        print!(rt; "; work changed")
    };
}

// ---- feed memory

pub fn feed_zero(cells: &Feed) -> bool {
    all_are(cells, 0)
}

// The total stands at 65,537, and no byte is kept.
fn overfull(cells: &Feed) -> bool {
    cells[0] == 65538 && all_are(&cells[1..], 0)
}

// Eight bytes of a text, or those that are left, in one cell, the first lowest.
fn packed(part: &[u8]) -> u64 {
    part.iter().rev().fold(
        0,
        |cell: u64, byte| cell % 0x100_0000_0000_0000 * 256 + u64::from(*byte),
    )
}

// Is a load open of which just this text has been fed? The first cell is one more than its length; zeros stand behind the bytes.
pub fn holds(cells: &Feed, text: &[u8]) -> bool {
    cells[0] != 0
        && cells[0] - 1 == text.len() as u64
        && text
            .chunks(8)
            .zip(&cells[1..])
            .all(|(part, cell)| packed(part) == *cell)
        && cells[1..]
            .iter()
            .skip(text.len().div_ceil(8))
            .all(|cell| *cell == 0)
}

pub fn tell_feed(rt: &impl Print, before: &Feed, after: &Feed, text: &[u8]) {
    let _ = if before == after {
        print!(rt; "; feed as before")
    } else if feed_zero(after) {
        print!(rt; "; feed zero")
    } else if holds(after, text) {
        print!(rt; "; feed holds {}", text.len())
    } else if overfull(after) {
        print!(rt; "; feed overfull")
    } else {
        print!(rt; "; feed changed")
    };
}
