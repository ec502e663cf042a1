// Feed memory of a wrong length, and feed memory that no open and pieces have left: every call refuses it and leaves it as it was.
use crate::bench::open;
use crate::memory::{
    Feed, NO_FEED, NO_STATE, State, USED_WORK, Work, tell_feed, tell_state, tell_work,
};
use crate::print::{call_answer, end_line, load_answer, piece_answer, title};
use linker::{FEED_CELLS, WORK_CELLS, lnk100_close, lnk100_drop, lnk100_feed, lnk100_open};
use std::io::Print;
use test_script::{front, say};

const MAX: u64 = u64::MAX;

// ---- the four calls

// All four on the first cells.
fn four_calls(rt: &impl Print, feed: &mut Feed, size: usize) {
    let before = *feed;
    let mut state = NO_STATE;
    let mut work = USED_WORK;
    say(rt, b"OPEN");
    call_answer(rt, lnk100_open(front(feed, size)));
    say(rt, b", FEED");
    piece_answer(rt, lnk100_feed(front(feed, size), b"A"));
    say(rt, b", CLOSE");
    let a = lnk100_close(front(feed, size), &mut state, front(&mut work, WORK_CELLS));
    load_answer(rt, a);
    say(rt, b", DROP");
    call_answer(rt, lnk100_drop(front(feed, size)));
    tell_feed(rt, &before, feed, b"");
    tell_state(rt, &NO_STATE, &state);
    tell_work(rt, &work, WORK_CELLS);
    end_line(rt);
}

// ---- lengths

fn lengths(rt: &impl Print) {
    title(rt, "feed memory of a wrong length");
    for (size, cell) in [(0, 0), (8192, 0), (8194, 0), (0, 5), (8192, 5), (8194, 5)] {
        lend(rt, size, cell);
    }
    title(rt, "of the right one, damaged");
    lend(rt, 8193, 5);
}

fn lend(rt: &impl Print, size: usize, cell: u64) {
    let mut feed = [cell; FEED_CELLS + 1];
    let _ = print!(rt; "cells {size} of {cell}: ");
    four_calls(rt, &mut feed, size);
}

// ---- damage

// 11 bytes, of which three stand in cell 2.
fn eleven() -> Feed {
    let mut feed = NO_FEED;
    lnk100_open(front(&mut feed, FEED_CELLS));
    lnk100_feed(front(&mut feed, FEED_CELLS), b"3 ***TITLE\n");
    feed
}

// Zero memory but for the first cell.
fn marked(mark: u64) -> Feed {
    let mut feed = NO_FEED;
    feed[0] = mark;
    feed
}

// One cell is changed.
fn damaged(rt: &impl Print, mut feed: Feed, at: usize, cell: u64) -> Feed {
    if let Some(place) = feed.get_mut(at) {
        *place = cell;
    }
    let _ = print!(rt; "cell {at} is {cell}: ");
    feed
}

fn refused(rt: &impl Print, feed: Feed, at: usize, cell: u64) {
    let mut feed = damaged(rt, feed, at, cell);
    four_calls(rt, &mut feed, FEED_CELLS);
}

// Where it is still sound: an open load.
fn sound(rt: &impl Print, feed: Feed, at: usize, cell: u64) {
    let mut feed = damaged(rt, feed, at, cell);
    open(rt, &mut feed, FEED_CELLS);
}

// Cell 2 is 673100, the bytes `LE` and LF; a byte more is 16777216 there, and the last of the eight 72057594037927936.
fn eleven_bytes(rt: &impl Print) {
    title(rt, "11 bytes, and another total");
    for total in [0, 1, 11, 65538, 65539, MAX] {
        refused(rt, eleven(), 0, total);
    }
    title(rt, "11 bytes, and a byte behind the total");
    for (at, cell) in [
        (2, 17450316),
        (2, 72057594038601036),
        (2, MAX),
        (3, 1),
        (3, 9223372036854775808),
        (8191, 1),
        (8192, 1),
        (8192, 9223372036854775808),
    ] {
        refused(rt, eleven(), at, cell);
    }
}

fn sound_ones(rt: &impl Print) {
    title(
        rt,
        "sound: 11 bytes as they were, other bytes, zeros behind them",
    );
    for (at, cell) in [(0, 12), (1, MAX), (2, 16777215), (0, 13), (0, 65537)] {
        sound(rt, eleven(), at, cell);
    }
    title(rt, "sound: 65,536 and 65,535 bytes");
    sound(rt, marked(65537), 8192, MAX);
    sound(rt, marked(65536), 8192, 72057594037927935);
}

fn one_byte(rt: &impl Print) {
    title(rt, "none open, and one byte");
    refused(rt, marked(0), 1, 1);
    refused(rt, marked(0), 4096, 256);
    refused(rt, marked(0), 8192, 72057594037927936);
    title(rt, "open without bytes, and one byte");
    refused(rt, marked(1), 1, 1);
    refused(rt, marked(1), 1, 72057594037927936);
    refused(rt, marked(1), 8192, 1);
    title(rt, "65,535 bytes, and the 65,536th");
    refused(rt, marked(65536), 8192, 72057594037927936);
    title(rt, "overfull, and one byte");
    refused(rt, marked(65538), 1, 1);
    refused(rt, marked(65538), 4096, 256);
    refused(rt, marked(65538), 8192, 72057594037927936);
}

// ---- cell by cell

// Do all four calls answer 2? The close is lent no work memory, which it would clear.
fn all_refuse(feed: &mut Feed, state: &mut State, work: &mut Work) -> bool {
    let cells = front(feed, FEED_CELLS);
    lnk100_open(cells).number == 2
        && lnk100_feed(cells, b"A").number == 2
        && lnk100_close(cells, state, front(work, 0)).number == 2
        && lnk100_drop(cells).number == 2
}

// Each cell from one on, made 1 in turn: how many times all four refuse.
fn each_from(rt: &impl Print, mut feed: Feed, first: usize) {
    let before = feed;
    let mut state = NO_STATE;
    let mut work = USED_WORK;
    let mut refused: u64 = 0;
    for at in first..FEED_CELLS {
        feed[at] = 1;
        refused = refused.saturating_add(u64::from(all_refuse(&mut feed, &mut state, &mut work)));
        feed[at] = 0;
    }
    let _ = print!(rt; "cells from {first} on made 1 in turn: all four calls 2 for {refused}");
    tell_feed(rt, &before, &feed, b"");
    tell_state(rt, &NO_STATE, &state);
    tell_work(rt, &work, 0);
    end_line(rt);
}

pub fn damage(rt: &impl Print) {
    lengths(rt);
    eleven_bytes(rt);
    sound_ones(rt);
    one_byte(rt);
    title(rt, "cell by cell: none open, open, 11 bytes, overfull");
    each_from(rt, marked(0), 1);
    each_from(rt, marked(1), 1);
    each_from(rt, eleven(), 3);
    each_from(rt, marked(65538), 1);
}
