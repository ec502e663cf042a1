// Drives every call but LOAD over fresh, forced, full, frozen, broken and damaged states, wrong lengths and short outputs.
// A line of answers: the number, the line, and what else the call gives, in the order of its struct; then, of a call that may
// change something, what became of the lent cells. What is printed is held to the file stdout beside src/.
#![tactic(auto)]

use linker::{
    STATE_CELLS, lnk100_base, lnk100_end, lnk100_force, lnk100_memory, lnk100_reset,
    lnk100_symbols, lnk100_undefined,
};
use std::io::Print;

type State = [u64; STATE_CELLS];

type Output = [u8; 64];

// An output is all 7 before a call.
const UNTOUCHED: Output = [7; 64];

// ---- printing

// What cannot be written is missed where the output is held to the stored one.
fn word(rt: &impl Print, text: &[u8]) {
    let _ = rt.write_all(text);
}

fn numbers(rt: &impl Print, all: &[u64]) {
    for n in all {
        let _ = print!(rt; " {n}");
    }
}

fn end_line(rt: &impl Print) {
    word(rt, b"\n");
}

fn title(rt: &impl Print, text: &str) {
    let _ = println!(rt; "-- {text}");
}

// Eleven bytes to a line, as long as a word's record.
fn written(rt: &impl Print, out: &Output) {
    if *out == UNTOUCHED {
        word(rt, b" untouched\n");
        return;
    }
    for (i, byte) in out.iter().enumerate() {
        if i % 11 == 0 {
            word(rt, b"\n ");
        }
        let _ = print!(rt; " {byte:02x}");
    }
    end_line(rt);
}

fn compare(rt: &impl Print, before: &State, after: &State) {
    let kept = if before == after { "same" } else { "changed" };
    let _ = print!(rt; " {kept}");
}

// ---- a call, and its whole answer

fn reset(rt: &impl Print, state: &mut State) {
    let a = lnk100_reset(state);
    word(rt, b"RESET");
    numbers(rt, &[a.number, a.line]);
    if *state == [0; STATE_CELLS] {
        word(rt, b" fresh");
    }
    end_line(rt);
}

fn force(rt: &impl Print, state: &mut State, name: &[u8]) {
    let before = *state;
    let a = lnk100_force(state, name);
    word(rt, b"FORCE ");
    word(rt, name);
    word(rt, b":");
    numbers(rt, &[a.number, a.line]);
    compare(rt, &before, state);
    end_line(rt);
}

fn base(rt: &impl Print, state: &mut State, address: u64) {
    let before = *state;
    let a = lnk100_base(state, address);
    let _ = print!(rt; "BASE {address}:");
    numbers(rt, &[a.number, a.line]);
    compare(rt, &before, state);
    end_line(rt);
}

fn memory(rt: &impl Print, state: &State) {
    let m = lnk100_memory(state);
    word(rt, b"MEMORY");
    numbers(rt, &[m.number, m.line, m.high]);
    end_line(rt);
}

// A packed name is told by its six bytes.
fn symbol(rt: &impl Print, state: &State, index: u64) {
    let s = lnk100_symbols(state, index);
    let _ = print!(rt; "SYMBOLS {index}:");
    numbers(rt, &[s.number, s.line, s.none]);
    let name = s.name;
    let _ = print!(rt; " {name:012x}");
    numbers(rt, &[s.value, s.defined]);
    end_line(rt);
}

fn undefined(rt: &impl Print, state: &State, index: u64) {
    let s = lnk100_undefined(state, index);
    let _ = print!(rt; "UNDEFINED {index}:");
    numbers(rt, &[s.number, s.line, s.none]);
    let name = s.name;
    let _ = print!(rt; " {name:012x}");
    numbers(rt, &[s.value, s.defined, s.highest]);
    end_line(rt);
}

// Into the first bytes of an output.
fn end(rt: &impl Print, state: &mut State, room: usize) {
    let before = *state;
    let mut out = UNTOUCHED;
    let a = lnk100_end(state, &mut out[..room.min(64)]);
    let _ = print!(rt; "END into {room}:");
    numbers(rt, &[a.number, a.line, a.length]);
    compare(rt, &before, state);
    written(rt, &out);
}

// ---- every call, and its number

#[derive(Clone, Copy)]
enum Call {
    Force,
    Base,
    Memory,
    Symbols,
    Undefined,
    End,
    Reset,
}

// RESET stands last, since it is not tried on states that are kept.
const CALLS: [Call; 7] = [
    Call::Force,
    Call::Base,
    Call::Memory,
    Call::Symbols,
    Call::Undefined,
    Call::End,
    Call::Reset,
];

impl Call {
    fn number(self, state: &mut [u64], out: &mut [u8]) -> u64 {
        match self {
            Call::Force => lnk100_force(state, b"NEW").number,
            Call::Base => lnk100_base(state, 7).number,
            Call::Memory => lnk100_memory(state).number,
            Call::Symbols => lnk100_symbols(state, 0).number,
            Call::Undefined => lnk100_undefined(state, 0).number,
            Call::End => lnk100_end(state, out).number,
            Call::Reset => lnk100_reset(state).number,
        }
    }
}

fn all_calls(rt: &impl Print, state: &mut State) {
    word(rt, b"FORCE, BASE, MEMORY, SYMBOLS, UNDEFINED, END:");
    for call in &CALLS[..6] {
        let before = *state;
        let mut out = UNTOUCHED;
        numbers(rt, &[call.number(state, &mut out)]);
        tell_touched(rt, before == *state, &out);
    }
    end_line(rt);
}

fn tell_touched(rt: &impl Print, kept: bool, out: &Output) {
    if !kept {
        word(rt, b" changed");
    }
    if *out != UNTOUCHED {
        word(rt, b" written");
    }
}

// ---- states

fn set(state: &mut State, at: usize, value: u64) {
    if let Some(cell) = state.get_mut(at) {
        *cell = value;
    }
}

fn define(state: &mut State, symbol: usize, value: u64) {
    if symbol < 256 {
        state[260 + symbol] = value;
    }
}

// tag: 1 a plain word, 2 + i one that refers to symbol i.
fn place(state: &mut State, address: usize, text: u64, tag: u64) {
    if address < 4096 {
        state[516 + address] = text;
        state[4612 + address] = tag;
    }
}

// MAIN is 3, SQ and LOW are undefined; a plain word, one that refers to MAIN, two that refer to SQ.
fn prepare(state: &mut State) {
    lnk100_reset(state);
    lnk100_force(state, b"MAIN");
    lnk100_force(state, b"SQ");
    lnk100_force(state, b"LOW");
    define(state, 0, 65539);
    place(state, 0, 0x0001_0002_0003_0004, 1);
    place(state, 1, 65535, 2);
    place(state, 5, 0xffff_8000_0001_ffff, 3);
    place(state, 4094, 0, 3);
    set(state, 1, 6);
}

// 256 names, APP the first, AAA the last.
fn fill(state: &mut State) {
    for n in (0..=255u8).rev() {
        lnk100_force(state, &[b'A', b'A' + n / 16, b'A' + n % 16]);
    }
}

// ---- the runs

fn fresh_state(rt: &impl Print, state: &mut State) {
    title(rt, "a fresh state");
    reset(rt, state);
    memory(rt, state);
    symbol(rt, state, 0);
    symbol(rt, state, 18446744073709551615);
    undefined(rt, state, 0);
    undefined(rt, state, 18446744073709551615);
    end(rt, state, 0);
    end(rt, state, 4);
    end(rt, state, 5);
    end(rt, state, 6);
    all_calls(rt, state);
    reset(rt, state);
}

fn names(rt: &impl Print, state: &mut State) {
    title(rt, "names");
    force(rt, state, b"");
    force(rt, state, b"SEVENCH");
    force(rt, state, b"1A");
    force(rt, state, b"a");
    force(rt, state, b"A-B");
    force(rt, state, b"A B");
    force(rt, state, b"SQ");
    force(rt, state, b"SQ");
    force(rt, state, b"S");
    force(rt, state, b"Z99999");
    symbol(rt, state, 0);
    symbol(rt, state, 1);
    symbol(rt, state, 2);
    symbol(rt, state, 3);
    undefined(rt, state, 2);
    undefined(rt, state, 3);
}

fn bases(rt: &impl Print, state: &mut State) {
    title(rt, "bases");
    base(rt, state, 4095);
    memory(rt, state);
    base(rt, state, 4096);
    base(rt, state, 18446744073709551615);
    memory(rt, state);
    base(rt, state, 4095);
    base(rt, state, 0);
    memory(rt, state);
    base(rt, state, 128);
    memory(rt, state);
    end(rt, state, 5);
}

// Request 4/14. The last but one of the names is a character too long, and the last is there already.
fn dollar_and_dot(rt: &impl Print, state: &mut State) {
    title(rt, "names with dollar and dot");
    lnk100_reset(state);
    force(rt, state, b"A$B");
    force(rt, state, b"IO.1");
    force(rt, state, b"A.....");
    force(rt, state, b"$A");
    force(rt, state, b".A");
    force(rt, state, b"A$B.C1D");
    force(rt, state, b"A$B");
    symbol(rt, state, 0);
    symbol(rt, state, 1);
    symbol(rt, state, 2);
    symbol(rt, state, 3);
    undefined(rt, state, 0);
    undefined(rt, state, 1);
    undefined(rt, state, 2);
    undefined(rt, state, 3);
    end(rt, state, 5);
}

fn full_table(rt: &impl Print, state: &mut State) {
    title(rt, "a full table");
    lnk100_reset(state);
    fill(state);
    symbol(rt, state, 0);
    symbol(rt, state, 255);
    symbol(rt, state, 256);
    undefined(rt, state, 255);
    undefined(rt, state, 256);
    force(rt, state, b"ONE");
    force(rt, state, b"AAA");
    force(rt, state, b"?");
    base(rt, state, 1);
    end(rt, state, 5);
}

fn prepared(rt: &impl Print, state: &mut State) {
    title(rt, "words and references");
    prepare(state);
    memory(rt, state);
    symbol(rt, state, 0);
    symbol(rt, state, 1);
    symbol(rt, state, 2);
    symbol(rt, state, 3);
    undefined(rt, state, 0);
    undefined(rt, state, 1);
    undefined(rt, state, 2);
    end(rt, state, 48);
    end(rt, state, 49);
    title(rt, "frozen");
    end(rt, state, 49);
    end(rt, state, 48);
    force(rt, state, b"NEW");
    force(rt, state, b"SQ");
    force(rt, state, b"?");
    base(rt, state, 7);
    base(rt, state, 4096);
    memory(rt, state);
    symbol(rt, state, 0);
    symbol(rt, state, 3);
    undefined(rt, state, 0);
    undefined(rt, state, 2);
    all_calls(rt, state);
    reset(rt, state);
    title(rt, "room to spare");
    prepare(state);
    end(rt, state, 60);
}

fn broken(rt: &impl Print, state: &mut State) {
    title(rt, "broken");
    prepare(state);
    set(state, 2, 1);
    force(rt, state, b"NEW");
    force(rt, state, b"SQ");
    force(rt, state, b"?");
    base(rt, state, 7);
    base(rt, state, 4096);
    end(rt, state, 4);
    end(rt, state, 64);
    memory(rt, state);
    symbol(rt, state, 0);
    symbol(rt, state, 3);
    undefined(rt, state, 0);
    undefined(rt, state, 2);
    all_calls(rt, state);
    reset(rt, state);
}

// The largest next address, value and text, at the last address.
fn limits(rt: &impl Print, state: &mut State) {
    title(rt, "limits");
    lnk100_reset(state);
    lnk100_force(state, b"A");
    define(state, 0, 131071);
    place(state, 4095, 18446744073709551615, 2);
    set(state, 1, 4096);
    memory(rt, state);
    symbol(rt, state, 0);
    undefined(rt, state, 0);
    end(rt, state, 16);
}

// One word, and the next address elsewhere.
fn alone(rt: &impl Print, state: &mut State, address: usize, next: u64) {
    lnk100_reset(state);
    place(state, address, 7, 1);
    set(state, 1, next);
    memory(rt, state);
    end(rt, state, 16);
}

fn highs(rt: &impl Print, state: &mut State) {
    title(rt, "a word alone: at 0, 7, 8 and 4,095");
    alone(rt, state, 0, 4096);
    alone(rt, state, 7, 1);
    alone(rt, state, 8, 8);
    alone(rt, state, 4095, 0);
}

fn never_reset(rt: &impl Print, state: &mut State) {
    title(rt, "never reset");
    force(rt, state, b"NEW");
    force(rt, state, b"?");
    base(rt, state, 7);
    base(rt, state, 4096);
    memory(rt, state);
    symbol(rt, state, 0);
    undefined(rt, state, 0);
    end(rt, state, 4);
    end(rt, state, 64);
    reset(rt, state);
}

// A sound state with one cell changed: every call on it, then RESET.
fn damaged(rt: &impl Print, label: &str, at: usize, value: u64) {
    let mut state = [0u64; STATE_CELLS];
    prepare(&mut state);
    set(&mut state, at, value);
    title(rt, label);
    all_calls(rt, &mut state);
    reset(rt, &mut state);
}

fn each_clause(rt: &impl Print) {
    damaged(rt, "sound: the spare cell as it was", 3, 0);
    damaged(rt, "count over 256", 0, 257);
    damaged(rt, "count of one more than the names", 0, 4);
    damaged(rt, "count of one less than the names", 0, 2);
    damaged(rt, "next address over 4,096", 1, 4097);
    damaged(rt, "broken and frozen, or no mark at all", 2, 3);
    damaged(rt, "spare cell", 3, 1);
    damaged(rt, "no name", 4, 0);
    damaged(rt, "name in small letters", 4, 0x6d61_696e_0000);
    damaged(rt, "name that begins with a digit", 4, 0x3141_0000_0000);
    damaged(rt, "name with a gap", 4, 0x4d00_494e_0000);
    damaged(rt, "name of seven characters", 4, 0x4d_4d41_494e_3030);
    damaged(rt, "a name twice", 5, 0x4d41_494e_0000);
    damaged(rt, "undefined value not 0", 261, 5);
    damaged(rt, "value over 65,535", 260, 131072);
    damaged(rt, "name of no symbol", 7, 0x5300_0000_0000);
    damaged(rt, "last name of no symbol", 259, 1);
    damaged(rt, "value of no symbol", 263, 65536);
    damaged(rt, "last value of no symbol", 515, 1);
    damaged(rt, "text of an unplaced word", 518, 1);
    damaged(rt, "last text of an unplaced word", 4611, 1);
    damaged(rt, "reference to no symbol", 4617, 5);
    damaged(rt, "last word's reference to no symbol", 8707, 258);
    damaged(rt, "a placed word unplaced, its text left", 4612, 0);
}

// A sound state in which SQ has another name: how that is listed, then every call.
fn renamed(rt: &impl Print, name: u64) {
    let mut state = [0u64; STATE_CELLS];
    prepare(&mut state);
    set(&mut state, 5, name);
    symbol(rt, &state, 1);
    undefined(rt, &state, 0);
    all_calls(rt, &mut state);
}

// Request 4/14: what soundness takes for a name.
fn stored_names(rt: &impl Print) {
    title(rt, "stored: A$B, IO.1, A....., A$, Z., A$B.C1, A$$$$$");
    renamed(rt, 0x4124_4200_0000);
    renamed(rt, 0x494f_2e31_0000);
    renamed(rt, 0x412e_2e2e_2e2e);
    renamed(rt, 0x4124_0000_0000);
    renamed(rt, 0x5a2e_0000_0000);
    renamed(rt, 0x4124_422e_4331);
    renamed(rt, 0x4124_2424_2424);
    damaged(rt, "stored: $A", 5, 0x2441_0000_0000);
    damaged(rt, "stored: .A", 5, 0x2e41_0000_0000);
    damaged(rt, "stored: A$B.C1D", 5, 0x41_2442_2e43_3144);
    damaged(rt, "stored: A, 0, dollar", 5, 0x4100_2400_0000);
    damaged(rt, "stored: A, 0, dot", 5, 0x4100_2e00_0000);
    damaged(rt, "stored: A#B", 5, 0x4123_4200_0000);
    damaged(rt, "stored: AB%", 5, 0x4142_2500_0000);
    damaged(rt, "stored: ABC-E", 5, 0x4142_432d_4500);
    damaged(rt, "stored: ABCDE/", 5, 0x4142_4344_452f);
}

// The first cells, or all of them where there are not so many.
fn front(cells: &mut [u64], size: usize) -> &mut [u64] {
    let n = size.min(cells.len());
    &mut cells[..n]
}

// Each call on so many cells of one value.
fn lend(rt: &impl Print, size: usize, cell: u64) {
    let _ = print!(rt; "cells {size} of {cell}:");
    for call in &CALLS {
        let mut cells = [cell; STATE_CELLS + 1];
        let mut out = UNTOUCHED;
        numbers(rt, &[call.number(front(&mut cells, size), &mut out)]);
        tell_touched(rt, cells.iter().all(|c| *c == cell), &out);
    }
    end_line(rt);
}

fn lengths(rt: &impl Print) {
    title(
        rt,
        "lengths: FORCE, BASE, MEMORY, SYMBOLS, UNDEFINED, END, RESET",
    );
    lend(rt, 0, 0);
    lend(rt, 8707, 0);
    lend(rt, 8707, 5);
    lend(rt, 8708, 0);
    lend(rt, 8708, 5);
    lend(rt, 8709, 0);
    lend(rt, 8709, 5);
}

fn main(rt: HostRuntime) {
    let mut state = [99u64; STATE_CELLS];
    never_reset(&rt, &mut state);
    fresh_state(&rt, &mut state);
    names(&rt, &mut state);
    bases(&rt, &mut state);
    dollar_and_dot(&rt, &mut state);
    full_table(&rt, &mut state);
    prepared(&rt, &mut state);
    broken(&rt, &mut state);
    limits(&rt, &mut state);
    highs(&rt, &mut state);
    each_clause(&rt);
    stored_names(&rt);
    lengths(&rt);
}
