// Printing of answers: their numbers, in the order of their structs.
use rules::answer::{CallAnswer, FeedAnswer, LoadAnswer};
use std::io::Print;
use test_script::say;

// What cannot be written is missed where the output is held to the stored one.
pub fn numbers(rt: &impl Print, all: &[u64]) {
    for n in all {
        let _ = print!(rt; " {n}");
    }
}

pub fn call_answer(rt: &impl Print, a: CallAnswer) {
    numbers(rt, &[a.number, a.line]);
}

pub fn piece_answer(rt: &impl Print, a: FeedAnswer) {
    numbers(rt, &[a.number, a.advice, a.line, a.column]);
}

pub fn load_answer(rt: &impl Print, a: LoadAnswer) {
    numbers(rt, &[a.number, a.line, a.column, a.rounds]);
}

pub fn title(rt: &impl Print, text: &str) {
    let _ = println!(rt; "-- {text}");
}

pub fn end_line(rt: &impl Print) {
    say(rt, b"\n");
}
