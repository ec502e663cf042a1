// Drives the four calls of a load in pieces: OPEN, FEED, CLOSE and DROP. A line of answers: the numbers of the answer in the order of its
// struct, then what became of the memories that the call was lent. What is printed is held to the file stdout beside src/.
//
// The runs come from standard input, the file stdin. A line of a run is one of these; a number in brackets may be left out or 0:
//
//   -- text        a title, which starts a run: printed, feed memory is made zero and the state is reset
//   : text         a remark: printed; = text: a label, the line goes on
//   # text         a comment; it is skipped, and so is an empty line
//   V              the file in the lines below, up to one that starts with a dot, is fed in every way, from the state; then it is loaded
//   L              LOAD of the lines below
//   T              the lines below come to stand at the front of the text that pieces are taken from
//   W, X n b       the text is lines of 63 spaces; its byte n is made b
//   O [c]          OPEN with c cells of feed memory
//   P n m [c]      FEED of the text's bytes n to m
//   N n k          k times FEED of 512 bytes, from n on; A k: of the first 512 bytes each time
//   D [c]          DROP
//   C [c] [s] [w]  CLOSE with c cells of feed memory, s of the state and w of work memory
//   K n            CLOSE, and LOAD of the text's first n bytes from an equal state
//   M n v, S n v   cell n of feed memory, or of the state, is made v
//   B n, F name    BASE, FORCE; R RESET, E END, H MEMORY
//
// A file's stop `.cut` leaves the LF in front of it out of the file. In a file ^ stands for a CR and ~ for a TAB.
//
// Feed memory of wrong lengths and damaged feed memory are not in the script: damage.rt has them.
#![tactic(auto)]

mod bench;
mod cuts;
mod damage;
mod memory;
mod print;

use bench::Bench;
use damage::damage;
use test_script::{Script, read_script};

fn meant(byte: u8) -> u8 {
    match byte {
        b'^' => b'\r',
        b'~' => b'\t',
        _ => byte,
    }
}

fn main(rt: HostRuntime) {
    let mut read = [0u8; 65536];
    let size = read_script(&mut rt.stdin(), &mut read);
    for byte in read.iter_mut() {
        *byte = meant(*byte);
    }
    let mut script = Script::new(&read[..size]);
    let mut bench = Bench::new();
    for _ in 0..size {
        let Some(line) = script.next() else {
            break;
        };
        bench.obey(&rt, line, &mut script);
    }
    damage(&rt);
}
