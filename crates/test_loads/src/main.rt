// Plays runs of LOAD and the other calls, and prints what each call answers and leaves. The runs come from standard input, the
// file stdin beside src/; what is printed is held to the file stdout. A line of a run is one of these:
//
//   -- text      a title, which starts a run: printed, and the state is reset
//   : text       a remark: printed
//   # text       a comment; it is skipped, and so is an empty line
//   L            LOAD of the lines below, up to one that starts with a dot; `L n`: with n cells of work memory
//   C n          LOAD of the lines below with n cells, all zero, as the state
//   Z n          LOAD of n line ends
//   R, E         RESET; END with an output of 512 bytes
//   B n, F name  BASE, FORCE
//   N n          FORCE of n names, at most 255, that no run has in its files
//   S            the symbols, the undefined ones, HIGH and the image
//   M            HIGH and the image
//   K, G         keeps the state; goes back to it
//   D n          puts 7 into cell n of the state
#![tactic(auto)]

mod bench;
mod leaving;
mod listing;
mod loads;

use bench::Bench;
use test_script::{Script, read_script};

fn main(rt: HostRuntime) {
    let mut text = [0u8; 65536];
    let size = read_script(&mut rt.stdin(), &mut text);
    let mut script = Script::new(&text[..size]);
    let mut bench = Bench::new();
    for _ in 0..size {
        let Some(line) = script.next() else {
            break;
        };
        bench.obey(&rt, line, &mut script);
    }
}
