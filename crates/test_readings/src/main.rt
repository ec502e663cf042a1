// Reads object files and prints what each is read into: the manuals' samples, every kind of line and of fault, and the limits.
// The files come from standard input, the file stdin beside src/; what is printed is held to the file stdout. A line there is
// one of these:
//
//   -- label    a case: the file is in the lines below, up to one that starts with a dot
//   h header    a case: the header alone
//   m header    a case: the header in a module, at line 3
//   e record    a case: a record, at line 4, of an ENTRY block; x of EXT, c of CODE, d of DBDB, i of DBIB, p of FPB
//   # text      a comment; it is skipped, and so is an empty line
//
// A file's line `\n text` is that text n times, without a line end. In such a text, a header and a record \n, \r and \xhh are bytes.
#![tactic(auto)]

mod build;
mod cases;
mod show;

use cases::play_line;
use test_script::{Script, read_script};

fn main(rt: HostRuntime) {
    let mut text = [0u8; 65536];
    let size = read_script(&mut rt.stdin(), &mut text);
    let mut script = Script::new(&text[..size]);
    for _ in 0..size {
        let Some(line) = script.next() else {
            break;
        };
        play_line(&rt, line, &mut script);
    }
}
