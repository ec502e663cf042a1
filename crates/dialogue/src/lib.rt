// The dialogue of the program `lnk100` on standard input and output: command lines in, calls of the linker, lines out.
//
// command.rt says what a line asks for, input.rt reads the lines, session.rt has the memory and carries the commands out, with tape.rt
// for a file that comes in pieces; listing.rt and refusals.rt say what is printed, page.rt puts it together, files.rt reads and writes.
#![tactic(auto)]

mod command;
mod files;
mod input;
mod listing;
mod page;
mod refusals;
mod session;
mod tape;

use command::Command;
use input::Lines;
use page::say;
use session::Session;
use std::env::FillError;
use std::io::{Eprint, Input, Print, Read};
use std::rt::{Env, Files};

// A command that takes an operand takes it from the line behind it.
fn talk<S: Read + Drop>(
    rt: &(impl Files + Print + Eprint),
    lines: &mut Lines<S>,
    session: &mut Session,
) {
    for _ in 0..u64::MAX {
        let Some(line) = lines.next_line(rt) else {
            return;
        };
        let command = Command::of(line);
        if command == Command::Quit {
            return;
        }
        if command.has_operand() {
            session.obey_on(rt, command, lines.next_line(rt));
        } else {
            session.obey(rt, command);
        }
        say(rt, b"*\n");
    }
}

// The whole dialogue, in memory of its own.
pub fn run(rt: &(impl Files + Input + Print + Eprint)) {
    let mut session = Session::new();
    let mut lines = Lines::new(rt.reader());
    say(rt, b"LNK100 REL. 1.00\n*\n");
    talk(rt, &mut lines, &mut session);
    say(rt, b"END LNK100\n");
}

// Is there an argument behind the program's name? Also one that does not fit, or is no text, is one.
fn has_argument(rt: &impl Env) -> bool {
    let mut bytes = [0u8; 1];
    !matches!(rt.arg(1, &mut bytes), Err(FillError::NotPresent))
}

// The program: the dialogue, if it was started without arguments. It takes none, so with any it only says how it is used.
pub fn start(rt: &(impl Files + Input + Print + Eprint + Env)) {
    if has_argument(rt) {
        let _ = eprintln!(rt;
            "usage: lnk100 < COMMANDS: it takes no arguments, but a command (L I F B R M S U E X) or operand on each line"
        );
        return;
    }
    run(rt);
}
