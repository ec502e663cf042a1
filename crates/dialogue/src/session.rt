// The memory of a dialogue, and its commands.
use crate::command::Command;
use crate::files::{deliver, not_found, read_file, write_file};
use crate::input::TooLong;
use crate::listing::{
    put_undefined, table_rows, undefined_rows, write_end, write_high, write_table,
};
use crate::page::{Page, say};
use crate::refusals::tell;
use crate::tape::feed_file;
use linker::{
    FEED_CELLS, STATE_CELLS, WORK_CELLS, lnk100_base, lnk100_close, lnk100_end, lnk100_force,
    lnk100_load, lnk100_memory, lnk100_reset, lnk100_undefined,
};
use rules::answer::LoadAnswer;
use rules::limits::LONGEST_FILE;
use std::io::{Eprint, Print};
use std::rt::Files;
use text::numbers::read_number;

// One byte more than a file may have, so that a longer one is told.
const ROOM: usize = LONGEST_FILE + 1;

// What the calls are lent, and room for what a command reads or writes: the file of L, the image of E, the text of the others.
#[derive(Drop)]
pub struct Session {
    state: [u64; STATE_CELLS],
    work: [u64; WORK_CELLS],
    feed: [u64; FEED_CELLS],
    room: [u8; ROOM],
}

impl Session {
    // The zeros are the fresh state, and a feed with no open load.
    pub fn new() -> Self {
        Session {
            state: [0; STATE_CELLS],
            work: [0; WORK_CELLS],
            feed: [0; FEED_CELLS],
            room: [0; ROOM],
        }
    }

    // A command that stands alone.
    pub fn obey(&mut self, rt: &(impl Print + Eprint), command: Command) {
        match command {
            Command::Nothing => (),
            Command::Reset => self.reset(rt),
            Command::Memory => self.memory(rt),
            _ => say(rt, b"?\n"),
        }
    }

    // A command on its operand; there is none where the line behind the command has no text, is too long, or is missing.
    pub fn obey_on(
        &mut self,
        rt: &(impl Files + Print + Eprint),
        command: Command,
        line: Option<Result<&[u8], TooLong>>,
    ) {
        let operand = match line {
            Some(Ok(text)) => text,
            _ => b"",
        };
        if operand.is_empty() {
            say(rt, b"?\n");
            return;
        }
        match command {
            Command::Load => self.load(rt, operand),
            Command::Tape => self.load_tape(rt, operand),
            Command::Force => self.force(rt, operand),
            Command::Base => self.base(rt, operand),
            Command::Symbols => self.symbols(rt, operand),
            Command::Undefined => self.undefined(rt, operand),
            Command::End => self.end(rt, operand),
            _ => say(rt, b"?\n"),
        }
    }

    fn reset(&mut self, rt: &(impl Print + Eprint)) {
        let a = lnk100_reset(&mut self.state);
        tell(rt, a.into());
    }

    fn memory(&mut self, rt: &(impl Print + Eprint)) {
        let a = lnk100_memory(&self.state);
        if tell(rt, a.into()) {
            let mut page = Page::new(&mut self.room);
            let _ = write_high(&mut page, a.high);
            say(rt, page.text());
        }
    }

    fn load(&mut self, rt: &(impl Files + Print + Eprint), path: &[u8]) {
        let Some(length) = read_file(rt, path, &mut self.room) else {
            not_found(rt);
            return;
        };
        let a = lnk100_load(&mut self.state, &mut self.work, &self.room[..length]);
        self.tell_load(rt, a);
    }

    // The same for a file that comes in pieces.
    fn load_tape(&mut self, rt: &(impl Files + Print + Eprint), path: &[u8]) {
        if feed_file(rt, &mut self.feed, path).is_none() {
            not_found(rt);
            return;
        }
        let a = lnk100_close(&mut self.feed, &mut self.state, &mut self.work);
        self.tell_load(rt, a);
    }

    fn tell_load(&mut self, rt: &(impl Print + Eprint), a: LoadAnswer) {
        if tell(rt, a.into()) && lnk100_undefined(&self.state, 0).none == 1 {
            say(rt, b"LOAD COMPLETE\n");
        }
    }

    fn force(&mut self, rt: &(impl Print + Eprint), name: &[u8]) {
        let a = lnk100_force(&mut self.state, name);
        tell(rt, a.into());
    }

    fn base(&mut self, rt: &(impl Print + Eprint), operand: &[u8]) {
        let Some(address) = read_number(operand) else {
            say(rt, b"?\n");
            return;
        };
        let a = lnk100_base(&mut self.state, u64::from(address));
        tell(rt, a.into());
    }

    // Never inlined: its rows would else stand in the session's own frame, below LOAD's, and the program would need more stack.
    #[inline(never)]
    fn symbols(&mut self, rt: &(impl Files + Print + Eprint), path: &[u8]) {
        let (a, rows) = table_rows(&self.state);
        if tell(rt, a.into()) {
            let mut page = Page::new(&mut self.room);
            let _ = write_table(&mut page, a.high, &rows);
            deliver(rt, path, page.text());
        }
    }

    // The same.
    #[inline(never)]
    fn undefined(&mut self, rt: &(impl Files + Print + Eprint), path: &[u8]) {
        let (a, rows) = undefined_rows(&self.state);
        if tell(rt, a.into()) {
            let mut page = Page::new(&mut self.room);
            put_undefined(&mut page, &rows);
            deliver(rt, path, page.text());
        }
    }

    // A refused END leaves the file alone. END can be asked again where the file could not be written.
    fn end(&mut self, rt: &(impl Files + Print + Eprint), path: &[u8]) {
        let a = lnk100_end(&mut self.state, &mut self.room);
        if !tell(rt, a.into()) {
            return;
        }
        let image = self.room.get(..a.length as usize).unwrap_or(&self.room);
        if write_file(rt, path, image).is_none() {
            not_found(rt);
            return;
        }
        let mut page = Page::new(&mut self.room);
        let _ = write_end(&mut page, &self.state);
        say(rt, page.text());
    }
}
