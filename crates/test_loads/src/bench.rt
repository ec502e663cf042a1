// A state, the calls on it, and one that is kept.
use crate::leaving::tell_state;
use crate::listing::{list_image, list_symbols};
use crate::loads::{load, load_blank, load_into};
use linker::{STATE_CELLS, WORK_CELLS, lnk100_base, lnk100_end, lnk100_force, lnk100_reset};
use rules::answer::CallAnswer;
use std::io::Print;
use test_script::{Script, letter, number_of, operand, say};

#[derive(Drop)]
pub struct Bench {
    state: [u64; STATE_CELLS],
    kept: [u64; STATE_CELLS],
}

impl Bench {
    pub fn new() -> Self {
        Bench {
            state: [0; STATE_CELLS],
            kept: [0; STATE_CELLS],
        }
    }

    // A line of a run; the file of L and of C stands below it.
    pub fn obey(&mut self, rt: &impl Print, line: &[u8], script: &mut Script) {
        let given = operand(line);
        match letter(line) {
            b'-' => self.start(rt, line),
            b':' => say(rt, line),
            b'R' => self.reset(rt),
            b'E' => self.end(rt),
            b'B' => self.base(rt, given),
            b'F' => self.force(rt, given),
            b'N' => self.force_names(rt, given),
            b'Z' => load_blank(rt, &mut self.state, number_of(given) as usize),
            b'L' if given.is_empty() => {
                load(rt, &mut self.state, WORK_CELLS, script.file().text)
            }
            b'L' => load(
                rt,
                &mut self.state,
                number_of(given) as usize,
                script.file().text,
            ),
            b'C' => load_into(rt, number_of(given) as usize, script.file().text),
            b'S' => {
                list_symbols(rt, &self.state);
                list_image(rt, &self.state);
            }
            b'M' => list_image(rt, &self.state),
            b'K' => self.kept = self.state,
            b'G' => self.state = self.kept,
            b'D' => self.damage(number_of(given) as usize),
            b'#' | b'\n' => (),
            _ => say(rt, b"?\n"),
        }
    }

    // The title of a run, which starts from a fresh state.
    fn start(&mut self, rt: &impl Print, title: &[u8]) {
        say(rt, title);
        lnk100_reset(&mut self.state);
    }

    fn reset(&mut self, rt: &impl Print) {
        let before = self.state;
        let a = lnk100_reset(&mut self.state);
        say(rt, b"RESET");
        tell(rt, a);
        tell_state(rt, &before, &self.state);
    }

    fn base(&mut self, rt: &impl Print, digits: &[u8]) {
        let before = self.state;
        let a = lnk100_base(&mut self.state, number_of(digits));
        say(rt, b"BASE ");
        say(rt, digits);
        tell(rt, a);
        tell_state(rt, &before, &self.state);
    }

    fn force(&mut self, rt: &impl Print, name: &[u8]) {
        let before = self.state;
        let a = lnk100_force(&mut self.state, name);
        say(rt, b"FORCE ");
        say(rt, name);
        tell(rt, a);
        tell_state(rt, &before, &self.state);
    }

    fn end(&mut self, rt: &impl Print) {
        let before = self.state;
        let mut out = [0u8; 512];
        let a = lnk100_end(&mut self.state, &mut out);
        let _ = print!(rt; "END: {}, line {}, length {}", a.number, a.line, a.length);
        tell_state(rt, &before, &self.state);
    }

    // FORCE of so many names, at most 255, of 256, QAA to QPP, from the last.
    fn force_names(&mut self, rt: &impl Print, digits: &[u8]) {
        let before = self.state;
        for n in (0..(number_of(digits) % 256) as u8).rev() {
            lnk100_force(&mut self.state, &[b'Q', b'A' + n / 16, b'A' + n % 16]);
        }
        say(rt, b"FORCE of names, ");
        say(rt, digits);
        tell_state(rt, &before, &self.state);
    }

    fn damage(&mut self, at: usize) {
        if let Some(cell) = self.state.get_mut(at) {
            *cell = 7;
        }
    }
}

fn tell(rt: &impl Print, a: CallAnswer) {
    let _ = print!(rt; ": {}, line {}", a.number, a.line);
}
