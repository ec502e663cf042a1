// The memories that the calls are lent, and the lines of the script on them.
use crate::cuts::{feed_file, load};
use crate::memory::{Feed, NO_FEED, NO_STATE, State, USED_WORK, tell_feed, tell_state, tell_work};
use crate::print::{call_answer, end_line, load_answer, numbers, piece_answer};
use linker::{
    FEED_CELLS, STATE_CELLS, WORK_CELLS, lnk100_base, lnk100_close, lnk100_drop, lnk100_end,
    lnk100_feed, lnk100_force, lnk100_memory, lnk100_open, lnk100_reset,
};
use std::io::Print;
use test_script::{Script, front, letter, number_of, operand, say};

// 129 pieces of 512.
const TEXT: usize = 66048;

#[derive(Drop)]
pub struct Bench {
    // The text that pieces are taken from.
    text: [u8; TEXT],
    feed: Feed,
    state: State,
}

// The k-th of the numbers that stand in a line, 0 where there are not so many.
fn nth(numbers: &[u8], k: usize) -> usize {
    let digits = numbers.split(|byte| *byte == b' ').nth(k);
    number_of(digits.unwrap_or(b"")) as usize
}

// How many cells are lent: the right number of them, if none is given.
fn cells_lent(numbers: &[u8], k: usize, right: usize) -> usize {
    match nth(numbers, k) {
        0 => right,
        n => n,
    }
}

// The file of a stop `.cut` lacks its last LF.
fn file_below<'a>(script: &mut Script<'a>) -> &'a [u8] {
    let file = script.file();
    if file.stop.starts_with(b".c") {
        return file.text.strip_suffix(b"\n").unwrap_or(file.text);
    }
    file.text
}

// The bytes of the text from one position to another; all where the two do not lie so.
fn part(text: &[u8], from: usize, to: usize) -> &[u8] {
    text.get(from..to).unwrap_or(text)
}

impl Bench {
    pub fn new() -> Self {
        Bench {
            text: [0; TEXT],
            feed: NO_FEED,
            state: NO_STATE,
        }
    }

    // A line of a run; the file of V, L and T stands below it.
    pub fn obey(&mut self, rt: &impl Print, line: &[u8], script: &mut Script) {
        match letter(line) {
            b'V' => feed_file(rt, file_below(script), &mut self.state),
            b'L' => self.load(rt, file_below(script)),
            b'T' => self.put_file(file_below(script)),
            b'-' => self.start(rt, line),
            b':' => say(rt, line),
            b'=' => {
                say(rt, operand(line));
                say(rt, b": ");
            }
            _ => {
                self.obey_feed(rt, line);
                self.obey_state(rt, line);
            }
        }
    }

    // A line on the text and the feed.
    fn obey_feed(&mut self, rt: &impl Print, line: &[u8]) {
        let given = operand(line);
        match letter(line) {
            b'W' => self.rule_lines(),
            b'X' => put(&mut self.text, nth(given, 0), (nth(given, 1) % 256) as u8),
            b'O' => open(rt, &mut self.feed, cells_lent(given, 0, FEED_CELLS)),
            b'P' => self.piece(
                rt,
                cells_lent(given, 2, FEED_CELLS),
                nth(given, 0),
                nth(given, 1),
            ),
            b'N' => self.pieces_from(rt, nth(given, 0) % 100000, nth(given, 1) % 10000),
            b'A' => self.piece_again(rt, nth(given, 0) % 10000),
            b'D' => self.drop_open(rt, cells_lent(given, 0, FEED_CELLS)),
            b'C' => {
                self.close(rt, given);
                end_line(rt);
            }
            b'K' => self.close_fed(rt, nth(given, 0)),
            b'M' => put(&mut self.feed, nth(given, 0), nth(given, 1) as u64),
            _ => (),
        }
    }

    // A line on the state alone.
    fn obey_state(&mut self, rt: &impl Print, line: &[u8]) {
        let given = operand(line);
        match letter(line) {
            b'S' => put(&mut self.state, nth(given, 0), nth(given, 1) as u64),
            b'B' => {
                say(rt, b"BASE");
                call_answer(rt, lnk100_base(&mut self.state, nth(given, 0) as u64));
                end_line(rt);
            }
            b'F' => {
                say(rt, b"FORCE");
                call_answer(rt, lnk100_force(&mut self.state, given));
                end_line(rt);
            }
            b'R' => {
                say(rt, b"RESET");
                call_answer(rt, lnk100_reset(&mut self.state));
                end_line(rt);
            }
            b'E' => self.end(rt),
            b'H' => self.memory(rt),
            _ => (),
        }
    }

    // ---- the text

    // Lines of 63 spaces: 1,024 of them are 65,536 bytes.
    fn rule_lines(&mut self) {
        for (i, byte) in self.text.iter_mut().enumerate() {
            *byte = if i % 64 == 63 { b'\n' } else { b' ' };
        }
    }

    fn put_file(&mut self, file: &[u8]) {
        for (to, byte) in self.text.iter_mut().zip(file) {
            *to = *byte;
        }
    }

    // ---- the calls on the feed

    fn start(&mut self, rt: &impl Print, title: &[u8]) {
        say(rt, title);
        self.feed = NO_FEED;
        lnk100_reset(&mut self.state);
    }

    // Where the bytes in front of the piece are what has been fed.
    fn piece(&mut self, rt: &impl Print, size: usize, from: usize, to: usize) {
        let before = self.feed;
        let piece = part(&self.text, from, to);
        let _ = print!(rt; "FEED {}:", piece.len());
        piece_answer(rt, lnk100_feed(front(&mut self.feed, size), piece));
        tell_feed(rt, &before, &self.feed, part(&self.text, 0, to));
        end_line(rt);
    }

    // Behind what has been fed, which is the text up to a position.
    fn pieces_from(&mut self, rt: &impl Print, from: usize, pieces: usize) {
        let before = self.feed;
        self.feed_quiet(
            rt,
            pieces,
            |k: usize| from.saturating_add(k.saturating_mul(512)),
        );
        tell_feed(
            rt,
            &before,
            &self.feed,
            part(
                &self.text,
                0,
                from.saturating_add(pieces.saturating_mul(512)),
            ),
        );
        end_line(rt);
    }

    // The first 512 bytes again and again.
    fn piece_again(&mut self, rt: &impl Print, pieces: usize) {
        let before = self.feed;
        self.feed_quiet(rt, pieces, |_| 0);
        tell_feed(rt, &before, &self.feed, b"");
        end_line(rt);
    }

    // Pieces of 512: how many answer 0 0 0 0.
    fn feed_quiet<F: Fn(usize) -> usize>(&mut self, rt: &impl Print, pieces: usize, start: F)
        requires { F.IsAlwaysCallable start }
    {
        let mut quiet: u64 = 0;
        for k in 0..pieces {
            let from = start(k);
            let piece = part(&self.text, from, from.saturating_add(512));
            let a = lnk100_feed(front(&mut self.feed, FEED_CELLS), piece);
            let is_quiet = a.number == 0 && a.advice == 0 && a.line == 0 && a.column == 0;
            quiet = quiet.saturating_add(u64::from(is_quiet));
        }
        let _ = print!(rt; "FEED 512, {pieces} times: 0 0 0 0 {quiet} times");
    }

    fn drop_open(&mut self, rt: &impl Print, size: usize) {
        let before = self.feed;
        say(rt, b"DROP");
        call_answer(rt, lnk100_drop(front(&mut self.feed, size)));
        tell_feed(rt, &before, &self.feed, b"");
        end_line(rt);
    }

    // The memories of a close, so many cells of each, and its answer. Work memory is all 5 before.
    fn close(&mut self, rt: &impl Print, sizes: &[u8]) {
        let feed_before = self.feed;
        let state_before = self.state;
        let mut work = USED_WORK;
        let work_size = cells_lent(sizes, 2, WORK_CELLS);
        say(rt, b"CLOSE");
        let a = lnk100_close(
            front(&mut self.feed, cells_lent(sizes, 0, FEED_CELLS)),
            front(&mut self.state, cells_lent(sizes, 1, STATE_CELLS)),
            front(&mut work, work_size),
        );
        load_answer(rt, a);
        tell_feed(rt, &feed_before, &self.feed, b"");
        tell_state(rt, &state_before, &self.state);
        tell_work(rt, &work, work_size);
    }

    // A close, and one LOAD of the text's first bytes from an equal state.
    fn close_fed(&mut self, rt: &impl Print, to: usize) {
        let mut other = self.state;
        self.close(rt, b"");
        say(rt, b"; LOAD");
        load_answer(rt, load(&mut other, part(&self.text, 0, to)));
        say(
            rt,
            if self.state == other {
                b", same state\n".as_slice()
            } else {
                b", other state\n"
            },
        );
    }

    // ---- the calls on the state

    fn load(&mut self, rt: &impl Print, file: &[u8]) {
        let before = self.state;
        say(rt, b"LOAD");
        load_answer(rt, load(&mut self.state, file));
        tell_state(rt, &before, &self.state);
        end_line(rt);
    }

    fn end(&mut self, rt: &impl Print) {
        let mut out = [0u8; 64];
        let a = lnk100_end(&mut self.state, &mut out);
        say(rt, b"END");
        numbers(rt, &[a.number, a.line, a.length]);
        end_line(rt);
    }

    fn memory(&self, rt: &impl Print) {
        let m = lnk100_memory(&self.state);
        say(rt, b"MEMORY");
        numbers(rt, &[m.number, m.line, m.high]);
        end_line(rt);
    }
}

fn put<T: Copy>(cells: &mut [T], at: usize, value: T) {
    if let Some(cell) = cells.get_mut(at) {
        *cell = value;
    }
}

pub fn open(rt: &impl Print, feed: &mut Feed, size: usize) {
    let before = *feed;
    say(rt, b"OPEN");
    call_answer(rt, lnk100_open(front(feed, size)));
    tell_feed(rt, &before, feed, b"");
    end_line(rt);
}
