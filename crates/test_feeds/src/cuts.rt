// A file of the script: cut in two at every place, in single bytes, and with empty pieces between. Of each, which pieces advise, and
// whether the close answers and leaves what one LOAD of the file does.
use crate::memory::{Feed, NO_FEED, State, USED_WORK, Work, feed_zero, holds, work_zero};
use crate::print::{end_line, load_answer, piece_answer};
use linker::{FEED_CELLS, WORK_CELLS, lnk100_close, lnk100_feed, lnk100_load, lnk100_open};
use rules::answer::{FeedAnswer, LoadAnswer};
use std::io::Print;
use test_script::{front, say};

// LOAD. The work memory is its own.
pub fn load(state: &mut State, file: &[u8]) -> LoadAnswer {
    let mut work = [0u64; WORK_CELLS];
    lnk100_load(state, &mut work, file)
}

// A file, the state that it is loaded from, and what its LOAD answers and leaves.
#[derive(Clone, Copy)]
struct Loaded<'a> {
    file: &'a [u8],
    from: &'a State,
    state: &'a State,
    answer: LoadAnswer,
}

// Of one cut: the answers of its two pieces, whether feed memory held just what was fed, and whether the close was as LOAD.
#[derive(Clone, Copy)]
struct Cut {
    first: FeedAnswer,
    second: FeedAnswer,
    held: bool,
    as_load: bool,
}

fn feed_piece(feed: &mut Feed, piece: &[u8]) -> FeedAnswer {
    lnk100_feed(front(feed, FEED_CELLS), piece)
}

// An array that is lent as a slice has its length, also where it is a copy.
fn close(feed: &mut Feed, state: &mut State, work: &mut Work) -> LoadAnswer {
    lnk100_close(front(feed, FEED_CELLS), state, front(work, WORK_CELLS))
}

// An open load of which nothing has been fed. Is it such a one?
fn open(feed: &mut Feed) -> bool {
    let a = lnk100_open(front(feed, FEED_CELLS));
    a.number == 0 && holds(feed, b"")
}

// From this state, which is afterwards as LOAD leaves it.
pub fn feed_file(rt: &impl Print, file: &[u8], state: &mut State) {
    let from = *state;
    let answer = load(state, file);
    say(rt, b"LOAD");
    load_answer(rt, answer);
    end_line(rt);
    let loaded = Loaded {
        file,
        from: &from,
        state,
        answer,
    };
    loaded.cut_everywhere(rt);
    let n = file.len();
    // Single bytes; and the same with an empty piece in front of each and behind the last.
    loaded.feed_pieces(rt, n, |k: usize| (k, k.saturating_add(1)));
    loaded.feed_pieces(rt, 2 * n + 1, |k: usize| (k / 2, k.saturating_add(1) / 2));
}

impl<'a> Loaded<'a> {
    // Does the close of what has been fed answer and leave what LOAD did, feed memory and work memory zero?
    fn closes_so(&self, feed: &mut Feed) -> bool {
        let mut state = *self.from;
        let mut work = USED_WORK;
        let a = close(feed, &mut state, &mut work);
        a == self.answer && state == *self.state && work_zero(&work, WORK_CELLS) && feed_zero(feed)
    }

    fn cut_at(&self, cut: usize) -> Cut {
        let (front, back) = self.file.split_at(cut.min(self.file.len()));
        let mut feed = NO_FEED;
        let empty = open(&mut feed);
        let first = feed_piece(&mut feed, front);
        let part = holds(&feed, front);
        let second = feed_piece(&mut feed, back);
        Cut {
            first,
            second,
            held: empty && part && holds(&feed, self.file),
            as_load: self.closes_so(&mut feed),
        }
    }

    // The answers of a cut's two pieces, where they are not those of the cut in front of it.
    fn cut_everywhere(&self, rt: &impl Print) {
        let mut last = None;
        let mut held: u64 = 0;
        let mut as_load: u64 = 0;
        for cut in 0..=self.file.len() {
            let now = self.cut_at(cut);
            let answers = Some((now.first, now.second));
            if last != answers {
                let _ = print!(rt; "cut from {cut}:");
                piece_answer(rt, now.first);
                say(rt, b",");
                piece_answer(rt, now.second);
                end_line(rt);
            }
            held = held.saturating_add(u64::from(now.held));
            as_load = as_load.saturating_add(u64::from(now.as_load));
            last = answers;
        }
        let cuts = self.file.len().saturating_add(1);
        let _ = println!(rt; "cuts {cuts}: feed held the bytes {held}, close as LOAD {as_load}");
    }

    // So many pieces, each from a position of the file to another. What is told of each is advice and refusals.
    fn feed_pieces<F: Fn(usize) -> (usize, usize)>(&self, rt: &impl Print, pieces: usize, piece: F)
        requires { F.IsAlwaysCallable piece }
    {
        let mut feed = NO_FEED;
        lnk100_open(front(&mut feed, FEED_CELLS));
        let mut held: u64 = 0;
        for k in 0..pieces {
            let (from, to) = piece(k);
            let a = feed_piece(&mut feed, self.file.get(from..to).unwrap_or(b""));
            if a.number != 0 || a.advice != 0 {
                let _ = print!(rt; "piece {}:", k + 1);
                piece_answer(rt, a);
                end_line(rt);
            }
            held = held.saturating_add(u64::from(holds(&feed, self.file.get(..to).unwrap_or(b""))));
        }
        let close = if self.closes_so(&mut feed) {
            "close as LOAD"
        } else {
            "close NOT as LOAD"
        };
        let _ = println!(rt; "pieces {pieces}: feed held the bytes {held}, {close}");
    }
}
