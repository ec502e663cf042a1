// A file that comes slowly, as from a paper tape reader: it is fed in pieces, each as soon as it is there.
use crate::files::open_file;
use crate::refusals::advise;
use linker::{lnk100_drop, lnk100_feed, lnk100_open};
use rules::limits::LONGEST_PIECE;
use std::io::{Eprint, Print, Read};
use std::rt::Files;

// Each read waits for the reader; what it gives is fed, and advice on it is told before the next. A feed that refused a piece would refuse
// the close too, which tells it.
fn feed_all<S: Read>(rt: &(impl Print + Eprint), source: &mut S, feed: &mut [u64]) -> Option<()> {
    let mut piece = [0u8; LONGEST_PIECE];
    for _ in 0..u64::MAX {
        let n = source.read(&mut piece).ok()?;
        if n == 0 {
            break;
        }
        advise(rt, lnk100_feed(feed, &piece[..n]));
    }
    Some(())
}

// Opens a load and feeds it the whole file. Nothing where the file cannot be opened or read to its end: then no load is open.
pub fn feed_file(rt: &(impl Files + Print + Eprint), feed: &mut [u64], path: &[u8]) -> Option<()> {
    let mut source = open_file(rt, path)?;
    lnk100_open(feed);
    let fed = feed_all(rt, &mut source, feed);
    if fed.is_none() {
        lnk100_drop(feed);
    }
    fed
}
