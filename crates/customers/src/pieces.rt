// A load in pieces.
ghost use Rattle.customers.specs.Pieces.{LoadedInTwo, Tried};

use linker::{lnk100_close, lnk100_drop, lnk100_feed, lnk100_open};
use rules::answer::{CallAnswer, FeedAnswer, LoadAnswer};

// A file that comes in two pieces.
pub fn load_in_two(
    feed: &mut [u64],
    state: &mut [u64],
    work: &mut [u64],
    first: &[u8],
    second: &[u8],
) -> LoadAnswer
    ensures { LoadedInTwo feed.old state.old work.old first.now second.now result feed.new state.new work.new }
{
    lnk100_open(feed);
    lnk100_feed(feed, first);
    lnk100_feed(feed, second);
    lnk100_close(feed, state, work)
}

// A file's first piece is tried for its faults, and nothing is loaded: what it advises, and the drop behind it.
pub fn try_piece(feed: &mut [u64], piece: &[u8]) -> (FeedAnswer, CallAnswer)
    ensures { Tried feed.old piece.now result.0 result.1 feed.new }
{
    lnk100_open(feed);
    let a = lnk100_feed(feed, piece);
    let d = lnk100_drop(feed);
    (a, d)
}
