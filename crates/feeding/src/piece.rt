// A piece of a file: it is put behind what has been fed, and the first fault of the whole lines is told.
ghost use Rattle.std.specs.Prelude.{◌+◌, ◌≤◌, ◌++◌, ◌≡◌, length, get_or};
ghost use Rattle.rules.specs.Limits.{longest_file, longest_piece};
ghost use Rattle.rules.specs.Feed.{fed, advised, advice, take_piece, feed_piece};
ghost use Rattle.rules.specs.Outcomes.{piece_told};
ghost use Rattle.feed.specs.Layout.{feed_size, bytes_in, lent_feed};
ghost use Rattle.feed.specs.Held.{Sound};
ghost use Rattle.feed.specs.Promise.{FeedCalled};

use crate::bytes_fed;
use advising::{early_fault, lines_end};
use feed::bytes::{put_bytes, unpack};
use feed::layout::{TOO_MANY, TOTAL};
use feed::memory::check;
use rules::answer::{FeedAnswer, Reason};
use rules::limits::{LONGEST_FILE, LONGEST_PIECE};
use rules::reading::Reading;

// The advice of a piece that has been put behind the first `old` bytes. Without an LF it brings none.
fn advise(feed: &[u64], old: usize, piece: &[u8]) -> Reading
    requires feed_len { length feed.now ≡ feed_size }
    requires piece_bound { old + length piece.now ≤ longest_file }
    requires piece_value { bytes_in feed.now (old + length piece.now) ≡ bytes_in feed.now old ++ piece.now }
    ensures { result ≡ advice (bytes_in feed.now old) piece.now }
{
    let whole = lines_end(piece, piece.len());
    if whole == 0 {
        return Ok(());
    }
    let end = old + whole;
    let mut file = [0u8; TOO_MANY];
    unpack(feed, (end + 7) / 8, &mut file);
    early_fault(&file, old, end)
}

// A piece for an open load, behind the first `old` bytes.
fn take_piece(feed: &mut [u64], old: usize, piece: &[u8]) -> Reading
    requires sound { Sound feed.old }
    requires open { get_or feed.old 0 0 ≡ old + 1 }
    requires piece_len_bound { length piece.now ≤ longest_piece }
    ensures { FeedCalled (take_piece (fed (bytes_in feed.old old)) piece.now) feed.old (advised result) feed.new }
{
    let total = old + piece.len();
    if LONGEST_FILE < total {
        feed.fill(0);
        feed[TOTAL] = TOO_MANY as u64 + 1;
        return Ok(());
    }
    put_bytes(feed, old, piece);
    feed[TOTAL] = total as u64 + 1;
    advise(feed, old, piece)
}

#[tactic(auto, using(crate::proofs::FeedingLaws::piece_unsound))]
fn try_piece(feed: &mut [u64], piece: &[u8]) -> Result<Reading, Reason>
    ensures { FeedCalled (feed_piece (lent_feed feed.old) piece.now) feed.old (piece_told result) feed.new }
{
    check(feed)?;
    if LONGEST_PIECE < piece.len() {
        return Err(Reason::Feed);
    }
    let Some(old) = bytes_fed(feed) else {
        return Err(Reason::Feed);
    };
    Ok(take_piece(feed, old, piece))
}

// A piece.
pub fn feed_piece(feed: &mut [u64], piece: &[u8]) -> FeedAnswer
    ensures { FeedCalled (feed_piece (lent_feed feed.old) piece.now) feed.old result feed.new }
{
    try_piece(feed, piece).into()
}
