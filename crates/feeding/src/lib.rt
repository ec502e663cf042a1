// A load in pieces: opened, fed, and closed or dropped. Each call tests feed memory, in document 02's order, and asks nothing of what it
// is lent. No call reads on from where the last one stood: what stands in feed memory is all that there is, and it may be anything, so
// that what a piece has to know of the lines before it is read out of the bytes.
#![tactic(auto)]

pub mod close;
pub mod piece;

ghost use Rattle.std.specs.Prelude.{◌≡◌, get_or};
ghost use Rattle.rules.specs.Answers.{answer_number};
ghost use Rattle.rules.specs.Calls.{call_answer};
ghost use Rattle.rules.specs.Feed.{open_feed, drop_feed};
ghost use Rattle.feed.specs.Layout.{lent_feed};
ghost use Rattle.feed.specs.Held.{Sound};
ghost use Rattle.feed.specs.Promise.{FeedCalled};
ghost use Rattle.feeding.specs.Fed.{mark_of, OpenLoad};

use feed::layout::TOTAL;
use feed::memory::check;
use rules::answer::{CallAnswer, Reason};

// How many bytes have been fed, if a load is open.
fn bytes_fed(feed: &[u64]) -> Option<usize>
    requires { Sound feed.now }
    ensures { get_or feed.now 0 0 ≡ mark_of result }
{
    feed[TOTAL].checked_sub(1).map(|total| total as usize)
}

// The same, or the reason why a close and a drop are refused.
#[tactic(auto, using(crate::proofs::FeedingLaws::unsound_unopened))]
fn open_load(feed: &[u64]) -> Result<usize, Reason>
    ensures { OpenLoad feed.now result }
{
    check(feed)?;
    bytes_fed(feed).ok_or(Reason::Feed)
}

#[tactic(auto, using(crate::proofs::FeedingLaws::open_unsound))]
fn try_open(feed: &mut [u64]) -> Result<(), Reason>
    ensures { FeedCalled (open_feed (lent_feed feed.old)) feed.old (call_answer (answer_number result)) feed.new }
{
    check(feed)?;
    if let Some(_) = bytes_fed(feed) {
        return Err(Reason::Feed);
    }
    feed[TOTAL] = 1;
    Ok(())
}

// A load is opened.
pub fn open(feed: &mut [u64]) -> CallAnswer
    ensures { FeedCalled (open_feed (lent_feed feed.old)) feed.old result feed.new }
{
    try_open(feed).into()
}

#[tactic(auto, using(crate::proofs::FeedingLaws::drop_unopened))]
fn try_drop(feed: &mut [u64]) -> Result<(), Reason>
    ensures { FeedCalled (drop_feed (lent_feed feed.old)) feed.old (call_answer (answer_number result)) feed.new }
{
    open_load(feed)?;
    feed.fill(0);
    Ok(())
}

// The open load is dropped.
pub fn drop_feed(feed: &mut [u64]) -> CallAnswer
    ensures { FeedCalled (drop_feed (lent_feed feed.old)) feed.old result feed.new }
{
    try_drop(feed).into()
}
