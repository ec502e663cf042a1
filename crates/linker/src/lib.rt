// The public calls. linker_c exports them for C and Rust.
#![tactic(auto)]

ghost use Rattle.std.specs.Prelude.{◌≡◌};
ghost use Rattle.rules.specs.Calls.{load, reset, base, force, end, memory, symbols, undefined};
ghost use Rattle.rules.specs.Feed.{open_feed, feed_piece, close_feed, drop_feed};
ghost use Rattle.rules.specs.History.{work_fits};
ghost use Rattle.feed.specs.Layout.{lent_feed};
ghost use Rattle.feed.specs.Promise.{FeedCalled, Closed};
ghost use Rattle.state.specs.Layout.{lent};
ghost use Rattle.state.specs.Promise.{Called, LoadCalled, Ended};

use rules::answer::{
    CallAnswer, EndAnswer, FeedAnswer, LoadAnswer, MemoryAnswer, SymbolAnswer, UndefinedAnswer,
};
use state::layout::SIZE;
use tables::cells::PART_ROOM;

// The fixed lengths of state, work and feed memory.
pub const STATE_CELLS: usize = SIZE;

pub const WORK_CELLS: usize = PART_ROOM;

pub const FEED_CELLS: usize = feed::layout::SIZE;

pub fn lnk100_load(state: &mut [u64], work: &mut [u64], file: &[u8]) -> LoadAnswer
    ensures { LoadCalled (load (lent state.old) (work_fits work.old) file.now) state.old work.old result state.new work.new }
{
    loading::load(state, work, file)
}

pub fn lnk100_open(feed: &mut [u64]) -> CallAnswer
    ensures { FeedCalled (open_feed (lent_feed feed.old)) feed.old result feed.new }
{
    feeding::open(feed)
}

pub fn lnk100_feed(feed: &mut [u64], piece: &[u8]) -> FeedAnswer
    ensures { FeedCalled (feed_piece (lent_feed feed.old) piece.now) feed.old result feed.new }
{
    feeding::piece::feed_piece(feed, piece)
}

pub fn lnk100_close(feed: &mut [u64], state: &mut [u64], work: &mut [u64]) -> LoadAnswer
    ensures { Closed (close_feed (lent_feed feed.old) (lent state.old) (work_fits work.old)) feed.old state.old work.old result feed.new state.new work.new }
{
    feeding::close::close(feed, state, work)
}

pub fn lnk100_drop(feed: &mut [u64]) -> CallAnswer
    ensures { FeedCalled (drop_feed (lent_feed feed.old)) feed.old result feed.new }
{
    feeding::drop_feed(feed)
}

pub fn lnk100_reset(state: &mut [u64]) -> CallAnswer
    ensures { Called (reset (lent state.old)) state.old result state.new }
{
    commands::reset(state)
}

pub fn lnk100_base(state: &mut [u64], address: u64) -> CallAnswer
    ensures { Called (base (lent state.old) address) state.old result state.new }
{
    commands::base(state, address)
}

pub fn lnk100_force(state: &mut [u64], name: &[u8]) -> CallAnswer
    ensures { Called (force (lent state.old) name.now) state.old result state.new }
{
    commands::force(state, name)
}

pub fn lnk100_end(state: &mut [u64], out: &mut [u8]) -> EndAnswer
    ensures { Ended (end (lent state.old) out.old) state.old result state.new out.new }
{
    commands::end(state, out)
}

#[inline(always)]
pub fn lnk100_memory(state: &[u64]) -> MemoryAnswer
    ensures { result ≡ memory (lent state.now) }
{
    listings::memory(state)
}

pub fn lnk100_symbols(state: &[u64], index: u64) -> SymbolAnswer
    ensures { result ≡ symbols (lent state.now) index }
{
    listings::symbols(state, index)
}

pub fn lnk100_undefined(state: &[u64], index: u64) -> UndefinedAnswer
    ensures { result ≡ undefined (lent state.now) index }
{
    listings::undefined(state, index)
}
