// The public calls of linker, exported for C and Rust: include/lnk100.h declares them.
#![tactic(auto)]

ghost use Rattle.std.specs.Prelude.{◌≡◌};
ghost use Rattle.rules.specs.Calls.{load, reset, base, force, end, memory, symbols, undefined};
ghost use Rattle.rules.specs.Feed.{open_feed, feed_piece, close_feed, drop_feed};
ghost use Rattle.rules.specs.History.{work_fits};
ghost use Rattle.feed.specs.Layout.{lent_feed};
ghost use Rattle.feed.specs.Promise.{FeedCalled, Closed};
ghost use Rattle.state.specs.Layout.{lent};
ghost use Rattle.state.specs.Promise.{Called, LoadCalled, Ended};

use rules::answer::{
    CallAnswer, EndAnswer, FeedAnswer, LoadAnswer, MemoryAnswer, SymbolAnswer, UndefinedAnswer,
};

#[unsafe(no_mangle)]
pub extern "C" fn lnk100_load(state: &mut [u64], work: &mut [u64], file: &[u8]) -> LoadAnswer
    ensures { LoadCalled (load (lent state.old) (work_fits work.old) file.now) state.old work.old result state.new work.new }
{
    linker::lnk100_load(state, work, file)
}

#[unsafe(no_mangle)]
pub extern "C" fn lnk100_open(feed: &mut [u64]) -> CallAnswer
    ensures { FeedCalled (open_feed (lent_feed feed.old)) feed.old result feed.new }
{
    linker::lnk100_open(feed)
}

#[unsafe(no_mangle)]
pub extern "C" fn lnk100_feed(feed: &mut [u64], piece: &[u8]) -> FeedAnswer
    ensures { FeedCalled (feed_piece (lent_feed feed.old) piece.now) feed.old result feed.new }
{
    linker::lnk100_feed(feed, piece)
}

#[unsafe(no_mangle)]
pub extern "C" fn lnk100_close(feed: &mut [u64], state: &mut [u64], work: &mut [u64]) -> LoadAnswer
    ensures { Closed (close_feed (lent_feed feed.old) (lent state.old) (work_fits work.old)) feed.old state.old work.old result feed.new state.new work.new }
{
    linker::lnk100_close(feed, state, work)
}

#[unsafe(no_mangle)]
pub extern "C" fn lnk100_drop(feed: &mut [u64]) -> CallAnswer
    ensures { FeedCalled (drop_feed (lent_feed feed.old)) feed.old result feed.new }
{
    linker::lnk100_drop(feed)
}

#[unsafe(no_mangle)]
pub extern "C" fn lnk100_reset(state: &mut [u64]) -> CallAnswer
    ensures { Called (reset (lent state.old)) state.old result state.new }
{
    linker::lnk100_reset(state)
}

#[unsafe(no_mangle)]
pub extern "C" fn lnk100_base(state: &mut [u64], address: u64) -> CallAnswer
    ensures { Called (base (lent state.old) address) state.old result state.new }
{
    linker::lnk100_base(state, address)
}

#[unsafe(no_mangle)]
pub extern "C" fn lnk100_force(state: &mut [u64], name: &[u8]) -> CallAnswer
    ensures { Called (force (lent state.old) name.now) state.old result state.new }
{
    linker::lnk100_force(state, name)
}

#[unsafe(no_mangle)]
pub extern "C" fn lnk100_end(state: &mut [u64], out: &mut [u8]) -> EndAnswer
    ensures { Ended (end (lent state.old) out.old) state.old result state.new out.new }
{
    linker::lnk100_end(state, out)
}

#[unsafe(no_mangle)]
pub extern "C" fn lnk100_memory(state: &[u64]) -> MemoryAnswer
    ensures { result ≡ memory (lent state.now) }
{
    linker::lnk100_memory(state)
}

#[unsafe(no_mangle)]
pub extern "C" fn lnk100_symbols(state: &[u64], index: u64) -> SymbolAnswer
    ensures { result ≡ symbols (lent state.now) index }
{
    linker::lnk100_symbols(state, index)
}

#[unsafe(no_mangle)]
pub extern "C" fn lnk100_undefined(state: &[u64], index: u64) -> UndefinedAnswer
    ensures { result ≡ undefined (lent state.now) index }
{
    linker::lnk100_undefined(state, index)
}
