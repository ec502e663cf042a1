// Feed memory as a call finds it.
ghost use Rattle.std.specs.Prelude.{◌≤◌, ◌<◌, ◌^◌, ◌≡◌, length};
ghost use Rattle.rules.specs.Limits.{longest_file};
ghost use Rattle.rules.specs.Answers.{answer_number};
ghost use Rattle.feed.specs.Layout.{feed_size, sound_feed_cells};
ghost use Rattle.feed.specs.Held.{standing, clean_behind, FeedRefusal};

use crate::layout::{BYTES, SIZE, TOO_MANY, TOTAL};
use rules::answer::Reason;
use soundness::cells::zero_between;

// 256 to the k.
pub fn power(k: usize) -> u64
    requires { k < 8 }
    ensures { result ≡ 256 ^ k }
{
    1 << (8 * k)
}

// How many bytes stand in the cells, by the first of them.
// Kept: 0 where no load is open, and no Option: the definition `standing` counts so, and both cases ask for cells that are all zero.
fn standing(mark: u64) -> usize
    requires { mark ≤ 65538 }
    ensures { result ≡ standing mark }
{
    if mark == 0 {
        return 0;
    }
    let total = (mark - 1) as usize;
    if total == TOO_MANY {
        return 0;
    }
    total
}

// Does no byte stand behind the n-th?
fn clean_behind(feed: &[u64], n: usize) -> bool
    requires feed_len { length feed.now ≡ feed_size }
    requires n_le_longest_file { n ≤ longest_file }
    ensures { result ≡ clean_behind feed.now n }
{
    let cell = BYTES + n / 8;
    let more = n % 8;
    if more == 0 {
        return zero_between(feed, cell, SIZE);
    }
    if power(more) <= feed[cell] {
        return false;
    }
    zero_between(feed, cell + 1, SIZE)
}

// Are these cells, of which there are as many as there should be, zero, or what an opening and pieces have left?
fn holds_feed(feed: &[u64]) -> bool
    requires { length feed.now ≡ feed_size }
    ensures { result ≡ sound_feed_cells feed.now }
{
    let mark = feed[TOTAL];
    if TOO_MANY as u64 + 1 < mark {
        return false;
    }
    clean_behind(feed, standing(mark))
}

// Refuses memory of a wrong length, and damaged memory.
pub fn check(feed: &[u64]) -> Result<(), Reason>
    ensures { FeedRefusal feed.now (answer_number result) }
{
    if feed.len() != SIZE {
        return Err(Reason::Buffer);
    }
    if !holds_feed(feed) {
        return Err(Reason::Damaged);
    }
    Ok(())
}
