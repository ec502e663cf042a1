// The close: a LOAD of all that was fed.
ghost use Rattle.std.specs.Prelude.{◌≡◌};
ghost use Rattle.rules.specs.Limits.{work_size};
ghost use Rattle.rules.specs.Answers.{reason_number};
ghost use Rattle.rules.specs.Calls.{load_answer, work_after};
ghost use Rattle.rules.specs.Feed.{close_feed};
ghost use Rattle.rules.specs.History.{work_fits};
ghost use Rattle.state.specs.Layout.{lent};
ghost use Rattle.feed.specs.Layout.{lent_feed};
ghost use Rattle.feed.specs.Promise.{Closed};

use crate::open_load;
use feed::bytes::unpack;
use feed::layout::{BYTE_CELLS, TOO_MANY};
use loading::load;
use rules::answer::{LoadAnswer, Reason};
use rules::outcome::LoadFault;
use tables::cells::PART_ROOM;

// Room for the longest file, and for a byte more: LOAD answers a file that fills it by 5.
const FILE_ROOM: usize = TOO_MANY;

// A close that the feed refuses: work memory of the right length is zero all the same.
fn refuse(reason: Reason, work: &mut [u64]) -> LoadAnswer
    ensures { (result ≡ load_answer (reason_number reason) 0 0 0) × (work.new ≡ work_after work_size work.old) }
{
    if work.len() == PART_ROOM {
        work.fill(0);
    }
    LoadAnswer::from(Err(LoadFault::from(reason)))
}

// The open load is closed: a LOAD of all that was fed.
pub fn close(feed: &mut [u64], state: &mut [u64], work: &mut [u64]) -> LoadAnswer
    ensures { Closed (close_feed (lent_feed feed.old) (lent state.old) (work_fits work.old)) feed.old state.old work.old result feed.new state.new work.new }
{
    match open_load(feed) {
        Ok(total) => {
            let mut file = [0u8; FILE_ROOM];
            unpack(feed, BYTE_CELLS, &mut file);
            let answer = load(state, work, &file[..total]);
            feed.fill(0);
            answer
        }
        Err(reason) => refuse(reason, work),
    }
}
