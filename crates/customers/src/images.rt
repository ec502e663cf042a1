// END: the image, and the bytes past it.
ghost use Rattle.customers.specs.Words.{EndKept, SameEnds};

use linker::lnk100_end;
use rules::answer::EndAnswer;

pub fn end(state: &mut [u64], out: &mut [u8]) -> EndAnswer
    ensures { EndKept state.old out.old result out.new }
{
    lnk100_end(state, out)
}

// Two ENDs of one link.
pub fn end_twice(state: &mut [u64], out: &mut [u8], again: &mut [u8]) -> (EndAnswer, EndAnswer)
    ensures { SameEnds out.old again.old result.0 result.1 out.new again.new }
{
    let first = lnk100_end(state, out);
    let second = lnk100_end(state, again);
    (first, second)
}
