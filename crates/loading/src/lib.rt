// LOAD: the tests in document 01's order, the reading, and the walk; a refused walk is undone.
#![tactic(auto)]

ghost use Rattle.std.specs.Prelude.{◌≤◌, ◌≡◌, length};
ghost use Rattle.rules.specs.Limits.{longest_file, work_size};
ghost use Rattle.rules.specs.Load.{walked, walk_from, load_file};
ghost use Rattle.rules.specs.Calls.{load_outcome, load_lent, load as load_called};
ghost use Rattle.rules.specs.Outcomes.{load_told};
ghost use Rattle.rules.specs.History.{work_fits};
ghost use Rattle.rules.proofs.TestLaws.{Every};
ghost use Rattle.rules.proofs.ReadingLaws.{ItemSound};
ghost use Rattle.tables.specs.Tables.{most_cells, items_in};
ghost use Rattle.state.specs.Layout.{size, lent, decode};
ghost use Rattle.state.specs.Good.{Good};
ghost use Rattle.state.specs.Promise.{Called, LoadCalled};

use reading::read_file;
use rules::answer::{DONE, LoadAnswer, Reason};
use rules::limits::LONGEST_FILE;
use rules::outcome::LoadFault;
use soundness::memory::check;
use state::header::{set_mark, shut_by};
use state::layout::{Mark, SIZE};
use tables::cells::{PART_ROOM, ROW_ROOM};
use tables::rows::Tables;
use walking::walk;

// The fixed length of work memory, which holds the parts of a file's modules.
const WORK_CELLS: usize = PART_ROOM;

// All cells of the state into an array. They are cut to the array's length, which the compiler knows, and so it sees that what the
// array held before is never read.
fn copy(source: &[u64], target: &mut [u64; SIZE])
    requires { length source.now ≡ size }
    ensures { target.new ≡ source.now }
{
    target.copy_from_slice(&source[..SIZE]);
}

// The walk over n rows; the answer is its rounds. A refusal leaves the state as it was, but for the broken mark.
fn walk_file(tables: Tables, n: usize, state: &mut [u64]) -> Result<usize, LoadFault>
    requires n_le_most_cells { (n ≤ most_cells) × (length tables.parts.now ≤ most_cells) }
    requires every { Every ItemSound (items_in tables.parts.now tables.rows.now n) }
    requires good { Good state.old }
    ensures { Called (load_outcome (walked (decode state.old) (walk_from (decode state.old) (items_in tables.entry.parts.now tables.entry.rows.now n)))) state.old (load_told result) state.new }
{
    let mut before = [0u64; SIZE];
    copy(state, &mut before);
    let far = walk(tables, n, state);
    if far.refusal.number == DONE {
        return Ok(far.rounds);
    }
    state.copy_from_slice(&before);
    set_mark(state, Mark::Broken);
    Err(far.refusal.into())
}

// The reading, into the caller's work memory and rows of its own; then the walk.
fn load_file(state: &mut [u64], work: &mut [u64], file: &[u8]) -> Result<usize, LoadFault>
    requires good { Good state.old }
    requires work_len { (length work.old ≡ work_size) × (length file.now ≤ longest_file) }
    ensures { Called (load_outcome (load_file (decode state.old) file.now)) state.old (load_told result) state.new }
{
    let mut rows = [0u64; ROW_ROOM];
    let f = read_file(file, work, &mut rows);
    let reading = f.reading;
    if let Err(stop) = reading {
        set_mark(state, Mark::Broken);
        return Err(stop.into());
    }
    let parts: &[u64] = work;
    walk_file(Tables { parts, rows: &rows }, f.rows, state)
}

// The tests of the state and of the file's length, then the file.
#[tactic(auto, using(crate::proofs::LoadingLaws::load_unsound, crate::proofs::LoadingLaws::load_shut, crate::proofs::LoadingLaws::load_long))]
fn try_load(state: &mut [u64], work: &mut [u64], file: &[u8]) -> Result<usize, LoadFault>
    requires { length work.old ≡ work_size }
    ensures { Called (load_lent (lent state.old) file.now) state.old (load_told result) state.new }
{
    check(state)?;
    shut_by(state)?;
    if LONGEST_FILE < file.len() {
        return Err(Reason::TooLong.into());
    }
    load_file(state, work, file)
}

// LOAD. Work memory of the right length is zero afterwards.
pub fn load(state: &mut [u64], work: &mut [u64], file: &[u8]) -> LoadAnswer
    ensures { LoadCalled (load_called (lent state.old) (work_fits work.old) file.now) state.old work.old result state.new work.new }
{
    if work.len() != WORK_CELLS {
        return LoadAnswer::from(Err(LoadFault::from(Reason::Buffer)));
    }
    let outcome = try_load(state, work, file);
    work.fill(0);
    outcome.into()
}
