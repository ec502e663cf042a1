// A lookup in the table's names: what it tells rests on the names that it reads, and on nothing else.
ghost use Rattle.std.specs.Prelude.{true, ◌≡◌};
ghost use Rattle.state.specs.Good.{Good};
ghost use Rattle.customers.specs.Words.{AgreeOnRead};

use order::{Order, look_up};

// Two tables of as many symbols that agree on the names which a lookup reads, nine at most, are told the same, whatever the order is
// and whatever else stands in them.
#[tactic(auto, using(crate::proofs::ReadLaws::same_lookup))]
pub fn same_told(state: &[u64], other: &[u64], order: &Order, name: u64) -> bool
    requires good { Good state.now × Good other.now }
    requires agree_on_read { AgreeOnRead state.now other.now order.now name }
    ensures { result ≡ true }
{
    let one = look_up(state, order, name);
    let two = look_up(other, order, name);
    one.rank == two.rank && one.position == two.position
}
