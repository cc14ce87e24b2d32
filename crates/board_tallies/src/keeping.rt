// Whether an act keeps to the script, by the tallies and the gates.
ghost use Rattle.std.specs.Prelude.{◌≡◌, ◌+◌, ◌==◌, nat_le};
ghost use Rattle.std.specs.List.{list_all};
ghost use Rattle.board_tallies.specs.declared.numbers.Numbers.{Numbers};
ghost use Rattle.board_tallies.specs.inside.Keeping.{has_gone};

use crate::numbers::Numbers;
use tv_base::ActorNo;

// Whether every node has collected to so many versions.
pub(crate) fn all_swept(nodes: &[Numbers], versions: usize) -> bool
    ensures { result ≡ list_all (λ (n : Numbers). nat_le versions n.low.0) nodes.now }
{
    nodes.iter().all(|one| versions as u64 <= one.low.0)
}

// Whether every node has gone through so many advancements.
pub(crate) fn all_gone(nodes: &[Numbers], asked: u32) -> bool
    ensures { result ≡ list_all (has_gone asked) nodes.now }
{
    nodes.iter().all(|one| has_gone(one, asked))
}

// Whether a node has gone through so many advancements.
fn has_gone(numbers: &Numbers, asked: u32) -> bool
    ensures { result ≡ has_gone asked numbers.now }
{
    let asked = asked as u64;
    numbers.update.0 == asked + 1 && numbers.read.0 == asked && numbers.low.0 == asked
}

// Whether the actor is the client of so many nodes.
pub(crate) fn is_client(count: u8, actor: ActorNo) -> bool
    ensures { result ≡ (actor.0 == count + 1) }
{
    actor.0 > 0 && actor.0 - 1 == count
}
