// Who chooses the letter that is taken next.
ghost use Rattle.std.specs.Prelude.{◌≡◌, ◌==◌, ◌<◌, ◌-◌, ℕ, List, length, not};
ghost use Rattle.letter_types.specs.declared.entries.Letter.{Letter};
ghost use Rattle.letter_types.specs.Letters.{same_id};
ghost use Rattle.sim_runner.specs.Pickers.{oldest_where};

use letter_types::{Letter, LetterId};
use tv_base::ActorNo;
use world_core::World;

/// Chooses which of the messages in flight is taken next. It takes no memory.
pub trait Picker {
    /// The number that it names if these messages are in flight. It stands for a place: itself modulo the number of
    /// messages.
    ghost place: { Self → List Letter → ℕ };

    /// The picker after it has chosen from these messages.
    ghost after: { Self → List Letter → Self };

    /// Names a place at which a message is in flight, by a number that is taken modulo the number of messages.
    fn choose(&mut self, world: &World) -> usize
        requires { 0 < length world.now.bag }
        ensures place { result ≡ place self.old world.now.bag }
        ensures after { self.new ≡ after self.old world.now.bag };
}

/// Chooses the message at the last place.
#[derive(Clone, Copy, Debug, PartialEq, Eq)]
pub struct Newest;

impl Picker for Newest {
    ghost place = { λ _ letters. length letters - 1 };

    ghost after = { λ p _. p };

    fn choose(&mut self, world: &World) -> usize {
        world.waiting() - 1
    }
}

/// Chooses the oldest message that isn't for this actor, or the oldest of all if there is none.
#[derive(Clone, Copy, Debug, PartialEq, Eq)]
pub struct Starve(pub ActorNo);

impl Picker for Starve {
    ghost place = { λ p letters. oldest_where (λ l. not (l.to.0 == p.0.0)) letters };

    ghost after = { λ p _. p };

    fn choose(&mut self, world: &World) -> usize {
        oldest_for_other(world, self.0)
    }
}

/// Chooses the oldest message with another id, or the oldest of all if there is none.
#[derive(Clone, Copy, Debug, PartialEq, Eq)]
pub struct Hold(pub LetterId);

impl Picker for Hold {
    ghost place = { λ p letters. oldest_where (λ l. not (same_id p.0 l.id)) letters };

    ghost after = { λ p _. p };

    fn choose(&mut self, world: &World) -> usize {
        oldest_of_other(world, self.0)
    }
}

fn is_for_other(letter: &Letter, actor: ActorNo) -> bool
    ensures { result ≡ not (letter.now.to.0 == actor.0) }
{
    letter.to.0 != actor.0
}

fn has_other_id(letter: &Letter, id: LetterId) -> bool
    ensures { result ≡ not (same_id id letter.now.id) }
{
    id.stamp.0 != letter.id.stamp.0 || id.place != letter.id.place
}

/// The place of the oldest message that isn't for this actor, or 0 if there is none.
fn oldest_for_other(world: &World, actor: ActorNo) -> usize
    ensures { result ≡ oldest_where (λ l. not (l.to.0 == actor.0)) world.now.bag }
{
    for place in 0..world.waiting() {
        if is_for_other(world.letter(place), actor) {
            return place;
        }
    }
    0
}

/// The place of the oldest message with another id, or 0 if there is none.
fn oldest_of_other(world: &World, id: LetterId) -> usize
    ensures { result ≡ oldest_where (λ l. not (same_id id l.id)) world.now.bag }
{
    for place in 0..world.waiting() {
        if has_other_id(world.letter(place), id) {
            return place;
        }
    }
    0
}
