// What nodes told, with what one of them tells now in place of what is kept of it.
ghost use Rattle.std.specs.Prelude.{◌≡◌, ◌<◌, ◌∷◌, [], length, slice_set, is_some, Some};
ghost use Rattle.std.specs.List.{list_all, list_any};
ghost use Rattle.world_model.specs.Restarting.{least_low, next_advance, phase_by};
ghost use Rattle.coord_restart.specs.RestartChanges.{onward};
ghost use Rattle.coord_restart.specs.inside.Tests.{passes};

use crate::change::Onward;
use letter_types::What;
use std::marker::Model;
use world_model::{RestartPhase, Told};

/// A test of what a node told.
#[derive(Clone, Copy)]
pub(crate) enum Test {
    /// Its low version isn't this number.
    LowDiffers(u64),
    /// It reads this version.
    ReadIs(u64),
    /// It updates this version.
    UpdateIs(u64),
}

/// What nodes told, in three parts: of nodes before one, of this one, and of those after it.
#[derive(Drop)]
pub(crate) struct Tellings<'a> {
    before: &'a [Option<Told>],
    new: &'a [Option<Told>],
    after: &'a [Option<Told>],
}

impl<'a> Model for Tellings<'a> {
    ghost use Rattle.std.specs.Prelude.{◌++◌};
    ghost use Rattle.world_model.specs.Restarting.{AllTold};

    ghost Value = { AllTold };

    ghost view = { λ t. t.before.now ++ (t.new.now ++ t.after.now) };
}

impl<'a> Tellings<'a> {
    /// What is kept, as it is.
    pub(crate) fn kept(told: &'a [Option<Told>]) -> Tellings<'a>
        ensures { result ≡ told.now }
    {
        Tellings {
            before: told,
            new: &[],
            after: &[],
        }
    }

    /// What is kept, with what the node of this place tells now, which is all of `new`.
    pub(crate) fn with(
        told: &'a [Option<Told>],
        place: usize,
        now: &Told,
        new: &'a [Option<Told>],
    ) -> Tellings<'a>
        requires place { place < length told.now }
        requires one { new.now ≡ Some now.now ∷ [] }
        ensures { result ≡ slice_set told.now place (Some now.now) }
    {
        Tellings {
            before: &told[..place],
            new,
            after: &told[place + 1..],
        }
    }

    /// Whether each node has told.
    #[tactic(auto, using(crate::proofs::Parts::all_parts))]
    pub(crate) fn are_all(&self) -> bool
        ensures { result ≡ list_all is_some self.now }
    {
        all_told(self.before) && (all_told(self.new) && all_told(self.after))
    }

    /// The least low version, or the greatest number if no node has told one.
    #[tactic(auto, using(crate::proofs::Parts::least_parts))]
    fn least_low(&self) -> u64
        ensures { result ≡ least_low self.now }
    {
        least(self.before).min(least(self.new).min(least(self.after)))
    }

    /// Whether what some node told passes a test.
    #[tactic(auto, using(crate::proofs::Parts::any_parts))]
    fn some(&self, test: Test) -> bool
        ensures { result ≡ list_any (passes test) self.now }
    {
        some_told(self.before, test) || (some_told(self.new, test) || some_told(self.after, test))
    }

    /// The phase in which the coordinator goes on, by how many advances are wanted and how many have ended.
    fn phase(&self, wanted: u64, ended: u64) -> RestartPhase
        ensures { result ≡ phase_by self.now wanted ended }
    {
        let next = ended.saturating_add(1);
        if self.some(Test::LowDiffers(ended)) {
            return RestartPhase::Doing(What::Sweep);
        }
        if self.some(Test::ReadIs(next)) {
            return RestartPhase::Doing(What::Show);
        }
        if self.some(Test::UpdateIs(next.saturating_add(1))) {
            return RestartPhase::Doing(What::Turn);
        }
        next_advance(wanted, ended)
    }

    /// How the coordinator goes on once all have told, if this many advances are wanted.
    pub(crate) fn onward(&self, wanted: u64) -> Onward
        ensures { result ≡ onward wanted self.now }
    {
        let ended = self.least_low();
        Onward {
            wanted,
            ended,
            phase: self.phase(wanted, ended),
        }
    }
}

/// The phase in which no advancement is in progress: turning begins if more are wanted than have ended.
pub(crate) fn next_advance(wanted: u64, ended: u64) -> RestartPhase
    ensures { result ≡ next_advance wanted ended }
{
    if ended < wanted {
        RestartPhase::Doing(What::Turn)
    } else {
        RestartPhase::Idle
    }
}

/// Whether each of these has told.
fn all_told(told: &[Option<Told>]) -> bool
    ensures { result ≡ list_all is_some told.now }
{
    told.iter().all(|t| t.is_some())
}

/// The least low version of these.
fn least(told: &[Option<Told>]) -> u64
    ensures { result ≡ least_low told.now }
{
    let mut least = u64::MAX;
    for t in told {
        if let Some(t) = t {
            least = least.min(t.low.0);
        }
    }
    least
}

/// Whether one of these passes a test.
fn some_told(told: &[Option<Told>], test: Test) -> bool
    ensures { result ≡ list_any (passes test) told.now }
{
    for t in told {
        if passes(t, test) {
            return true;
        }
    }
    false
}

/// Whether what a node told passes a test.
fn passes(told: &Option<Told>, test: Test) -> bool
    ensures { result ≡ passes test told.now }
{
    let Some(told) = told else {
        return false;
    };
    match test {
        Test::LowDiffers(low) => told.low.0 != low,
        Test::ReadIs(read) => told.read.0 == read,
        Test::UpdateIs(update) => told.update.0 == update,
    }
}
