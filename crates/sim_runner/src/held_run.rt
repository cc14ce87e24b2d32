// A run that waits where more rows may come.
ghost use Rattle.std.specs.Prelude.{◌≡◌, ◌<◌, [], length, reverse, slice_get, false, IfOk, IfSome, IsSome, OnErr, OnOk, Some};
ghost use Rattle.growth_laws.specs.Growth.{Extends, IsFront};
ghost use Rattle.sim_runner.specs.Held.{IsRunBy};
ghost use Rattle.sim_runner.specs.declared.held_run.Pause.TheVariants as pauses;
ghost use Rattle.tx_trees.specs.ScriptData.{ScriptData};
ghost use Rattle.world_core.specs.Actors.{IsWorldOf};
ghost use Rattle.world_core.specs.Growth.{FinishesWith, MayGoOn};
ghost use Rattle.world_model.specs.Runs.{client_in};

use crate::pickers::Picker;
use run_history::History;
use std::alloc::Global;
use std::marker::Model;
use tv_base::NoMemory;
use tx_trees::Script;
use world_core::World;

/// Why no more letters are taken.
#[derive(Clone, Copy, Debug, PartialEq, Eq)]
pub enum Pause {
    /// The client would finish with the letter that is chosen, and more rows may come.
    Waits,
    /// No letter is left.
    Over,
}

/// A run of a script to which rows may be added while the client waits at a `settle` row. It has the picker that chooses
/// its letters, and the letter that is chosen and not taken yet.
#[derive(Drop)]
pub struct HeldRun<P> {
    world: World,
    picker: P,
    chosen: Option<usize>,
}

impl<P> Model for HeldRun<P> {
    ghost use Rattle.sim_runner.specs.Held.{HeldData, HasChosen};

    ghost Value = { HeldData P };

    ghost view = { λ r. record { world = r.world; picker = r.picker; chosen = r.chosen } };

    ghost invariant = { λ r. HasChosen (record { world = r.world; picker = r.picker; chosen = r.chosen }) };
}

impl<P: Picker + Drop> HeldRun<P> {
    /// A run of this script before its first step, whose letters this picker chooses.
    pub fn start(alloc: Global, script: &Script, picker: P) -> Result<HeldRun<P>, NoMemory>
        ensures run { IfOk result (IsRunBy P.place P.after script.now picker) }
        ensures history { IfOk result (λ r. r.world.history ≡ []) }
    {
        let world = World::start(alloc, script)?;
        Ok(HeldRun {
            world,
            picker,
            chosen: None,
        })
    }

    /// Takes letters until none is left, or, unless all rows are there, until the client would finish with the next.
    ///
    /// That letter is chosen then, and taken by the next call, if no row is left or the client doesn't finish with it any
    /// more. If memory runs out, the run is as it was before some step.
    pub fn go(&mut self, script: &Script, all: bool) -> Result<Pause, NoMemory>
        requires { IsWorldOf script.now self.old.world }
        ensures world { IsWorldOf script.now self.new.world }
        ensures run { OnOk result ((start : P) → IsRunBy P.place P.after script.now start self.old
            → IsRunBy P.place P.after script.now start self.new) }
        ensures later { IsFront self.old.world.history self.new.world.history }
        ensures waits { IfOk result (λ pause. pause ≡ pauses.Waits → (all ≡ false)
            × IfSome self.new.chosen (λ k. IfSome (slice_get self.new.world.bag k)
            (FinishesWith script.now (reverse self.new.world.history)))) }
        ensures chosen { IfOk result (λ pause. pause ≡ pauses.Waits → IsSome self.new.chosen) }
        ensures over { IfOk result (λ pause. pause ≡ pauses.Over → self.new.world.bag ≡ []) }
        ensures unfinished { all ≡ false → (client_in script.now (reverse self.old.world.history)).finished ≡ false
            → (client_in script.now (reverse self.new.world.history)).finished ≡ false }
    {
        let _valid = script.nodes();
        while self.world.waiting() > 0 {
            let _few = self.world.history();
            let place = self.choose();
            if !all && self.world.ends_with(script, place) {
                return Ok(Pause::Waits);
            }
            self.world.step(script, place)?;
            self.chosen = None;
        }
        Ok(Pause::Over)
    }

    // The letter that is taken next.
    fn choose(&mut self) -> usize
        requires { 0 < length self.old.world.bag }
        ensures within { result < length self.new.world.bag }
        ensures world { self.new.world ≡ self.old.world }
        ensures chosen { self.new.chosen ≡ Some result }
        ensures run { (s : ScriptData) → (start : P) → IsRunBy P.place P.after s start self.old
            → IsRunBy P.place P.after s start self.new }
    {
        if let Some(place) = self.chosen {
            return place;
        }
        let place = self.picker.choose(&self.world) % self.world.waiting();
        self.chosen = Some(place);
        place
    }

    /// The script has gone on, while the client waits at a `settle` row. If memory runs out, the run is as it was.
    pub fn grow(&mut self, script: &Script) -> Result<(), NoMemory>
        requires { MayGoOn self.old.world script.now }
        ensures world { OnOk result (IsWorldOf script.now self.new.world) }
        ensures run { (s : ScriptData) → (start : P) → Extends s script.now → IsRunBy P.place P.after s start self.old
            → OnOk result (IsRunBy P.place P.after script.now start self.new) }
        ensures history { self.new.world.history ≡ self.old.world.history }
        ensures err { OnErr result (self.new ≡ self.old) }
    {
        self.world.go_on(script)
    }

    /// The world as it is.
    pub fn world(&self) -> &World
        ensures { result.now ≡ self.now.world }
    {
        &self.world
    }

    /// The history, by value.
    pub fn into_history(self) -> History
        ensures { result ≡ self.world.history }
    {
        self.world.into_history()
    }
}
