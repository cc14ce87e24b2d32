// The numbers by which a schedule takes letters.
ghost use Rattle.std.specs.Prelude.{◌≡◌, ◌<◌, ◌%◌};
ghost use Rattle.sim_runner.specs.Picks.{after_number, next_number};

use crate::pickers::Picker;
use std::marker::Model;
use tv_base::{next_draw, upper_bits};
use world_core::World;

/// Numbers one after the other: the given ones, then the draws of the seed, or 0 if there is no seed.
#[derive(Drop)]
pub struct Picks<'a> {
    given: &'a [u32],
    seed: Option<u64>,
}

impl<'a> Model for Picks<'a> {
    ghost use Rattle.sim_runner.specs.Picks.{PicksData};

    ghost Value = { PicksData };

    ghost view = { λ p. record { given = p.given.now; seed = p.seed } };
}

impl<'a> Picks<'a> {
    /// The given numbers, and then the draws of the seed.
    pub fn new(given: &'a [u32], seed: Option<u64>) -> Picks<'a>
        ensures { result ≡ record { given = given.now; seed = seed } }
    {
        Picks { given, seed }
    }

    /// The next number modulo `len`.
    pub fn place(&mut self, len: usize) -> usize
        requires { 0 < len }
        ensures place { result ≡ next_number self.old % len }
        ensures after { self.new ≡ after_number self.old }
    {
        self.next_number() as usize % len
    }

    /// The next number.
    fn next_number(&mut self) -> u32
        ensures number { result ≡ next_number self.old }
        ensures after { self.new ≡ after_number self.old }
    {
        if let [first, rest @ ..] = self.given {
            self.given = rest;
            return *first;
        }
        let Some(seed) = self.seed else {
            return 0;
        };
        let number = next_draw(seed);
        self.seed = Some(number);
        upper_bits(number)
    }
}

impl Picker for Picks<'_> {
    ghost place = { λ p _. next_number p };

    ghost after = { λ p _. after_number p };

    fn choose(&mut self, _world: &World) -> usize {
        self.next_number() as usize
    }
}
