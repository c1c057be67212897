//! The sequence of numbers that a made instance is drawn from, and what it makes of a trip.

ghost use Rattle.std.specs.Prelude.{◌≡◌, ◌+◌, ◌%◌, ◌<◌, ◌≤◌};
ghost use Rattle.vs_make.specs.Generator.{draws, next_number, number_at};

use crate::grid::{STOPS, other_stop};
use std::marker::Model;
use vs_instance::MAX_TRIPS;
use vs_types::LayerSet;

/// What a number is multiplied by on the way to the next one (Park, Miller and Stockmeyer 1993).
pub const MULTIPLIER: u64 = 48_271;

/// What the product is divided by, of which the next number is the rest (Lehmer 1949).
pub const MODULUS: u64 = 2_147_483_647;

/// The numbers of an instance, each got from the one before by a product and a remainder.
#[derive(Drop)]
pub struct Sequence {
    last: u64,
}

impl Model for Sequence {
    ghost use Rattle.std.specs.Prelude.{ℕ, ◌<◌};
    ghost use Rattle.vs_make.specs.declared.sequence.TheConstants.{MODULUS};

    ghost Value = { ℕ };

    ghost view = { λ s. s.last };

    ghost invariant = { λ s. s.last < MODULUS };
}

impl Sequence {
    /// That of the instance of n trips.
    pub fn new(n: u32) -> Sequence
        requires { n ≤ MAX_TRIPS }
        ensures { result ≡ n + 1 }
    {
        Sequence {
            last: u64::from(n) + 1,
        }
    }

    /// Moves to the next number, and gives what it leaves when it is divided.
    fn draw(&mut self, below: u32) -> u32
        requires { 0 < below }
        ensures next { self.new ≡ next_number self.old }
        ensures drawn { result ≡ self.new % below }
    {
        self.last = self.last * MULTIPLIER % MODULUS;
        (self.last % u64::from(below)) as u32
    }

    /// What the next five numbers make of a trip.
    pub fn draws(&mut self) -> Draws
        ensures next { self.new ≡ number_at self.old 5 }
        ensures drawn { result ≡ draws self.old }
    {
        let from = self.draw(STOPS);
        let other = self.draw(STOPS - 1);
        let start = 300 + self.draw(1_080);
        let extra = 5 + self.draw(20);
        let layers = LayerSet(1 + self.draw(15) as u16);
        Draws {
            from,
            to: other_stop(from, other),
            start,
            extra,
            layers,
        }
    }
}

/// What a trip is made of.
#[derive(Clone, Copy, Debug, PartialEq, Eq)]
pub struct Draws {
    /// The stop that it leaves.
    pub from: u32,
    /// The stop that it reaches, another one.
    pub to: u32,
    /// Its first minute, from 0:00.
    pub start: u32,
    /// How many minutes it takes beyond those of its distance.
    pub extra: u32,
    /// The layers that may run it.
    pub layers: LayerSet,
}
