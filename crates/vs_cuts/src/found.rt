//! Circulations that layers have just found.

ghost use Rattle.std.specs.Prelude.{◌≡◌, ◌≤◌, IfOk, length};
ghost use Rattle.vs_cuts.specs.Numbers.{AreNear};
ghost use Rattle.vs_cuts.specs.Cuts.{trips_of_found};
ghost use Rattle.vs_cuts.specs.declared.whole.TheConstants.{MOST_NUMBER, MOST_TRIPS};

use crate::cut::Cut;
use std::alloc::Global;
use vs_types::Memory;

/// A circulation that a layer has just found.
#[derive(Drop)]
pub struct Found {
    /// Its cost, and the trips that it runs.
    pub cut: Cut,
    /// Its cost less the multipliers at which it was found, or the nearest number that fits.
    pub part: i64,
}

impl Found {
    /// The circulation that runs none of so many trips.
    pub fn new(alloc: Global, trips: usize) -> Result<Found, Memory>
        requires { trips ≤ MOST_TRIPS }
        ensures { IfOk result (λ found. trips_of_found found ≡ trips) }
    {
        Ok(Found {
            cut: Cut::new(alloc, trips)?,
            part: 0,
        })
    }

    /// Becomes the circulation of this cost that runs the trips marked true. Gives its cost less their multipliers.
    pub fn set(&mut self, marks: &[bool], cost: i128, multipliers: &[i64]) -> i64
        requires each_mark { length marks.now ≡ trips_of_found self.old }
        requires each { length multipliers.now ≡ trips_of_found self.old }
        requires near { AreNear MOST_NUMBER multipliers.now }
        ensures { trips_of_found self.new ≡ trips_of_found self.old }
    {
        self.cut.set(marks, cost);
        self.part = self.cut.value(multipliers);
        self.part
    }
}
