//! How cuts stand.

ghost use Rattle.std.specs.Prelude.{◌+◌, ◌*◌, ◌^◌, ◌<◌, ◌≤◌, IsTrue};
ghost use Rattle.std.specs.Int.RustNames.{unsigned_abs};
ghost use Rattle.vs_cuts.specs.Numbers.{IsError, IsPart};

use crate::step::Step;
use vs_cuts::{part_of, short_part_of};

/// How a cut stands.
#[derive(Clone, Copy)]
pub(crate) struct Standing {
    /// In parts of a whole, which the weights of a layer's cuts are together.
    pub weight: i64,
    /// The weight by which it counts in what is lacking of its trips.
    pub counted: i64,
    /// By how much its value at the best multipliers is above the least, in 1/1000 of a cost unit.
    pub error: i64,
    /// How much is lacking of its free trips.
    pub slope: i64,
    /// For how many rounds it has had no weight.
    pub idle: u32,
    /// Whether there is a cut at all.
    pub held: bool,
    ghost weighs: { IsPart weight },
    ghost counts: { IsPart counted },
    ghost errs: { IsError error },
}

impl Standing {
    ghost use Rattle.vs_weights.specs.Steps.{IsShortFor};

    /// That of no cut.
    pub fn none() -> Standing {
        Standing {
            weight: 0,
            counted: 0,
            error: 0,
            slope: 0,
            idle: u32::MAX,
            held: false,
        }
    }

    /// That of a further cut, which doesn't count yet.
    pub fn new(weight: i64) -> Standing
        requires { IsPart weight }
    {
        Standing {
            weight,
            counted: 0,
            error: 0,
            slope: 0,
            idle: 0,
            held: true,
        }
    }

    /// That of a mixed cut, all of which counted before.
    pub fn mixed(weight: i64) -> Standing
        requires { IsPart weight }
    {
        Standing {
            weight,
            counted: weight,
            error: 0,
            slope: 0,
            idle: 0,
            held: true,
        }
    }

    /// It has no weight any more, and counts for nothing.
    pub fn unload(&mut self) {
        self.weight = 0;
        self.counted = 0;
    }

    /// Its layer goes on without it. It counts until that is settled.
    pub fn withhold(&mut self) {
        self.weight = 0;
        self.held = false;
    }

    /// How high it stands: its error, less what a step along what is lacking of its trips gains.
    pub fn height(&self, step: Step) -> i64
        requires { IsShortFor (unsigned_abs self.now.slope) step }
    {
        if step.is_short {
            self.error - short_part_of(step.length, self.slope)
        } else {
            self.error.saturating_sub(part_of(step.length, self.slope))
        }
    }

    /// So much more is lacking of its free trips.
    pub fn tilt(&mut self, more: i64)
        requires { unsigned_abs self.old.slope + unsigned_abs more < 2 ^ 63 }
        ensures { unsigned_abs self.new.slope ≤ unsigned_abs self.old.slope + unsigned_abs more }
    {
        self.slope += more;
    }

    /// Counts a round, for which it has had no weight or has some.
    pub fn age(&mut self) {
        self.idle = if self.weight > 0 {
            0
        } else {
            self.idle.saturating_add(1)
        };
    }
}
