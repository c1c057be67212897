//! What a climb is to come to, and after how much work it ends.

ghost use Rattle.std.specs.Prelude.{◌≤◌};
ghost use Rattle.vs_weights.specs.declared.layer_cuts.TheConstants.{MOST_CUTS};

use vs_types::SCALE;

/// So many times what one round is forecast to gain is the most that is hoped for from all rounds to come.
const HOPE: i64 = 33;

/// A forecast is small where it is no more than one part in so many of the value.
const SMALL: i64 = 1_000_000;

/// It is next to nothing where it is no more than one part in so many.
const TINY: i64 = 1_000_000_000;

/// Rounds gain little where that is less than one part in so many of what is left to gain.
const LITTLE: i64 = 100;

/// What a climb is to come to, and after how much work it ends at the latest. It decides how good the multipliers
/// become, and nothing else.
#[derive(Clone, Copy, Debug)]
pub struct Aim {
    /// The cost of the cheapest plan that is known, in 1/1000 of a cost unit. A value less than one cost unit below it
    /// is enough.
    pub known: Option<i64>,
    /// The step of the first rounds is taken of this, in 1/1000 of a cost unit: of `greatest_step`, as a rule.
    pub most: u64,
    /// How many per cent of that the first step has.
    pub hundredths: u32,
    /// How many circulations a layer keeps at most, in addition to the mixed one.
    pub cuts: u32,
    /// How many rounds there are at most.
    pub rounds: u32,
    /// After so many rounds the climb ends where none of them has gained anything.
    pub trial_rounds: u32,
    /// Whether the climb ends once it gets on slowly.
    pub paced: bool,
    /// After so much effort of the circulations the climb ends, as `Work::effort` counts it.
    pub effort: u64,
    ghost few: { cuts ≤ MOST_CUTS },
}

impl Aim {
    /// Whether a value leaves no room for a cheaper plan than the one that is known.
    pub(crate) fn is_reached(&self, value: i64) -> bool {
        match self.known {
            Some(known) => value > known.saturating_sub(SCALE),
            None => false,
        }
    }

    /// Whether a value is so far below what is known that rounds forecast to gain so much won't come there.
    pub(crate) fn is_far(&self, value: i64, forecast: i64) -> bool {
        match self.known {
            Some(known) => forecast.saturating_mul(HOPE) <= known.saturating_sub(value),
            None => false,
        }
    }

    /// Whether some rounds gained so little that the climb ends: it is to end then, and that is a small part of what is
    /// left to gain.
    pub(crate) fn is_little(&self, value: i64, gain: i64) -> bool {
        match self.known {
            Some(known) if self.paced => {
                gain.saturating_mul(LITTLE) < known.saturating_sub(value)
            }
            _ => false,
        }
    }

    /// Whether a round is worth while that is forecast to gain so much. One that gains little is worth while where that
    /// little is still a good part of what is left to gain.
    pub(crate) fn is_worth(&self, value: i64, forecast: i64) -> bool {
        let is_small = forecast <= value / SMALL
            && (self.known.is_none() || self.is_far(value, forecast));
        !is_small && forecast > value / TINY
    }
}
