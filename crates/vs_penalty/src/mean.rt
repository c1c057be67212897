//! The mean of multipliers that swing from pass to pass.
ghost use Rattle.std.specs.Prelude.{◌≡◌, ◌+◌, ◌<◌, IfOk, length, min};
ghost use Rattle.vs_multi.specs.Multipliers.{AreWithin};
ghost use Rattle.vs_penalty.specs.Means.{AreBetween, IsLimited, LiesBetween};

use std::alloc::Global;
use vs_types::Memory;

/// The mean takes in one part in so many of how far the newest multipliers are from it, once it is of so many passes.
/// So those of some thirty passes count.
const MOST: u8 = 32;

/// What multipliers were on average in the last passes, in 1/1000 of a cost unit. Those of single passes swing about
/// the best ones, and their mean is nearer to these (Polyak and Juditsky 1992).
#[derive(Drop)]
pub(crate) struct Mean {
    pub multipliers: Vec<i64>,
    /// Of how many passes it is, as far as this is counted.
    pub passes: u8,
}

impl Mean {
    /// The mean of no pass: these, until there is one.
    pub fn new(alloc: Global, multipliers: &[i64]) -> Result<Mean, Memory>
        ensures multipliers { IfOk result (λ mean. mean.multipliers.items ≡ multipliers.now) }
        ensures passes { IfOk result (λ mean. mean.passes ≡ 0) }
    {
        Ok(Mean {
            multipliers: Vec::from_slice(alloc, multipliers)?,
            passes: 0,
        })
    }

    /// Takes the newest multipliers in: the first ones whole, the second by a half, and so on.
    pub fn take(&mut self, newest: &[i64])
        requires within { AreWithin self.old.multipliers.items }
        requires newest { AreWithin newest.now }
        requires each_trip { length newest.now ≡ length self.old.multipliers.items }
        ensures each_trip { length self.new.multipliers.items ≡ length self.old.multipliers.items }
        ensures within { AreWithin self.new.multipliers.items }
        ensures between { AreBetween self.old.multipliers.items newest.now self.new.multipliers.items }
        ensures first { self.old.passes ≡ 0 → self.new.multipliers.items ≡ newest.now }
        ensures passes { self.new.passes ≡ min (self.old.passes + 1) MOST }
    {
        self.passes = self.passes.saturating_add(1).min(MOST);
        for i in 0..newest.len() {
            self.multipliers[i] = nearer(self.multipliers[i], newest[i], self.passes);
        }
    }
}

/// A mean with one part in so many of the way to a newer multiplier taken in.
fn nearer(mean: i64, newest: i64, part: u8) -> i64
    requires part { 0 < part }
    requires mean { IsLimited mean }
    requires newest { IsLimited newest }
    ensures between { LiesBetween mean newest result }
    ensures whole { part ≡ 1 → result ≡ newest }
{
    mean + (newest - mean) / i64::from(part)
}
