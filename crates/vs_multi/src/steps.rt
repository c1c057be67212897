//! By how much multipliers move from round to round.
ghost use Rattle.std.specs.Prelude.{◌≡◌, ℕ, ◌*◌, ◌<◌, ◌≤◌, ◌≤ℤ◌, pos, nat_abs, length, sum_by, slice_index};
ghost use Rattle.vs_instance.specs.Dearest.{most_multiplier};
ghost use Rattle.vs_multi.specs.Multipliers.{AreWithin};
ghost use Rattle.vs_multi.specs.Steps.{AreMoved, HasRounds, IsMean, moved, rounds_in, step_in};
ghost use Rattle.vs_types.specs.declared.numbers.TheConstants.{MAX_LAYERS};
ghost use Rattle.vs_instance.specs.declared.limits.TheConstants.{MAX_MULTIPLIER, MAX_TRIPS};
ghost use Rattle.vs_multi.specs.declared.steps.TheConstants.{MOST, ROUNDS};

use vs_instance::{MAX_MULTIPLIER, most_multiplier};

/// How many rounds the root has: in the last of them the step is a 32nd of the first, and more would move little.
pub(crate) const ROUNDS: u32 = 30;

/// After how many rounds the step is halved. With steps of one size multipliers go up and down a few times before they
/// come no nearer.
pub(crate) const ROUNDS_PER_STEP: u32 = 5;

/// The limit of multipliers, as a number without a sign.
const MOST: u64 = MAX_MULTIPLIER as u64;

/// How the step, by which multipliers change, falls from round to round.
#[derive(Clone, Copy, Debug, PartialEq, Eq)]
pub(crate) enum Steps {
    /// It begins as the greatest and is halved every few rounds, since nothing is known yet.
    Halving,
    /// It is small from the first of so many rounds on, so that what is known isn't lost.
    Near { rounds: u32 },
}

impl Steps {
    /// How many rounds there are.
    pub(crate) fn rounds(self) -> u32
        requires { HasRounds self }
        ensures value { result ≡ rounds_in self }
        ensures some { 0 < result }
        ensures few { result ≤ ROUNDS }
    {
        match self {
            Steps::Halving => ROUNDS,
            Steps::Near { rounds } => rounds,
        }
    }

    /// The step of round r, in 1/1000 of a cost unit.
    pub(crate) fn step(self, most: u64, r: u32) -> u64
        requires round { r < ROUNDS }
        requires most { pos most ≤ℤ MAX_MULTIPLIER }
        ensures value { result ≡ step_in self most r }
        ensures few { pos result ≤ℤ MAX_MULTIPLIER }
    {
        match self {
            Steps::Halving => most >> (r / ROUNDS_PER_STEP),
            Steps::Near { .. } => most / 400 * 10 / (10 + u64::from(r)),
        }
    }
}

/// What multipliers come to together.
fn total(multipliers: &[i64]) -> u64
    requires few { length multipliers.now ≤ MAX_TRIPS }
    requires within { AreWithin multipliers.now }
    ensures value { result ≡ sum_by nat_abs multipliers.now }
    ensures few { result ≤ MOST * length multipliers.now }
{
    let mut sum = 0;
    for multiplier in multipliers {
        sum += *multiplier as u64;
    }
    sum
}

/// The mean of multipliers, rounded down; 0 where there are none.
pub(crate) fn mean(multipliers: &[i64]) -> u64
    requires few { length multipliers.now ≤ MAX_TRIPS }
    requires within { AreWithin multipliers.now }
    ensures mean { IsMean multipliers.now result }
    ensures few { pos result ≤ℤ MAX_MULTIPLIER }
{
    total(multipliers)
        .checked_div(multipliers.len() as u64)
        .unwrap_or(0)
}

/// A multiplier of one of so many trips, after a round in which so many layers ran its trip.
pub fn moved(trips: u32, multiplier: i64, step: u64, covers: u32) -> i64
    requires least { pos 0 ≤ℤ multiplier }
    requires most { multiplier ≤ℤ MAX_MULTIPLIER }
    requires step { pos step ≤ℤ MAX_MULTIPLIER }
    requires covers { covers ≤ MAX_LAYERS }
    ensures { result ≡ moved (pos (most_multiplier trips)) multiplier step covers }
{
    let down = step * u64::from(covers);
    (multiplier + step as i64 - down as i64)
        .max(0)
        .min(most_multiplier(trips))
}

/// Changes each multiplier by a step, after a round in which so many layers ran the trips.
pub(crate) fn move_all(step: u64, covers: &[u32], multipliers: &mut [i64])
    requires few_trips { length multipliers.old ≤ MAX_TRIPS }
    requires step { pos step ≤ℤ MAX_MULTIPLIER }
    requires each_trip { length covers.now ≡ length multipliers.old }
    requires few { (i : ℕ) → slice_index covers.now i ≤ MAX_LAYERS }
    requires within { AreWithin multipliers.old }
    ensures moved { AreMoved step covers.now multipliers.old multipliers.new }
    ensures within { AreWithin multipliers.new }
{
    let trips = multipliers.len() as u32;
    for i in 0..multipliers.len() {
        multipliers[i] = moved(trips, multipliers[i], step, covers[i]);
    }
}
