//! Circulations that a layer found, each as what it costs and which trips it runs.

ghost use Rattle.std.specs.Prelude.{◌≡◌, ◌*◌, ◌<◌, ◌≤◌, IfOk, length, vec_len};
ghost use Rattle.vs_cuts.specs.Cuts.{trips_of};
ghost use Rattle.vs_cuts.specs.Numbers.{AreNear, IsError, IsNear, IsPart};
ghost use Rattle.vs_cuts.specs.declared.whole.TheConstants.{MOST_LACK, MOST_NUMBER, MOST_TRIPS};
ghost use Rattle.vs_types.specs.declared.numbers.TheConstants.{MAX_LAYERS};

use crate::share_list::ShareList;
use crate::trip_list::TripList;
use crate::trip_set::TripSet;
use crate::whole::{WHOLE, fitting, part_of};
use std::alloc::Global;
use vs_types::{LayerNo, LayerSet, Memory};

/// By how much a cut may be above the least, in 1/1000 of a cost unit.
pub const MOST_ERROR: i64 = 1 << 62;

/// Which trips a cut runs.
#[derive(Drop)]
pub(crate) enum Runs {
    /// The trips of one circulation.
    Trips(TripList),
    /// What several circulations run together.
    Shares(ShareList),
}

/// A circulation of a layer, or several mixed.
#[derive(Drop)]
pub struct Cut {
    pub(crate) runs: Runs,
    /// What it costs without multipliers, in 1/1000 of a cost unit.
    cost: i64,
}

impl Cut {
    /// The circulation that runs none of so many trips.
    pub fn new(alloc: Global, trips: usize) -> Result<Cut, Memory>
        requires { trips ≤ MOST_TRIPS }
        ensures { IfOk result (λ cut. trips_of cut ≡ trips) }
    {
        Ok(Cut {
            runs: Runs::Trips(TripList::new(alloc, trips)?),
            cost: 0,
        })
    }

    /// No circulations, to mix others into.
    pub fn mixed(alloc: Global, trips: usize) -> Result<Cut, Memory>
        requires { trips ≤ MOST_TRIPS }
        ensures { IfOk result (λ cut. trips_of cut ≡ trips) }
    {
        Ok(Cut {
            runs: Runs::Shares(ShareList::new(alloc, trips)?),
            cost: 0,
        })
    }

    /// Becomes the circulation of this cost that runs the trips marked true.
    pub(crate) fn set(&mut self, marks: &[bool], cost: i128)
        requires { length marks.now ≡ trips_of self.old }
        ensures { trips_of self.new ≡ trips_of self.old }
    {
        self.cost = fitting(cost);
        if let Runs::Trips(trips) = &mut self.runs {
            trips.mark(marks);
        }
    }

    /// Mixes another cut in, of which both together have so many parts of a whole.
    pub fn mix_in(&mut self, other: &Cut, parts: i64)
        requires trips { trips_of other.now ≡ trips_of self.old }
        requires parts { IsPart parts }
        ensures { trips_of self.new ≡ trips_of self.old }
    {
        let rest = WHOLE - parts;
        self.cost = part_of(self.cost, rest).saturating_add(part_of(other.cost, parts));
        if let Runs::Shares(shares) = &mut self.runs {
            mix(shares, other, parts);
        }
    }

    /// Whether it is a single circulation, and each trip of it may be run in this layer.
    pub fn is_within(&self, l: LayerNo, sets: &[LayerSet]) -> bool
        requires layer { l.0 < MAX_LAYERS }
        requires each { length sets.now ≡ trips_of self.now }
    {
        match &self.runs {
            Runs::Trips(trips) => trips.is_within(l, sets),
            Runs::Shares(_) => false,
        }
    }

    /// How much of a trip it runs, in parts of a whole trip.
    pub fn share(&self, i: usize) -> i64
        requires { i < trips_of self.now }
        ensures { IsPart result }
    {
        match &self.runs {
            Runs::Trips(trips) if trips.has(i) => WHOLE,
            Runs::Trips(_) => 0,
            Runs::Shares(shares) => shares.of(i),
        }
    }

    /// Its cost less the multipliers of its trips.
    pub(crate) fn value(&self, multipliers: &[i64]) -> i64
        requires each { length multipliers.now ≡ trips_of self.now }
        requires near { AreNear MOST_NUMBER multipliers.now }
    {
        self.cost.saturating_sub(self.sum(multipliers))
    }

    /// By how much its value is above its layer's part.
    pub fn error(&self, part: i64, multipliers: &[i64]) -> i64
        requires each { length multipliers.now ≡ trips_of self.now }
        requires near { AreNear MOST_NUMBER multipliers.now }
        ensures { IsError result }
    {
        let error = self.value(multipliers).saturating_sub(part);
        error.max(0).min(MOST_ERROR)
    }

    /// The sum of the numbers of its trips.
    fn sum(&self, numbers: &[i64]) -> i64
        requires each { length numbers.now ≡ trips_of self.now }
        requires near { AreNear MOST_NUMBER numbers.now }
    {
        match &self.runs {
            Runs::Trips(trips) => trips.sum(numbers),
            Runs::Shares(shares) => shares.sum(numbers),
        }
    }

    /// How much is lacking of its trips, where this is lacking of each.
    pub fn lack(&self, lacks: &[i64]) -> i64
        requires each { length lacks.now ≡ trips_of self.now }
        requires near { AreNear MOST_LACK lacks.now }
        ensures { IsNear (length lacks.now * MOST_LACK) result }
    {
        match &self.runs {
            Runs::Trips(trips) => trips.sum(lacks),
            Runs::Shares(shares) => shares.lack(lacks),
        }
    }

    /// Takes so much off what is lacking of its trips.
    pub fn lower(&self, amount: i64, lacks: &mut [i64])
        requires each { length lacks.old ≡ trips_of self.now }
        requires near { AreNear MOST_LACK lacks.old }
        requires amount { IsNear MOST_LACK amount }
        ensures { AreNear MOST_LACK lacks.new }
    {
        match &self.runs {
            Runs::Trips(trips) => trips.lower(amount, lacks),
            Runs::Shares(shares) => shares.lower(amount, lacks),
        }
    }

    /// How many of these trips it and another one run both, in parts of a whole trip.
    pub fn common(&self, other: &Cut, among: &TripSet) -> i64
        requires other { trips_of other.now ≡ trips_of self.now }
        requires among { among.now.trips ≡ trips_of self.now }
    {
        match (&self.runs, &other.runs) {
            (Runs::Trips(a), Runs::Trips(b)) => WHOLE.saturating_mul(a.common(b, among)),
            (Runs::Trips(trips), Runs::Shares(shares)) => trips.sum_among(among, &shares.each),
            (Runs::Shares(shares), Runs::Trips(trips)) => trips.sum_among(among, &shares.each),
            (Runs::Shares(a), Runs::Shares(b)) => a.common(b, among),
        }
    }
}

/// Mixes another cut into shares, of which both together have so many parts of a whole.
fn mix(shares: &mut ShareList, other: &Cut, parts: i64)
    requires trips { vec_len shares.old.each ≡ trips_of other.now }
    requires parts { IsPart parts }
    ensures { vec_len shares.new.each ≡ vec_len shares.old.each }
{
    let rest = WHOLE - parts;
    for i in 0..shares.each.len() {
        let more = part_of(other.share(i), parts);
        shares.set(i, part_of(shares.of(i), rest).saturating_add(more));
    }
}
