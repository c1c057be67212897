//! By what a leaf is split: what its trips are paid for, and how much of each trip each layer runs after a climb.

ghost use Rattle.std.specs.Prelude.{◌≡◌, ◌≢◌, ◌<◌, ℕ, [], vec_len};
ghost use Rattle.vs_types.specs.LayerSet.{Has, members};
ghost use Rattle.vs_types.specs.declared.numbers.TheConstants.{MAX_LAYERS};
ghost use Rattle.vs_multi.specs.Multipliers.{AreWithin};

use vs_bundle::{Shares, WHOLE};
use vs_types::{LayerNo, LayerSet, MAX_LAYERS, TripNo};

/// A trip counts as shared out where layers other than that of its greatest share run at least one part of it in so
/// many. A smaller part hardly changes when the layer is chosen.
const PARTS: i64 = 20;

/// A trip counts as run twice where all layers together run so much of it.
const TWICE: i64 = WHOLE + WHOLE / 4;

/// What a climb on a leaf leaves.
#[derive(Drop)]
pub(crate) struct Leads {
    /// By trip, in 1/1000 of a cost unit.
    pub multipliers: Vec<i64>,
    /// How much of each trip each layer runs.
    pub shares: Shares,
    ghost each_trip: { vec_len multipliers ≡ shares.trips },
    ghost within: { AreWithin multipliers.items },
}

/// A trip by which a leaf may be split, and the layer that runs most of it.
#[derive(Clone, Copy, Debug)]
pub(crate) struct Candidate {
    pub trip: TripNo,
    pub layer: LayerNo,
    /// How far it is shared out; 0 where it isn't.
    shared: i128,
    /// What it is paid for.
    multiplier: i64,
}

impl Candidate {
    /// Whether a leaf is split by this trip rather than by the other one. It is split by the one that is shared out
    /// more, and among several by the one that is paid for most.
    pub fn is_before(&self, other: &Candidate) -> bool {
        if self.shared == other.shared {
            self.multiplier > other.multiplier
        } else {
            self.shared > other.shared
        }
    }

    /// Whether the trip is shared out.
    pub fn is_shared(&self) -> bool {
        self.shared > 0
    }

    /// Whether another one comes first in the order of candidates: of those that are alike, the one of the lower trip.
    pub fn follows(&self, other: &Candidate) -> bool {
        other.is_before(self) || (!self.is_before(other) && other.trip.0 < self.trip.0)
    }
}

impl Leads {
    /// What there is to say of a trip that may be run in these layers.
    pub fn candidate(&self, set: LayerSet, trip: TripNo) -> Candidate
        requires some { members set ≢ [] }
        requires layers { (l : ℕ) → Has set l → l < self.now.shares.layers }
        requires trip { trip.0 < self.now.shares.trips }
        ensures trip { result.trip ≡ trip }
        ensures layer { Has set result.layer.0 }
        ensures few { result.layer.0 < MAX_LAYERS }
    {
        let layer = self.greatest(set, trip);
        Candidate {
            trip,
            layer,
            shared: self.shared(layer, trip),
            multiplier: self.multipliers[trip.0 as usize],
        }
    }

    /// The layer of the set that runs most of a trip, the one with the lowest number on a tie.
    fn greatest(&self, set: LayerSet, trip: TripNo) -> LayerNo
        requires some { members set ≢ [] }
        requires layers { (l : ℕ) → Has set l → l < self.now.shares.layers }
        requires trip { trip.0 < self.now.shares.trips }
        ensures layer { Has set result.0 }
        ensures few { result.0 < MAX_LAYERS }
    {
        let mut greatest = set.lowest().unwrap();
        for k in 0..MAX_LAYERS {
            let l = LayerNo(k);
            if set.has(l) && self.shares.get(l, trip) > self.shares.get(greatest, trip) {
                greatest = l;
            }
        }
        greatest
    }

    /// How far a trip is shared out, of which this layer runs most. That is what it is paid for, times how much other
    /// layers run of it. It is the most of all where the trip is run twice, as may be one that is paid for by nothing.
    /// Neither part of a split allows that.
    fn shared(&self, greatest: LayerNo, trip: TripNo) -> i128
        requires layer { greatest.0 < self.now.shares.layers }
        requires trip { trip.0 < self.now.shares.trips }
    {
        let share = i64::from(self.shares.get(greatest, trip));
        let total = i64::from(self.shares.total(trip));
        let others = (total - share).min(share);
        if others < WHOLE / PARTS {
            0
        } else if total >= TWICE {
            i128::MAX
        } else {
            i128::from(self.multipliers[trip.0 as usize]) * i128::from(others)
        }
    }
}
