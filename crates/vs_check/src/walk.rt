//! A tree of cases gone over row by row, with the layers that each trip has at the row at hand.

ghost use Rattle.std.specs.Prelude.{◌<◌, length, All};

use std::alloc::Global;
use vs_instance::Instance;
use vs_prices::permitted_sets;
use vs_types::{LayerSet, Memory, TripNo};

/// What is done once a part of a tree is behind: a trip gets other layers.
#[derive(Clone, Copy, Debug, PartialEq, Eq)]
struct Change {
    trip: TripNo,
    layers: LayerSet,
    /// The right part of a split begins. Else the split is behind, and its trip has the layers of
    /// before.
    begins_part: bool,
}

/// A place in a tree of cases that is gone over row by row. It has one set of layers for each trip,
/// and at most two changes for each split that the place is in.
#[derive(Debug, Drop)]
pub(crate) struct Walk {
    /// The layers in which each trip may be run at the row at hand.
    sets: Vec<LayerSet>,
    /// What is to be done behind the part at hand, the next change last.
    ahead: Vec<Change>,
    ghost named: { All (λ change. change.trip.0 < length sets.items) ahead.items },
}

impl Walk {
    ghost use Rattle.std.specs.Prelude.{◌≡◌, [], IfOk, OnOk};
    ghost use Rattle.vs_instance.specs.Restriction.{permitted_sets, set_of};
    ghost use Rattle.vs_check.specs.Walk.{HasAhead, IsBehindPart, IsOnLeft, end_of, right_part};

    /// At the root, where each trip may be run in its permitted layers.
    pub(crate) fn new(alloc: Global, instance: &Instance) -> Result<Walk, Memory>
        ensures sets { IfOk result (λ walk. walk.sets.items ≡ permitted_sets instance.now) }
        ensures ahead { IfOk result (λ walk. walk.ahead.items ≡ []) }
    {
        Ok(Walk {
            sets: permitted_sets(alloc, instance)?,
            ahead: Vec::new(alloc),
        })
    }

    /// The layers in which each trip may be run at the row at hand.
    pub(crate) fn sets(&self) -> &[LayerSet]
        ensures { result.now ≡ self.now.sets.items }
    {
        &self.sets
    }

    /// The layers in which this trip may be run at the row at hand.
    pub(crate) fn layers(&self, trip: TripNo) -> LayerSet
        requires { trip.0 < length self.now.sets.items }
        ensures { result ≡ set_of self.now.sets.items trip.0 }
    {
        self.sets[trip.0 as usize]
    }

    /// Goes on to the left part of a split of this trip, which may be run in these layers there.
    pub(crate) fn enter_left(&mut self, trip: TripNo, left: LayerSet) -> Result<(), Memory>
        requires { trip.0 < length self.old.sets.items }
        ensures { OnOk result (IsOnLeft trip left self.old self.new) }
    {
        let whole = self.sets[trip.0 as usize];
        let right = whole.minus(left);
        self.note_end(trip, whole)?;
        self.note_right(trip, right)?;
        self.sets[trip.0 as usize] = left;
        Ok(())
    }

    /// Puts ahead the end of a split of this trip, which has these layers again then.
    fn note_end(&mut self, trip: TripNo, whole: LayerSet) -> Result<(), Memory>
        requires { trip.0 < length self.old.sets.items }
        ensures { OnOk result (HasAhead (end_of trip whole) self.old self.new) }
    {
        self.ahead.push(Change {
            trip,
            layers: whole,
            begins_part: false,
        })?;
        Ok(())
    }

    /// Puts ahead the right part of a split of this trip, which may be run in these layers there.
    fn note_right(&mut self, trip: TripNo, right: LayerSet) -> Result<(), Memory>
        requires { trip.0 < length self.old.sets.items }
        ensures { OnOk result (HasAhead (right_part trip right) self.old self.new) }
    {
        self.ahead.push(Change {
            trip,
            layers: right,
            begins_part: true,
        })?;
        Ok(())
    }

    /// Goes on behind the part at hand, to the right part of the innermost split that still has one
    /// to come. The layers of the trips of the splits that are behind are put back.
    pub(crate) fn leave_part(&mut self)
        ensures { IsBehindPart self.old self.new }
    {
        while let Some(change) = self.ahead.pop() {
            self.sets[change.trip.0 as usize] = change.layers;
            if change.begins_part {
                return;
            }
        }
    }
}
