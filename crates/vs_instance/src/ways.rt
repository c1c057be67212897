//! The deadheads between stops, looked up by the stop that is left and the one that is reached.

ghost use Rattle.std.specs.Prelude.{◌≡◌, ◌<◌, ◌≤◌, Some, IfOk, length};
ghost use Rattle.std.specs.FinMap as map;
ghost use Rattle.vs_instance.specs.deadheads.WayMap.{row_of};

use crate::limits::MAX_STOPS;
use crate::way::Way;
use std::alloc::Global;
use std::marker::Model;
use vs_types::{Memory, StopNo};

/// The deadheads between so many stops, looked up in one step. There is a row for each stop that is left,
/// with a place for each stop that is reached.
#[derive(Drop)]
pub struct Ways {
    stops: usize,
    places: Vec<Option<Way>>,
}

impl Model for Ways {
    ghost use Rattle.std.specs.Prelude.{◌≡◌, ◌*◌, ◌≤◌, length};
    ghost use Rattle.vs_instance.specs.deadheads.WayMap.{WayMap, way_map};
    ghost use Rattle.vs_instance.specs.Codes.{coded_way_map};
    ghost use Rattle.vs_instance.specs.declared.limits.TheConstants.{MAX_STOPS};

    ghost Value = { WayMap };

    ghost coded = { coded_way_map };

    ghost view = { λ w. record { stops = w.stops; given = way_map w.stops w.places.items } };

    ghost invariant = { λ w. (w.stops ≤ MAX_STOPS) × (length w.places.items ≡ w.stops * w.stops) };
}

impl Ways {
    /// No deadheads, between so many stops.
    pub fn new(alloc: Global, stops: u32) -> Result<Ways, Memory>
        requires { stops ≤ MAX_STOPS }
        ensures { IfOk result (λ w. (w.stops ≡ stops) × (w.given ≡ map.empty)) }
    {
        let stops = stops as usize;
        let places = vec![in alloc; None; stops * stops]?;
        Ok(Ways { stops, places })
    }

    /// The same deadheads between the same stops.
    pub fn copy(&self, alloc: Global) -> Result<Ways, Memory>
        ensures { IfOk result (λ w. w ≡ self.now) }
    {
        Ok(Ways {
            stops: self.stops,
            places: Vec::from_slice(alloc, &self.places)?,
        })
    }

    /// How many stops there are.
    pub fn stops(&self) -> u32
        ensures count { result ≡ self.now.stops }
        ensures few { result ≤ MAX_STOPS }
    {
        self.stops as u32
    }

    /// The deadhead from one stop to another, where it is given.
    pub fn get(&self, from: StopNo, to: StopNo) -> Option<Way>
        requires from { from.0 < self.now.stops }
        requires to { to.0 < self.now.stops }
        ensures { result ≡ map.get self.now.given (from.0, to.0) }
    {
        self.places[from.0 as usize * self.stops + to.0 as usize]
    }

    /// The deadheads from a stop to each stop in number order, where they are given.
    pub fn row(&self, from: StopNo) -> &[Option<Way>]
        requires { from.0 < self.now.stops }
        ensures { result.now ≡ row_of self.now from.0 }
    {
        let start = from.0 as usize * self.stops;
        &self.places[start..start + self.stops]
    }

    /// Gives the deadhead from one stop to another, in place of one that was given.
    pub fn insert(&mut self, from: StopNo, to: StopNo, way: Way)
        requires from { from.0 < self.old.stops }
        requires to { to.0 < self.old.stops }
        ensures stops { self.new.stops ≡ self.old.stops }
        ensures given { self.new.given ≡ map.insert self.old.given (from.0, to.0) way }
    {
        let place = from.0 as usize * self.stops + to.0 as usize;
        self.places[place] = Some(way);
    }
}
