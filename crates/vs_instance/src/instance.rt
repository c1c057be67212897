//! The instance: parts that were judged, and what is asked of them.

ghost use Rattle.std.specs.Prelude.{◌≡◌, ◌<◌, length, IfOk, IfErr, OnOk, option_map};
ghost use Rattle.vs_instance.specs.Instance.{IsInstance};
ghost use Rattle.vs_instance.specs.Misfits.{AreParts, MakeInstance, problem_of, IsFirstMisfit, IsMisfit};
ghost use Rattle.vs_instance.specs.Narrowed.{narrowed};
ghost use Rattle.vs_instance.specs.Restriction.{IsRestriction};
ghost use Rattle.vs_instance.specs.Unrated.{without_rates};
ghost use Rattle.vs_instance.specs.Ways.{way, trip_of, layer_of};

use crate::closure::closure_misfit;
use crate::gather::ways_of;
use crate::layer::Layer;
use crate::misfit::NewError;
use crate::narrowed::narrowed_trips;
use crate::parts::Parts;
use crate::ranges::{layers_misfit, trips_misfit};
use crate::trip::Trip;
use crate::unrated::unrated_layers;
use crate::way::Way;
use crate::ways::Ways;
use std::alloc::Global;
use std::marker::Model;
use vs_types::{LayerNo, LayerSet, Memory, StopNo, TripNo};

/// What is planned: stops, the deadheads between them, layers and trips, within the limits and with closed
/// deadheads. From a stop to itself the way takes no time and has no length; between two others it is
/// their deadhead, or there is none.
#[derive(Drop)]
pub struct Instance {
    ways: Ways,
    layers: Vec<Layer>,
    trips: Vec<Trip>,
}

impl Model for Instance {
    ghost use Rattle.vs_instance.specs.Problem.{Problem};
    ghost use Rattle.vs_instance.specs.Instance.{IsInstance};
    ghost use Rattle.vs_instance.specs.Codes.{coded_problem};
    ghost use Rattle.vs_instance.specs.deadheads.WayMap.{problem_with};

    ghost Value = { Problem };

    ghost coded = { coded_problem };

    ghost view = { λ a. problem_with a.ways a.layers.items a.trips.items };

    ghost invariant = { λ a. IsInstance (problem_with a.ways a.layers.items a.trips.items) };
}

impl Instance {
    /// The instance that the parts make, or the first error in them.
    pub fn new(alloc: Global, parts: Parts) -> Result<Instance, NewError>
        requires { AreParts parts }
        ensures made { OnOk result (MakeInstance parts) }
        ensures parts { IfOk result (λ instance. instance ≡ problem_of parts) }
        ensures misfit { IfErr result (IsFirstMisfit parts) }
        ensures refused { IfErr result (λ e. IsMisfit e → ¬ (MakeInstance parts)) }
    {
        let layers = parts.layers.as_slice();
        let trips = parts.trips.as_slice();
        if let Some(misfit) = layers_misfit(layers, trips, parts.most) {
            return Err(NewError::Misfit(misfit));
        }
        let deadheads = parts.deadheads.as_slice();
        let ways = ways_of(alloc, parts.stops, deadheads)?;
        if let Some(misfit) = trips_misfit(trips) {
            return Err(NewError::Misfit(misfit));
        }
        let detour = closure_misfit(alloc, &ways)?;
        if let Some(misfit) = detour {
            return Err(NewError::Misfit(misfit));
        }
        Ok(Instance {
            ways,
            layers: parts.layers,
            trips: parts.trips,
        })
    }

    /// An equal instance.
    pub fn copy(&self, alloc: Global) -> Result<Instance, Memory>
        ensures { IfOk result (λ instance. instance ≡ self.now) }
    {
        Ok(Instance {
            ways: self.ways.copy(alloc)?,
            layers: Vec::from_slice(alloc, &self.layers)?,
            trips: Vec::from_slice(alloc, &self.trips)?,
        })
    }

    /// The same stops, deadheads, fleets and trips where nothing costs anything: the rates of each layer are 0.
    pub fn without_rates(&self, alloc: Global) -> Result<Instance, Memory>
        ensures { IfOk result (λ instance. instance ≡ without_rates self.now) }
    {
        let own_layers = self.layers.as_slice();
        let own_trips = self.trips.as_slice();
        let ways = self.ways.copy(alloc)?;
        let layers = unrated_layers(alloc, own_layers)?;
        let trips = Vec::from_slice(alloc, own_trips)?;
        Ok(Instance {
            ways,
            layers,
            trips,
        })
    }

    /// The same stops, deadheads and layers, and the same trips, each of which only the layers of its set may run. It
    /// is the part of a case: its plans are those of the case.
    pub fn narrow(&self, alloc: Global, sets: &[LayerSet]) -> Result<Instance, Memory>
        requires { IsRestriction self.now sets.now }
        ensures { IfOk result (λ instance. instance ≡ narrowed self.now sets.now) }
    {
        let own_layers = self.layers.as_slice();
        let own_trips = self.trips.as_slice();
        let ways = self.ways.copy(alloc)?;
        let layers = Vec::from_slice(alloc, own_layers)?;
        let trips = narrowed_trips(alloc, own_trips, sets)?;
        Ok(Instance {
            ways,
            layers,
            trips,
        })
    }

    /// How many stops there are, at most 500.
    pub fn stops(&self) -> u32
        ensures count { result ≡ self.now.stops }
        ensures instance { IsInstance self.now }
    {
        self.ways.stops()
    }

    /// How many layers there are, at most 16.
    pub fn layers(&self) -> u32
        ensures count { result ≡ length self.now.layers }
        ensures instance { IsInstance self.now }
    {
        self.layers.len() as u32
    }

    /// How many trips there are, at most 10,000.
    pub fn trips(&self) -> u32
        ensures count { result ≡ length self.now.trips }
        ensures instance { IsInstance self.now }
    {
        self.trips.len() as u32
    }

    /// A trip.
    pub fn trip(&self, i: TripNo) -> &Trip
        requires { i.0 < length self.now.trips }
        ensures { result.now ≡ trip_of self.now i.0 }
    {
        &self.trips[i.0 as usize]
    }

    /// A layer.
    pub fn layer(&self, l: LayerNo) -> &Layer
        requires { l.0 < length self.now.layers }
        ensures { result.now ≡ layer_of self.now l.0 }
    {
        &self.layers[l.0 as usize]
    }

    /// The way from stop k to stop s. None exactly where they differ and no deadhead is given.
    pub fn way(&self, k: StopNo, s: StopNo) -> Option<Way>
        requires from { k.0 < self.now.stops }
        requires to { s.0 < self.now.stops }
        ensures { result ≡ way self.now k.0 s.0 }
    {
        if k == s {
            return Some(Way {
                minutes: 0,
                metres: 0,
            });
        }
        self.ways.get(k, s)
    }

    /// How many minutes the way from stop k to stop s takes. None exactly where they differ and no
    /// deadhead is given.
    pub fn minutes(&self, k: StopNo, s: StopNo) -> Option<u32>
        requires from { k.0 < self.now.stops }
        requires to { s.0 < self.now.stops }
        ensures { result ≡ option_map (λ w. w.minutes) (way self.now k.0 s.0) }
    {
        self.way(k, s).map(|way| way.minutes)
    }

    /// How many metres long the way from stop k to stop s is. None exactly where they differ and no
    /// deadhead is given.
    pub fn metres(&self, k: StopNo, s: StopNo) -> Option<u32>
        requires from { k.0 < self.now.stops }
        requires to { s.0 < self.now.stops }
        ensures { result ≡ option_map (λ w. w.metres) (way self.now k.0 s.0) }
    {
        self.way(k, s).map(|way| way.metres)
    }
}
