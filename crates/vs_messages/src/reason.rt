//! Why there is no plan, as a ray shows it.

ghost use Rattle.std.specs.Prelude.{◌≡◌, IfOk};
ghost use Rattle.vs_prices.specs.Table.{Fits};
ghost use Rattle.vs_messages.specs.Reasons.{AreTripsOf, IsReasonOf, trips_of};

use crate::ray::{counted_trips, short_minute, vehicles_for};
use std::alloc::Global;
use vs_instance::Instance;
use vs_prices::Table;
use vs_types::{Memory, TripNo};

/// Why there is no plan.
#[derive(Debug, Drop)]
pub enum Reason {
    /// All these trips are under way at this minute, and the layers that may run some of them have fewer vehicles.
    Minute {
        /// In minutes from 0:00 of the first day.
        minute: u32,
        /// In number order.
        trips: Vec<TripNo>,
        /// The vehicles of those layers.
        vehicles: u64,
    },
    /// These trips, in number order, can't be run together, whatever the others do.
    Trips(Vec<TripNo>),
}

impl Reason {
    /// The trips that it names.
    pub fn trips(&self) -> &[TripNo]
        ensures { result.now ≡ trips_of self.now }
    {
        match self {
            Reason::Minute { trips, .. } => trips.as_slice(),
            Reason::Trips(trips) => trips.as_slice(),
        }
    }
}

/// Why there is no plan, by a ray that shows that there is none: the trips that count more than 0 in it. Where all of
/// them are under way at one minute, and are more than their layers have vehicles, that minute is the reason.
pub fn ray_reason(alloc: Global, instance: &Instance, ray: &Table) -> Result<Reason, Memory>
    requires { Fits instance.now ray.now }
    ensures reason { IfOk result (IsReasonOf instance.now ray.now) }
    ensures trips { IfOk result (λ reason. AreTripsOf instance.now (trips_of reason)) }
{
    let trips = counted_trips(alloc, instance, ray)?;
    let named = trips.as_slice();
    let vehicles = vehicles_for(instance, named);
    match short_minute(instance, named, vehicles) {
        Some(minute) => Ok(Reason::Minute {
            minute,
            trips,
            vehicles,
        }),
        None => Ok(Reason::Trips(trips)),
    }
}
