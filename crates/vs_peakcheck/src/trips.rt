//! The trips that a layer may run.

ghost use Rattle.std.specs.Prelude.{◌≡◌, ◌<◌, length, map, All, IfOk};
ghost use Rattle.vs_peakcheck.specs.Counting.{counted_trip, numbered, permitted_trips};
ghost use Rattle.vs_instance.specs.Ways.{trip_of};

use std::alloc::Global;
use vs_instance::{Instance, Trip};
use vs_types::{LayerNo, LayerSet, Memory, TripNo};

/// The set of the only layer there is.
const ONLY_LAYER: LayerSet = LayerSet(1);

/// The trips that layer l may run, in number order.
pub fn trips_of(alloc: Global, instance: &Instance, l: LayerNo) -> Result<Vec<TripNo>, Memory>
    requires { l.0 < length instance.now.layers }
    ensures trips { IfOk result (λ trips.
        trips.items ≡ map numbered (permitted_trips instance.now l.0)) }
    ensures within { IfOk result (λ trips.
        All (λ i. i.0 < length instance.now.trips) trips.items) }
{
    // for the proof: layers of an instance are within its limits
    prove!(l.0 < instance.layers());
    let mut trips = Vec::new(alloc);
    for i in 0..instance.trips() {
        if instance.trip(TripNo(i)).layers.has(l) {
            trips.push(TripNo(i))?;
        }
    }
    Ok(trips)
}

/// These trips, permitted in the only layer.
pub(crate) fn counted_trips(
    alloc: Global,
    instance: &Instance,
    trips: &[TripNo],
) -> Result<Vec<Trip>, Memory>
    requires { All (λ i. i.0 < length instance.now.trips) trips.now }
    ensures { IfOk result (λ counted.
        counted.items ≡ map (λ i. counted_trip (trip_of instance.now i.0)) trips.now) }
{
    let mut counted = Vec::with_capacity(alloc, trips.len())?;
    for k in 0..trips.len() {
        counted.push(counted_trip(instance.trip(trips[k])))?;
    }
    Ok(counted)
}

/// The trip, permitted in the only layer.
fn counted_trip(trip: &Trip) -> Trip
    ensures { result ≡ counted_trip trip.now }
{
    Trip {
        from: trip.from,
        start: trip.start,
        to: trip.to,
        end: trip.end,
        metres: trip.metres,
        layers: ONLY_LAYER,
    }
}
