//! Trips that fewer layers may run.

ghost use Rattle.std.specs.Prelude.{◌≡◌, length, IfOk};
ghost use Rattle.vs_instance.specs.Narrowed.{narrowed_trips, with_layers};

use crate::trip::Trip;
use std::alloc::Global;
use vs_types::{LayerSet, Memory};

/// The trip that these layers may run.
fn with_layers(trip: Trip, layers: LayerSet) -> Trip
    ensures { result ≡ with_layers trip layers }
{
    Trip { layers, ..trip }
}

/// These trips in their order, each of which the layers of its set may run.
pub(crate) fn narrowed_trips(
    alloc: Global,
    trips: &[Trip],
    sets: &[LayerSet],
) -> Result<Vec<Trip>, Memory>
    requires { length sets.now ≡ length trips.now }
    ensures { IfOk result (λ narrow. narrow.items ≡ narrowed_trips trips.now sets.now) }
{
    let mut narrow = Vec::with_capacity(alloc, trips.len())?;
    for i in 0..trips.len() {
        narrow.push(with_layers(trips[i], sets[i]))?;
    }
    Ok(narrow)
}
