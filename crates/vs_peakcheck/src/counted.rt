//! The instance that counts the vehicles of one layer.

ghost use Rattle.std.specs.Prelude.{◌≡◌, ◌<◌, length, IfOk};
ghost use Rattle.vs_peakcheck.specs.Counting.{counted_layer, counting};
ghost use Rattle.vs_peakcheck.specs.Parts.{CountingParts};

use crate::deadheads::all_deadheads;
use crate::trips::{counted_trips, trips_of};
use std::alloc::Global;
use vs_instance::{Instance, Layer, MAX_TRIPS, NewError, Parts, USUAL_TRIPS};
use vs_types::{LayerNo, Memory};

/// The instance in which a plan costs as much as it has vehicles of layer l. It has the same stops and deadheads, that
/// layer alone with a fleet that is never too small, and the trips that it may run, in order. The vehicles cost 1 each
/// and nothing else.
pub fn counting(alloc: Global, instance: &Instance, l: LayerNo) -> Result<Instance, Memory>
    requires { l.0 < length instance.now.layers }
    ensures { IfOk result (λ counted. counted ≡ counting instance.now l.0) }
{
    let parts = parts_of(alloc, instance, l)?;
    match Instance::new(alloc, parts) {
        Ok(counted) => Ok(counted),
        Err(NewError::Memory) => Err(Memory),
        Err(NewError::Misfit(_)) => unreachable!(),
    }
}

/// What that instance is made of.
fn parts_of(alloc: Global, instance: &Instance, l: LayerNo) -> Result<Parts, Memory>
    requires { l.0 < length instance.now.layers }
    ensures { IfOk result (CountingParts instance.now l.0) }
{
    let own_trips = trips_of(alloc, instance, l)?;
    let trips = counted_trips(alloc, instance, own_trips.as_slice())?;
    let deadheads = all_deadheads(alloc, instance)?;
    let mut layers = Vec::new(alloc);
    let fleet = u64::from(instance.trips().max(USUAL_TRIPS));
    layers.push(counted_layer(instance.layer(l), fleet))?;
    Ok(Parts {
        stops: instance.stops(),
        deadheads,
        layers,
        trips,
        most: MAX_TRIPS,
    })
}

/// The layer with so many vehicles, where each costs 1 and none rests.
fn counted_layer(layer: &Layer, fleet: u64) -> Layer
    ensures { result ≡ counted_layer fleet layer.now }
{
    Layer {
        depot: layer.depot,
        fleet,
        fixed: 1,
        per_minute: 0,
        per_metre: 0,
        stay: None,
    }
}
