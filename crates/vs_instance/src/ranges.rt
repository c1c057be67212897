//! Whether the numbers of layers and trips are within their limits.

ghost use Rattle.std.specs.Prelude.{◌≡◌, ◌≤◌, length};
ghost use Rattle.vs_instance.specs.Misfits.{first_misfit, is_no_stay, layer_misfits, layers_misfits, trip_misfits, trips_misfits};

use crate::dearest::is_too_dear;
use crate::layer::Layer;
use crate::limits::{MAX_FIXED, MAX_METRES, MAX_PER_METRE, MAX_PER_MINUTE, MAX_STAY, MAX_TRIPS};
use crate::misfit::{Field, Misfit, Place};
use crate::trip::Trip;
use vs_types::{LayerNo, MAX_LAYERS, TripNo};

/// The first error of a layer, where a fleet has so many vehicles at most and there are so many trips.
fn layer_misfit(l: LayerNo, layer: &Layer, most: u32, trips: u32) -> Option<Misfit>
    requires { trips ≤ MAX_TRIPS }
    ensures { result ≡ first_misfit (layer_misfits most trips l.0 layer.now) }
{
    let place = Place::Layer(l);
    if layer.fleet > u64::from(most) {
        Some(Misfit::Range(Field::Fleet, place))
    } else if layer.fixed > MAX_FIXED {
        Some(Misfit::Range(Field::Fixed, place))
    } else if layer.per_minute > MAX_PER_MINUTE {
        Some(Misfit::Range(Field::PerMinute, place))
    } else if layer.per_metre > MAX_PER_METRE {
        Some(Misfit::Range(Field::PerMetre, place))
    } else if is_out_of_range(layer.stay) {
        Some(Misfit::Range(Field::Stay, place))
    } else if is_too_dear(trips, layer) {
        Some(Misfit::TooDear(l))
    } else {
        None
    }
}

/// Whether there is a least rest and it is out of its range.
fn is_out_of_range(stay: Option<u64>) -> bool
    ensures { result ≡ is_no_stay stay }
{
    match stay {
        Some(minutes) => minutes == 0 || minutes > MAX_STAY,
        None => false,
    }
}

/// The first error of the layers, in number order. A fleet has so many vehicles at most.
pub fn layers_misfit(layers: &[Layer], trips: &[Trip], most: u32) -> Option<Misfit>
    requires layers { length layers.now ≤ MAX_LAYERS }
    requires trips { length trips.now ≤ MAX_TRIPS }
    ensures { result ≡ first_misfit (layers_misfits most (length trips.now) layers.now) }
{
    let count = trips.len() as u32;
    for (l, layer) in layers.iter().enumerate() {
        if let Some(misfit) = layer_misfit(LayerNo(l as u32), layer, most, count) {
            return Some(misfit);
        }
    }
    None
}

fn trip_misfit(i: TripNo, trip: &Trip) -> Option<Misfit>
    ensures { result ≡ first_misfit (trip_misfits i.0 trip.now) }
{
    if trip.metres > MAX_METRES {
        Some(Misfit::Range(Field::Metres, Place::Trip(i)))
    } else if trip.end <= trip.start {
        Some(Misfit::EndNotAfterStart(i))
    } else {
        None
    }
}

/// The first error of the trips, in number order.
pub fn trips_misfit(trips: &[Trip]) -> Option<Misfit>
    requires { length trips.now ≤ MAX_TRIPS }
    ensures { result ≡ first_misfit (trips_misfits trips.now) }
{
    for (i, trip) in trips.iter().enumerate() {
        if let Some(misfit) = trip_misfit(TripNo(i as u32), trip) {
            return Some(misfit);
        }
    }
    None
}
