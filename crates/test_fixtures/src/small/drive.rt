//! What a vehicle does in a day, and what that costs.

use crate::small::{Layer, Small, Trip};

/// What a vehicle has done so far: the minute at which it left the depot, and the minutes that it rested there since.
/// Also the metres that it drove, and the last trip that it ran.
#[derive(Clone, Copy)]
pub struct Driven {
    out: u64,
    rested: u64,
    metres: u64,
    last: Trip,
}

/// Minutes in the depot between two trips, and metres on the way.
#[derive(Clone, Copy)]
struct Between {
    rested: u64,
    metres: u64,
    cost: u64,
}

/// What so many minutes and metres cost.
fn cost_of(layer: &Layer, minutes: u64, metres: u64) -> u64 {
    let driving = layer.per_metre.saturating_mul(metres);
    layer
        .per_minute
        .saturating_mul(minutes)
        .saturating_add(driving)
}

/// The direct way from one trip to the next.
fn direct(small: &Small, layer: &Layer, i: &Trip, j: &Trip) -> Option<Between> {
    let way = small.way(i.to, j.from)?;
    if i.end.saturating_add(way.minutes) > j.start {
        return None;
    }
    Some(Between {
        rested: 0,
        metres: way.metres,
        cost: cost_of(layer, j.start.saturating_sub(i.end), way.metres),
    })
}

/// The way by the depot, where there is time enough for a rest.
fn by_depot(small: &Small, layer: &Layer, i: &Trip, j: &Trip) -> Option<Between> {
    let into = small.way(i.to, layer.depot)?;
    let out = small.way(layer.depot, j.from)?;
    let arrival = i.end.saturating_add(into.minutes);
    let leaving = arrival.saturating_add(layer.stay);
    if leaving.saturating_add(out.minutes) > j.start {
        return None;
    }
    let minutes = into.minutes.saturating_add(out.minutes);
    let metres = into.metres.saturating_add(out.metres);
    Some(Between {
        rested: j.start.saturating_sub(out.minutes).saturating_sub(arrival),
        metres,
        cost: cost_of(layer, minutes, metres),
    })
}

/// The way that the vehicle takes from one trip to the next.
fn taken(small: &Small, layer: &Layer, i: &Trip, j: &Trip) -> Option<Between> {
    let direct = direct(small, layer, i, j)?;
    match by_depot(small, layer, i, j) {
        Some(rest) if rest.cost < direct.cost => Some(rest),
        _ => Some(direct),
    }
}

/// What a vehicle has done once it ran its first trip.
fn begun(small: &Small, layer: &Layer, trip: &Trip) -> Option<Driven> {
    let way = small.way(layer.depot, trip.from)?;
    if way.minutes > trip.start {
        return None;
    }
    Some(Driven {
        out: trip.start.saturating_sub(way.minutes),
        rested: 0,
        metres: way.metres.saturating_add(trip.metres),
        last: *trip,
    })
}

/// What a vehicle has done once it ran one more trip. None where it can't.
pub fn driven_on(
    small: &Small,
    layer: &Layer,
    driven: Option<Driven>,
    trip: &Trip,
) -> Option<Driven> {
    if trip.layers & layer.bit == 0 {
        return None;
    }
    let Some(driven) = driven else {
        return begun(small, layer, trip);
    };
    let way = taken(small, layer, &driven.last, trip)?;
    let metres = driven.metres.saturating_add(way.metres);
    Some(Driven {
        out: driven.out,
        rested: driven.rested.saturating_add(way.rested),
        metres: metres.saturating_add(trip.metres),
        last: *trip,
    })
}

/// What the day of a vehicle costs that did this. None where it can't get back.
pub fn day_cost(small: &Small, layer: &Layer, driven: &Driven) -> Option<u64> {
    let way = small.way(driven.last.to, layer.depot)?;
    let back = driven.last.end.saturating_add(way.minutes);
    let minutes = back
        .saturating_sub(driven.out)
        .saturating_sub(driven.rested);
    let metres = driven.metres.saturating_add(way.metres);
    Some(layer.fixed.saturating_add(cost_of(layer, minutes, metres)))
}
