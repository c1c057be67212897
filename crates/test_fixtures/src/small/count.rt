//! All plans of a small timetable: all ways to give each trip to one of the vehicles.

ghost use Rattle.std.specs.Prelude.{◌<◌};

use crate::small::drive::{Driven, day_cost, driven_on};
use crate::small::{Layer, Small};

/// How many vehicles there are.
fn vehicles(small: &Small) -> u64 {
    let mut count: u64 = 0;
    for layer in &small.layers {
        count = count.saturating_add(layer.fleet);
    }
    count
}

/// The layer of a vehicle.
fn layer_of(small: &Small, vehicle: u64) -> Option<Layer> {
    let mut before: u64 = 0;
    for layer in &small.layers {
        before = before.saturating_add(layer.fleet);
        if vehicle < before {
            return Some(*layer);
        }
    }
    None
}

/// Numbers of so many digits, of which each stands for a vehicle.
fn plans(small: &Small, vehicles: u64) -> u64 {
    let mut count: u64 = 1;
    for _ in &small.trips {
        count = count.saturating_mul(vehicles);
    }
    count
}

/// What a vehicle does whose trips are those with its digit: Some(None) where it stays in the depot, None where it
/// can't run them.
fn day(small: &Small, layer: &Layer, vehicle: u64, count: u64, plan: u64) -> Option<Option<Driven>>
    requires { 0 < count }
{
    let mut driven = None;
    let mut digits = plan;
    for trip in &small.trips {
        if digits % count == vehicle {
            driven = Some(driven_on(small, layer, driven, trip)?);
        }
        digits /= count;
    }
    Some(driven)
}

/// What a vehicle's day costs in a plan. None where it can't run its trips.
fn vehicle_cost(small: &Small, vehicle: u64, count: u64, plan: u64) -> Option<u64>
    requires { 0 < count }
{
    let layer = layer_of(small, vehicle)?;
    match day(small, &layer, vehicle, count, plan)? {
        Some(driven) => day_cost(small, &layer, &driven),
        None => Some(0),
    }
}

/// What a plan costs. None where a vehicle can't run its trips.
fn plan_cost(small: &Small, count: u64, plan: u64) -> Option<u64>
    requires { 0 < count }
{
    let mut cost: u64 = 0;
    for vehicle in 0..count {
        cost = cost.saturating_add(vehicle_cost(small, vehicle, count, plan)?);
    }
    Some(cost)
}

/// The lesser of two costs, where there are any.
fn lesser(a: Option<u64>, b: Option<u64>) -> Option<u64> {
    match (a, b) {
        (Some(a), Some(b)) => Some(a.min(b)),
        (None, _) => b,
        (_, None) => a,
    }
}

/// What the cheapest plan costs. None where there is no plan.
pub fn least_cost(small: &Small) -> Option<u64> {
    let count = vehicles(small);
    if count == 0 {
        return None;
    }
    let mut least = None;
    for plan in 0..plans(small, count) {
        least = lesser(least, plan_cost(small, count, plan));
    }
    least
}
