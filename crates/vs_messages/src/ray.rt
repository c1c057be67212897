//! What a ray counts: its trips, when they are under way, and the vehicles that may run them.

ghost use Rattle.std.specs.Prelude.{◌≡◌, ℕ, ◌<◌, ◌≤◌, ◌*◌, length, IfOk, MatchOption};
ghost use Rattle.vs_instance.specs.declared.limits.TheConstants.{MAX_FLEET, TWO_DAYS};
ghost use Rattle.vs_prices.specs.Table.{Fits};
ghost use Rattle.vs_messages.specs.Reasons.{AreTripsOf, AreUnderWay, IsShortAt, counted_trips, counts, fleet_for, may_run_some, vehicles_for};

use std::alloc::Global;
use vs_instance::{Instance, TWO_DAYS};
use vs_prices::{Table, least_price};
use vs_types::{LayerNo, Memory, TripNo};

/// The trips that count more than 0, in number order.
pub fn counted_trips(
    alloc: Global,
    instance: &Instance,
    table: &Table,
) -> Result<Vec<TripNo>, Memory>
    requires { Fits instance.now table.now }
    ensures counted { IfOk result (λ trips. trips.items ≡ counted_trips instance.now table.now) }
    ensures trips { IfOk result (λ trips. AreTripsOf instance.now trips.items) }
{
    let mut trips = Vec::new(alloc);
    for i in 0..instance.trips() {
        if counts(instance, table, TripNo(i)) {
            trips.push(TripNo(i))?;
        }
    }
    Ok(trips)
}

/// Whether a trip counts more than 0 in the layer where it counts least.
fn counts(instance: &Instance, table: &Table, i: TripNo) -> bool
    requires fits { Fits instance.now table.now }
    requires trip { i.0 < length instance.now.trips }
    ensures { result ≡ counts instance.now table.now i }
{
    // for the proof: trips of an instance are within its limits
    prove!(i.0 < instance.trips());
    let layers = instance.trip(i).layers;
    least_price(instance, layers, table, i) > 0
}

/// A minute at which all of the trips are under way, where they are more than so many vehicles. None exactly where
/// there is no such minute.
pub fn short_minute(instance: &Instance, trips: &[TripNo], vehicles: u64) -> Option<u32>
    requires trips { AreTripsOf instance.now trips.now }
    requires vehicles { vehicles ≡ vehicles_for instance.now trips.now }
    ensures { MatchOption result
        ((minute : ℕ) → minute < TWO_DAYS → ¬ (IsShortAt instance.now trips.now minute))
        (IsShortAt instance.now trips.now) }
{
    if vehicles >= trips.len() as u64 {
        return None;
    }
    common_minute(instance, trips)
}

/// A minute at which all of the trips are under way: the latest start among them. None exactly where there is none.
fn common_minute(instance: &Instance, trips: &[TripNo]) -> Option<u32>
    requires { AreTripsOf instance.now trips.now }
    ensures { MatchOption result
        ((minute : ℕ) → minute < TWO_DAYS → ¬ (AreUnderWay instance.now trips.now minute))
        (AreUnderWay instance.now trips.now) }
{
    let mut latest_start = 0;
    let mut earliest_end = TWO_DAYS;
    for i in trips {
        let trip = instance.trip(*i);
        latest_start = trip.start.max(latest_start);
        earliest_end = trip.end.min(earliest_end);
    }
    if latest_start < earliest_end {
        Some(latest_start)
    } else {
        None
    }
}

/// How many vehicles the layers have that may run some of the trips.
pub fn vehicles_for(instance: &Instance, trips: &[TripNo]) -> u64
    requires { AreTripsOf instance.now trips.now }
    ensures { result ≡ vehicles_for instance.now trips.now }
{
    let mut vehicles = 0;
    for l in 0..instance.layers() {
        vehicles += fleet_for(instance, trips, LayerNo(l));
    }
    vehicles
}

/// How many vehicles a layer has for the trips: none where it may run none of them.
fn fleet_for(instance: &Instance, trips: &[TripNo], l: LayerNo) -> u64
    requires trips { AreTripsOf instance.now trips.now }
    requires layer { l.0 < length instance.now.layers }
    ensures value { result ≡ fleet_for instance.now trips.now l.0 }
    ensures few { result ≤ MAX_FLEET }
{
    // for the proof: layers of an instance are within its limits
    prove!(l.0 < instance.layers());
    if may_run_some(instance, trips, l) {
        instance.layer(l).fleet
    } else {
        0
    }
}

/// Whether a layer may run some of the trips.
fn may_run_some(instance: &Instance, trips: &[TripNo], l: LayerNo) -> bool
    requires trips { AreTripsOf instance.now trips.now }
    requires layer { l.0 < length instance.now.layers }
    ensures { result ≡ may_run_some instance.now trips.now l.0 }
{
    // for the proof: layers of an instance are within its limits
    prove!(l.0 < instance.layers());
    for i in trips {
        if instance.trip(*i).layers.has(l) {
            return true;
        }
    }
    false
}
