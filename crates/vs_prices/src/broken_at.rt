//! Where prices break first: the judge of tables, over all pairs of trips.

ghost use Rattle.std.specs.Prelude.{◌≡◌, ℕ, ◌<◌, ◌↔◌, Option, length, option_map, pos, IfSome, IsNone};
ghost use Rattle.vs_connect.specs.Cost.{IsCost};
ghost use Rattle.vs_instance.specs.Firsts.{first};
ghost use Rattle.vs_prices.specs.Breaks.{IsBroken, breaks_of, layer_breaks, trip_breaks, exceeds, is_link_broken, links_breaks, is_pull_in_broken, is_pull_out_broken};
ghost use Rattle.vs_prices.specs.Table.{Fits, HoldingTable, IsPrice};

use crate::table::Table;
use vs_connect::{in_cost, link_cost, out_cost, scaled};
use vs_instance::Instance;
use vs_types::{LayerNo, TripNo};

/// Where prices break: a move is worth more than it costs.
#[derive(Clone, Copy, Debug, PartialEq, Eq)]
pub enum BrokenAt {
    /// The price of a vehicle of the layer is below 0.
    Fleet(LayerNo),
    /// Entering the trip is worth more than its pull-out costs and a vehicle pays.
    PullOut(LayerNo, TripNo),
    /// Entering the second trip is worth more than leaving the first and the way between them cost.
    Link(LayerNo, TripNo, TripNo),
    /// Leaving the trip costs less than nothing with its pull-in.
    PullIn(LayerNo, TripNo),
}

/// Whether a price is more than another price and a piece of cost together, where there is the
/// piece.
fn exceeds(price: i64, other: i64, cost: Option<i64>, ray: bool) -> bool
    requires other { IsPrice other }
    requires cost { IfSome cost IsCost }
    ensures { (piece : Option ℕ) → cost ≡ option_map pos piece
        → result ≡ exceeds price other ray piece }
{
    match cost {
        None => false,
        Some(cost) => price > other + scaled(ray, cost),
    }
}

/// Whether entering trip i in layer l is worth more than its pull-out costs and a vehicle pays.
fn is_pull_out_broken(instance: &Instance, table: &Table, l: LayerNo, i: TripNo) -> bool
    requires fits { Fits instance.now table.now }
    requires layer { l.0 < length instance.now.layers }
    requires trip { i.0 < length instance.now.trips }
    ensures { result ≡ is_pull_out_broken instance.now table.now l.0 i.0 }
{
    let into = table.into_price(instance, l, i);
    let vehicle = table.vehicle_price(l);
    exceeds(into, vehicle, out_cost(instance, l, i), table.ray)
}

/// Whether leaving trip i in layer l and its pull-in together cost less than nothing.
fn is_pull_in_broken(instance: &Instance, table: &Table, l: LayerNo, i: TripNo) -> bool
    requires fits { Fits instance.now table.now }
    requires layer { l.0 < length instance.now.layers }
    requires trip { i.0 < length instance.now.trips }
    ensures { result ≡ is_pull_in_broken instance.now table.now l.0 i.0 }
{
    let from = table.from_price(instance, l, i);
    exceeds(0, from, in_cost(instance, l, i), table.ray)
}

/// Whether the link from trip i to trip j breaks the table in layer l. It does where l may run j,
/// i connects to j, and entering j is worth more than leaving i and the way between cost.
fn is_link_broken(instance: &Instance, table: &Table, l: LayerNo, i: TripNo, j: TripNo) -> bool
    requires fits { Fits instance.now table.now }
    requires layer { l.0 < length instance.now.layers }
    requires trip { i.0 < length instance.now.trips }
    requires next { j.0 < length instance.now.trips }
    ensures { result ≡ is_link_broken instance.now table.now l.0 i.0 j.0 }
{
    // for the proof: the instance is within its limits
    prove!(l.0 < instance.layers());
    let into = table.into_price(instance, l, j);
    let from = table.from_price(instance, l, i);
    // No way costs less than nothing, so it is looked up only where entering is worth more than leaving.
    if into <= from {
        return false;
    }
    if !instance.trip(j).layers.has(l) {
        return false;
    }
    exceeds(into, from, link_cost(instance, l, i, j), table.ray)
}

/// The first trip in order on the way to which from trip i the prices of layer l break.
fn broken_after(instance: &Instance, table: &Table, l: LayerNo, i: TripNo) -> Option<BrokenAt>
    requires fits { Fits instance.now table.now }
    requires layer { l.0 < length instance.now.layers }
    requires trip { i.0 < length instance.now.trips }
    ensures { result ≡ first (links_breaks instance.now table.now l.0 i.0) }
{
    for j in 0..instance.trips() {
        if is_link_broken(instance, table, l, i, TripNo(j)) {
            return Some(BrokenAt::Link(l, i, TripNo(j)));
        }
    }
    None
}

/// The first move of layer l into trip i or on from it where the prices break.
fn broken_at_trip(instance: &Instance, table: &Table, l: LayerNo, i: TripNo) -> Option<BrokenAt>
    requires fits { Fits instance.now table.now }
    requires layer { l.0 < length instance.now.layers }
    requires trip { i.0 < length instance.now.trips }
    ensures { result ≡ first (trip_breaks instance.now table.now l.0 i.0) }
{
    // for the proof: the instance is within its limits
    prove!(l.0 < instance.layers());
    if !instance.trip(i).layers.has(l) {
        return None;
    }
    if is_pull_out_broken(instance, table, l, i) {
        return Some(BrokenAt::PullOut(l, i));
    }
    if let Some(at) = broken_after(instance, table, l, i) {
        return Some(at);
    }
    if is_pull_in_broken(instance, table, l, i) {
        return Some(BrokenAt::PullIn(l, i));
    }
    None
}

/// The first place where the prices of layer l break.
fn broken_in_layer(instance: &Instance, table: &Table, l: LayerNo) -> Option<BrokenAt>
    requires fits { Fits instance.now table.now }
    requires layer { l.0 < length instance.now.layers }
    ensures { result ≡ first (layer_breaks instance.now table.now l.0) }
{
    if table.vehicle_price(l) < 0 {
        return Some(BrokenAt::Fleet(l));
    }
    for i in 0..instance.trips() {
        if let Some(at) = broken_at_trip(instance, table, l, TripNo(i)) {
            return Some(at);
        }
    }
    None
}

/// Where a table breaks first, by layers in order. In a layer the price of its vehicles comes first,
/// and then the trips in order. Of a trip it is the pull-out, each trip in order to which the trip
/// connects, and the pull-in. It goes once over all pairs of trips.
pub fn broken(instance: &Instance, table: &Table) -> Option<BrokenAt>
    requires { Fits instance.now table.now }
    ensures first { result ≡ first (breaks_of instance.now table.now) }
    ensures holds { IsNone result ↔ HoldingTable instance.now table.now }
    ensures broken { IfSome result (IsBroken instance.now table.now) }
{
    for l in 0..instance.layers() {
        if let Some(at) = broken_in_layer(instance, table, LayerNo(l)) {
            return Some(at);
        }
    }
    None
}
