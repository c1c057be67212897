//! What a table is worth within a restriction: what its trips pay, less what its vehicles pay, which bounds every plan.

ghost use Rattle.std.specs.Prelude.{◌≡◌, ℕ, ◌<◌, IfOk, length, map, neg_ℤ, ◌≤ℤ◌};
ghost use Rattle.vs_instance.specs.Instance.{IsInstance};
ghost use Rattle.vs_instance.specs.Restriction.{IsRestriction, permitted_sets};
ghost use Rattle.vs_types.specs.LayerSet.{Has, members};
ghost use Rattle.vs_prices.specs.Laws.{PricesBoundPlans, UnratedTablesAreRays};
ghost use Rattle.vs_prices.specs.Table.{Fits, HoldingTable};
ghost use Rattle.vs_prices.specs.Worth.{BoundsPlans, IsRoundedUp, IsWorth, least, trip_price, trips_pay, vehicles_pay};

use crate::bound::Bound;
use crate::table::Table;
use std::alloc::Global;
use vs_connect::{lesser, scaled, trip_cost};
use vs_instance::Instance;
use vs_types::{LayerNo, LayerSet, Memory, SCALE, TripNo};

/// No trip pays more than this in a layer, or less than its negative, in 1/1000 of a cost unit. It pays at most two
/// prices and a piece of cost.
pub const MAX_TRIP_PRICE: i64 = 3_000_000_000_000_000_000;

/// All trips together pay no more than this, or less than its negative.
const MAX_TRIPS_PAY: i128 = 30_000_000_000_000_000_000_000;

/// All vehicles together pay no more than this, or less than its negative.
const MAX_VEHICLES_PAY: i128 = 160_000_000_000_000_000_000_000;

/// The restriction that restricts nothing: for each trip the layers that may run it.
pub fn permitted_sets(alloc: Global, instance: &Instance) -> Result<Vec<LayerSet>, Memory>
    ensures sets { IfOk result (λ sets. sets.items ≡ permitted_sets instance.now) }
    ensures restriction { IfOk result (λ sets. IsRestriction instance.now sets.items) }
{
    let mut sets = Vec::new(alloc);
    for i in 0..instance.trips() {
        sets.push(instance.trip(TripNo(i)).layers)?;
    }
    Ok(sets)
}

/// What trip i pays in layer l, in 1/1000 of a cost unit. This is the price for entering it and its own cost, which a
/// ray leaves out, less the price for leaving it.
pub fn trip_price(instance: &Instance, table: &Table, l: LayerNo, i: TripNo) -> i64
    requires fits { Fits instance.now table.now }
    requires layer { l.0 < length instance.now.layers }
    requires trip { i.0 < length instance.now.trips }
    ensures value { result ≡ trip_price instance.now table.now i.0 l.0 }
    ensures low { neg_ℤ MAX_TRIP_PRICE ≤ℤ result }
    ensures high { result ≤ℤ MAX_TRIP_PRICE }
{
    let into = table.into_price(instance, l, i);
    let from = table.from_price(instance, l, i);
    into + scaled(table.ray, trip_cost(instance, l, i)) - from
}

/// What trip i pays in the cheapest layer of a set, in 1/1000 of a cost unit; 0 where the set is empty.
pub fn least_price(instance: &Instance, set: LayerSet, table: &Table, i: TripNo) -> i64
    requires fits { Fits instance.now table.now }
    requires trip { i.0 < length instance.now.trips }
    requires set { (l : ℕ) → Has set l → l < length instance.now.layers }
    ensures value { result ≡ least (map (trip_price instance.now table.now i.0) (members set)) }
    ensures low { neg_ℤ MAX_TRIP_PRICE ≤ℤ result }
    ensures high { result ≤ℤ MAX_TRIP_PRICE }
{
    let mut least: Option<i64> = None;
    for l in 0..instance.layers() {
        if set.has(LayerNo(l)) {
            let price = trip_price(instance, table, LayerNo(l), i);
            least = lesser(least, Some(price));
        }
    }
    least.unwrap_or(0)
}

/// What all trips pay in the cheapest layers of their sets.
fn trips_pay(instance: &Instance, sets: &[LayerSet], table: &Table) -> i128
    requires fits { Fits instance.now table.now }
    requires restriction { IsRestriction instance.now sets.now }
    ensures value { result ≡ trips_pay instance.now sets.now table.now }
    ensures low { neg_ℤ MAX_TRIPS_PAY ≤ℤ result }
    ensures high { result ≤ℤ MAX_TRIPS_PAY }
{
    let mut paid = 0;
    for i in 0..instance.trips() {
        paid += i128::from(least_price(instance, sets[i as usize], table, TripNo(i)));
    }
    paid
}

/// What all vehicles pay.
fn vehicles_pay(instance: &Instance, table: &Table) -> i128
    requires { Fits instance.now table.now }
    ensures value { result ≡ vehicles_pay instance.now table.now }
    ensures low { neg_ℤ MAX_VEHICLES_PAY ≤ℤ result }
    ensures high { result ≤ℤ MAX_VEHICLES_PAY }
    ensures instance { IsInstance instance.now }
{
    let mut paid = 0;
    for l in 0..instance.layers() {
        let vehicles = instance.layer(LayerNo(l)).fleet;
        paid += i128::from(table.vehicle_price(LayerNo(l))) * i128::from(vehicles);
    }
    paid
}

/// The least whole number of cost units that is no less than a value in 1/1000 of one.
fn rounded_up(value: i128) -> i128
    ensures { IsRoundedUp value result }
{
    let scale = i128::from(SCALE);
    let whole = value / scale;
    if value % scale > 0 { whole + 1 } else { whole }
}

/// What the table is worth where each trip is run in a layer of its set, one set per trip. This is
/// what the trips pay in the cheapest layers of their sets, less what all vehicles pay, rounded up to whole
/// cost units. A ray, in which costs count nothing, shows by a value above 0 that there is no such
/// plan, and else nothing. Where the table holds, no plan within the sets costs less.
pub fn worth(instance: &Instance, sets: &[LayerSet], table: &Table) -> Bound
    requires fits { Fits instance.now table.now }
    requires restriction { IsRestriction instance.now sets.now }
    ensures worth { IsWorth instance.now sets.now table.now result }
    ensures bounds { HoldingTable instance.now table.now
        → BoundsPlans instance.now sets.now result }
{
    let value = trips_pay(instance, sets, table) - vehicles_pay(instance, table);
    if !table.ray {
        return Bound::AtLeast(rounded_up(value));
    }
    if value > 0 {
        Bound::NoPlan
    } else {
        Bound::AtLeast(0)
    }
}

/// Prices that hold bound every plan. It costs at least what they are worth within any restriction
/// that it keeps to. Where their worth is that there is no plan, none keeps to the restriction.
/// This is the weak duality of linear programming, said of plans as lists of blocks.
pub fn prices_bound_plans()
    ensures { PricesBoundPlans }
{}

/// A ray is a cost table of the instance without rates, and each such table is a ray. The conditions and the value are
/// the same. So a ray shows that there is no plan exactly where, with nothing costing anything, the prices would bound
/// plans above 0.
pub fn unrated_tables_are_rays()
    ensures { UnratedTablesAreRays }
{}
