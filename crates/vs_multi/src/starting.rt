//! The multipliers to begin with: what a block of each trip alone costs, or what a table of prices stands for.
ghost use Rattle.std.specs.Prelude.{◌≡◌, ◌<◌, IfOk, IfSome, length};
ghost use Rattle.vs_instance.specs.Restriction.{IsRestriction};
ghost use Rattle.vs_prices.specs.Table.{Fits};
ghost use Rattle.vs_multi.specs.Multipliers.{AreMultipliers, AreOfTable, AreStarts, IsLeastOwnCost, IsOwnCost, MayCostAlone};

use crate::round::Case;
use vs_connect::{MAX_PIECE, in_cost, lesser, out_cost, trip_cost};
use vs_instance::{Instance, most_multiplier};
use vs_prices::{Table, least_price};
use vs_types::{LayerNo, LayerSet, Memory, SCALE, TripNo};

/// What a block of one trip costs at most, in cost units: a pull-out, the trip and a pull-in.
const MAX_OWN_COST: i64 = 3 * MAX_PIECE;

/// What a block of trip i alone costs in layer l, in cost units. None exactly where there is none.
fn own_cost(instance: &Instance, l: LayerNo, i: TripNo) -> Option<i64>
    requires layer { l.0 < length instance.now.layers }
    requires trip { i.0 < length instance.now.trips }
    ensures value { IsOwnCost instance.now l i result }
    ensures limits { IfSome result (MayCostAlone (length instance.now.trips)) }
{
    prove!(l.0 < instance.layers() && i.0 < instance.trips());
    if !instance.trip(i).layers.has(l) {
        return None;
    }
    let out = out_cost(instance, l, i)?;
    let back = in_cost(instance, l, i)?;
    Some(out + trip_cost(instance, l, i) + back)
}

/// The least cost of a block of trip i alone, in cost units. None exactly where there is none.
fn least_own_cost(instance: &Instance, i: TripNo) -> Option<i64>
    requires { i.0 < length instance.now.trips }
    ensures value { IsLeastOwnCost instance.now (length instance.now.layers) i result }
    ensures limits { IfSome result (MayCostAlone (length instance.now.trips)) }
{
    let mut least = None;
    for l in 0..instance.layers() {
        let cost = own_cost(instance, LayerNo(l), i);
        least = lesser(least, cost);
    }
    least
}

/// The multipliers to begin with, in 1/1000 of a cost unit. Each becomes the least cost of a block of that trip alone,
/// in any layer that may run it; 0 where there is none.
pub fn start(instance: &Instance, multipliers: &mut [i64])
    requires { length multipliers.old ≡ length instance.now.trips }
    ensures start { AreStarts instance.now multipliers.new }
    ensures within { AreMultipliers instance.now multipliers.new }
{
    for i in 0..instance.trips() {
        let least = least_own_cost(instance, TripNo(i)).unwrap_or(0);
        multipliers[i as usize] = SCALE * least;
    }
}

/// The multipliers that a table stands for. Each becomes what its trip pays in the cheapest layer of its set, or the
/// limit that this is beyond.
pub fn of_table(instance: &Instance, sets: &[LayerSet], table: &Table, multipliers: &mut [i64])
    requires fits { Fits instance.now table.now }
    requires restriction { IsRestriction instance.now sets.now }
    requires each_trip { length multipliers.old ≡ length instance.now.trips }
    ensures { AreOfTable instance.now sets.now table.now multipliers.new }
{
    let most = most_multiplier(instance.trips());
    for i in 0..instance.trips() {
        let pays = least_price(instance, sets[i as usize], table, TripNo(i));
        multipliers[i as usize] = pays.max(0).min(most);
    }
}

/// The multipliers that a table stands for, in a list of their own.
pub fn multipliers_of(case: &Case<'_>, table: &Table) -> Result<Vec<i64>, Memory>
    requires restriction { IsRestriction case.now.instance.now case.now.sets.now }
    requires fits { Fits case.now.instance.now table.now }
    ensures { IfOk result (λ multipliers. AreMultipliers case.now.instance.now multipliers.items) }
{
    let mut multipliers = vec![in case.alloc; 0; case.instance.trips() as usize]?;
    of_table(case.instance, case.sets, table, &mut multipliers);
    Ok(multipliers)
}
