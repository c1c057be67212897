//! A table made better layer by layer, each layer's prices being the best together with those of the others.
ghost use Rattle.std.specs.Prelude.{◌≡◌, ◌<◌, true, false, IfOk, length};
ghost use Rattle.vs_circ.specs.LayerPrices.{AreHolding};
ghost use Rattle.vs_instance.specs.Restriction.{IsRestriction};
ghost use Rattle.vs_prices.specs.Bounds.{IsNoLess, IsWorthNoLess};
ghost use Rattle.vs_prices.specs.Table.{Fits, HoldingTable};
ghost use Rattle.vs_prices.specs.Worth.{IsWorth};
ghost use Rattle.vs_multi.specs.Raising.{AreBids, IsCostTable, IsRaised};
ghost use Rattle.vs_multi.specs.Rounds.{IsCase};

use crate::exchanging::exchange;
use crate::offering::{circulation, multiply_elsewhere};
use crate::round::Case;
use std::alloc::Global;
use vs_circ::{LayerPrices, Work};
use vs_instance::Instance;
use vs_prices::{Bound, Table, worth};
use vs_types::{LayerNo, LayerSet, Memory};

/// How often at most all layers are gone through: layer by layer the first sweeps gain most, and each costs a
/// circulation in every layer.
const SWEEPS: u32 = 5;

/// What a layer is offered by the prices of the others.
#[derive(Drop)]
pub(crate) struct Bids {
    multipliers: Vec<i64>,
    offers: Vec<Option<i64>>,
}

/// Bids for so many trips.
fn bids_for(alloc: Global, trips: usize) -> Result<Bids, Memory>
    ensures { IfOk result (AreBids trips) }
{
    Ok(Bids {
        multipliers: vec![in alloc; 0; trips]?,
        offers: vec![in alloc; None; trips]?,
    })
}

/// Takes prices into the table in the place of layer l's where it is worth more with them. Gives what it is worth then.
fn take_better(
    instance: &Instance,
    sets: &[LayerSet],
    table: &mut Table,
    least: Bound,
    l: LayerNo,
    prices: &mut LayerPrices,
) -> Bound
    requires layer { l.0 < length instance.now.layers }
    requires restriction { IsRestriction instance.now sets.now }
    requires table { IsCostTable instance.now table.old }
    requires worth { IsWorth instance.now sets.now table.old least }
    requires prices { AreHolding instance.now l.0 false prices.old }
    ensures table { IsCostTable instance.now table.new }
    ensures worth { IsWorth instance.now sets.now table.new result }
    ensures no_less { IsNoLess result least }
{
    exchange(instance, table, l, prices);
    let raised = worth(instance, sets, table);
    let gains = !least.is_no_less(raised);
    if gains {
        raised
    } else {
        exchange(instance, table, l, prices);
        least
    }
}

/// Makes the prices of layer l the best that it can have together with those of the others, where that makes the table
/// worth more. Gives what it is worth then.
fn raise_layer(
    case: &Case<'_>,
    table: &mut Table,
    least: Bound,
    l: LayerNo,
    bids: &mut Bids,
    work: &mut Work,
) -> Result<Bound, Memory>
    requires case { IsCase case.now.instance.now case.now.nets.now case.now.sets.now }
    requires layer { l.0 < length case.now.instance.now.layers }
    requires table { IsCostTable case.now.instance.now table.old }
    requires worth { IsWorth case.now.instance.now case.now.sets.now table.old least }
    requires bids { AreBids (length case.now.instance.now.trips) bids.old }
    ensures raised { IsRaised case.now.instance.now case.now.sets.now least table.new result }
    ensures bids { AreBids (length case.now.instance.now.trips) bids.new }
{
    let net = &case.nets[l.0 as usize];
    multiply_elsewhere(case.instance, case.sets, table, l, &mut bids.multipliers);
    let found = circulation(case, net, &bids.multipliers, l, &mut bids.offers, work);
    let mut circ = found?;
    Ok(take_better(case.instance, case.sets, table, least, l, &mut circ.prices))
}

/// Goes through the layers once. Gives what the table is worth then.
fn sweep(
    case: &Case<'_>,
    table: &mut Table,
    mut least: Bound,
    bids: &mut Bids,
    work: &mut Work,
) -> Result<Bound, Memory>
    requires case { IsCase case.now.instance.now case.now.nets.now case.now.sets.now }
    requires table { IsCostTable case.now.instance.now table.old }
    requires worth { IsWorth case.now.instance.now case.now.sets.now table.old least }
    requires bids { AreBids (length case.now.instance.now.trips) bids.old }
    ensures raised { IsRaised case.now.instance.now case.now.sets.now least table.new result }
    ensures bids { AreBids (length case.now.instance.now.trips) bids.new }
{
    for l in 0..case.instance.layers() {
        least = raise_layer(case, table, least, LayerNo(l), bids, work)?;
    }
    Ok(least)
}

/// Goes through the layers until that gains nothing, five times at most. Gives what the table is worth then.
fn raise_cost_table(
    case: &Case<'_>,
    table: &mut Table,
    mut least: Bound,
    work: &mut Work,
) -> Result<Bound, Memory>
    requires case { IsCase case.now.instance.now case.now.nets.now case.now.sets.now }
    requires table { IsCostTable case.now.instance.now table.old }
    requires worth { IsWorth case.now.instance.now case.now.sets.now table.old least }
    ensures raised { IsRaised case.now.instance.now case.now.sets.now least table.new result }
{
    let mut bids = bids_for(case.alloc, case.instance.trips() as usize)?;
    for _ in 0..SWEEPS {
        let raised = sweep(case, table, least, &mut bids, work)?;
        if least.is_no_less(raised) {
            return Ok(raised);
        }
        least = raised;
    }
    Ok(least)
}

/// Makes a table better within the sets. Layer by layer it takes the prices of a least circulation, where the table is
/// worth more by that. The layer is offered each trip for the least that the trip pays in the other layers of its set.
/// It goes through all layers until that gains nothing, five times at most. A ray stays as it is. Takes what the
/// table is worth, and gives what it is worth then. Where memory runs out, the table still holds and is worth no less.
pub fn raise(
    case: &Case<'_>,
    table: &mut Table,
    least: Bound,
    work: &mut Work,
) -> Result<Bound, Memory>
    requires case { IsCase case.now.instance.now case.now.nets.now case.now.sets.now }
    requires fits { Fits case.now.instance.now table.old }
    requires holds { HoldingTable case.now.instance.now table.old }
    requires worth { IsWorth case.now.instance.now case.now.sets.now table.old least }
    ensures fits { Fits case.now.instance.now table.new }
    ensures holds { HoldingTable case.now.instance.now table.new }
    ensures no_less { IsWorthNoLess case.now.instance.now case.now.sets.now table.new table.old }
    ensures worth { IfOk result (IsWorth case.now.instance.now case.now.sets.now table.new) }
    ensures ray { table.old.ray ≡ true → table.new ≡ table.old }
{
    if table.ray {
        return Ok(least);
    }
    raise_cost_table(case, table, least, work)
}
