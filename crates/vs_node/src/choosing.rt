//! In which layer each trip pays least, by a table of prices.
ghost use Rattle.std.specs.Prelude.{◌≢◌, ◌<◌, ℕ, [], length, IfOk};
ghost use Rattle.vs_types.specs.LayerSet.{Has, members};
ghost use Rattle.vs_types.specs.declared.numbers.TheConstants.{MAX_LAYERS};
ghost use Rattle.vs_instance.specs.Restriction.{IsRestriction};
ghost use Rattle.vs_prices.specs.Table.{Fits};
ghost use Rattle.vs_node.specs.ChosenLayers.{AreChosen, AreSingle, IsCheapest};

use std::alloc::Global;
use vs_instance::{Instance, MAX_LAYERS};
use vs_prices::{Table, trip_price};
use vs_types::{LayerNo, LayerSet, Memory, TripNo};

/// Each trip's set with the layer alone in which the trip pays least, the one with the lowest number on a tie.
pub(crate) fn chosen_layers(
    alloc: Global,
    instance: &Instance,
    sets: &[LayerSet],
    table: &Table,
) -> Result<Vec<LayerSet>, Memory>
    requires fits { Fits instance.now table.now }
    requires restriction { IsRestriction instance.now sets.now }
    ensures chosen { IfOk result (λ chosen. AreChosen instance.now sets.now table.now chosen.items) }
    ensures restriction { IfOk result (λ chosen. IsRestriction instance.now chosen.items) }
    ensures single { IfOk result (λ chosen. AreSingle chosen.items) }
{
    let mut chosen = Vec::with_capacity(alloc, sets.len())?;
    for i in 0..instance.trips() {
        let l = cheapest_layer(instance, sets[i as usize], table, TripNo(i));
        chosen.push(LayerSet::only(l))?;
    }
    Ok(chosen)
}

/// The layer of the set in which the trip pays least, the one with the lowest number on a tie.
fn cheapest_layer(instance: &Instance, set: LayerSet, table: &Table, i: TripNo) -> LayerNo
    requires fits { Fits instance.now table.now }
    requires trip { i.0 < length instance.now.trips }
    requires set { (l : ℕ) → Has set l → l < length instance.now.layers }
    requires some { members set ≢ [] }
    ensures cheapest { IsCheapest instance.now set table.now i.0 result.0 }
    ensures layer { result.0 < MAX_LAYERS }
{
    prove!(instance.layers() <= MAX_LAYERS);
    let mut cheapest = set.lowest().unwrap();
    let mut least = trip_price(instance, table, cheapest, i);
    for k in cheapest.0 + 1..instance.layers() {
        let l = LayerNo(k);
        if set.has(l) {
            let price = trip_price(instance, table, l, i);
            if price < least {
                cheapest = l;
                least = price;
            }
        }
    }
    cheapest
}
