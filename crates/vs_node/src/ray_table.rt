//! A ray of one layer as a table of all.
ghost use Rattle.std.specs.Prelude.{◌<◌, ◌<ℤ◌, true, pos, List, length, IfOk};
ghost use Rattle.vs_types.specs.declared.layer_set.LayerSet.{LayerSet};
ghost use Rattle.vs_instance.specs.Restriction.{IsRestriction};
ghost use Rattle.vs_prices.specs.Table.{Fits, HoldingTable};
ghost use Rattle.vs_prices.specs.Worth.{IsWorth};
ghost use Rattle.vs_prices.specs.declared.bound.Bound.TheVariants.{NoPlan};
ghost use Rattle.vs_circ.specs.LayerPrices.{AreHolding, shown_of_trips};
ghost use Rattle.vs_node.specs.ChosenLayers.{AreSingle};
ghost use Rattle.vs_node.specs.LayersDone.{must_in};

use crate::pushing::{empty_table, no_prices, push_prices};
use std::alloc::Global;
use vs_circ::LayerPrices;
use vs_instance::Instance;
use vs_prices::Table;
use vs_types::{LayerNo, Memory};

/// A ray with the prices of one layer, and zeros in all others.
pub(crate) fn ray_table(
    alloc: Global,
    instance: &Instance,
    short: LayerNo,
    prices: &LayerPrices,
) -> Result<Table, Memory>
    requires layer { short.0 < length instance.now.layers }
    requires holding { AreHolding instance.now short.0 true prices.now }
    ensures fits { IfOk result (Fits instance.now) }
    ensures holds { IfOk result (HoldingTable instance.now) }
    ensures worth { IfOk result (λ table. (sets : List LayerSet) → IsRestriction instance.now sets
        → AreSingle sets → pos 0 <ℤ shown_of_trips instance.now short.0 true (must_in sets short.0) prices.now
        → IsWorth instance.now sets table NoPlan) }
{
    let zeros = no_prices(alloc, instance)?;
    let mut table = empty_table(alloc, instance, true)?;
    for l in 0..instance.layers() {
        let of_layer = if l == short.0 { prices } else { &zeros };
        push_prices(&mut table, of_layer)?;
    }
    Ok(table)
}
