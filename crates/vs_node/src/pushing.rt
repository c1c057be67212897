//! The prices of a layer put behind those of the layers before it.
ghost use Rattle.std.specs.Prelude.{◌≡◌, [], IfOk, OnOk};
ghost use Rattle.vs_node.specs.LayersDone.{AreNoPrices, AreSized, StandBehind};

use std::alloc::Global;
use vs_circ::LayerPrices;
use vs_instance::Instance;
use vs_prices::Table;
use vs_types::Memory;

/// A table of no layers yet, with room for all.
pub(crate) fn empty_table(alloc: Global, instance: &Instance, ray: bool) -> Result<Table, Memory>
    ensures into { IfOk result (λ table. table.into.items ≡ []) }
    ensures from { IfOk result (λ table. table.from.items ≡ []) }
    ensures fleet { IfOk result (λ table. table.fleet.items ≡ []) }
    ensures ray { IfOk result (λ table. table.ray ≡ ray) }
{
    let layers = instance.layers() as usize;
    let places = layers * instance.trips() as usize;
    Ok(Table {
        into: Vec::with_capacity(alloc, places)?,
        from: Vec::with_capacity(alloc, places)?,
        fleet: Vec::with_capacity(alloc, layers)?,
        ray,
    })
}

/// Puts the prices of a layer behind those of the layers before it.
pub(crate) fn push_prices(table: &mut Table, prices: &LayerPrices) -> Result<(), Memory>
    ensures { OnOk result (StandBehind table.old prices.now table.new) }
{
    table.into.extend_from_slice(&prices.into)?;
    table.from.extend_from_slice(&prices.from)?;
    table.fleet.push(prices.fleet)?;
    Ok(())
}

/// Prices of a layer that are all 0.
pub(crate) fn no_prices(alloc: Global, instance: &Instance) -> Result<LayerPrices, Memory>
    ensures zeros { IfOk result AreNoPrices }
    ensures sized { IfOk result (AreSized instance.now) }
{
    let trips = instance.trips() as usize;
    Ok(LayerPrices {
        into: vec![in alloc; 0; trips]?,
        from: vec![in alloc; 0; trips]?,
        fleet: 0,
    })
}
