//! What the first layers run of trips that have one layer each.
ghost use Rattle.std.specs.Prelude.{◌+◌, ◌<◌, List, length, IfOk, OnOk};
ghost use Rattle.vs_types.specs.declared.layer_set.LayerSet.{LayerSet};
ghost use Rattle.vs_instance.specs.Restriction.{IsRestriction};
ghost use Rattle.vs_layer.specs.Circulation.{IsCirculation};
ghost use Rattle.vs_match.specs.LawfulNets.{IsLawful};
ghost use Rattle.vs_plan.specs.Blocks.{pairs_of};
ghost use Rattle.vs_node.specs.ChosenLayers.{AreSingle};
ghost use Rattle.vs_node.specs.LayersDone.{AreDone, IsLayerRun};

use crate::pushing::{empty_table, push_prices};
use std::alloc::Global;
use vs_circ::LayerPrices;
use vs_decomp::blocks_of;
use vs_instance::Instance;
use vs_layer::Flow;
use vs_match::LayerNet;
use vs_plan::Block;
use vs_prices::Table;
use vs_types::{LayerNo, Memory};

/// What the first layers run of trips that have one layer each.
#[derive(Drop)]
pub(crate) struct LayersRun {
    /// The prices of these layers.
    pub table: Table,
    /// The blocks of their vehicles.
    pub blocks: Vec<Block>,
}

impl LayersRun {
    /// Nothing, of no layers yet.
    pub(crate) fn new(alloc: Global, instance: &Instance) -> Result<LayersRun, Memory>
        ensures { IfOk result (λ run. (sets : List LayerSet)
            → AreDone instance.now sets 0 run.table (pairs_of run.blocks.items)) }
    {
        Ok(LayersRun {
            table: empty_table(alloc, instance, false)?,
            blocks: Vec::new(alloc),
        })
    }

    /// The next layer, whose vehicles run a circulation of its net at a cost that the prices show.
    pub(crate) fn add(
        &mut self,
        alloc: Global,
        instance: &Instance,
        l: LayerNo,
        net: &LayerNet,
        flow: &Flow,
        prices: &LayerPrices,
    ) -> Result<(), Memory>
        requires layer { l.0 < length instance.now.layers }
        requires lawful { IsLawful instance.now l.0 net.now }
        requires circulation { IsCirculation net.now.graph flow.now.units.items }
        ensures { OnOk result ((sets : List LayerSet) → IsRestriction instance.now sets → AreSingle sets
            → IsLayerRun instance.now sets l net.now flow.now prices.now
            → AreDone instance.now sets l.0 self.old.table (pairs_of self.old.blocks.items)
            → AreDone instance.now sets (l.0 + 1) self.new.table (pairs_of self.new.blocks.items)) }
    {
        let mut of_layer = blocks_of(alloc, instance, l, net, flow)?;
        self.blocks.append(&mut of_layer)?;
        push_prices(&mut self.table, prices)?;
        Ok(())
    }
}
