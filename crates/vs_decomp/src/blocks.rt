//! The blocks of a circulation.

ghost use Rattle.std.specs.Prelude.{◌<◌, IfOk, length};
ghost use Rattle.vs_layer.specs.Circulation.{IsCirculation};
ghost use Rattle.vs_match.specs.Decomposition.{Decompose};
ghost use Rattle.vs_match.specs.LawfulNets.{IsLawful};
ghost use Rattle.vs_plan.specs.Blocks.{pairs_of};

use crate::underway::Underway;
use std::alloc::Global;
use vs_instance::Instance;
use vs_layer::Flow;
use vs_match::LayerNet;
use vs_plan::Block;
use vs_types::{LayerNo, Memory};

/// The blocks that the vehicles of a circulation run: the same trips, at no higher cost. There are no more blocks than
/// the return arc carries units. A run of waiting, deadhead and rest arcs becomes one connection, and a round without a
/// trip is dropped.
pub fn blocks_of(
    alloc: Global,
    instance: &Instance,
    l: LayerNo,
    net: &LayerNet,
    flow: &Flow,
) -> Result<Vec<Block>, Memory>
    requires layer { l.0 < length instance.now.layers }
    requires lawful { IsLawful instance.now l.0 net.now }
    requires circulation { IsCirculation net.now.graph flow.now.units.items }
    ensures { IfOk result (λ blocks.
        Decompose instance.now l net.now flow.now.units.items (pairs_of blocks.items)) }
{
    prove!(l.0 < instance.layers());
    let graph = net.net();
    let nodes = graph.nodes();
    let vehicles = flow.units[graph.arcs() as usize - 1];
    let mut underway = Underway::new(alloc, l, nodes, vehicles)?;
    for v in 0..nodes - 1 {
        underway.take_node(net, flow, v)?;
    }
    Ok(underway.into_blocks())
}
