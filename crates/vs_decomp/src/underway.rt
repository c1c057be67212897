//! The vehicles on their way through a net, node by node.

ghost use Rattle.std.specs.Prelude.{◌≡◌, ℕ, ◌+◌, ◌-◌, ◌<◌, [], IfOk, OnOk, length, replicate, set};
ghost use Rattle.std.specs.List.{filter};
ghost use Rattle.vs_types.specs.declared.numbers.LayerNo.{LayerNo};
ghost use Rattle.vs_layer.specs.Circulation.{IsCirculation};
ghost use Rattle.vs_layer.specs.Graph.{IsNet, arc_of};
ghost use Rattle.vs_plan.specs.Blocks.{pair_of, pairs_of};
ghost use Rattle.vs_decomp.specs.Stands.{CanTake, Goes, HasTakenArc, IsAt, LeavesNode, has_run, standing, vehicles_at, with_vehicle};

use crate::stand::{Stand, fresh, run};
use std::alloc::Global;
use vs_layer::Flow;
use vs_match::LayerNet;
use vs_plan::Block;
use vs_types::{LayerNo, Memory};

/// The vehicles of a layer on their way through its net. At each node are those that stand there, with the trips that
/// they have run so far.
#[derive(Drop)]
pub struct Underway {
    pub stands: Vec<Stand>,
}

impl Underway {
    /// So many vehicles of layer l at the first of so many nodes.
    pub fn new(alloc: Global, l: LayerNo, nodes: u32, vehicles: u32) -> Result<Underway, Memory>
        requires { 0 < nodes }
        ensures { IfOk result (λ underway. standing underway.stands.items
            ≡ set (replicate nodes []) 0 (replicate vehicles (l, []))) }
    {
        let mut stands = empty_stands(alloc, nodes)?;
        stands[0] = fresh(alloc, l, vehicles)?;
        Ok(Underway { stands })
    }

    /// Takes a vehicle away from a node.
    fn leave(&mut self, node: u32) -> Block
        requires of_net { node < length self.old.stands.items }
        requires some { 0 < length (vehicles_at (standing self.old.stands.items) node) }
        ensures { LeavesNode node (standing self.old.stands.items) (pair_of result)
            (standing self.new.stands.items) }
    {
        self.stands[node as usize].leave()
    }

    /// Puts a vehicle to a node.
    fn come(&mut self, node: u32, vehicle: Block) -> Result<(), Memory>
        requires of_net { node < length self.old.stands.items }
        ensures { OnOk result (standing self.new.stands.items
            ≡ with_vehicle node (pair_of vehicle) (standing self.old.stands.items)) }
    {
        self.stands[node as usize].come(vehicle)
    }

    /// One vehicle takes arc k.
    fn take_unit(&mut self, net: &LayerNet, k: u32) -> Result<(), Memory>
        requires net { IsNet net.now.graph }
        requires nodes { length self.old.stands.items ≡ net.now.graph.nodes }
        requires onward { k + 1 < length net.now.graph.arcs }
        requires some { 0 < length (vehicles_at (standing self.old.stands.items)
            (arc_of net.now.graph k).from) }
        ensures { OnOk result (Goes net.now k (standing self.old.stands.items)
            (standing self.new.stands.items)) }
    {
        let arc = net.net().arc(k);
        let mut vehicle = self.leave(arc.from);
        run(&mut vehicle, net.kind(k))?;
        self.come(arc.to, vehicle)
    }

    /// As many vehicles as arc k carries units take it.
    fn take_arc(&mut self, net: &LayerNet, flow: &Flow, k: u32) -> Result<(), Memory>
        requires net { IsNet net.now.graph }
        requires circulation { IsCirculation net.now.graph flow.now.units.items }
        requires onward { k + 1 < length net.now.graph.arcs }
        requires can { CanTake net.now flow.now.units.items k (standing self.old.stands.items) }
        ensures { OnOk result (HasTakenArc net.now flow.now.units.items k
            (standing self.old.stands.items) (standing self.new.stands.items)) }
    {
        for _ in 0..flow.units[k as usize] {
            self.take_unit(net, k)?;
        }
        Ok(())
    }

    /// All vehicles at node v, which all have reached that do, leave it.
    pub fn take_node(&mut self, net: &LayerNet, flow: &Flow, v: u32) -> Result<(), Memory>
        requires net { IsNet net.now.graph }
        requires circulation { IsCirculation net.now.graph flow.now.units.items }
        requires onward { v + 1 < net.now.graph.nodes }
        requires at { (l : LayerNo) × IsAt net.now l flow.now.units.items v []
            (standing self.old.stands.items) }
        ensures { OnOk result ((l : LayerNo)
            → IsAt net.now l flow.now.units.items v [] (standing self.old.stands.items)
            → IsAt net.now l flow.now.units.items (v + 1) [] (standing self.new.stands.items)) }
    {
        for k in net.net().leaving(v) {
            self.take_arc(net, flow, *k)?;
        }
        Ok(())
    }

    /// What the vehicles at the last node have run, but for those that have run nothing.
    pub fn into_blocks(mut self) -> Vec<Block>
        requires { 0 < length self.stands.items }
        ensures { pairs_of result.items ≡ filter has_run
            (vehicles_at (standing self.stands.items) (length self.stands.items - 1)) }
    {
        match self.stands.pop() {
            Some(last) => last.into_blocks(),
            None => unreachable!(),
        }
    }
}

/// So many nodes at which nobody stands.
fn empty_stands(alloc: Global, nodes: u32) -> Result<Vec<Stand>, Memory>
    ensures { IfOk result (λ stands. standing stands.items ≡ replicate nodes []) }
{
    let mut stands = Vec::new(alloc);
    for _ in 0..nodes {
        stands.push(Stand {
            vehicles: Vec::new(alloc),
        })?;
    }
    Ok(stands)
}
