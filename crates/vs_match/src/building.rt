//! A layer's net put together from its nodes and its arcs.

ghost use Rattle.std.specs.Prelude.{◌≡◌, ◌<◌, ◌≤◌, IfOk, length};
ghost use Rattle.vs_match.specs.Adds.{AreArcs};
ghost use Rattle.vs_match.specs.ArcsOf.{return_of};
ghost use Rattle.vs_match.specs.LawfulNets.{IsLawful};
ghost use Rattle.vs_match.specs.LayerGraph.{IsNetOf};
ghost use Rattle.vs_match.specs.Nodes.{AreNodes};
ghost use Rattle.vs_match.specs.WalkLaw.{HasWalkLaw};

use crate::arc_kind::{ArcKind, LayerArc};
use crate::deadheads::push_deadheads;
use crate::depot_drives::push_drives;
use crate::layer_net::LayerNet;
use crate::matching::Matching;
use crate::nodes::{Nodes, nodes_of};
use crate::rates::fleet;
use crate::rests::push_rest_waits;
use crate::sorting::{by_ends, put_in_order};
use crate::stop_node::{StopNode, at_stop, by_stop};
use crate::trip_arcs::push_trips;
use crate::waiting::push_waiting;
use std::alloc::Global;
use vs_instance::Instance;
use vs_layer::MAX_ARCS;
use vs_types::{LayerNo, Memory, StopNo};

/// The net of a layer by this matching.
pub fn build(
    alloc: Global,
    instance: &Instance,
    l: LayerNo,
    matching: Matching,
) -> Result<LayerNet, Memory>
    requires { l.0 < length instance.now.layers }
    ensures net { IfOk result (IsNetOf instance.now l.0 matching) }
    ensures walks { IfOk result (HasWalkLaw instance.now l.0) }
    ensures lawful { IfOk result (IsLawful instance.now l.0) }
{
    let nodes = nodes_of(alloc, instance, l)?;
    let arcs = arcs_of(alloc, instance, l, matching, &nodes)?;
    LayerNet::new(alloc, instance.trips(), nodes.points, &arcs)
}

/// The arcs of a layer's net, in order.
fn arcs_of(
    alloc: Global,
    instance: &Instance,
    l: LayerNo,
    matching: Matching,
    nodes: &Nodes,
) -> Result<Vec<LayerArc>, Memory>
    requires layer { l.0 < length instance.now.layers }
    requires nodes { AreNodes instance.now l.0 nodes.now }
    ensures arcs { IfOk result (λ arcs.
        AreArcs instance.now l.0 matching nodes.now.points.items arcs.items) }
    ensures few { IfOk result (λ arcs. length arcs.items ≤ MAX_ARCS) }
{
    let most = most_deadheads(alloc, instance, l, matching, nodes)?;
    let mut arcs = Vec::with_capacity(alloc, most)?;
    push_trips(instance, l, nodes, &mut arcs)?;
    push_waiting(instance, l, nodes, &mut arcs)?;
    push_deadheads(instance, l, matching, nodes, &mut arcs)?;
    push_drives(instance, l, nodes, &mut arcs)?;
    push_rest_waits(instance, l, nodes, &mut arcs)?;
    arcs.push(return_arc(instance, l, nodes.points.len() as u32 + 1))?;
    let mut ordered = by_ends(alloc, &arcs)?;
    put_in_order(&mut ordered);
    Ok(ordered)
}

/// How many deadheads a layer has at most by this matching. It decides only how much room the arcs are given first.
fn most_deadheads(
    alloc: Global,
    instance: &Instance,
    l: LayerNo,
    matching: Matching,
    nodes: &Nodes,
) -> Result<usize, Memory>
    requires layer { l.0 < length instance.now.layers }
    requires nodes { AreNodes instance.now l.0 nodes.now }
{
    let departures = by_stop(alloc, &nodes.departures, instance.stops())?;
    let mut most: usize = 0;
    for stop in 0..instance.stops() {
        let from = StopNo(stop);
        let arrivals = at_stop(&nodes.arrivals, from).len();
        let here = most_from(instance, matching, from, arrivals, &departures);
        most = most.saturating_add(here);
    }
    Ok(most)
}

/// How many deadheads lead from a stop at most that has so many arrivals: by first match one from each arrival to each
/// stop with departures, and by latest first match no more than that stop has departures.
fn most_from(
    instance: &Instance,
    matching: Matching,
    from: StopNo,
    arrivals: usize,
    departures: &[&[StopNode]],
) -> usize
    requires from { from.0 < instance.now.stops }
    requires departures { length departures.now ≡ instance.now.stops }
{
    let mut most: usize = 0;
    for to in 0..instance.stops() {
        if from.0 != to && instance.way(from, StopNo(to)).is_some() {
            let there = departures[to as usize].len();
            most = most.saturating_add(most_between(matching, arrivals, there));
        }
    }
    most
}

/// How many deadheads lead at most from a stop with so many arrivals to one with so many departures.
fn most_between(matching: Matching, arrivals: usize, departures: usize) -> usize {
    match matching {
        Matching::First if departures == 0 => 0,
        Matching::First => arrivals,
        Matching::Latest => arrivals.min(departures),
    }
}

fn return_arc(instance: &Instance, l: LayerNo, last: u32) -> LayerArc
    requires { l.0 < length instance.now.layers }
    ensures { result ≡ return_of instance.now l.0 last }
{
    LayerArc {
        from: last,
        to: 0,
        kind: ArcKind::Return,
        cost: 0,
        room: fleet(instance, l),
    }
}
