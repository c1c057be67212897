//! A layer's net with what its nodes and arcs stand for.

ghost use Rattle.std.specs.Prelude.{◌≡◌, ◌+◌, ◌*◌, ◌<◌, ◌≤◌, All, IfOk, length, map, option_map};
ghost use Rattle.vs_layer.specs.Graph.{AllRight};
ghost use Rattle.vs_match.specs.Adds.{arc_in};
ghost use Rattle.vs_match.specs.Events.{point_at};
ghost use Rattle.vs_match.specs.Sizes.{line_points};
ghost use Rattle.vs_match.specs.LayerGraph.{IsLabelled, kind_of, line_of, place_of};
ghost use Rattle.vs_match.specs.TripIndex.{IsBelow, IsTripAt, IsTripIndex};

use crate::arc_kind::{ArcKind, LayerArc};
use crate::event::Point;
use std::alloc::{AllocError, Global};
use std::marker::Model;
use vs_instance::MAX_TRIPS;
use vs_layer::{Arc, MAX_ARCS, Net, NetError};
use vs_types::{Memory, StopNo, TripNo};

/// What an arc of a layer's net costs at most, in 1/1000 of a cost unit.
pub const MAX_ARC_COST: i64 = 20_000_000_000_000;

/// A layer's net with what its nodes and arcs stand for.
#[derive(Drop)]
pub struct LayerNet {
    net: Net,
    kinds: Vec<ArcKind>,
    points: Vec<Point>,
    trip_arcs: Vec<Option<u32>>,
}

impl Model for LayerNet {
    ghost use Rattle.vs_match.specs.LayerGraph.{LayerGraph};
    ghost use Rattle.vs_match.specs.TripIndex.{IsIndexed};

    ghost Value = { LayerGraph };

    ghost view = { λ n. record { graph = n.net; kinds = n.kinds.items; points = n.points.items } };

    ghost invariant = { λ n. IsIndexed
        (record { graph = n.net; kinds = n.kinds.items; points = n.points.items })
        n.trip_arcs.items };
}

impl LayerNet {
    /// The net of these arcs and of nodes for these points between the first and the last.
    pub(crate) fn new(
        alloc: Global,
        trips: u32,
        points: Vec<Point>,
        arcs: &[LayerArc],
    ) -> Result<LayerNet, Memory>
        requires few_points { length points.items ≤ 3 * MAX_TRIPS }
        requires some_arc { 0 < length arcs.now }
        requires few_arcs { length arcs.now ≤ MAX_ARCS }
        requires right { AllRight (length points.items + 2) (map arc_in arcs.now) }
        requires of_trips { All (λ arc. IsBelow trips arc.kind) arcs.now }
        ensures graph { IfOk result (λ net.
            net.graph ≡ record { nodes = length points.items + 2; arcs = map arc_in arcs.now }) }
        ensures kinds { IfOk result (λ net. net.kinds ≡ map (λ arc. arc.kind) arcs.now) }
        ensures points { IfOk result (λ net. net.points ≡ points.items) }
    {
        let net = net_of(alloc, points.len() as u32 + 2, arcs)?;
        let kinds = kinds_of(alloc, arcs)?;
        let trip_arcs = trip_index(alloc, trips, &kinds)?;
        Ok(LayerNet {
            net,
            kinds,
            points,
            trip_arcs,
        })
    }

    /// The nodes and arcs.
    pub fn net(&self) -> &Net
        ensures graph { result.now ≡ self.now.graph }
        ensures labelled { IsLabelled self.now }
        ensures few { self.now.graph.nodes ≤ 3 * MAX_TRIPS + 2 }
    {
        &self.net
    }

    /// What an arc stands for.
    pub fn kind(&self, k: u32) -> ArcKind
        requires { k < length self.now.graph.arcs }
        ensures { result ≡ kind_of self.now k }
    {
        self.kinds[k as usize]
    }

    /// The arc of a trip. None exactly where no arc is its, since the layer may not run it.
    pub fn trip_arc(&self, i: TripNo) -> Option<u32>
        ensures { IsTripAt self.now.kinds i.0 result }
    {
        match self.trip_arcs.get(i.0 as usize) {
            Some(arc) => *arc,
            None => None,
        }
    }

    /// The stop and the minute of a node. None exactly for the first node, the last node and those of the depot line.
    pub fn place(&self, node: u32) -> Option<(StopNo, u32)>
        requires { node < self.now.graph.nodes }
        ensures { result ≡ option_map (λ e. (e.stop, e.minute)) (place_of self.now node) }
    {
        let point = self.point(node)?;
        Some((point.stop?, point.minute))
    }

    /// The minute of a node of the depot line, at which a vehicle that rests in the depot may leave. None exactly for
    /// every other node.
    pub fn line(&self, node: u32) -> Option<u32>
        requires { node < self.now.graph.nodes }
        ensures { result ≡ line_of self.now node }
    {
        let point = self.point(node)?;
        match point.stop {
            Some(_stop) => None,
            None => Some(point.minute),
        }
    }

    /// How many nodes are on the depot line.
    pub(crate) fn line_count(&self) -> u32
        ensures { result ≡ line_points self.now.points }
    {
        let mut count = 0;
        for point in &self.points {
            if point.stop.is_none() {
                count += 1;
            }
        }
        count
    }

    /// What a node stands for. None exactly for the first and the last node.
    fn point(&self, node: u32) -> Option<Point>
        ensures { result ≡ point_at self.now.points node }
    {
        let k = (node as usize).checked_sub(1)?;
        self.points.get(k).copied()
    }
}

/// The net of these arcs.
fn net_of(alloc: Global, nodes: u32, arcs: &[LayerArc]) -> Result<Net, Memory>
    requires nodes { 2 ≤ nodes }
    requires some_arc { 0 < length arcs.now }
    requires few_arcs { length arcs.now ≤ MAX_ARCS }
    requires right { AllRight nodes (map arc_in arcs.now) }
    ensures { IfOk result (λ net. net ≡ record { nodes = nodes; arcs = map arc_in arcs.now }) }
{
    match Net::new(alloc, nodes, plain_arcs(alloc, arcs)?) {
        Ok(net) => Ok(net),
        Err(error) => match error {
            NetError::Memory => Err(Memory),
            NetError::Fault(_fault) => unreachable!(),
        },
    }
}

/// The arcs, without what they stand for.
fn plain_arcs(alloc: Global, arcs: &[LayerArc]) -> Result<Vec<Arc>, AllocError>
    ensures { IfOk result (λ plain. plain.items ≡ map arc_in arcs.now) }
{
    arcs.iter().map(|arc| arc.arc()).collect(alloc)
}

/// What the arcs stand for.
fn kinds_of(alloc: Global, arcs: &[LayerArc]) -> Result<Vec<ArcKind>, AllocError>
    ensures { IfOk result (λ kinds. kinds.items ≡ map (λ arc. arc.kind) arcs.now) }
{
    arcs.iter().map(|arc| arc.kind).collect(alloc)
}

/// The arcs of so many trips, by their numbers.
fn trip_index(alloc: Global, trips: u32, kinds: &[ArcKind]) -> Result<Vec<Option<u32>>, Memory>
    requires few_arcs { length kinds.now ≤ MAX_ARCS }
    requires of_trips { All (IsBelow trips) kinds.now }
    ensures { IfOk result (λ index. IsTripIndex kinds.now index.items) }
{
    let mut index = vec![in alloc; None; trips as usize]?;
    for (k, kind) in kinds.iter().enumerate() {
        if let ArcKind::Trip(i) = kind {
            index[i.0 as usize] = Some(k as u32);
        }
    }
    Ok(index)
}
