//! The arcs of a layer's net on which vehicles drive between their depot and a trip.

ghost use Rattle.std.specs.Prelude.{◌≡◌, ◌+◌, ◌*◌, ◌<◌, ◌≤◌, Contains, MatchOption, OnOk, length};
ghost use Rattle.vs_match.specs.Nodes.{AreNodes};
ghost use Rattle.vs_match.specs.Adds.{Adds};
ghost use Rattle.vs_match.specs.DepotDrives.{IsDepotDrive, IsDrive, IsDriveAt, trip_nodes};

use crate::arc_kind::LayerArc;
use crate::nodes::Nodes;
use crate::pulls::{pull_in, pull_out};
use crate::rests::{rest_in, rest_out};
use crate::stop_node::StopNode;
use vs_instance::{Instance, MAX_TRIPS};
use vs_types::{LayerNo, Memory};

/// How a vehicle drives between its depot and a trip.
#[derive(Clone, Copy)]
pub enum DepotDrive {
    /// To the first trip of the day.
    PullOut,
    /// Back from the last trip.
    PullIn,
    /// Back for a rest.
    RestIn,
    /// To a trip after a rest.
    RestOut,
}

impl DepotDrive {
    /// The nodes of departures, or of arrivals, to or from which the drives lead.
    fn trip_nodes(self, nodes: &Nodes) -> &[StopNode]
        ensures { result.now ≡ trip_nodes self nodes.now }
    {
        match self {
            DepotDrive::PullOut | DepotDrive::RestOut => &nodes.departures,
            DepotDrive::PullIn | DepotDrive::RestIn => &nodes.arrivals,
        }
    }

    /// The drive to or from a node, where there is one.
    fn arc_at(
        self,
        instance: &Instance,
        l: LayerNo,
        nodes: &Nodes,
        at: &StopNode,
    ) -> Option<LayerArc>
        requires layer { l.0 < length instance.now.layers }
        requires nodes { AreNodes instance.now l.0 nodes.now }
        requires at { Contains (trip_nodes self nodes.now) at.now }
        ensures { MatchOption result
            ((x : LayerArc) → ¬ (IsDriveAt self instance.now l.0 nodes.now at.now x))
            (IsDriveAt self instance.now l.0 nodes.now at.now) }
    {
        // for the proof: the trips of an instance are within its limits
        prove!(l.0 < instance.layers());
        match self {
            DepotDrive::PullOut => pull_out(instance, l, at),
            DepotDrive::PullIn => pull_in(instance, l, nodes, at),
            DepotDrive::RestIn => rest_in(instance, l, &nodes.line, at),
            DepotDrive::RestOut => rest_out(instance, l, nodes, at),
        }
    }
}

/// How vehicles drive between their depot and a trip, in all ways.
const DRIVES: [DepotDrive; 4] = [
    DepotDrive::PullOut,
    DepotDrive::PullIn,
    DepotDrive::RestIn,
    DepotDrive::RestOut,
];

/// Puts the drives between the depot and a trip to a layer's arcs.
pub fn push_drives(
    instance: &Instance,
    l: LayerNo,
    nodes: &Nodes,
    arcs: &mut Vec<LayerArc>,
) -> Result<(), Memory>
    requires layer { l.0 < length instance.now.layers }
    requires nodes { AreNodes instance.now l.0 nodes.now }
    ensures adds { OnOk result
        (Adds (IsDepotDrive instance.now l.0 nodes.now.points.items)
        arcs.old.items arcs.new.items) }
    ensures few { OnOk result (length arcs.new.items ≤ length arcs.old.items + 4 * MAX_TRIPS) }
{
    for drive in &DRIVES {
        push_drives_of(instance, l, nodes, *drive, arcs)?;
    }
    Ok(())
}

/// Puts the drives of one kind to a layer's arcs.
fn push_drives_of(
    instance: &Instance,
    l: LayerNo,
    nodes: &Nodes,
    drive: DepotDrive,
    arcs: &mut Vec<LayerArc>,
) -> Result<(), Memory>
    requires layer { l.0 < length instance.now.layers }
    requires nodes { AreNodes instance.now l.0 nodes.now }
    ensures adds { OnOk result
        (Adds (IsDrive drive instance.now l.0 nodes.now.points.items) arcs.old.items arcs.new.items) }
    ensures few { OnOk result (length arcs.new.items ≤ length arcs.old.items + MAX_TRIPS) }
{
    for at in drive.trip_nodes(nodes) {
        if let Some(arc) = drive.arc_at(instance, l, nodes, at) {
            arcs.push(arc)?;
        }
    }
    Ok(())
}
