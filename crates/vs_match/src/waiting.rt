//! The arcs of a layer's net on which a vehicle waits at its stop.

ghost use Rattle.std.specs.Prelude.{◌≡◌, ◌+◌, ◌*◌, ◌<◌, ◌≤◌, length, OnOk};
ghost use Rattle.vs_match.specs.Nodes.{AreNodes};
ghost use Rattle.vs_match.specs.Adds.{Adds};
ghost use Rattle.vs_match.specs.Parts.{IsWaiting};
ghost use Rattle.vs_match.specs.ArcsOf.{waiting_of};

use crate::arc_kind::{ArcKind, LayerArc};
use crate::nodes::Nodes;
use crate::rates::{fleet, rate};
use crate::stop_node::StopNode;
use vs_instance::{Instance, MAX_TRIPS, TWO_DAYS};
use vs_types::{LayerNo, Memory};

/// Puts the waiting between events at a stop that follow each other to a layer's arcs.
pub fn push_waiting(
    instance: &Instance,
    l: LayerNo,
    nodes: &Nodes,
    arcs: &mut Vec<LayerArc>,
) -> Result<(), Memory>
    requires layer { l.0 < length instance.now.layers }
    requires nodes { AreNodes instance.now l.0 nodes.now }
    ensures adds { OnOk result
        (Adds (IsWaiting instance.now l.0 nodes.now.points.items) arcs.old.items arcs.new.items) }
    ensures few { OnOk result (length arcs.new.items ≤ length arcs.old.items + 3 * MAX_TRIPS) }
{
    prove!(l.0 < instance.layers());
    for k in 1..nodes.all.len() {
        let since = nodes.all[k - 1];
        let until = nodes.all[k];
        if since.stop == until.stop {
            arcs.push(waiting_arc(instance, l, &since, &until))?;
        }
    }
    Ok(())
}

fn waiting_arc(instance: &Instance, l: LayerNo, since: &StopNode, until: &StopNode) -> LayerArc
    requires layer { l.0 < length instance.now.layers }
    requires in_time { since.now.minute ≤ until.now.minute × until.now.minute < TWO_DAYS }
    ensures { result ≡ waiting_of instance.now l.0 since.now until.now }
{
    LayerArc {
        from: since.node,
        to: until.node,
        kind: ArcKind::Waiting,
        cost: rate(instance, l, until.minute - since.minute, 0),
        room: fleet(instance, l),
    }
}
