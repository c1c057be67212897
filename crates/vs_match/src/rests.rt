//! The arcs of a layer's net by which a vehicle rests in its depot between two trips.

ghost use Rattle.std.specs.Prelude.{◌≡◌, ◌+◌, ◌*◌, ◌<◌, ◌≤◌, IfSome, IfNone, MatchOption, OnOk, length};
ghost use Rattle.vs_match.specs.Nodes.{AreNodes};
ghost use Rattle.vs_match.specs.Adds.{Adds};
ghost use Rattle.vs_match.specs.ArcsOf.{rest_in_of, rest_wait_of, rest_out_of};
ghost use Rattle.vs_match.specs.Events.{DepartsAt};
ghost use Rattle.vs_match.specs.Parts.{IsRestWait};
ghost use Rattle.vs_match.specs.DepotDrives.{IsRestInFrom, IsRestOutTo};
ghost use Rattle.vs_match.specs.StopNodes.{IsRising, event_of};
ghost use Rattle.vs_match.specs.Sweep.{IsFirstFrom};

use crate::arc_kind::{ArcKind, LayerArc};
use crate::event::{Event, Point};
use crate::nodes::{Nodes, node_of};
use crate::rates::{fleet, rate, way_after_rest};
use crate::stop_node::StopNode;
use vs_instance::{Instance, MAX_METRES, MAX_MINUTES, MAX_TRIPS, TWO_DAYS, Way};
use vs_types::{LayerNo, Memory};

/// Puts the rests between minutes of the depot line that follow each other to a layer's arcs.
pub fn push_rest_waits(
    instance: &Instance,
    l: LayerNo,
    nodes: &Nodes,
    arcs: &mut Vec<LayerArc>,
) -> Result<(), Memory>
    requires layer { l.0 < length instance.now.layers }
    requires nodes { AreNodes instance.now l.0 nodes.now }
    ensures adds { OnOk result
        (Adds (IsRestWait instance.now l.0 nodes.now.points.items) arcs.old.items arcs.new.items) }
    ensures few { OnOk result (length arcs.new.items ≤ length arcs.old.items + 3 * MAX_TRIPS) }
{
    for k in 1..nodes.line.len() {
        let since = nodes.line[k - 1];
        let until = nodes.line[k];
        arcs.push(rest_wait_arc(instance, l, &since, &until))?;
    }
    Ok(())
}

/// The way into the depot of a vehicle that arrived. None where the layer has no stay, where there is no such way, or
/// where nothing leaves the depot once the vehicle has rested.
pub fn rest_in(
    instance: &Instance,
    l: LayerNo,
    line: &[StopNode],
    since: &StopNode,
) -> Option<LayerArc>
    requires layer { l.0 < length instance.now.layers }
    requires stop { since.now.stop.0 < instance.now.stops }
    requires minute { since.now.minute < TWO_DAYS }
    requires line { IsRising line.now }
    ensures { MatchOption result
        ((x : LayerArc) → ¬ (IsRestInFrom instance.now l.0 line.now since.now x))
        (IsRestInFrom instance.now l.0 line.now since.now) }
{
    // for the proof: the layers of an instance are within its limits
    prove!(l.0 < instance.layers());
    let layer = instance.layer(l);
    let stay = layer.stay?;
    let way = instance.way(since.stop, layer.depot)?;
    let until = first_rested(line, since.minute + way.minutes + stay as u32)?;
    Some(rest_in_arc(instance, l, way, since, &until))
}

/// The first node of the depot line from this minute on.
fn first_rested(line: &[StopNode], minute: u32) -> Option<StopNode>
    requires { IsRising line.now }
    ensures { MatchOption result ((s : StopNode) → ¬ (IsFirstFrom line.now minute s))
        (IsFirstFrom line.now minute) }
{
    let place = line.partition_point(|node| node.minute < minute);
    if place < line.len() {
        Some(line[place])
    } else {
        None
    }
}

/// The way out of the depot of a vehicle that rested and is to be at a departure. None where the layer has no stay, or
/// where there is no such way from minute 0 on.
pub fn rest_out(
    instance: &Instance,
    l: LayerNo,
    nodes: &Nodes,
    until: &StopNode,
) -> Option<LayerArc>
    requires layer { l.0 < length instance.now.layers }
    requires nodes { AreNodes instance.now l.0 nodes.now }
    requires departs { DepartsAt instance.now l.0 (event_of until.now) }
    ensures { MatchOption result
        ((x : LayerArc) → ¬ (IsRestOutTo instance.now l.0 nodes.now.points.items until.now x))
        (IsRestOutTo instance.now l.0 nodes.now.points.items until.now) }
{
    // for the proof: the trips of an instance are within its limits
    prove!(l.0 < instance.layers());
    let departure = Event {
        minute: until.minute,
        stop: until.stop,
    };
    let way = way_after_rest(instance, l, &departure)?;
    let left = Point {
        minute: until.minute - way.minutes,
        stop: None,
    };
    let since = node_of(&nodes.points, &left);
    Some(rest_out_arc(instance, l, way, since, until))
}

fn rest_in_arc(
    instance: &Instance,
    l: LayerNo,
    way: Way,
    since: &StopNode,
    until: &StopNode,
) -> LayerArc
    requires layer { l.0 < length instance.now.layers }
    requires way { way.minutes ≤ MAX_MINUTES × way.metres ≤ MAX_METRES }
    ensures { result ≡ rest_in_of instance.now l.0 way since.now until.now }
{
    LayerArc {
        from: since.node,
        to: until.node,
        kind: ArcKind::RestIn,
        cost: rate(instance, l, way.minutes, u64::from(way.metres)),
        room: fleet(instance, l),
    }
}

fn rest_wait_arc(instance: &Instance, l: LayerNo, since: &StopNode, until: &StopNode) -> LayerArc
    requires { l.0 < length instance.now.layers }
    ensures { result ≡ rest_wait_of instance.now l.0 since.now until.now }
{
    LayerArc {
        from: since.node,
        to: until.node,
        kind: ArcKind::RestWait,
        cost: 0,
        room: fleet(instance, l),
    }
}

fn rest_out_arc(instance: &Instance, l: LayerNo, way: Way, since: u32, until: &StopNode) -> LayerArc
    requires layer { l.0 < length instance.now.layers }
    requires way { way.minutes ≤ MAX_MINUTES × way.metres ≤ MAX_METRES }
    ensures { result ≡ rest_out_of instance.now l.0 way since until.now }
{
    LayerArc {
        from: since,
        to: until.node,
        kind: ArcKind::RestOut,
        cost: rate(instance, l, way.minutes, u64::from(way.metres)),
        room: fleet(instance, l),
    }
}
