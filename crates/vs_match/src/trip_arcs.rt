//! The trips of a layer as arcs of its net.

ghost use Rattle.std.specs.Prelude.{◌≡◌, ◌+◌, ◌<◌, ◌≤◌, length, OnOk};
ghost use Rattle.vs_match.specs.declared.arc_kind.ArcKind.TheVariants.{Trip};
ghost use Rattle.vs_match.specs.Events.{MayRun};
ghost use Rattle.vs_match.specs.NetArcs.{IsTripArc};
ghost use Rattle.vs_match.specs.Nodes.{AreNodes};
ghost use Rattle.vs_match.specs.Adds.{Adds, arc_in};
ghost use Rattle.vs_match.specs.Parts.{IsTrip};

use crate::arc_kind::{ArcKind, LayerArc};
use crate::event::{Point, TripEnd};
use crate::nodes::{Nodes, node_of};
use crate::rates::rate;
use vs_instance::{Instance, MAX_TRIPS};
use vs_types::{LayerNo, Memory, TripNo};

/// Puts the trips of a layer to its arcs.
pub fn push_trips(
    instance: &Instance,
    l: LayerNo,
    nodes: &Nodes,
    arcs: &mut Vec<LayerArc>,
) -> Result<(), Memory>
    requires layer { l.0 < length instance.now.layers }
    requires nodes { AreNodes instance.now l.0 nodes.now }
    ensures adds { OnOk result
        (Adds (IsTrip instance.now l.0 nodes.now.points.items) arcs.old.items arcs.new.items) }
    ensures few { OnOk result (length arcs.new.items ≤ length arcs.old.items + MAX_TRIPS) }
{
    for i in 0..instance.trips() {
        let i = TripNo(i);
        if instance.trip(i).layers.has(l) {
            arcs.push(trip_arc(instance, l, nodes, i))?;
        }
    }
    Ok(())
}

fn trip_arc(instance: &Instance, l: LayerNo, nodes: &Nodes, i: TripNo) -> LayerArc
    requires layer { l.0 < length instance.now.layers }
    requires nodes { AreNodes instance.now l.0 nodes.now }
    requires may_run { MayRun instance.now l.0 i.0 }
    ensures kind { result.kind ≡ Trip i }
    ensures arc { IsTripArc instance.now l.0 nodes.now.points.items i.0 (arc_in result) }
{
    prove!(i.0 < instance.trips());
    let trip = instance.trip(i);
    let departure = TripEnd::Departure.event(instance, i);
    let arrival = TripEnd::Arrival.event(instance, i);
    let start = departure.point();
    let end = arrival.point();
    let points: &[Point] = &nodes.points;
    let from = node_of(points, &start);
    let to = node_of(points, &end);
    LayerArc {
        from,
        to,
        kind: ArcKind::Trip(i),
        cost: rate(instance, l, trip.end - trip.start, trip.metres),
        room: 1,
    }
}
