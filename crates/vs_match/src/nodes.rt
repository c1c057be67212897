//! The nodes of a layer's net: the departures and arrivals of its trips, and its depot line.

ghost use Rattle.std.specs.Prelude.{◌≡◌, ◌+◌, ◌*◌, ◌<◌, ◌≤◌, AllPairs, Contains, IfOk, OnOk, length};
ghost use Rattle.vs_instance.specs.Ways.{layer_of};
ghost use Rattle.vs_match.specs.Adds.{Adds};
ghost use Rattle.vs_match.specs.Events.{ArePoints, IsBefore, MayRun, HasPoint, point_of};
ghost use Rattle.vs_match.specs.TripEnds.{HappensAt};
ghost use Rattle.vs_match.specs.TripPoints.{OfTrip, IsLineOf, IsOfDeparture};
ghost use Rattle.vs_match.specs.StopNodes.{AreStopNodes, AreLineNodes};
ghost use Rattle.vs_match.specs.Nodes.{AreNodes};

use crate::event::{Event, Point, TripEnd};
use crate::rates::way_after_rest;
use crate::sorting::put_in_order;
use crate::stop_node::StopNode;
use std::alloc::Global;
use vs_instance::{Instance, MAX_TRIPS};
use vs_types::{LayerNo, Memory, StopNo, TripNo};

/// The nodes of a layer's net between its first and its last. Here are the points that they stand for, in order. By
/// their stops there are those of all events, those of departures, those of arrivals, and those of the depot line.
#[derive(Drop)]
pub struct Nodes {
    pub points: Vec<Point>,
    pub all: Vec<StopNode>,
    pub departures: Vec<StopNode>,
    pub arrivals: Vec<StopNode>,
    pub line: Vec<StopNode>,
}

/// The nodes of a layer's net.
pub fn nodes_of(alloc: Global, instance: &Instance, l: LayerNo) -> Result<Nodes, Memory>
    requires { l.0 < length instance.now.layers }
    ensures { IfOk result (AreNodes instance.now l.0) }
{
    prove!(l.0 < instance.layers());
    let points = points_of(alloc, instance, l)?;
    let order: &[Point] = &points;
    let all = all_stop_nodes(alloc, order)?;
    let departures = stop_nodes_of(alloc, instance, l, TripEnd::Departure, order)?;
    let arrivals = stop_nodes_of(alloc, instance, l, TripEnd::Arrival, order)?;
    let line = line_nodes(alloc, instance.layer(l).depot, order)?;
    Ok(Nodes {
        points,
        all,
        departures,
        arrivals,
        line,
    })
}

/// The points of a layer's trips, in order.
fn points_of(alloc: Global, instance: &Instance, l: LayerNo) -> Result<Vec<Point>, Memory>
    requires { l.0 < length instance.now.layers }
    ensures points { IfOk result (λ points. ArePoints instance.now l.0 points.items) }
    ensures few { IfOk result (λ points. length points.items ≤ 3 * MAX_TRIPS) }
{
    let mut points = Vec::new(alloc);
    for i in 0..instance.trips() {
        let i = TripNo(i);
        if instance.trip(i).layers.has(l) {
            push_points(instance, l, i, &mut points)?;
        }
    }
    put_in_order(&mut points);
    Ok(points)
}

/// Adds the points of a trip that a layer may run to the others. They are its two events, and the minute until which
/// a vehicle rests that leaves the depot for it.
fn push_points(
    instance: &Instance,
    l: LayerNo,
    i: TripNo,
    points: &mut Vec<Point>,
) -> Result<(), Memory>
    requires layer { l.0 < length instance.now.layers }
    requires may_run { MayRun instance.now l.0 i.0 }
    ensures adds { OnOk result
        (Adds (OfTrip instance.now l.0 i.0) points.old.items points.new.items) }
    ensures few { OnOk result (length points.new.items ≤ length points.old.items + 3) }
{
    prove!(i.0 < instance.trips());
    let departure = TripEnd::Departure.event(instance, i);
    let arrival = TripEnd::Arrival.event(instance, i);
    push_departure(instance, l, &departure, points)?;
    points.push(arrival.point())?;
    Ok(())
}

/// Puts a departure to the points, and the minute until which a vehicle rests that leaves the depot for it.
fn push_departure(
    instance: &Instance,
    l: LayerNo,
    departure: &Event,
    points: &mut Vec<Point>,
) -> Result<(), Memory>
    requires layer { l.0 < length instance.now.layers }
    requires stop { departure.now.stop.0 < instance.now.stops }
    ensures adds { OnOk result
        (Adds (IsOfDeparture instance.now l.0 departure.now) points.old.items points.new.items) }
    ensures few { OnOk result (length points.new.items ≤ length points.old.items + 2) }
{
    points.push(departure.point())?;
    push_line(instance, l, departure, points)?;
    Ok(())
}

/// Puts the minute until which a vehicle rests that leaves the depot for a departure to the points.
fn push_line(
    instance: &Instance,
    l: LayerNo,
    departure: &Event,
    points: &mut Vec<Point>,
) -> Result<(), Memory>
    requires layer { l.0 < length instance.now.layers }
    requires stop { departure.now.stop.0 < instance.now.stops }
    ensures adds { OnOk result
        (Adds (IsLineOf instance.now l.0 departure.now) points.old.items points.new.items) }
    ensures few { OnOk result (length points.new.items ≤ length points.old.items + 1) }
{
    if let Some(way) = way_after_rest(instance, l, departure) {
        points.push(Point {
            minute: departure.minute - way.minutes,
            stop: None,
        })?;
    }
    Ok(())
}

/// The node of a point.
pub fn node_of(points: &[Point], point: &Point) -> u32
    requires ordered { AllPairs IsBefore points.now }
    requires few { length points.now ≤ 3 * MAX_TRIPS }
    requires known { Contains points.now point.now }
    ensures { HasPoint points.now result point.now }
{
    match points.binary_search(point) {
        Ok(k) => k as u32 + 1,
        Err(_place) => unreachable!(),
    }
}

/// The nodes of all events, by their stops.
fn all_stop_nodes(alloc: Global, points: &[Point]) -> Result<Vec<StopNode>, Memory>
    requires ordered { AllPairs IsBefore points.now }
    requires few { length points.now ≤ 3 * MAX_TRIPS }
    ensures stop_nodes { IfOk result (λ stop_nodes.
        AreStopNodes points.now (λ e. Contains points.now (point_of e)) stop_nodes.items) }
    ensures few { IfOk result (λ stop_nodes. length stop_nodes.items ≤ 3 * MAX_TRIPS) }
{
    let mut stop_nodes = Vec::with_capacity(alloc, points.len())?;
    for (k, point) in points.iter().enumerate() {
        if let Some(stop) = point.stop {
            stop_nodes.push(StopNode {
                stop,
                minute: point.minute,
                node: k as u32 + 1,
            })?;
        }
    }
    put_in_order(&mut stop_nodes);
    Ok(stop_nodes)
}

/// The nodes of the depot line, at the stop of the depot.
fn line_nodes(alloc: Global, depot: StopNo, points: &[Point]) -> Result<Vec<StopNode>, Memory>
    requires ordered { AllPairs IsBefore points.now }
    requires few { length points.now ≤ 3 * MAX_TRIPS }
    ensures line { IfOk result (λ line. AreLineNodes points.now depot line.items) }
    ensures few { IfOk result (λ line. length line.items ≤ 3 * MAX_TRIPS) }
{
    let mut line = Vec::new(alloc);
    for (k, point) in points.iter().enumerate() {
        if point.stop.is_none() {
            line.push(StopNode {
                stop: depot,
                minute: point.minute,
                node: k as u32 + 1,
            })?;
        }
    }
    put_in_order(&mut line);
    Ok(line)
}

/// The nodes of the departures or of the arrivals of a layer's trips, by their stops.
fn stop_nodes_of(
    alloc: Global,
    instance: &Instance,
    l: LayerNo,
    end: TripEnd,
    points: &[Point],
) -> Result<Vec<StopNode>, Memory>
    requires layer { l.0 < length instance.now.layers }
    requires points { ArePoints instance.now l.0 points.now }
    requires few { length points.now ≤ 3 * MAX_TRIPS }
    ensures stop_nodes { IfOk result (λ stop_nodes.
        AreStopNodes points.now (HappensAt end instance.now l.0) stop_nodes.items) }
    ensures few { IfOk result (λ stop_nodes. length stop_nodes.items ≤ MAX_TRIPS) }
{
    let mut stop_nodes = Vec::new(alloc);
    for i in 0..instance.trips() {
        let i = TripNo(i);
        if instance.trip(i).layers.has(l) {
            let event = end.event(instance, i);
            stop_nodes.push(StopNode {
                stop: event.stop,
                minute: event.minute,
                node: node_of(points, &event.point()),
            })?;
        }
    }
    put_in_order(&mut stop_nodes);
    Ok(stop_nodes)
}
