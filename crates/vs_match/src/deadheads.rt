//! The deadheads of a layer's net: from each arrival to its match at every other stop.

ghost use Rattle.std.specs.Prelude.{◌≡◌, ◌≢◌, ℕ, ◌+◌, ◌*◌, ◌<◌, ◌≤◌, ◌↔◌, All, IsTrue, OnOk, length, map, slice_index_or, take};
ghost use Rattle.vs_match.specs.declared.stop_node.StopNode.{StopNode};
ghost use Rattle.vs_match.specs.StopNodes.{IsRising, AreByStop};
ghost use Rattle.vs_match.specs.Nodes.{AreNodes};
ghost use Rattle.vs_match.specs.Adds.{Adds};
ghost use Rattle.vs_match.specs.Parts.{IsDeadhead, IsDeadheadFrom};
ghost use Rattle.vs_match.specs.Sweep.{IsKept, IsMatched};
ghost use Rattle.vs_match.specs.ArcsOf.{deadhead_of};

use crate::arc_kind::{ArcKind, LayerArc};
use crate::matching::{LayerMatching, Matching};
use crate::nodes::Nodes;
use crate::rates::{fleet, rate};
use crate::stop_node::{StopNode, at_stop, by_stop};
use vs_instance::{Instance, MAX_METRES, MAX_MINUTES, MAX_STOPS, MAX_TRIPS, TWO_DAYS, Way};
use vs_types::{LayerNo, Memory, StopNo};

/// Puts the deadheads of a layer, by this matching, to its arcs.
pub fn push_deadheads(
    instance: &Instance,
    l: LayerNo,
    matching: Matching,
    nodes: &Nodes,
    arcs: &mut Vec<LayerArc>,
) -> Result<(), Memory>
    requires layer { l.0 < length instance.now.layers }
    requires nodes { AreNodes instance.now l.0 nodes.now }
    ensures adds { OnOk result
        (Adds (IsDeadhead instance.now l.0 matching nodes.now.points.items)
        arcs.old.items arcs.new.items) }
    ensures few { OnOk result
        (length arcs.new.items ≤ length arcs.old.items + MAX_STOPS * (MAX_STOPS * MAX_TRIPS)) }
{
    let departures = by_stop(*arcs.allocator(), &nodes.departures, instance.stops())?;
    let by = LayerMatching { l, matching };
    for stop in 0..instance.stops() {
        push_from(instance, by, nodes, &departures, StopNo(stop), arcs)?;
    }
    Ok(())
}

/// Puts the deadheads from a stop, to the departures at each stop, to the arcs.
fn push_from(
    instance: &Instance,
    by: LayerMatching,
    nodes: &Nodes,
    departures: &[&[StopNode]],
    from: StopNo,
    arcs: &mut Vec<LayerArc>,
) -> Result<(), Memory>
    requires layer { by.l.0 < length instance.now.layers }
    requires from { from.0 < instance.now.stops }
    requires nodes { AreNodes instance.now by.l.0 nodes.now }
    requires departures { AreByStop instance.now.stops nodes.now.departures.items
        (map (λ g. g.now) departures.now) }
    ensures adds { OnOk result
        (Adds (IsDeadheadFrom instance.now by.l.0 by.matching nodes.now.points.items from.0)
        arcs.old.items arcs.new.items) }
    ensures few { OnOk result
        (length arcs.new.items ≤ length arcs.old.items + MAX_STOPS * MAX_TRIPS) }
{
    let arrivals = at_stop(&nodes.arrivals, from);
    if arrivals.is_empty() {
        return Ok(());
    }
    for to in 0..instance.stops() {
        let to = StopNo(to);
        if from != to {
            if let Some(way) = instance.way(from, to) {
                let there = departures[to.0 as usize];
                push_matches(instance, by, way, arrivals, there, arcs)?;
            }
        }
    }
    Ok(())
}

/// Puts the deadheads by one way to the arcs, in one sweep over the arrivals before it and the departures behind it.
fn push_matches(
    instance: &Instance,
    by: LayerMatching,
    way: Way,
    arrivals: &[StopNode],
    departures: &[StopNode],
    arcs: &mut Vec<LayerArc>,
) -> Result<(), Memory>
    requires layer { by.l.0 < length instance.now.layers }
    requires minutes { way.minutes ≤ MAX_MINUTES }
    requires metres { way.metres ≤ MAX_METRES }
    requires arrivals { IsRising arrivals.now × All (λ s. s.minute < TWO_DAYS) arrivals.now }
    requires departures { IsRising departures.now × All (λ s. s.minute < TWO_DAYS) departures.now }
    ensures adds { OnOk result
        (Adds (IsMatched instance.now by.l.0 by.matching way arrivals.now departures.now)
        arcs.old.items arcs.new.items) }
    ensures few { OnOk result
        (length arcs.new.items ≤ length arcs.old.items + length arrivals.now) }
{
    let mut first = 0;
    for (k, arrival) in arrivals.iter().enumerate() {
        first = first_from(departures, first, arrival.minute + way.minutes);
        if first < departures.len() {
            let departure = departures[first];
            if is_kept(by.matching, way, arrivals, k, &departure) {
                arcs.push(deadhead_arc(instance, by.l, way, arrival, &departure))?;
            }
        }
    }
    Ok(())
}

/// The place of the first departure from this minute on, none of which stands before place `from`.
fn first_from(departures: &[StopNode], from: usize, minute: u32) -> usize
    requires from { from ≤ length departures.now }
    requires earlier { All (λ s. s.minute < minute) (take from departures.now) }
    ensures place { from ≤ result × result ≤ length departures.now }
    ensures earlier { All (λ s. s.minute < minute) (take result departures.now) }
    ensures first { (d : StopNode) → result < length departures.now
        → minute ≤ (slice_index_or departures.now result d).minute }
{
    let mut place = from;
    while place < departures.len() && departures[place].minute < minute {
        place += 1;
    }
    place
}

/// Whether the deadhead from arrival k to its match remains: by latest first match only where the next arrival is
/// too late for it.
fn is_kept(matching: Matching, way: Way, arrivals: &[StopNode], k: usize, until: &StopNode) -> bool
    requires of_arrivals { k < length arrivals.now }
    requires rising { IsRising arrivals.now }
    requires minutes { All (λ s. s.minute < TWO_DAYS) arrivals.now × way.minutes ≤ MAX_MINUTES }
    ensures { (d : StopNode) → IsTrue result
        ↔ IsKept matching arrivals.now way (slice_index_or arrivals.now k d) until.now }
{
    match matching {
        Matching::First => true,
        Matching::Latest => {
            k + 1 == arrivals.len() || arrivals[k + 1].minute + way.minutes > until.minute
        }
    }
}

fn deadhead_arc(
    instance: &Instance,
    l: LayerNo,
    way: Way,
    since: &StopNode,
    until: &StopNode,
) -> LayerArc
    requires layer { l.0 < length instance.now.layers }
    requires in_time { since.now.minute ≤ until.now.minute × until.now.minute < TWO_DAYS }
    requires metres { way.metres ≤ MAX_METRES }
    ensures { result ≡ deadhead_of instance.now l.0 way since.now until.now }
{
    LayerArc {
        from: since.node,
        to: until.node,
        kind: ArcKind::Deadhead,
        cost: rate(
            instance,
            l,
            until.minute - since.minute,
            u64::from(way.metres),
        ),
        room: fleet(instance, l),
    }
}
