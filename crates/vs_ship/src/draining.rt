//! Units sent from the nodes that have too many to those that lack some.

ghost use Rattle.std.specs.Prelude.{◌≡◌, ℕ, ◌<◌, ◌≤ℤ◌, ◌<ℤ◌, length, pos, MatchOption, MatchBool};
ghost use Rattle.vs_layer.specs.Graph.{IsNet};
ghost use Rattle.vs_path.specs.Residual.{arc_no, price_at, step_in};
ghost use Rattle.vs_path.specs.Loads.{AreByNode, AreLoads, lists_in};
ghost use Rattle.vs_ship.specs.Shipments.{AreListedToo, CanShip, Ships, IsOneLess, HasNoneFrom, IsStuck, IsDrained, CanTakeAll, IsSentAlong, GainAlong, after_unit};
ghost use Rattle.vs_path.specs.Labels.{Lacks};

use crate::shipment::Shipment;
use vs_layer::Net;
use vs_path::{Loads, Residual, Search, Step};

/// How far apart nodes lie from which units are sent one after the other. A search settles some 50 of 4,000 nodes. So
/// the searches from two nodes that lie near each other mostly settle the same ones. The second then finds the way that
/// the first has made dear.
const STRIDE: u32 = 64;

/// Sends units from the nodes that have too many to those that lack some, along paths that cost
/// nothing by the prices. None once nothing is left; else the node that units are stuck at, from
/// which the search has reached all that it can.
pub fn drain(
    net: &Net,
    search: &mut Search,
    loads: &mut Loads,
    shipment: &mut Shipment,
) -> Option<u32>
    requires nodes { search.old.nodes ≡ net.now.nodes }
    requires lists { length (lists_in loads.old) ≡ net.now.nodes }
    requires can { CanShip net.now shipment.old }
    ensures ships { Ships net.now shipment.old shipment.new }
    ensures left { MatchOption result (IsDrained shipment.new.surplus.items)
        (λ source. IsStuck net.now shipment.new source search.new.reached) }
    ensures nodes { search.new.nodes ≡ search.old.nodes }
    ensures lists { length (lists_in loads.new) ≡ net.now.nodes }
{
    loads.read(net, &shipment.flow.units);
    for first in 0..STRIDE {
        if let Some(stuck) = drain_from(net, search, loads, shipment, first) {
            return Some(stuck);
        }
    }
    None
}

/// Sends units from this node and from each that lies a number of strides after it, while they have too many. Gives the
/// node that some are stuck at.
fn drain_from(
    net: &Net,
    search: &mut Search,
    loads: &mut Loads,
    shipment: &mut Shipment,
    first: u32,
) -> Option<u32>
    requires nodes { search.old.nodes ≡ net.now.nodes }
    requires loads { AreLoads net.now shipment.old.flow.units.items loads.old }
    requires can { CanShip net.now shipment.old }
    requires first { first < STRIDE }
    ensures ships { Ships net.now shipment.old shipment.new }
    ensures left { MatchOption result (HasNoneFrom STRIDE first shipment.new.surplus.items)
        (λ source. IsStuck net.now shipment.new source search.new.reached) }
    ensures nodes { search.new.nodes ≡ search.old.nodes }
    ensures loads { AreLoads net.now shipment.new.flow.units.items loads.new }
{
    let mut node = first;
    while node < net.nodes() {
        if !drain_node(net, search, loads, shipment, node) {
            return Some(node);
        }
        node += STRIDE;
    }
    None
}

/// Sends units from a node while it has too many. False where some are stuck there.
fn drain_node(
    net: &Net,
    search: &mut Search,
    loads: &mut Loads,
    shipment: &mut Shipment,
    source: u32,
) -> bool
    requires nodes { search.old.nodes ≡ net.now.nodes }
    requires loads { AreLoads net.now shipment.old.flow.units.items loads.old }
    requires can { CanShip net.now shipment.old }
    requires source { source < net.now.nodes }
    ensures ships { Ships net.now shipment.old shipment.new }
    ensures left { MatchBool result (price_at shipment.new.surplus.items source ≤ℤ pos 0)
        (IsStuck net.now shipment.new source search.new.reached) }
    ensures nodes { search.new.nodes ≡ search.old.nodes }
    ensures loads { AreLoads net.now shipment.new.flow.units.items loads.new }
{
    while shipment.surplus[source as usize] > 0 {
        if !send(net, search, loads, shipment, source) {
            return false;
        }
    }
    true
}

/// Sends a unit from a node to the nearest one that lacks a unit. False where it can reach none.
fn send(
    net: &Net,
    search: &mut Search,
    loads: &mut Loads,
    shipment: &mut Shipment,
    source: u32,
) -> bool
    requires nodes { search.old.nodes ≡ net.now.nodes }
    requires loads { AreLoads net.now shipment.old.flow.units.items loads.old }
    requires can { CanShip net.now shipment.old }
    requires source { source < net.now.nodes }
    requires some { pos 0 <ℤ price_at shipment.old.surplus.items source }
    ensures ships { Ships net.now shipment.old shipment.new }
    ensures sent { MatchBool result
        (IsOneLess shipment.old.surplus.items shipment.new.surplus.items source)
        (IsStuck net.now shipment.new source search.new.reached) }
    ensures nodes { search.new.nodes ≡ search.old.nodes }
    ensures loads { AreLoads net.now shipment.new.flow.units.items loads.new }
{
    let residual = Residual::loaded(net, &shipment.flow, &shipment.costs, loads);
    let prices: &mut [i64] = &mut shipment.prices;
    let found = search.find(&residual, &shipment.surplus, source, prices);
    let Some(goal) = found else {
        return false;
    };
    let path = search.path();
    list_loaded(net, path, loads);
    let units: &mut [u32] = &mut shipment.flow.units;
    carry(path, units);
    let surplus: &mut [i64] = &mut shipment.surplus;
    move_unit(surplus, source, goal);
    true
}

/// A unit less at a node that has some, and a unit more at one that lacks some.
fn move_unit(surplus: &mut [i64], source: u32, goal: u32)
    requires source { source < length surplus.old }
    requires goal { goal < length surplus.old }
    requires some { pos 0 <ℤ price_at surplus.old source }
    requires lacks { Lacks surplus.old goal }
    ensures { surplus.new ≡ after_unit surplus.old source goal }
{
    surplus[source as usize] -= 1;
    surplus[goal as usize] += 1;
}

/// Lists the arc of each step forward, which carries a unit once one takes the steps.
fn list_loaded(net: &Net, path: &[Step], loads: &mut Loads)
    requires net { IsNet net.now }
    requires arcs { (i : ℕ) → i < length path.now
        → arc_no (step_in path.now i) < length net.now.arcs }
    requires by_node { AreByNode net.now (lists_in loads.old) }
    ensures { AreListedToo net.now loads.old loads.new path.now (length path.now) }
{
    for step in path {
        match *step {
            Step::Forward(k) => loads.add(net, k),
            Step::Back(_) => {}
        }
    }
}

/// A unit more on the arc of each step forward, and a unit less on that of each step back.
fn carry(path: &[Step], units: &mut [u32])
    requires { CanTakeAll units.old path.now }
    ensures sent { IsSentAlong units.old units.new path.now (length path.now) }
    ensures gain { GainAlong units.old units.new path.now }
{
    for step in path {
        match *step {
            Step::Forward(k) => units[k as usize] += 1,
            Step::Back(k) => units[k as usize] -= 1,
        }
    }
}
