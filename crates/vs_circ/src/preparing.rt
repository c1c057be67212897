//! Costs, rooms and units of the arcs before units are sent.

ghost use Rattle.std.specs.Prelude.{◌≡◌, ◌≤◌, ◌≤ℤ◌, pos, length};
ghost use Rattle.vs_path.specs.declared.residual.TheConstants.{MAX_SEARCH_NODES};
ghost use Rattle.vs_circ.specs.shipping.Prepared.{AreSmallOffers, AreSmallSteps, AreOfferedCosts, AreOfferedRooms, HasSmallArcs, offered_cost, offered_room};
ghost use Rattle.vs_ship.specs.Leaving.{IsLeftBy};
ghost use Rattle.vs_ship.specs.Shipments.{CanShip, IsSized};

use vs_layer::Arc;
use vs_match::{ArcKind, LayerNet, MAX_ARC_COST};
use vs_ship::{Shipment, fit};

/// The room of an arc that takes as many units as there are.
pub(crate) const UNLIMITED: u32 = 4_294_967_295;

/// What an arc costs once a trip's multiplier is taken off, in 1/1000 of a cost unit.
pub(crate) fn offered_cost(offers: &[Option<i64>], kind: ArcKind, arc: Arc) -> i64
    requires no_gain { pos 0 ≤ℤ arc.cost }
    requires cost { arc.cost ≤ℤ MAX_ARC_COST }
    requires offers { AreSmallOffers offers.now }
    ensures { result ≡ offered_cost offers.now kind arc }
{
    match kind {
        ArcKind::Trip(i) => match offers.get(i.0 as usize) {
            Some(Some(multiplier)) => arc.cost - *multiplier,
            _ => arc.cost,
        },
        _ => arc.cost,
    }
}

/// How many units an arc takes.
pub(crate) fn offered_room(offers: &[Option<i64>], kind: ArcKind, arc: Arc) -> u32
    ensures { result ≡ offered_room offers.now kind arc }
{
    match kind {
        ArcKind::Trip(i) => match offers.get(i.0 as usize) {
            Some(Some(_)) => 1,
            _ => 0,
        },
        ArcKind::Return => arc.room,
        _ => UNLIMITED,
    }
}

/// Sets what the arcs cost and how many units they take where these trips are offered.
pub(crate) fn offer_arcs(net: &LayerNet, offers: &[Option<i64>], cost: &mut [i64], room: &mut [u32])
    requires arcs { HasSmallArcs net.now }
    requires offers { AreSmallOffers offers.now }
    requires cost_size { length cost.old ≡ length net.now.graph.arcs }
    requires room_size { length room.old ≡ length net.now.graph.arcs }
    ensures cost { AreOfferedCosts net.now offers.now cost.new }
    ensures room { AreOfferedRooms net.now offers.now room.new }
{
    let graph = net.net();
    for k in 0..graph.arcs() {
        let kind = net.kind(k);
        let arc = graph.arc(k);
        cost[k as usize] = offered_cost(offers, kind, arc);
        room[k as usize] = offered_room(offers, kind, arc);
    }
}

/// Makes a shipment ready for offers, whatever units and prices it has. No step gains anything, and what the units
/// leave at the nodes can be sent.
pub(crate) fn prepare(net: &LayerNet, offers: &[Option<i64>], shipment: &mut Shipment)
    requires arcs { HasSmallArcs net.now }
    requires nodes { net.now.graph.nodes ≤ MAX_SEARCH_NODES }
    requires offers { AreSmallOffers offers.now }
    requires steps { AreSmallSteps net.now offers.now }
    requires sized { IsSized net.now.graph shipment.old }
    ensures can { CanShip net.now.graph shipment.new }
    ensures cost { AreOfferedCosts net.now offers.now shipment.new.costs.cost.items }
    ensures room { AreOfferedRooms net.now offers.now shipment.new.costs.room.items }
    ensures left { IsLeftBy net.now.graph shipment.new.flow.units.items shipment.new.surplus.items }
{
    let cost: &mut [i64] = &mut shipment.costs.cost;
    let room: &mut [u32] = &mut shipment.costs.room;
    offer_arcs(net, offers, cost, room);
    let arcs = net.net();
    let prices: &mut [i64] = &mut shipment.prices;
    let units: &mut [u32] = &mut shipment.flow.units;
    let surplus: &mut [i64] = &mut shipment.surplus;
    fit(arcs, &shipment.costs, prices, units, surplus);
}
