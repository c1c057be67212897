//! Shipments that an earlier call settled, made ready for other offers.

ghost use Rattle.std.specs.Prelude.{◌≡◌, ◌+◌, ◌<◌, ◌≤◌, ◌+ℤ◌, ◌-ℤ◌, length, set, slice_index};
ghost use Rattle.vs_types.specs.declared.numbers.LayerNo.{LayerNo};
ghost use Rattle.vs_layer.specs.Graph.{IsNet, arc_of};
ghost use Rattle.vs_instance.specs.declared.limits.TheConstants.{MAX_FLEET, MAX_TRIPS};
ghost use Rattle.vs_instance.specs.Problem.{Problem};
ghost use Rattle.vs_instance.specs.Instance.{IsInstance};
ghost use Rattle.vs_match.specs.LawfulNets.{IsLawful};
ghost use Rattle.vs_path.specs.declared.residual.TheConstants.{MAX_SEARCH_NODES, MAX_STEP_COST};
ghost use Rattle.vs_path.specs.Residual.{AllWithin, IsWithin, price_at};
ghost use Rattle.vs_ship.specs.declared.shipment.TheConstants.{MAX_FIRST_PRICE};
ghost use Rattle.vs_ship.specs.Leaving.{IsLeftBy, passed_along};
ghost use Rattle.vs_ship.specs.Shipments.{CanShip, IsSized};
ghost use Rattle.vs_ship.specs.Suiting.{DoSuit};
ghost use Rattle.vs_circ.specs.Offers.{AreOffers};
ghost use Rattle.vs_circ.specs.shipping.Prepared.{AreOfferedCosts, AreOfferedRooms, AreSmallOffers, HasSmallArcs};
ghost use Rattle.vs_circ.specs.shipping.Refitted.{AreFewMoved, AreForOffers, AreRefitted, IsMovedOnce, IsRefittedAt, WasSettled, reversed};

use crate::preparing::{offered_cost, offered_room};
use vs_layer::{Arc, Net};
use vs_match::{ArcKind, LayerNet};
use vs_ship::{Shipment, clear, loss_on, pass, suiting};
use vs_types::TripNo;

/// Makes a shipment ready for offers, whose units and prices an earlier call settled. Only the arcs of trips cost and
/// take something else then, so only these are looked at.
pub(crate) fn refit(net: &LayerNet, offers: &[Option<i64>], shipment: &mut Shipment)
    requires of_layer { (p : Problem) × (l : LayerNo) × IsInstance p × IsLawful p l.0 net.now
        × AreOffers p l.0 offers.now }
    requires nodes { net.now.graph.nodes ≤ MAX_SEARCH_NODES }
    requires sized { IsSized net.now.graph shipment.old }
    requires settled { WasSettled net.now shipment.old.flow.units.items shipment.old.prices.items }
    requires costs { AreForOffers net.now shipment.old.costs }
    requires prices { AllWithin MAX_FIRST_PRICE shipment.old.prices.items }
    ensures can { CanShip net.now.graph shipment.new }
    ensures cost { AreOfferedCosts net.now offers.now shipment.new.costs.cost.items }
    ensures room { AreOfferedRooms net.now offers.now shipment.new.costs.room.items }
    ensures left { IsLeftBy net.now.graph shipment.new.flow.units.items shipment.new.surplus.items }
{
    let surplus: &mut [i64] = &mut shipment.surplus;
    clear(surplus);
    for i in 0..offers.len() {
        refit_trip(net, offers, TripNo(i as u32), shipment);
    }
}

/// Lets the arc of a trip cost and take what the offers say, and carry units that suit it. The arcs of the trips before
/// it do so already.
fn refit_trip(net: &LayerNet, offers: &[Option<i64>], trip: TripNo, shipment: &mut Shipment)
    requires net { IsNet net.now.graph }
    requires arcs { HasSmallArcs net.now }
    requires offers { AreSmallOffers offers.now }
    requires trip { trip.0 < MAX_TRIPS }
    requires before { AreRefitted net.now offers.now trip.0 shipment.old }
    ensures { AreRefitted net.now offers.now (trip.0 + 1) shipment.new }
{
    let Some(k) = net.trip_arc(trip) else {
        return;
    };
    let graph = net.net();
    let kind = ArcKind::Trip(trip);
    let arc = graph.arc(k);
    let cost = offered_cost(offers, kind, arc);
    let room = offered_room(offers, kind, arc);
    refit_arc(graph, k, cost, room, shipment);
}

/// Lets an arc cost and take so much, and carry units that suit it.
fn refit_arc(net: &Net, k: u32, cost: i64, room: u32, shipment: &mut Shipment)
    requires net { IsNet net.now }
    requires arc { k < length net.now.arcs }
    requires one { (arc_of net.now k).room ≡ 1 }
    requires cost { IsWithin MAX_STEP_COST cost }
    requires room { room ≤ 1 }
    requires sized { IsSized net.now shipment.old }
    requires prices { AllWithin MAX_FIRST_PRICE shipment.old.prices.items }
    requires carries { slice_index shipment.old.flow.units.items k ≤ 1 }
    requires left { IsLeftBy net.now shipment.old.flow.units.items shipment.old.surplus.items }
    requires moved { AreFewMoved MAX_TRIPS shipment.old.surplus.items }
    ensures { IsRefittedAt net.now k cost room shipment.old shipment.new }
{
    let costs: &mut [i64] = &mut shipment.costs.cost;
    costs[k as usize] = cost;
    let rooms: &mut [u32] = &mut shipment.costs.room;
    rooms[k as usize] = room;
    let units: &mut [u32] = &mut shipment.flow.units;
    let n = units_for(net.arc(k), cost, room, &shipment.prices, units[k as usize]);
    let surplus: &mut [i64] = &mut shipment.surplus;
    set_units(net, k, n, units, surplus);
}

/// The units that suit an arc that costs and takes so much, no more than it carries where any number does.
fn units_for(arc: Arc, cost: i64, room: u32, prices: &[i64], units: u32) -> u32
    requires from { arc.from < length prices.now }
    requires to { arc.to < length prices.now }
    requires cost { IsWithin MAX_STEP_COST cost }
    requires prices { AllWithin MAX_FIRST_PRICE prices.now }
    requires room { room ≤ arc.room }
    ensures { DoSuit ((cost +ℤ price_at prices.now arc.from) -ℤ price_at prices.now arc.to)
        room arc.room result }
{
    match suiting(loss_on(arc, cost, prices), room, arc.room, units) {
        Some(n) => n,
        None => unreachable!(),
    }
}

/// Lets an arc carry so many units, and moves those that are more or fewer than before at its two nodes.
fn set_units(net: &Net, k: u32, n: u32, units: &mut [u32], surplus: &mut [i64])
    requires net { IsNet net.now }
    requires arc { k < length net.now.arcs }
    requires each_arc { length units.old ≡ length net.now.arcs }
    requires carries { slice_index units.old k ≤ 1 }
    requires one { n ≤ 1 }
    requires left { IsLeftBy net.now units.old surplus.old }
    requires moved { AreFewMoved MAX_TRIPS surplus.old }
    ensures units { units.new ≡ set units.old k n }
    ensures left { IsLeftBy net.now units.new surplus.new }
    ensures moved { IsMovedOnce surplus.old surplus.new }
{
    let before = units[k as usize];
    if n == before {
        return;
    }
    let arc = net.arc(k);
    units[k as usize] = n;
    pass(surplus, arc, n);
    pass_back(surplus, arc, before);
}

/// Takes units back along an arc, from where it ends to where it begins.
fn pass_back(surplus: &mut [i64], arc: Arc, n: u32)
    requires from { arc.from < length surplus.old }
    requires to { arc.to < length surplus.old }
    requires few { n ≤ MAX_FLEET }
    requires within { AllWithin MAX_FIRST_PRICE surplus.old }
    ensures { surplus.new ≡ passed_along surplus.old (reversed arc) n }
{
    let back = Arc {
        from: arc.to,
        to: arc.from,
        cost: arc.cost,
        room: arc.room,
    };
    pass(surplus, back, n);
}
