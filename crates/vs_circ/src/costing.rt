//! What the circulation of a settled shipment costs.

ghost use Rattle.std.specs.Prelude.{◌≡◌, ◌^◌, ◌<◌, ◌+ℤ◌, ◌-ℤ◌, ◌*ℤ◌, ◌≤ℤ◌, pos, length};
ghost use Rattle.vs_types.specs.declared.numbers.LayerNo.{LayerNo};
ghost use Rattle.vs_layer.specs.Circulation.{flow_cost};
ghost use Rattle.vs_layer.specs.Graph.{IsNet};
ghost use Rattle.vs_instance.specs.Problem.{Problem};
ghost use Rattle.vs_instance.specs.Instance.{IsInstance};
ghost use Rattle.vs_match.specs.LawfulNets.{IsLawful};
ghost use Rattle.vs_match.specs.LayerGraph.{IsLabelled};
ghost use Rattle.vs_match.specs.declared.layer_net.TheConstants.{MAX_ARC_COST};
ghost use Rattle.vs_path.specs.declared.residual.TheConstants.{MAX_SEARCH_PRICE};
ghost use Rattle.vs_path.specs.Residual.{AllWithin, IsWithin, price_at};
ghost use Rattle.vs_ship.specs.Shipments.{IsSized};
ghost use Rattle.vs_circ.specs.Offers.{AreOffers};
ghost use Rattle.vs_circ.specs.shipping.Costing.{IsPaidByTrip, units_pay};
ghost use Rattle.vs_circ.specs.shipping.Prepared.{HasSmallArcs};
ghost use Rattle.vs_circ.specs.shipping.Settled.{IsSettled};

use vs_layer::Arc;
use vs_match::{LayerNet, MAX_ARC_COST};
use vs_path::MAX_SEARCH_PRICE;
use vs_ship::Shipment;
use vs_types::TripNo;

/// What a unit on an arc pays at most by the prices of a shipment, either way, in 1/1000 of a cost unit.
const MAX_PAID: i64 = 2 * MAX_SEARCH_PRICE + MAX_ARC_COST;

/// What the circulation of a settled shipment costs, in 1/1000 of a cost unit, with no multipliers taken off. By the
/// prices the units on empty moves pay nothing, so only the arcs of trips and the way back are looked at.
pub(crate) fn settled_cost(net: &LayerNet, offers: &[Option<i64>], shipment: &Shipment) -> i128
    requires of_layer { (p : Problem) × (l : LayerNo) × IsInstance p × IsLawful p l.0 net.now
        × AreOffers p l.0 offers.now }
    requires settled { IsSettled net.now offers.now shipment.now }
    ensures { result ≡ flow_cost net.now.graph shipment.now.flow.units.items }
{
    let last = net.net().arcs() - 1;
    let mut cost = arc_pays(net, shipment, last);
    for i in 0..offers.len() {
        cost += trip_pays(net, shipment, TripNo(i as u32));
    }
    cost
}

/// What the units on the arc of a trip pay by the prices.
fn trip_pays(net: &LayerNet, shipment: &Shipment, trip: TripNo) -> i128
    requires net { IsNet net.now.graph }
    requires labelled { IsLabelled net.now }
    requires arcs { HasSmallArcs net.now }
    requires sized { IsSized net.now.graph shipment.now }
    requires prices { AllWithin MAX_SEARCH_PRICE shipment.now.prices.items }
    ensures value { IsPaidByTrip net.now shipment.now.flow.units.items shipment.now.prices.items
        trip.0 result }
    ensures within { IsWithin (pos (2 ^ 95)) result }
{
    match net.trip_arc(trip) {
        None => 0,
        Some(k) => arc_pays(net, shipment, k),
    }
}

/// What the units on an arc pay by the prices. An arc that carries none isn't looked at.
fn arc_pays(net: &LayerNet, shipment: &Shipment, k: u32) -> i128
    requires net { IsNet net.now.graph }
    requires arcs { HasSmallArcs net.now }
    requires arc { k < length net.now.graph.arcs }
    requires sized { IsSized net.now.graph shipment.now }
    requires prices { AllWithin MAX_SEARCH_PRICE shipment.now.prices.items }
    ensures value { result
        ≡ units_pay net.now shipment.now.flow.units.items shipment.now.prices.items k }
    ensures within { IsWithin (pos (2 ^ 95)) result }
{
    let units = shipment.flow.units[k as usize];
    if units == 0 {
        return 0;
    }
    units_pay(unit_pays(net.net().arc(k), &shipment.prices), units)
}

/// What so many units pay, where each pays so much.
fn units_pay(pays: i64, units: u32) -> i128
    requires { IsWithin MAX_PAID pays }
    ensures { result ≡ pays *ℤ pos units }
{
    i128::from(pays) * i128::from(units)
}

/// What a unit on an arc costs beyond what it brings by the prices of the nodes.
fn unit_pays(arc: Arc, prices: &[i64]) -> i64
    requires from { arc.from < length prices.now }
    requires to { arc.to < length prices.now }
    requires no_gain { pos 0 ≤ℤ arc.cost }
    requires cost { arc.cost ≤ℤ MAX_ARC_COST }
    requires prices { AllWithin MAX_SEARCH_PRICE prices.now }
    ensures value { result ≡ (arc.cost +ℤ price_at prices.now arc.from) -ℤ price_at prices.now arc.to }
    ensures within { IsWithin MAX_PAID result }
{
    arc.cost + prices[arc.from as usize] - prices[arc.to as usize]
}
