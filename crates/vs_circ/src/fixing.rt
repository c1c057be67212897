//! Least circulations that run exactly given trips, or prices that show that there is none.

ghost use Rattle.std.specs.Prelude.{◌≡◌, ℕ, ◌*◌, ◌^◌, ◌<◌, ◌≤◌, ◌≤ℤ◌, ◌*ℤ◌, pos, nat_abs, IfOk, length, slice_index};
ghost use Rattle.vs_types.specs.declared.numbers.LayerNo.{LayerNo};
ghost use Rattle.vs_layer.specs.Circulation.{flow_cost};
ghost use Rattle.vs_layer.specs.Graph.{arc_of};
ghost use Rattle.vs_instance.specs.Problem.{Problem};
ghost use Rattle.vs_instance.specs.Instance.{IsInstance};
ghost use Rattle.vs_match.specs.LawfulNets.{IsLawful};
ghost use Rattle.vs_match.specs.declared.layer_net.TheConstants.{MAX_ARC_COST};
ghost use Rattle.vs_circ.specs.Circulations.{IsFixed};
ghost use Rattle.vs_circ.specs.Offers.{AreMust};
ghost use Rattle.vs_circ.specs.shipping.Prepared.{HasSmallArcs};
ghost use Rattle.vs_ship.specs.Shipments.{IsDrained};
ghost use Rattle.vs_circ.specs.shipping.Supplied.{AreRun, AreStuckPrices, HasStuckUnits, IsSupplied};
ghost use Rattle.vs_ship.specs.Works.{IsReadyFor, IsSpaceFor};

use crate::circ::FixedFlow;
use crate::price_tables::{layer_prices, ray_prices};
use crate::supplying::{must_on, supply};
use std::alloc::Global;
use vs_layer::{Arc, Flow};
use vs_match::LayerNet;
use vs_ship::{Kept, Shipment, Space, Work, clear, drain};
use vs_types::Memory;

/// A least circulation that runs exactly these trips, or prices that show that there is none.
pub fn fixed(
    alloc: Global,
    net: &LayerNet,
    must: &[bool],
    work: &mut Work,
) -> Result<FixedFlow, Memory>
    requires of_layer { (p : Problem) × (l : LayerNo) × IsInstance p × IsLawful p l.0 net.now
        × AreMust p l.0 must.now }
    ensures fixed { IfOk result (λ f. (p : Problem) (l : LayerNo) → IsInstance p
        → IsLawful p l.0 net.now → AreMust p l.0 must.now → IsFixed p l net.now must.now f) }
{
    let place = work.place_of(alloc, net.net())?;
    fix(alloc, net, must, &mut work.kept[place])
}

/// The same, with what is kept for the net. It begins with no units, so what the last call left is kept for the next.
fn fix(alloc: Global, net: &LayerNet, must: &[bool], kept: &mut Kept) -> Result<FixedFlow, Memory>
    requires of_layer { (p : Problem) × (l : LayerNo) × IsInstance p × IsLawful p l.0 net.now
        × AreMust p l.0 must.now }
    requires kept { IsReadyFor net.now.graph kept.old }
    ensures fixed { IfOk result (λ f. (p : Problem) (l : LayerNo) → IsInstance p
        → IsLawful p l.0 net.now → AreMust p l.0 must.now → IsFixed p l net.now must.now f) }
{
    let arcs = net.net();
    kept.exchange();
    supply(net, must, &mut kept.shipment);
    match drain(arcs, &mut kept.search, &mut kept.loads, &mut kept.shipment) {
        None => covered(alloc, net, must, &kept.shipment, &mut kept.space),
        Some(_) => short(alloc, net, must, kept.search.reached(), &mut kept.space),
    }
}

/// The circulation that is made up of the trips that have to run and of the units that were sent.
fn covered(
    alloc: Global,
    net: &LayerNet,
    must: &[bool],
    shipment: &Shipment,
    space: &mut Space,
) -> Result<FixedFlow, Memory>
    requires of_layer { (p : Problem) × (l : LayerNo) × IsInstance p × IsLawful p l.0 net.now
        × AreMust p l.0 must.now }
    requires supplied { IsSupplied net.now must.now shipment.now }
    requires drained { IsDrained shipment.now.surplus.items }
    requires space { IsSpaceFor net.now.graph.nodes space.old }
    ensures { IfOk result (λ f. (p : Problem) (l : LayerNo) → IsInstance p
        → IsLawful p l.0 net.now → AreMust p l.0 must.now → IsFixed p l net.now must.now f) }
{
    let flow = run_too(alloc, net, must, &shipment.flow)?;
    space.take_near(&shipment.prices);
    let prices = layer_prices(alloc, net, must.len(), space)?;
    let cost = cost_of(net, &flow);
    Ok(FixedFlow::Covered { flow, prices, cost })
}

/// The flow with a unit on the arc of each trip that has to run.
fn run_too(alloc: Global, net: &LayerNet, must: &[bool], flow: &Flow) -> Result<Flow, Memory>
    requires { length flow.now.units.items ≡ length net.now.graph.arcs }
    ensures { IfOk result (λ both. AreRun net.now must.now flow.now.units.items both.units.items) }
{
    let mut units = Vec::with_capacity(alloc, flow.units.len())?;
    for k in 0..net.net().arcs() {
        units.push(flow.units[k as usize].max(must_on(must, net.kind(k))))?;
    }
    Ok(Flow { units })
}

/// What a flow costs, in 1/1000 of a cost unit.
pub(crate) fn cost_of(net: &LayerNet, flow: &Flow) -> i128
    requires arcs { HasSmallArcs net.now }
    requires units { length flow.now.units.items ≡ length net.now.graph.arcs }
    ensures { result ≡ flow_cost net.now.graph flow.now.units.items }
{
    let mut cost = 0;
    for k in 0..net.net().arcs() {
        cost += cost_on(net, k, flow.units[k as usize]);
    }
    cost
}

/// What so many units on an arc cost, in 1/1000 of a cost unit. Most arcs carry none, and aren't looked at then.
fn cost_on(net: &LayerNet, k: u32, units: u32) -> i128
    requires arcs { HasSmallArcs net.now }
    requires arc { k < length net.now.graph.arcs }
    ensures value { result ≡ (arc_of net.now.graph k).cost *ℤ pos units }
    ensures low { pos 0 ≤ℤ result }
    ensures high { result ≤ℤ pos (nat_abs MAX_ARC_COST * 2 ^ 32) }
{
    if units == 0 {
        return 0;
    }
    units_cost(net.net().arc(k), units)
}

/// What so many units on an arc cost, in 1/1000 of a cost unit.
fn units_cost(arc: Arc, units: u32) -> i128
    requires no_gain { pos 0 ≤ℤ arc.cost }
    requires cost { arc.cost ≤ℤ MAX_ARC_COST }
    ensures value { result ≡ arc.cost *ℤ pos units }
    ensures low { pos 0 ≤ℤ result }
    ensures high { result ≤ℤ pos (nat_abs MAX_ARC_COST * 2 ^ 32) }
{
    i128::from(arc.cost) * i128::from(units)
}

/// Prices that show that units are stuck at these nodes.
fn short(
    alloc: Global,
    net: &LayerNet,
    must: &[bool],
    stuck: &[u32],
    space: &mut Space,
) -> Result<FixedFlow, Memory>
    requires of_layer { (p : Problem) × (l : LayerNo) × IsInstance p × IsLawful p l.0 net.now
        × AreMust p l.0 must.now }
    requires within { (i : ℕ) → i < length stuck.now
        → slice_index stuck.now i < net.now.graph.nodes }
    requires stuck { HasStuckUnits net.now must.now stuck.now }
    requires space { IsSpaceFor net.now.graph.nodes space.old }
    ensures { IfOk result (λ f. (p : Problem) (l : LayerNo) → IsInstance p
        → IsLawful p l.0 net.now → AreMust p l.0 must.now → IsFixed p l net.now must.now f) }
{
    set_stuck_prices(stuck, &mut space.prices);
    let prices = ray_prices(alloc, net, must.len(), &space.prices, &mut space.entering)?;
    Ok(FixedFlow::Short { prices })
}

/// Gives these nodes the price -1, and the others 0.
fn set_stuck_prices(stuck: &[u32], prices: &mut [i64])
    requires { (i : ℕ) → i < length stuck.now → slice_index stuck.now i < length prices.old }
    ensures { AreStuckPrices stuck.now prices.new }
{
    clear(prices);
    for i in 0..stuck.len() {
        prices[stuck[i] as usize] = -1;
    }
}
