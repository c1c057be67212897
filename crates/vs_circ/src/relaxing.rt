//! Least circulations of offered trips, with prices that prove them.

ghost use Rattle.std.specs.Prelude.{◌≡◌, ◌≤◌, ◌*ℤ◌, pos, IfOk, length};
ghost use Rattle.vs_types.specs.declared.numbers.LayerNo.{LayerNo};
ghost use Rattle.vs_layer.specs.declared.arc.TheConstants.{MAX_ARCS};
ghost use Rattle.vs_instance.specs.Problem.{Problem};
ghost use Rattle.vs_instance.specs.Instance.{IsInstance};
ghost use Rattle.vs_match.specs.LawfulNets.{IsLawful};
ghost use Rattle.vs_path.specs.declared.residual.TheConstants.{MAX_STEP_COST};
ghost use Rattle.vs_path.specs.Labels.{IsSmall};
ghost use Rattle.vs_path.specs.Residual.{AllWithin, HasSignRule, IsWithin};
ghost use Rattle.vs_ship.specs.Centring.{AreSettled};
ghost use Rattle.vs_circ.specs.Circulations.{IsLeastCirculation};
ghost use Rattle.vs_circ.specs.Offers.{AreOffers};
ghost use Rattle.vs_circ.specs.shipping.Settled.{IsSettled};
ghost use Rattle.vs_ship.specs.Shipments.{residual_of};
ghost use Rattle.vs_circ.specs.shipping.Values.{worth_of_units};
ghost use Rattle.vs_ship.specs.Works.{IsKeptFor, IsReadyFor, IsSpaceFor};

use crate::circ::Circ;
use crate::misfits::recall;
use crate::price_tables::layer_prices;
use crate::settling::settle;
use std::alloc::Global;
use std::mem::swap;
use vs_layer::{Flow, Net};
use vs_match::LayerNet;
use vs_path::Residual;
use vs_ship::{Kept, Shipment, Space, Work, centre};
use vs_types::Memory;

/// A circulation of offered trips whose cost less their multipliers is the least, with prices that
/// show it.
pub fn relaxed(
    alloc: Global,
    net: &LayerNet,
    offers: &[Option<i64>],
    work: &mut Work,
) -> Result<Circ, Memory>
    requires of_layer { (p : Problem) × (l : LayerNo) × IsInstance p × IsLawful p l.0 net.now
        × AreOffers p l.0 offers.now }
    ensures least { IfOk result (λ c. (p : Problem) (l : LayerNo) → IsInstance p
        → IsLawful p l.0 net.now → AreOffers p l.0 offers.now
        → IsLeastCirculation p l net.now offers.now c) }
{
    let place = work.place_of(alloc, net.net())?;
    relaxed_from(alloc, net, offers, &mut work.kept[place])
}

/// A least circulation, from what is kept for the net.
fn relaxed_from(
    alloc: Global,
    net: &LayerNet,
    offers: &[Option<i64>],
    kept: &mut Kept,
) -> Result<Circ, Memory>
    requires of_layer { (p : Problem) × (l : LayerNo) × IsInstance p × IsLawful p l.0 net.now
        × AreOffers p l.0 offers.now }
    requires kept { IsReadyFor net.now.graph kept.old }
    ensures least { IfOk result (λ c. (p : Problem) (l : LayerNo) → IsInstance p
        → IsLawful p l.0 net.now → AreOffers p l.0 offers.now
        → IsLeastCirculation p l net.now offers.now c) }
{
    let graph = net.net();
    recall(net, offers, kept);
    kept.turn(alloc, graph)?;
    settle(net, offers, kept);
    take_centred(graph, kept);
    let circ = circ_of(alloc, net, offers, &kept.shipment, &mut kept.space)?;
    swap(&mut kept.shipment.prices, &mut kept.space.prices);
    Ok(circ)
}

/// Takes prices in the middle of those at which the units stay settled.
fn take_centred(net: &Net, kept: &mut Kept)
    requires kept { IsKeptFor net.now kept.old }
    requires small { IsSmall (residual_of net.now kept.old.shipment)
        kept.old.shipment.prices.items }
    requires signs { HasSignRule (residual_of net.now kept.old.shipment)
        kept.old.shipment.prices.items }
    ensures centred { AreSettled (residual_of net.now kept.old.shipment)
        kept.new.space.prices.items }
    ensures space { IsSpaceFor net.now.nodes kept.new.space }
    ensures same { kept.new.shipment ≡ kept.old.shipment }
{
    let shipment = &kept.shipment;
    let residual = Residual::new(net, &shipment.flow, &shipment.costs, net.arcs());
    let mirror = &kept.mirror;
    let mirrored = Residual::new(mirror, &shipment.flow, &shipment.costs, mirror.arcs());
    let space = &mut kept.space;
    space.prices.copy_from_slice(&shipment.prices);
    centre(
        &mut kept.search,
        &residual,
        &mirrored,
        &mut space.prices,
        &mut space.turned,
        &mut space.low,
    );
}

/// The circulation of a settled shipment, with prices made from those of the nodes that were taken.
fn circ_of(
    alloc: Global,
    net: &LayerNet,
    offers: &[Option<i64>],
    shipment: &Shipment,
    space: &mut Space,
) -> Result<Circ, Memory>
    requires of_layer { (p : Problem) × (l : LayerNo) × IsInstance p × IsLawful p l.0 net.now
        × AreOffers p l.0 offers.now }
    requires settled { IsSettled net.now offers.now shipment.now }
    requires space { IsSpaceFor net.now.graph.nodes space.old }
    requires prices { AreSettled (residual_of net.now.graph shipment.now) space.old.prices.items }
    ensures least { IfOk result (λ c. (p : Problem) (l : LayerNo) → IsInstance p
        → IsLawful p l.0 net.now → AreOffers p l.0 offers.now
        → IsLeastCirculation p l net.now offers.now c) }
{
    let sent: &[u32] = &shipment.flow.units;
    let units = Vec::from_slice(alloc, sent)?;
    let prices = layer_prices(alloc, net, offers.len(), space)?;
    let cost: &[i64] = &shipment.costs.cost;
    let value = worth_of(cost, sent);
    Ok(Circ {
        flow: Flow { units },
        prices,
        value,
    })
}

/// What the units of an arc cost.
fn worth_on(cost: i64, units: u32) -> i128
    requires { IsWithin MAX_STEP_COST cost }
    ensures { result ≡ cost *ℤ pos units }
{
    i128::from(cost) * i128::from(units)
}

/// What units cost together, arc by arc.
fn worth_of(cost: &[i64], units: &[u32]) -> i128
    requires each_arc { length cost.now ≡ length units.now }
    requires few { length units.now ≤ MAX_ARCS }
    requires small { AllWithin MAX_STEP_COST cost.now }
    ensures { result ≡ worth_of_units cost.now units.now }
{
    let mut worth = 0;
    for k in 0..units.len() {
        worth += worth_on(cost[k], units[k]);
    }
    worth
}
