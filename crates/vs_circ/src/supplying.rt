//! A shipment made ready to make up for the trips that have to run.

ghost use Rattle.std.specs.Prelude.{◌≡◌, ℕ, ◌<◌, ◌≤◌, length, slice_index};
ghost use Rattle.vs_types.specs.declared.numbers.LayerNo.{LayerNo};
ghost use Rattle.vs_instance.specs.Problem.{Problem};
ghost use Rattle.vs_instance.specs.Instance.{IsInstance};
ghost use Rattle.vs_match.specs.LawfulNets.{IsLawful};
ghost use Rattle.vs_match.specs.LayerGraph.{kind_of};
ghost use Rattle.vs_path.specs.declared.residual.TheConstants.{MAX_SEARCH_NODES};
ghost use Rattle.vs_circ.specs.PricedFlows.{must_on, must_units};
ghost use Rattle.vs_ship.specs.Shipments.{IsSized};
ghost use Rattle.vs_circ.specs.shipping.Supplied.{IsSupplied};

use crate::preparing::offer_arcs;
use vs_match::{ArcKind, LayerNet};
use vs_ship::{Shipment, clear, leave};

/// A unit on the arc of a trip that has to run, and none on any other arc.
pub(crate) fn must_on(must: &[bool], kind: ArcKind) -> u32
    ensures { result ≡ must_on must.now kind }
{
    match kind {
        ArcKind::Trip(i) => match must.get(i.0 as usize) {
            Some(true) => 1,
            _ => 0,
        },
        _ => 0,
    }
}

/// Runs the trips that have to run, and makes no empty move.
fn run(net: &LayerNet, must: &[bool], units: &mut [u32])
    requires size { length units.old ≡ length net.now.graph.arcs }
    ensures { units.new ≡ must_units net.now must.now }
{
    for k in 0..net.net().arcs() {
        units[k as usize] = must_on(must, net.kind(k));
    }
}

/// Takes the units off all arcs.
fn empty(units: &mut [u32])
    ensures { (k : ℕ) → slice_index units.new k ≡ 0 }
{
    for n in units.iter_mut() {
        *n = 0;
    }
}

/// Makes a shipment ready to make up for the trips that have to run. Where each arrives is a unit more, and where it
/// departs a unit lacks. No arc carries anything, and all prices are 0.
pub(crate) fn supply(net: &LayerNet, must: &[bool], shipment: &mut Shipment)
    requires of_layer { (p : Problem) × (l : LayerNo) × IsInstance p × IsLawful p l.0 net.now }
    requires nodes { net.now.graph.nodes ≤ MAX_SEARCH_NODES }
    requires sized { IsSized net.now.graph shipment.old }
    ensures { IsSupplied net.now must.now shipment.new }
{
    let cost: &mut [i64] = &mut shipment.costs.cost;
    let room: &mut [u32] = &mut shipment.costs.room;
    offer_arcs(net, &[], cost, room);
    let units: &mut [u32] = &mut shipment.flow.units;
    run(net, must, units);
    let surplus: &mut [i64] = &mut shipment.surplus;
    leave(net.net(), units, surplus);
    empty(units);
    let prices: &mut [i64] = &mut shipment.prices;
    clear(prices);
}
