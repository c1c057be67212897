//! What is kept for a net made a least circulation of offered trips.

ghost use Rattle.std.specs.Prelude.{◌≡◌, ◌≤◌, ◌↔◌, IsTrue};
ghost use Rattle.vs_types.specs.declared.numbers.LayerNo.{LayerNo};
ghost use Rattle.vs_instance.specs.Problem.{Problem};
ghost use Rattle.vs_instance.specs.Instance.{IsInstance};
ghost use Rattle.vs_match.specs.LawfulNets.{IsLawful};
ghost use Rattle.vs_path.specs.declared.residual.TheConstants.{MAX_SEARCH_NODES};
ghost use Rattle.vs_path.specs.Residual.{AllWithin};
ghost use Rattle.vs_circ.specs.Offers.{AreOffers};
ghost use Rattle.vs_circ.specs.shipping.Prepared.{AreOfferedCosts, AreOfferedRooms};
ghost use Rattle.vs_circ.specs.shipping.Ready.{CanRun};
ghost use Rattle.vs_circ.specs.shipping.Settled.{IsSettled};
ghost use Rattle.vs_ship.specs.Leaving.{IsLeftBy};
ghost use Rattle.vs_ship.specs.Shipments.{CanShip};
ghost use Rattle.vs_ship.specs.Works.{IsReadyFor};

use crate::preparing::prepare;
use crate::refitting::refit;
use vs_match::LayerNet;
use vs_ship::{Kept, bring_near, drain};

/// The greatest price of a node, either way, with which a call begins, in 1/1000 of a cost unit. Prices that were
/// brought near lie within somewhat less. So a call brings prices near only where they have drifted since the last one.
const MAX_KEPT_PRICE: i64 = 750_000_000_000_000_000;

/// Makes the units that are kept for the net a circulation of offered trips, with prices at which nobody gains
/// by another one. Which units and prices are kept decides how long that takes.
pub(crate) fn settle(net: &LayerNet, offers: &[Option<i64>], kept: &mut Kept)
    requires of_layer { (p : Problem) × (l : LayerNo) × IsInstance p × IsLawful p l.0 net.now
        × AreOffers p l.0 offers.now }
    requires few { net.now.graph.nodes ≤ MAX_SEARCH_NODES }
    requires kept { IsReadyFor net.now.graph kept.old }
    ensures settled { IsSettled net.now offers.now kept.new.shipment }
    ensures kept { IsReadyFor net.now.graph kept.new }
    ensures mirror { kept.new.mirror ≡ kept.old.mirror }
{
    prepare(net, offers, &mut kept.shipment);
    send_all(net, offers, kept);
}

/// The same where an earlier call may have settled the units and prices for this net. Then most arcs needn't be looked
/// at.
pub(crate) fn settle_again(net: &LayerNet, offers: &[Option<i64>], kept: &mut Kept)
    requires of_layer { (p : Problem) × (l : LayerNo) × IsInstance p × IsLawful p l.0 net.now
        × AreOffers p l.0 offers.now }
    requires few { net.now.graph.nodes ≤ MAX_SEARCH_NODES }
    requires kept { CanRun net.now kept.old }
    ensures settled { IsSettled net.now offers.now kept.new.shipment }
    ensures kept { CanRun net.now kept.new }
{
    prepare_again(net, offers, kept);
    send_all(net, offers, kept);
    kept.is_settled = true;
}

/// Makes the shipment ready for offers: only at the arcs of trips where it is known to be settled and its prices
/// haven't drifted.
fn prepare_again(net: &LayerNet, offers: &[Option<i64>], kept: &mut Kept)
    requires of_layer { (p : Problem) × (l : LayerNo) × IsInstance p × IsLawful p l.0 net.now
        × AreOffers p l.0 offers.now }
    requires few { net.now.graph.nodes ≤ MAX_SEARCH_NODES }
    requires kept { CanRun net.now kept.old }
    ensures can { CanShip net.now.graph kept.new.shipment }
    ensures cost { AreOfferedCosts net.now offers.now kept.new.shipment.costs.cost.items }
    ensures room { AreOfferedRooms net.now offers.now kept.new.shipment.costs.room.items }
    ensures left { IsLeftBy net.now.graph kept.new.shipment.flow.units.items kept.new.shipment.surplus.items }
    ensures kept { IsReadyFor net.now.graph kept.new }
    ensures before { kept.new.before ≡ kept.old.before }
    ensures was_settled { kept.new.was_settled ≡ kept.old.was_settled }
{
    let shipment = &mut kept.shipment;
    if kept.is_settled && are_kept_prices(&shipment.prices) {
        return refit(net, offers, shipment);
    }
    if kept.is_settled {
        let space = &mut kept.space;
        bring_near(&mut shipment.prices, &mut space.turned, &mut space.low);
    }
    prepare(net, offers, shipment);
}

/// Whether prices needn't be brought nearer before a call begins with them.
fn are_kept_prices(prices: &[i64]) -> bool
    ensures { IsTrue result ↔ AllWithin MAX_KEPT_PRICE prices.now }
{
    for price in prices {
        if *price < -MAX_KEPT_PRICE || MAX_KEPT_PRICE < *price {
            return false;
        }
    }
    true
}

/// Sends all units of a shipment that is ready for offers.
fn send_all(net: &LayerNet, offers: &[Option<i64>], kept: &mut Kept)
    requires of_layer { (p : Problem) × (l : LayerNo) × IsInstance p × IsLawful p l.0 net.now
        × AreOffers p l.0 offers.now }
    requires kept { IsReadyFor net.now.graph kept.old }
    requires can { CanShip net.now.graph kept.old.shipment }
    requires cost { AreOfferedCosts net.now offers.now kept.old.shipment.costs.cost.items }
    requires room { AreOfferedRooms net.now offers.now kept.old.shipment.costs.room.items }
    requires left { IsLeftBy net.now.graph kept.old.shipment.flow.units.items kept.old.shipment.surplus.items }
    ensures settled { IsSettled net.now offers.now kept.new.shipment }
    ensures kept { IsReadyFor net.now.graph kept.new }
    ensures mirror { kept.new.mirror ≡ kept.old.mirror }
    ensures before { kept.new.before ≡ kept.old.before }
    ensures was_settled { kept.new.was_settled ≡ kept.old.was_settled }
{
    let _ = drain(
        net.net(),
        &mut kept.search,
        &mut kept.loads,
        &mut kept.shipment,
    );
}
