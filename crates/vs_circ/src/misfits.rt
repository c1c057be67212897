//! How many trips change where a call begins with given units and prices.

ghost use Rattle.std.specs.Prelude.{◌≡◌, ◌<◌, ◌≤◌, length};
ghost use Rattle.std.specs.Int.RustNames.{unsigned_abs};
ghost use Rattle.vs_layer.specs.Graph.{IsNet};
ghost use Rattle.vs_ship.specs.Works.{IsReadyFor};
ghost use Rattle.vs_circ.specs.shipping.Ready.{CanRun};
ghost use Rattle.vs_circ.specs.shipping.Prepared.{AreSmallOffers, HasSmallArcs};

use crate::preparing::{offered_cost, offered_room};
use vs_instance::MAX_TRIPS;
use vs_layer::Arc;
use vs_match::{ArcKind, LayerNet};
use vs_ship::{Kept, suiting};
use vs_types::TripNo;

/// One trip in so many is looked at. These tell as well as all of them which start is nearer, in far less time.
const SAMPLE: u32 = 8;

/// Lets a call begin with the units and prices that the last call left, or with those of the one before it. It takes
/// those that need fewer changes. Where multipliers swing to and fro, these are of the call before.
pub(crate) fn recall(net: &LayerNet, offers: &[Option<i64>], kept: &mut Kept)
    requires arcs { HasSmallArcs net.now }
    requires offers { AreSmallOffers offers.now }
    requires kept { IsReadyFor net.now.graph kept.old }
    ensures kept { IsReadyFor net.now.graph kept.new }
    ensures can { CanRun net.now kept.old → CanRun net.now kept.new }
{
    if is_before_nearer(net, offers, kept) {
        kept.exchange();
    } else {
        kept.before.take(&kept.shipment);
        kept.was_settled = kept.is_settled;
    }
}

/// Whether fewer trips of a sample change between being run and not being run where a call with these offers begins
/// with the earlier start. The earlier start is what the call before the last one left. This decides only how long the
/// call takes.
fn is_before_nearer(net: &LayerNet, offers: &[Option<i64>], kept: &Kept) -> bool
    requires arcs { HasSmallArcs net.now }
    requires offers { AreSmallOffers offers.now }
    requires kept { IsReadyFor net.now.graph kept.now }
{
    // for the proof: its contract says that a net is one
    let _ = net.net().nodes();
    let trips = offers.len().min(MAX_TRIPS as usize) as u32;
    let mut fewer: i32 = 0;
    for i in 0..trips / SAMPLE {
        fewer += changes_saved(net, offers, kept, TripNo(i * SAMPLE));
    }
    0 < fewer
}

/// How many changes of a trip are saved where a call begins with what the call before the last one left: 1, 0 or -1.
fn changes_saved(net: &LayerNet, offers: &[Option<i64>], kept: &Kept, trip: TripNo) -> i32
    requires net { IsNet net.now.graph }
    requires arcs { HasSmallArcs net.now }
    requires offers { AreSmallOffers offers.now }
    requires kept { IsReadyFor net.now.graph kept.now }
    ensures { unsigned_abs result ≤ 1 }
{
    let Some(k) = net.trip_arc(trip) else {
        return 0;
    };
    let arc = net.net().arc(k);
    let kind = ArcKind::Trip(trip);
    let cost = offered_cost(offers, kind, arc);
    let room = offered_room(offers, kind, arc);
    let shipment = &kept.shipment;
    let before = &kept.before;
    let units = shipment.flow.units[k as usize];
    let last = is_misfit(arc, cost, room, units, &shipment.prices);
    let units = before.units[k as usize];
    let earlier = is_misfit(arc, cost, room, units, &before.prices);
    match (last, earlier) {
        (true, false) => 1,
        (false, true) => -1,
        _ => 0,
    }
}

/// Whether so many units on an arc of this cost and room don't suit it.
fn is_misfit(arc: Arc, cost: i64, room: u32, units: u32, prices: &[i64]) -> bool
    requires from { arc.from < length prices.now }
    requires to { arc.to < length prices.now }
{
    let from = prices[arc.from as usize];
    let to = prices[arc.to as usize];
    let loss = cost.saturating_add(from).saturating_sub(to);
    suiting(loss, room, arc.room, units) != Some(units)
}
