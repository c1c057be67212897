//! Prices of a layer made from the prices of its nodes.

ghost use Rattle.std.specs.Prelude.{◌≡◌, ℕ, ◌≤◌, IfOk, length, true, false};
ghost use Rattle.vs_instance.specs.Problem.{Problem};
ghost use Rattle.vs_instance.specs.Instance.{IsInstance};
ghost use Rattle.vs_match.specs.LawfulNets.{IsLawful};
ghost use Rattle.vs_path.specs.Residual.{AllWithin, IsWithin};
ghost use Rattle.vs_path.specs.Raising.{HasSpan};
ghost use Rattle.vs_circ.specs.node_prices.NodePrices.{AreMovePrices, HasMovePrices};
ghost use Rattle.vs_circ.specs.LayerPrices.{AreHolding};
ghost use Rattle.vs_circ.specs.PricedFlows.{PaysNoLess};
ghost use Rattle.vs_circ.specs.node_prices.Leeways.{AreFewLeeways, shifted};
ghost use Rattle.vs_ship.specs.Works.{IsSpaceFor};
ghost use Rattle.vs_circ.specs.node_prices.PriceTables.{AreEntries, IsEntry, IsTableOf, base_price};

use crate::circ::LayerPrices;
use crate::leeways::{MAX_LEEWAY, Side, set_entering, set_leaving};
use std::alloc::Global;
use vs_instance::MAX_TRIPS;
use vs_match::LayerNet;
use vs_ship::{MAX_NODE_PRICE, Space};
use vs_types::{Memory, TripNo};

/// Prices of a layer, with entries for so many trips, from the prices of the nodes that the space has.
pub(crate) fn layer_prices(
    alloc: Global,
    net: &LayerNet,
    trips: usize,
    space: &mut Space,
) -> Result<LayerPrices, Memory>
    requires of_layer { (p : Problem) × (l : ℕ) × IsInstance p × IsLawful p l net.now
        × (length p.trips ≡ trips) }
    requires prices { HasMovePrices net.now space.old.prices.items }
    requires space { IsSpaceFor net.now.graph.nodes space.old }
    ensures holding { IfOk result (λ given. (p : Problem) (l : ℕ) → IsInstance p
        → IsLawful p l net.now → length p.trips ≡ trips → AreHolding p l false given) }
    ensures pays { IfOk result (PaysNoLess net.now trips space.old.prices.items) }
    ensures same { space.new.prices ≡ space.old.prices }
{
    prices_with_leeways(
        alloc,
        net,
        trips,
        &space.prices,
        &mut space.entering,
        &mut space.leaving,
    )
}

/// Prices of a layer, with entries for so many trips, from prices of the nodes. They hold, and each trip pays no less
/// by them. They are a mean: of those with the least prices for leaving trips, and of those with the greatest for
/// entering trips. The last two slices, with a number for each node, are space to work in.
fn prices_with_leeways(
    alloc: Global,
    net: &LayerNet,
    trips: usize,
    prices: &[i64],
    entering: &mut [u64],
    leaving: &mut [u64],
) -> Result<LayerPrices, Memory>
    requires of_layer { (p : Problem) × (l : ℕ) × IsInstance p × IsLawful p l net.now
        × (length p.trips ≡ trips) }
    requires prices { HasMovePrices net.now prices.now }
    requires entering { length entering.old ≡ length prices.now }
    requires leaving { length leaving.old ≡ length prices.now }
    ensures holding { IfOk result (λ given. (p : Problem) (l : ℕ) → IsInstance p
        → IsLawful p l net.now → length p.trips ≡ trips → AreHolding p l false given) }
    ensures pays { IfOk result (PaysNoLess net.now trips prices.now) }
{
    set_entering(net, prices, entering);
    set_leaving(net, prices, leaving);
    table_of(alloc, net, trips, prices, entering, leaving)
}

/// Prices of a ray, with entries for so many trips, from prices of the nodes. They hold, and each trip pays the same.
/// The last slice, with a number for each node, is space to work in.
pub(crate) fn ray_prices(
    alloc: Global,
    net: &LayerNet,
    trips: usize,
    prices: &[i64],
    none: &mut [u64],
) -> Result<LayerPrices, Memory>
    requires of_layer { (p : Problem) × (l : ℕ) × IsInstance p × IsLawful p l net.now
        × (length p.trips ≡ trips) }
    requires none { length none.old ≡ length prices.now }
    requires each_node { length prices.now ≡ net.now.graph.nodes }
    requires within { AllWithin MAX_NODE_PRICE prices.now }
    requires span { HasSpan MAX_NODE_PRICE prices.now }
    requires moves { AreMovePrices net.now true prices.now }
    ensures holding { IfOk result (λ given. (p : Problem) (l : ℕ) → IsInstance p
        → IsLawful p l net.now → length p.trips ≡ trips → AreHolding p l true given) }
    ensures pays { IfOk result (PaysNoLess net.now trips prices.now) }
{
    none.fill(0);
    table_of(alloc, net, trips, prices, none, none)
}

/// Prices of a layer from prices and leeways of the nodes.
fn table_of(
    alloc: Global,
    net: &LayerNet,
    trips: usize,
    prices: &[i64],
    entering: &[u64],
    leaving: &[u64],
) -> Result<LayerPrices, Memory>
    requires few { trips ≤ MAX_TRIPS }
    requires of_layer { (p : Problem) × (l : ℕ) × IsLawful p l net.now }
    requires each_node { length prices.now ≡ net.now.graph.nodes }
    requires within { AllWithin MAX_NODE_PRICE prices.now }
    requires span { HasSpan MAX_NODE_PRICE prices.now }
    requires entering { AreFewLeeways prices.now entering.now }
    requires leaving { AreFewLeeways prices.now leaving.now }
    ensures { IfOk result (IsTableOf net.now prices.now entering.now leaving.now trips) }
{
    let into = entries(alloc, net, trips, Side::Entering, prices, entering)?;
    let from = entries(alloc, net, trips, Side::Leaving, prices, leaving)?;
    let base = base_of(net, prices);
    Ok(LayerPrices {
        into,
        from,
        fleet: prices[0] - base,
    })
}

/// The price from which those for trips count, the lesser of those of the depot's beginning and end.
fn base_of(net: &LayerNet, prices: &[i64]) -> i64
    requires each_node { length prices.now ≡ net.now.graph.nodes }
    requires within { AllWithin MAX_NODE_PRICE prices.now }
    ensures { result ≡ base_price net.now prices.now }
{
    let end = net.net().nodes() - 1;
    prices[0].min(prices[end as usize])
}

/// The prices for entering or for leaving each of so many trips.
fn entries(
    alloc: Global,
    net: &LayerNet,
    trips: usize,
    side: Side,
    prices: &[i64],
    leeways: &[u64],
) -> Result<Vec<i64>, Memory>
    requires few { trips ≤ MAX_TRIPS }
    requires of_layer { (p : Problem) × (l : ℕ) × IsLawful p l net.now }
    requires each_node { length prices.now ≡ net.now.graph.nodes }
    requires within { AllWithin MAX_NODE_PRICE prices.now }
    requires span { HasSpan MAX_NODE_PRICE prices.now }
    requires leeways { AreFewLeeways prices.now leeways.now }
    ensures { IfOk result (λ entries. AreEntries net.now side prices.now leeways.now trips
        entries.items) }
{
    let mut entries = Vec::with_capacity(alloc, trips)?;
    for i in 0..trips {
        entries.push(entry_of(net, side, prices, leeways, TripNo(i as u32)))?;
    }
    Ok(entries)
}

/// The price for entering or for leaving a trip; 0 where the layer may not run it.
fn entry_of(net: &LayerNet, side: Side, prices: &[i64], leeways: &[u64], trip: TripNo) -> i64
    requires of_layer { (p : Problem) × (l : ℕ) × IsLawful p l net.now }
    requires each_node { length prices.now ≡ net.now.graph.nodes }
    requires within { AllWithin MAX_NODE_PRICE prices.now }
    requires span { HasSpan MAX_NODE_PRICE prices.now }
    requires leeways { AreFewLeeways prices.now leeways.now }
    ensures { IsEntry net.now side prices.now leeways.now trip.0 result }
{
    let Some(k) = net.trip_arc(trip) else {
        return 0;
    };
    let node = side.passing(net.net().arc(k)) as usize;
    let base = base_of(net, prices);
    shifted(side, prices[node] - base, leeways[node])
}

/// Half of a leeway off the price, rounded down.
fn shifted(side: Side, price: i64, leeway: u64) -> i64
    requires price { IsWithin MAX_NODE_PRICE price }
    requires leeway { leeway ≤ MAX_LEEWAY }
    ensures { result ≡ shifted side price leeway }
{
    match side {
        Side::Entering => price + (leeway / 2) as i64,
        Side::Leaving => price - ((leeway + 1) / 2) as i64,
    }
}
