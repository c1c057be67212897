//! Prices in the middle of those at which a flow stays settled.

ghost use Rattle.std.specs.Prelude.{◌≡◌, ℕ, ◌<◌, ◌≤◌, ◌≤ℤ◌, length};
ghost use Rattle.vs_path.specs.Residual.{AllWithin, HasSignRule, IsResidual, price_at};
ghost use Rattle.vs_path.specs.Labels.{IsSmall};
ghost use Rattle.vs_ship.specs.Gaps.{AreNear};
ghost use Rattle.vs_ship.specs.Mirror.{AreTurned, IsMirrorOf};
ghost use Rattle.vs_ship.specs.Centring.{AreLoweredPrices, AreMeans, AreRaisedPrices, AreSettled};

use crate::gaps::{MAX_NODE_PRICE, bring_near};
use crate::mirror::turn_prices;
use vs_path::{MAX_SEARCH_NODES, MAX_SEARCH_PRICE, Residual, Search};

/// By how much at least the price of a node is raised that no path reaches, in 1/1000 of a cost unit. A path costs
/// less, since it has at most as many trips as there are, and three times as many other arcs. So such a node lies past
/// those that are reached.
const BEYOND: i64 = 400_000_000_000_000_000;

/// The greatest price of a node that was raised, either way, in 1/1000 of a cost unit.
pub const MAX_RAISED_PRICE: i64 = 3_000_000_000_000_000_000;

/// Moves prices to the middle between the greatest and the least of the nodes at which the flow stays settled, counted
/// from the first node. The second net is the first one turned round; the last two slices, with as many numbers, are
/// space to work in.
pub fn centre(
    search: &mut Search,
    residual: &Residual,
    mirrored: &Residual,
    prices: &mut [i64],
    turned: &mut [i64],
    low: &mut [i64],
)
    requires nodes { search.old.nodes ≡ residual.now.graph.nodes }
    requires residual { IsResidual residual.now }
    requires mirror { IsMirrorOf residual.now mirrored.now }
    requires small { IsSmall residual.now prices.old }
    requires sign_rule { HasSignRule residual.now prices.old }
    requires turned { length turned.old ≡ length prices.old }
    requires low { length low.old ≡ length prices.old }
    ensures settled { AreSettled residual.now prices.new }
    ensures nodes { search.new.nodes ≡ search.old.nodes }
{
    begin_near(prices, turned, low);
    raise(search, residual, 0, prices);
    lower(search, mirrored, turned, low);
    take_means(low, prices);
    bring_near(prices, turned, low);
}

/// Brings prices near, and turns them round with the net. The last slice is space to work in.
fn begin_near(prices: &mut [i64], turned: &mut [i64], space: &mut [i64])
    requires some { 0 < length prices.old }
    requires few { length prices.old ≤ MAX_SEARCH_NODES }
    requires within { AllWithin MAX_SEARCH_PRICE prices.old }
    requires turned { length turned.old ≡ length prices.old }
    requires space { length space.old ≡ length prices.old }
    ensures near { AreNear prices.old prices.new }
    ensures turned { AreTurned prices.new turned.new }
{
    bring_near(prices, turned, space);
    turn_prices(prices, turned);
}

/// Sets the least prices at which the flow stays settled, by prices in the net turned round. The price of the last
/// node, which is the first there, stays.
fn lower(search: &mut Search, mirrored: &Residual, turned: &mut [i64], low: &mut [i64])
    requires nodes { search.old.nodes ≡ mirrored.now.graph.nodes }
    requires small { IsSmall mirrored.now turned.old }
    requires within { AllWithin MAX_NODE_PRICE turned.old }
    requires sign_rule { HasSignRule mirrored.now turned.old }
    requires some { 0 < mirrored.now.graph.nodes }
    requires low { length low.old ≡ length turned.old }
    ensures lowered { AreLoweredPrices mirrored.now turned.old low.new }
    ensures nodes { search.new.nodes ≡ search.old.nodes }
{
    let last = turned.len() as u32 - 1;
    raise(search, mirrored, last, turned);
    turn_prices(turned, low);
}

/// Raises prices to the greatest at which the flow stays settled, where that of the source stays.
fn raise(search: &mut Search, residual: &Residual, source: u32, prices: &mut [i64])
    requires nodes { search.old.nodes ≡ residual.now.graph.nodes }
    requires small { IsSmall residual.now prices.old }
    requires within { AllWithin MAX_NODE_PRICE prices.old }
    requires sign_rule { HasSignRule residual.now prices.old }
    requires source { source < residual.now.graph.nodes }
    ensures raised { AreRaisedPrices residual.now prices.old prices.new }
    ensures nodes { search.new.nodes ≡ search.old.nodes }
{
    search.raise(residual, source, BEYOND, prices);
}

/// Lowers each price to the mean of it and a lesser one, rounded down.
fn take_means(low: &[i64], prices: &mut [i64])
    requires size { length prices.old ≡ length low.now }
    requires low { AllWithin MAX_RAISED_PRICE low.now }
    requires high { AllWithin MAX_RAISED_PRICE prices.old }
    requires below { (v : ℕ) → v < length low.now → price_at low.now v ≤ℤ price_at prices.old v }
    ensures { AreMeans low.now prices.old prices.new }
{
    for v in 0..low.len() {
        let apart = (prices[v] - low[v]) as u64;
        prices[v] = low[v] + (apart / 2) as i64;
    }
}
