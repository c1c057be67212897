//! Units that suit the arcs of a net at prices of its nodes.

ghost use Rattle.std.specs.Prelude.{◌≡◌, ◌<◌, ◌↔◌, ◌<ℤ◌, ◌+ℤ◌, ◌-ℤ◌, pos, IsTrue, MatchBool, MatchOption, length};
ghost use Rattle.vs_path.specs.Residual.{AllWithin, IsWithin, price_at};
ghost use Rattle.vs_path.specs.declared.residual.TheConstants.{MAX_STEP_COST};
ghost use Rattle.vs_ship.specs.Leaving.{IsLeftBy};
ghost use Rattle.vs_ship.specs.Suiting.{AllSuit, DoSuit, HasFewUnits, HasGain, HasNoGain};

use crate::leaving::{clear, pass};
use crate::shipment::MAX_FIRST_PRICE;
use vs_layer::{Arc, Net};
use vs_path::Costs;

/// The units that suit an arc on which a unit more costs so much, no more than it carries where
/// any number does. None where it would carry more than the net lets it.
pub fn suiting(loss: i64, room: u32, most: u32, units: u32) -> Option<u32>
    ensures { MatchOption result ((most < room) × (loss <ℤ pos 0)) (DoSuit loss room most) }
{
    if loss > 0 {
        Some(0)
    } else if loss == 0 {
        Some(units.min(room).min(most))
    } else if room <= most {
        Some(room)
    } else {
        None
    }
}

/// What a unit more on an arc costs by the prices of the nodes.
pub fn loss_on(arc: Arc, cost: i64, prices: &[i64]) -> i64
    requires from { arc.from < length prices.now }
    requires to { arc.to < length prices.now }
    requires cost { IsWithin MAX_STEP_COST cost }
    requires prices { AllWithin MAX_FIRST_PRICE prices.now }
    ensures { result ≡ (cost +ℤ price_at prices.now arc.from) -ℤ price_at prices.now arc.to }
{
    cost + prices[arc.from as usize] - prices[arc.to as usize]
}

/// Gives each arc units that suit it, and sets what they leave at the nodes. False where an arc would carry more than
/// the net lets it.
fn suit(net: &Net, costs: &Costs, prices: &[i64], units: &mut [u32], surplus: &mut [i64]) -> bool
    requires each_node { length prices.now ≡ net.now.nodes }
    requires surplus { length surplus.old ≡ net.now.nodes }
    requires units { length units.old ≡ length net.now.arcs }
    requires cost_size { length costs.now.cost.items ≡ length net.now.arcs }
    requires room_size { length costs.now.room.items ≡ length net.now.arcs }
    requires few { HasFewUnits net.now }
    requires cost { AllWithin MAX_STEP_COST costs.now.cost.items }
    requires prices { AllWithin MAX_FIRST_PRICE prices.now }
    ensures { MatchBool result
        (AllSuit net.now costs.now.cost.items costs.now.room.items prices.now units.new
        × IsLeftBy net.now units.new surplus.new)
        (HasGain net.now costs.now.cost.items costs.now.room.items prices.now) }
{
    clear(surplus);
    for k in 0..net.arcs() {
        let arc = net.arc(k);
        let loss = loss_on(arc, costs.cost[k as usize], prices);
        let room = costs.room[k as usize];
        let Some(n) = suiting(loss, room, arc.room, units[k as usize]) else {
            return false;
        };
        units[k as usize] = n;
        pass(surplus, arc, n);
    }
    true
}

/// Whether units can be sent from these prices on.
fn are_first_prices(prices: &[i64]) -> bool
    ensures { IsTrue result ↔ AllWithin MAX_FIRST_PRICE prices.now }
{
    for price in prices {
        if *price < -MAX_FIRST_PRICE || MAX_FIRST_PRICE < *price {
            return false;
        }
    }
    true
}

/// Gives each arc units that suit it, at these prices where that can be, else at prices of 0. Sets what they leave at
/// the nodes.
pub fn fit(net: &Net, costs: &Costs, prices: &mut [i64], units: &mut [u32], surplus: &mut [i64])
    requires each_node { length prices.old ≡ net.now.nodes }
    requires surplus { length surplus.old ≡ net.now.nodes }
    requires units { length units.old ≡ length net.now.arcs }
    requires cost_size { length costs.now.cost.items ≡ length net.now.arcs }
    requires room_size { length costs.now.room.items ≡ length net.now.arcs }
    requires few { HasFewUnits net.now }
    requires cost { AllWithin MAX_STEP_COST costs.now.cost.items }
    requires no_gain { HasNoGain net.now costs.now.cost.items costs.now.room.items }
    ensures first { AllWithin MAX_FIRST_PRICE prices.new }
    ensures suit { AllSuit net.now costs.now.cost.items costs.now.room.items prices.new units.new }
    ensures left { IsLeftBy net.now units.new surplus.new }
{
    if are_first_prices(prices) && suit(net, costs, prices, units, surplus) {
        return;
    }
    clear(prices);
    let _ = suit(net, costs, prices, units, surplus);
}
