//! A net turned round, and prices turned round with it.

ghost use Rattle.std.specs.Prelude.{◌≡◌, ◌<◌, IfOk, IsTrue, length};
ghost use Rattle.vs_path.specs.Residual.{AllWithin};
ghost use Rattle.vs_ship.specs.Mirror.{AreTurned, AreTurnedArcs, IsMirror, turned};

use std::alloc::Global;
use vs_layer::{Arc, Net, NetError};
use vs_path::MAX_SEARCH_PRICE;
use vs_types::Memory;

/// The net turned round: each arc leads the other way, under the same number, and the nodes are numbered from the last
/// one.
pub(crate) fn mirror_of(alloc: Global, net: &Net) -> Result<Net, Memory>
    ensures { IfOk result (IsMirror net.now) }
{
    let arcs = turned_arcs(alloc, net)?;
    match Net::new(alloc, net.nodes(), arcs) {
        Ok(mirror) => Ok(mirror),
        Err(error) => match error {
            NetError::Memory => Err(Memory),
            NetError::Fault(_fault) => unreachable!(),
        },
    }
}

/// The arcs, each leading the other way.
fn turned_arcs(alloc: Global, net: &Net) -> Result<Vec<Arc>, Memory>
    ensures { IfOk result (λ arcs. AreTurnedArcs net.now arcs.items) }
{
    let mut arcs = Vec::with_capacity(alloc, net.arcs() as usize)?;
    for k in 0..net.arcs() {
        arcs.push(turned(net.nodes(), net.arc(k)))?;
    }
    Ok(arcs)
}

/// The arc that leads the other way, in a net of so many nodes turned round.
fn turned(nodes: u32, arc: Arc) -> Arc
    requires from { arc.from < nodes }
    requires to { arc.to < nodes }
    ensures { result ≡ turned nodes arc }
{
    Arc {
        from: nodes - 1 - arc.to,
        to: nodes - 1 - arc.from,
        cost: arc.cost,
        room: arc.room,
    }
}

/// Sets the prices of the nodes in the net turned round, by which each move costs the same.
pub(crate) fn turn_prices(prices: &[i64], turned: &mut [i64])
    requires within { AllWithin MAX_SEARCH_PRICE prices.now }
    requires size { length turned.old ≡ length prices.now }
    ensures { AreTurned prices.now turned.new }
{
    for v in 0..turned.len() {
        turned[v] = -prices[prices.len() - 1 - v];
    }
}

/// How many arcs of a net are compared to know it from another.
const COMPARED: u32 = 16;

/// Whether some arcs are those of the net turned round.
pub(crate) fn is_like_mirror(mirror: &Net, net: &Net) -> bool {
    if mirror.nodes() != net.nodes() || mirror.arcs() != net.arcs() {
        return false;
    }
    let mut k = 0;
    while k < net.arcs() {
        if mirror.arc(k) != turned(net.nodes(), net.arc(k)) {
            return false;
        }
        k = k.saturating_add(net.arcs() / COMPARED + 1);
    }
    true
}

/// Whether this is the net turned round.
pub(crate) fn is_mirror(mirror: &Net, net: &Net) -> bool
    ensures { IsTrue result → IsMirror net.now mirror.now }
{
    if mirror.nodes() != net.nodes() || mirror.arcs() != net.arcs() {
        return false;
    }
    for k in 0..net.arcs() {
        if mirror.arc(k) != turned(net.nodes(), net.arc(k)) {
            return false;
        }
    }
    true
}
