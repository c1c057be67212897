//! How far the prices for leaving and for entering trips may stand from those of the nodes.

ghost use Rattle.std.specs.Prelude.{◌≡◌, ℕ, ◌+◌, ◌*◌, ◌<◌, ◌≤◌, ◌↔◌, ◌≤ℤ◌, pos, nat_abs, length, false};
ghost use Rattle.vs_instance.specs.Problem.{Problem};
ghost use Rattle.vs_match.specs.LawfulNets.{IsLawful};
ghost use Rattle.vs_path.specs.Residual.{AllWithin};
ghost use Rattle.vs_circ.specs.node_prices.NodePrices.{HasMovePrices};
ghost use Rattle.vs_circ.specs.node_prices.Leeways.{passing, limits_of, spare, ArcAllows, IsAllowed, AreLeeways};

use vs_layer::{Arc, Net};
use vs_match::{ArcKind, LayerNet, MAX_ARC_COST};
use vs_ship::MAX_NODE_PRICE;

/// How far at most the price for leaving or entering a trip is moved, in 1/1000 of a cost unit.
pub(crate) const MAX_LEEWAY: u64 = 70_000_000_000_000_000;

/// Which prices of a layer are moved away from those of the nodes.
#[derive(Clone, Copy)]
pub(crate) enum Side {
    /// Those for leaving trips fall, as far as trips can still be entered at the prices of the nodes.
    Leaving,
    /// Those for entering trips rise, as far as trips can still be left at the prices of the nodes.
    Entering,
}

impl Side {
    /// The node of an arc whose leeway the arc passes on.
    pub(crate) fn passing(self, arc: Arc) -> u32
        ensures { result ≡ passing self arc }
    {
        match self {
            Side::Leaving => arc.to,
            Side::Entering => arc.from,
        }
    }

    /// The numbers of the arcs that limit the leeway of a node.
    fn limits(self, net: &Net, node: u32) -> &[u32]
        requires { node < net.now.nodes }
        ensures { result.now ≡ limits_of self net.now node }
    {
        match self {
            Side::Leaving => net.leaving(node),
            Side::Entering => net.reaching(node),
        }
    }
}

/// Sets how much leeway for leaving at each node the empty moves leave, by one pass against the arcs.
pub(crate) fn set_leaving(net: &LayerNet, prices: &[i64], leeways: &mut [u64])
    requires of_layer { (p : Problem) × (l : ℕ) × IsLawful p l net.now }
    requires prices { HasMovePrices net.now prices.now }
    requires size { length leeways.old ≡ length prices.now }
    ensures { AreLeeways net.now false Side.Leaving prices.now leeways.new }
{
    leeways.fill(0);
    pass_against(net, prices, leeways);
}

/// Sets how much leeway for entering at each node the empty moves leave, by one pass along the arcs.
pub(crate) fn set_entering(net: &LayerNet, prices: &[i64], leeways: &mut [u64])
    requires of_layer { (p : Problem) × (l : ℕ) × IsLawful p l net.now }
    requires prices { HasMovePrices net.now prices.now }
    requires size { length leeways.old ≡ length prices.now }
    ensures { AreLeeways net.now false Side.Entering prices.now leeways.new }
{
    leeways.fill(0);
    pass_along(net, prices, leeways);
}

/// The leeways for leaving, node by node from the last.
fn pass_against(net: &LayerNet, prices: &[i64], leeways: &mut [u64])
    requires of_layer { (p : Problem) × (l : ℕ) × IsLawful p l net.now }
    requires prices { HasMovePrices net.now prices.now }
    requires old { AreLeeways net.now false Side.Leaving prices.now leeways.old }
    ensures { AreLeeways net.now false Side.Leaving prices.now leeways.new }
{
    for v in (1..net.net().nodes() - 1).rev() {
        leeways[v as usize] = leeway_of(net, Side::Leaving, prices, leeways, v);
    }
}

/// The leeways for entering, node by node from the first.
fn pass_along(net: &LayerNet, prices: &[i64], leeways: &mut [u64])
    requires of_layer { (p : Problem) × (l : ℕ) × IsLawful p l net.now }
    requires prices { HasMovePrices net.now prices.now }
    requires old { AreLeeways net.now false Side.Entering prices.now leeways.old }
    ensures { AreLeeways net.now false Side.Entering prices.now leeways.new }
{
    for v in 1..net.net().nodes() - 1 {
        leeways[v as usize] = leeway_of(net, Side::Entering, prices, leeways, v);
    }
}

/// How much leeway the arcs of a node allow it.
fn leeway_of(net: &LayerNet, side: Side, prices: &[i64], leeways: &[u64], node: u32) -> u64
    requires of_layer { (p : Problem) × (l : ℕ) × IsLawful p l net.now }
    requires prices { HasMovePrices net.now prices.now }
    requires leeways { AreLeeways net.now false side prices.now leeways.now }
    requires node { node < net.now.graph.nodes }
    ensures { (y : ℕ) → (y ≤ result ↔ IsAllowed net.now false side prices.now leeways.now node y) }
{
    let mut leeway = MAX_LEEWAY;
    let arcs = side.limits(net.net(), node);
    for k in arcs {
        leeway = leeway.min(limit_of(net, side, prices, leeways, *k));
    }
    leeway
}

/// How much leeway an arc allows one of its nodes.
fn limit_of(net: &LayerNet, side: Side, prices: &[i64], leeways: &[u64], k: u32) -> u64
    requires of_layer { (p : Problem) × (l : ℕ) × IsLawful p l net.now }
    requires prices { HasMovePrices net.now prices.now }
    requires leeways { AreLeeways net.now false side prices.now leeways.now }
    requires arc { k < length net.now.graph.arcs }
    ensures { (y : ℕ) → y ≤ MAX_LEEWAY
        → (y ≤ result ↔ ArcAllows net.now false side prices.now leeways.now k y) }
{
    match net.kind(k) {
        ArcKind::Trip(_) => 0,
        ArcKind::Return => MAX_LEEWAY,
        ArcKind::Waiting
        | ArcKind::Deadhead
        | ArcKind::PullOut
        | ArcKind::PullIn
        | ArcKind::RestIn
        | ArcKind::RestWait
        | ArcKind::RestOut => {
            let arc = net.net().arc(k);
            leeways[side.passing(arc) as usize] + spare(arc, prices)
        }
    }
}

/// What an empty move along an arc costs beyond what it is worth.
fn spare(arc: Arc, prices: &[i64]) -> u64
    requires from { arc.from < length prices.now }
    requires to { arc.to < length prices.now }
    requires prices { AllWithin MAX_NODE_PRICE prices.now }
    requires worth { pos 0 ≤ℤ spare false prices.now arc }
    requires cost { arc.cost ≤ℤ MAX_ARC_COST }
    ensures value { pos result ≡ spare false prices.now arc }
    ensures few { result ≤ 2 * nat_abs MAX_NODE_PRICE + nat_abs MAX_ARC_COST }
{
    let spare = prices[arc.from as usize] + arc.cost - prices[arc.to as usize];
    spare as u64
}
