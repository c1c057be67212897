//! What the workers of a search have in hand, and what they may do.

ghost use Rattle.std.specs.Prelude.{◌≡◌, ◌↔◌, IsTrue};
ghost use Rattle.vs_tree.specs.History.{IsHeldBy, known};
ghost use Rattle.vs_tree.specs.Search.{state};
ghost use Rattle.vs_replay.specs.Making.{MayOfferSome};

use vs_tree::{Hand, Spot, Tree};

/// Whether a worker holds a leaf.
pub fn holds(tree: &Tree, w: u32, leaf: u32) -> bool
    ensures { IsTrue result ↔ IsHeldBy (state tree.now) w leaf }
{
    if leaf >= tree.spots() {
        return false;
    }
    match tree.spot(leaf) {
        Spot::Held { worker, .. } => worker == w,
        _ => false,
    }
}

/// Whether a worker holds a leaf, and has offered nothing since it took it.
pub fn may_offer(tree: &Tree, w: u32) -> bool
    ensures { IsTrue result ↔ MayOfferSome (state tree.now) w }
{
    // for the proof: the steps of a search are a history from an opening.
    let _instance = tree.instance();
    if w >= tree.workers() {
        return false;
    }
    match tree.hand(w) {
        Hand::Has { offered, .. } => !offered,
        _ => false,
    }
}

/// What the cheapest plan so far costs, in cost units, None where there is none.
pub fn known_cost(tree: &Tree) -> Option<i64>
    ensures { result ≡ known (state tree.now) }
{
    match tree.plan() {
        Some(plan) => Some(plan.cost()),
        None => None,
    }
}
