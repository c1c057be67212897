//! What all workers of a crew work with, and the gate that each passes.

ghost use Rattle.std.specs.Prelude.{◌≡◌, true};

use crate::changes::Changes;
use crate::shared_tree::SharedTree;
use std::snapshot::Snapshot;
use vs_instance::Instance;
use vs_match::LayerNet;
use vs_tree::{Stand, Tree};
use vs_turn::Turn;

/// What a worker passes between its take of a leaf and its work on it. It may wait or report. It changes nothing of
/// what the search comes to, but that it may end it early.
pub trait Gate {
    /// What is so of a gate that may end a search. It is so of none where this isn't said.
    ghost may_stop: { Self → Type 0 } = { λ _. ⊥ };

    /// The worker has taken the leaf, and will work on it once this returns.
    fn before(&self, worker: u32, leaf: u32);

    /// For how many whole seconds the search has gone on. It is 0 where there is no clock.
    fn seconds(&self) -> u64 {
        0
    }

    /// Whether the search is to end where it stands. A worker asks before each leaf that it takes, and at the root
    /// between the steps of its work.
    fn is_over(&self, _stand: &Stand) -> bool
        ensures { result ≡ true → may_stop self.now }
    {
        false
    }
}

/// A gate that is open.
pub struct NoGate;

impl Gate for NoGate {
    fn before(&self, _worker: u32, _leaf: u32) {}
}

/// What all workers of a crew work with.
#[derive(Drop)]
pub(crate) struct Site<'a, G: Gate> {
    pub instance: &'a Instance,
    pub nets: &'a [LayerNet],
    /// The search as it was handed in, at no cost.
    pub start: &'a Snapshot<Tree>,
    pub turn: &'a Turn<SharedTree>,
    pub changes: &'a Changes,
    pub gate: &'a G,
    /// How many workers there are.
    pub workers: u32,
}
