//! Who searches the part of a leaf, and how much work that may be.

ghost use Rattle.std.specs.Prelude.{◌≡◌, ◌*◌, ◌≤◌, length, true, IfOk};
ghost use Rattle.vs_instance.specs.declared.limits.TheConstants.{MAX_BUDGET};
ghost use Rattle.vs_resume.specs.Deepened.{IsBegunOn, IsDeepened};
ghost use Rattle.vs_tree.specs.declared.calls.Stand.{Stand};

use std::alloc::Global;
use vs_instance::Instance;
use vs_tree::{Stand, Tree};
use vs_types::Memory;

/// How many nodes a turn finishes at most. They are few enough that the search soon comes back to the leaf of least
/// worth of all. They are enough that a part is worth its nets.
pub const MAX_TURN: u32 = 20;

/// How many entering prices the tables of a search of a part may have together, with one table for each node of its
/// budget.
pub const MAX_PART_ENTRIES: u32 = 3_000_000;

/// Who searches parts of an instance.
pub trait Deepen {
    /// What is so of a solver that may be called, and stays so.
    ghost can_deepen: { Self → Type 0 };

    /// What is so of a solver that may end a search early. It is so of none where this isn't said.
    ghost may_stop: { Self → Type 0 } = { λ _. ⊥ };

    /// What is so of a solver that is to end the whole search where that has come so far. It is so of none where this
    /// isn't said.
    ghost must_stop: { Self → Stand → Type 0 } = { λ _ _. ⊥ };

    /// What is so of a solver that was told how far the whole search has come.
    ghost is_told: { Self → Stand → Type 0 } = { λ _ _. Unit {0} };

    /// A search of the part with this budget that began with no plan: it is over, and finished some node. Where the
    /// solver may end it early, it is as far as it came, and may have finished none.
    fn deepen(&mut self, alloc: Global, part: Instance, budget: u32) -> Result<Tree, Memory>
        requires can { can_deepen self.old }
        requires some { 1 ≤ budget }
        requires budget { budget ≤ MAX_BUDGET }
        requires room { length part.trips * length part.layers * budget ≤ MAX_PART_ENTRIES }
        ensures stays { can_deepen self.new }
        ensures may { may_stop self.new → may_stop self.old }
        ensures begun { IfOk result (IsBegunOn part budget) }
        ensures found { ¬ (may_stop self.old) → IfOk result (IsDeepened part budget) };

    /// Whether the whole search is to end before its next turn, where it has come so far.
    fn is_over(&mut self, stand: &Stand) -> bool
        requires can { can_deepen self.old }
        ensures stays { can_deepen self.new }
        ensures may { may_stop self.new → may_stop self.old }
        ensures over { result ≡ true → may_stop self.old }
        ensures must { must_stop self.old stand.now → result ≡ true }
        ensures told { is_told self.new stand.now };
}
