//! The search that workers share, and what each may do to it in its turn.
ghost use Rattle.std.specs.Prelude.{◌≡◌, ℕ, length};
ghost use Rattle.vs_tree.specs.History.{IsHistory};
ghost use Rattle.vs_tree.specs.Search.{state};
ghost use Rattle.vs_tree.specs.Sound.{IsOpening, IsPlanOf};
ghost use Rattle.vs_tree.specs.Takes.{IsSized};
ghost use Rattle.vs_tree.specs.Calls.{HoldsSome};
ghost use Rattle.vs_tree.specs.History.{IsAmong};
ghost use Rattle.std.specs.Prelude.{IfSome};
ghost use Rattle.vs_crew.specs.Crew.{AreWorkedAfter};
ghost use Rattle.vs_crew.specs.Leaves.{HasFound, HasOffered, IsTold};
ghost use Rattle.vs_crew.specs.Sharing.{GoesOnBy, HasLeft, HeldWhenLeft, IsHolding, IsIdle};

use crate::finding::Finding;
use std::marker::Model;
use vs_node::Task;
use vs_plan::CheckedPlan;
use vs_tree::{Stand, Take, Tree};
use vs_turn::Kept;

/// A search that workers share by a turn. Each leaf that was split or closed since it was handed to them was worked on.
#[derive(Drop)]
pub(crate) struct SharedTree {
    /// How many steps it had when it was handed in.
    before: usize,
    tree: Tree,
}

impl Model for SharedTree {
    ghost use Rattle.vs_crew.specs.Codes.{coded_shared};
    ghost use Rattle.vs_crew.specs.Crew.{IsShared};
    ghost use Rattle.vs_crew.specs.Sharing.{Shared};

    ghost Value = { Shared };

    ghost coded = { coded_shared };

    ghost view = { λ a. record { before = a.before; search = a.tree } };

    ghost invariant = { λ a. IsShared (record { before = a.before; search = a.tree }) };
}

impl Kept for SharedTree {
    ghost use Rattle.vs_crew.specs.Sharing.{shared_entries, shared_opening};

    ghost opening = { shared_opening };

    ghost entries = { shared_entries };
}

impl SharedTree {
    /// The search, as it is handed in.
    pub(crate) fn new(tree: Tree) -> SharedTree
        ensures { result ≡ record { before = length tree.steps; search = tree } }
    {
        SharedTree {
            before: tree.history().len(),
            tree,
        }
    }

    /// The search, as it has become.
    pub(crate) fn into_tree(self) -> Tree
        ensures tree { result ≡ self.search }
        ensures worked { AreWorkedAfter result.opening self.before result.steps }
        ensures opening { IsOpening result.opening }
        ensures history { IsHistory result.opening result.steps }
    {
        let SharedTree { before: _, tree } = self;
        // for the proof: what holds of every search.
        let _instance = tree.instance();
        tree
    }

    /// How far the search has come. Who was idle still is.
    pub(crate) fn stand(&self) -> Stand
        ensures { (w : ℕ) → HeldWhenLeft w (IsIdle w) self.now.search
            → IsIdle w self.now.search.opening (state self.now.search) }
    {
        // for the proof: what holds of every search.
        let _instance = self.tree.instance();
        self.tree.stand()
    }

    /// Gives an idle worker the next leaf, and its task, or the reason why there is none.
    pub(crate) fn take(&mut self, w: u32, task: &mut Task) -> Take
        requires idle { HeldWhenLeft w (IsIdle w) self.old.search }
        requires sets { length task.old.sets.items ≡ length self.old.search.opening.problem.trips }
        requires table { IsSized self.old.search.opening.problem task.old.table }
        ensures steps { GoesOnBy w self.old self.new }
        ensures told { IsTold w task.new result self.new.search.opening (state self.new.search) }
        ensures sets { length task.new.sets.items ≡ length task.old.sets.items }
        ensures table { IsSized self.old.search.opening.problem task.new.table }
    {
        // for the proof: what holds of every search.
        let _instance = self.tree.instance();
        match self.tree.take(w, &mut task.sets, &mut task.table) {
            Take::Node { leaf, known } => {
                task.known = known;
                task.root = leaf == 0;
                Take::Node { leaf, known }
            }
            told => told,
        }
    }

    /// Offers the plan that the work on a worker's leaf found, if any, and finishes the leaf.
    pub(crate) fn finish(&mut self, w: u32, leaf: u32, finding: Finding)
        requires found { HeldWhenLeft w (HasFound w leaf finding) self.old.search }
        ensures steps { GoesOnBy w self.old self.new }
        ensures idle { IsIdle w self.new.search.opening (state self.new.search) }
    {
        // for the proof: what holds of every search.
        let _instance = self.tree.instance();
        let Finding { outcome, finish } = finding;
        offer_found(&mut self.tree, w, outcome.plan);
        self.tree.finish_as(w, leaf, outcome.table, finish);
    }

    /// Gives back the leaf that a worker holds, which then takes no more.
    pub(crate) fn give_back(&mut self, w: u32)
        requires holds { HeldWhenLeft w (IsHolding w) self.old.search }
        ensures steps { GoesOnBy w self.old self.new }
        ensures left { HasLeft w self.new.search.opening (state self.new.search) }
    {
        // for the proof: what holds of every search.
        let _instance = self.tree.instance();
        self.tree.give_back(w);
    }
}

/// Offers a plan of the instance, where there is one.
fn offer_found(tree: &mut Tree, w: u32, plan: Option<CheckedPlan>)
    requires holds { HoldsSome (state tree.old) w }
    requires fresh { ¬ (IsAmong w (state tree.old).offered) }
    requires plan { IfSome plan (IsPlanOf tree.old.opening.problem) }
    ensures { HasOffered w tree.old plan tree.new }
{
    if let Some(plan) = plan {
        tree.offer(w, plan);
    }
}
