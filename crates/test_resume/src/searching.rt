//! A search by one worker.

ghost use Rattle.std.specs.Prelude.{◌≡◌, ◌+◌, ◌≤◌, length, IfNone, IfOk, IfSome};
ghost use Rattle.vs_instance.specs.declared.limits.TheConstants.{MAX_BUDGET};
ghost use Rattle.vs_crew.specs.Leaves.{HasOffered};
ghost use Rattle.vs_resume.specs.Deepened.{IsDeepened};
ghost use Rattle.vs_tree.specs.Calls.{HoldsSome};
ghost use Rattle.vs_tree.specs.History.{IsAmong};
ghost use Rattle.vs_tree.specs.Search.{state};
ghost use Rattle.vs_tree.specs.Sound.{IsPlanOf};
ghost use Rattle.vs_tree.specs.Takes.{IsOver, IsSized};
ghost use Rattle.test_resume.specs.Alone.{HasOutcome, IsAtLeaf, IsBetweenLeaves};

use std::alloc::Global;
use vs_instance::Instance;
use vs_match::layer_nets;
use vs_node::{Outcome, Room, Task, work};
use vs_plan::CheckedPlan;
use vs_prices::{Table, permitted_sets};
use vs_tree::{Take, Tree};
use vs_types::Memory;

/// A search of the instance with this budget that begins with no plan, once it is over.
pub fn searched(alloc: Global, instance: &Instance, budget: u32) -> Result<Tree, Memory>
    requires some { 1 ≤ budget }
    requires few { budget ≤ MAX_BUDGET }
    ensures { IfOk result (IsDeepened instance.now budget) }
{
    let nets = layer_nets(alloc, instance)?;
    let mut tree = Tree::start(alloc, instance.copy(alloc)?, budget, 1, None)?;
    let mut task = blank_task(alloc, instance)?;
    let mut room = Room::new(alloc, &nets, 1)?;
    let mut left = budget;
    while left > 0 {
        let Some(leaf) = take(&mut tree, &mut task) else {
            break;
        };
        let outcome = work(alloc, instance, &nets, &task, &mut room)?;
        hand_in(&mut tree, leaf, outcome);
        left -= 1;
    }
    // for the proof: the steps of a search are a history from an opening.
    let _instance = tree.instance();
    Ok(tree)
}

/// Room for the task of a leaf.
fn blank_task(alloc: Global, instance: &Instance) -> Result<Task, Memory>
    ensures sets { IfOk result (λ task. length task.sets.items ≡ length instance.now.trips) }
    ensures table { IfOk result (λ task. IsSized instance.now task.table) }
{
    Ok(Task {
        sets: permitted_sets(alloc, instance)?,
        table: Table::zero(alloc, instance)?,
        known: None,
        root: false,
    })
}

/// Takes the next leaf and its task. None where the search is over.
fn take(tree: &mut Tree, task: &mut Task) -> Option<u32>
    requires between { IsBetweenLeaves tree.old }
    requires sets { length task.old.sets.items ≡ length tree.old.opening.problem.trips }
    requires table { IsSized tree.old.opening.problem task.old.table }
    ensures opening { tree.new.opening ≡ tree.old.opening }
    ensures finished { (state tree.new).finished ≡ (state tree.old).finished }
    ensures leaf { IfSome result (λ leaf. IsAtLeaf leaf task.new tree.new) }
    ensures over { IfNone result (IsOver tree.new.opening (state tree.new)) }
    ensures same { IfNone result (tree.new ≡ tree.old) }
{
    // for the proof: the steps of a search are a history from an opening.
    let _instance = tree.instance();
    match tree.take(0, &mut task.sets, &mut task.table) {
        Take::Node { leaf, known } => {
            task.known = known;
            task.root = leaf == 0;
            Some(leaf)
        }
        _ => None,
    }
}

/// Offers the plan that was found, if any, and finishes the leaf.
fn hand_in(tree: &mut Tree, leaf: u32, outcome: Outcome)
    requires { HasOutcome leaf outcome tree.old }
    ensures opening { tree.new.opening ≡ tree.old.opening }
    ensures finished { (state tree.new).finished ≡ (state tree.old).finished + 1 }
    ensures between { IsBetweenLeaves tree.new }
{
    // for the proof: the steps of a search are a history from an opening.
    let _instance = tree.instance();
    offer(tree, outcome.plan);
    tree.finish(0, leaf, outcome.table, outcome.next);
}

/// Offers a plan of the instance, where there is one.
fn offer(tree: &mut Tree, plan: Option<CheckedPlan>)
    requires holds { HoldsSome (state tree.old) 0 }
    requires fresh { ¬ (IsAmong 0 (state tree.old).offered) }
    requires plan { IfSome plan (IsPlanOf tree.old.opening.problem) }
    ensures { HasOffered 0 tree.old plan tree.new }
{
    if let Some(plan) = plan {
        tree.offer(0, plan);
    }
}
