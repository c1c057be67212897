//! The steps of a trace, each made where it may come.

ghost use Rattle.std.specs.Prelude.{◌≡◌, ◌↔◌, IfOk, IsTrue};
ghost use Rattle.vs_tree.specs.History as full;
ghost use Rattle.vs_tree.specs.History.{IsCheaper};
ghost use Rattle.vs_plan.specs.Blocks.{CanBeJudged, blocks_of};
ghost use Rattle.vs_trace.specs.Traces.{IsReadStep};
ghost use Rattle.vs_trace.specs.declared.trace.Full.TheVariants.{Offered};
ghost use Rattle.vs_replay.specs.Making.{IsMade, Suits, next_step};

use crate::finishing::{Done, finish};
use crate::ground::Ground;
use crate::hands::{holds, known_cost, may_offer};
use crate::plans::plan_of;
use std::alloc::Global;
use vs_instance::Instance;
use vs_plan::Plan;
use vs_trace::Full;
use vs_tree::{Hand, Next, Take, Tree};
use vs_types::Memory;

/// Makes a step that a trace records. False where it may not come.
pub fn make(
    alloc: Global,
    instance: &Instance,
    tree: &mut Tree,
    ground: &mut Ground,
    step: Full,
) -> Result<bool, Memory>
    requires same { tree.old.opening.problem ≡ instance.now }
    requires ground { Suits instance.now ground.old }
    requires read { IsReadStep instance.now step }
    ensures made { IfOk result (IsMade tree.old tree.new (next_step tree.old step)) }
    ensures ground { Suits instance.now ground.new }
{
    match step {
        Full::Took { worker, spot } => Ok(take(tree, ground, worker, spot)),
        Full::GaveBack { worker, spot } => Ok(give_back(tree, worker, spot)),
        Full::Offered { worker, cost, plan } => offer(alloc, instance, tree, worker, cost, plan),
        Full::Closed {
            worker,
            spot,
            table,
        } => {
            let done = Done {
                worker,
                leaf: spot,
                table,
                next: Next::Close,
            };
            Ok(finish(instance, tree, ground, done))
        }
        Full::Split {
            worker,
            spot,
            trip,
            left,
            table,
        } => {
            let done = Done {
                worker,
                leaf: spot,
                table,
                next: Next::Split { trip, left },
            };
            Ok(finish(instance, tree, ground, done))
        }
    }
}

/// Gives a worker a leaf. False where it may not take that one.
fn take(tree: &mut Tree, ground: &mut Ground, w: u32, leaf: u32) -> bool
    requires { Suits tree.old.opening.problem ground.old }
    ensures made { IsMade tree.old tree.new (full.Took w leaf) result }
    ensures ground { Suits tree.old.opening.problem ground.new }
{
    if w >= tree.workers() {
        return false;
    }
    match tree.hand(w) {
        Hand::Idle => {}
        _ => return false,
    }
    // for the proof: the steps of a search are a history from an opening.
    let _instance = tree.instance();
    match tree.take(w, &mut ground.sets, &mut ground.table) {
        Take::Node { leaf: next, .. } => next == leaf,
        _ => false,
    }
}

/// Takes a leaf back from a worker. False where it doesn't hold it.
fn give_back(tree: &mut Tree, w: u32, leaf: u32) -> bool
    ensures { IsMade tree.old tree.new (full.GaveBack w leaf) result }
{
    // for the proof: the steps of a search are a history from an opening.
    let _instance = tree.instance();
    if !holds(tree, w, leaf) {
        return false;
    }
    tree.give_back(w);
    true
}

/// Offers a plan of this cost for a worker. False where the worker may offer none, or the plan isn't cheaper than the
/// cheapest so far. False too where it is no plan of the instance at this cost.
fn offer(
    alloc: Global,
    instance: &Instance,
    tree: &mut Tree,
    w: u32,
    cost: i64,
    plan: Plan,
) -> Result<bool, Memory>
    requires same { tree.old.opening.problem ≡ instance.now }
    requires plan { CanBeJudged instance.now (blocks_of plan) }
    ensures { IfOk result (IsMade tree.old tree.new (next_step tree.old (Offered w cost plan))) }
{
    if !may_offer(tree, w) {
        return Ok(false);
    }
    let known = known_cost(tree);
    if !is_cheaper(cost, known) {
        return Ok(false);
    }
    match plan_of(alloc, instance, cost, plan)? {
        Some(checked) => Ok(tree.offer(w, checked)),
        None => Ok(false),
    }
}

/// Whether a cost is less than another that is known, if any.
fn is_cheaper(cost: i64, known: Option<i64>) -> bool
    ensures { IsTrue result ↔ IsCheaper cost known }
{
    match known {
        None => true,
        Some(known) => cost < known,
    }
}
