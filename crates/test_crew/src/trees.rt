//! Searches of one trip that may be run in two layers, call by call.

ghost use Rattle.std.specs.Prelude.{◌≡◌, ◌≤◌, []};
ghost use Rattle.vs_tree.specs.History.{IsAmong};
ghost use Rattle.vs_tree.specs.Search.{state};

mod prices;
pub mod worked;

use crate::leaves::{one_trip, split};
use std::alloc::Global;
use std::test::Fail;
use test_fixtures::{instance_of, share};
use vs_tree::{Claim, Report, Take, Tree};
use worked::{answer, finished, taken_again};

/// What a search reports that is over, and what worker 0 gets then.
fn told_then(alloc: Global, tree: &mut Tree) -> Result<(Report, Take), Fail>
    requires workers { tree.old.opening.workers ≡ 2 }
    requires stays { ¬ (IsAmong 0 (state tree.old).gone) }
{
    let report = tree.report();
    Ok((report, answer(alloc, tree, 0)?))
}

fn told_at_the_end(alloc: Global) -> Result<(Report, Take), Fail> {
    let instance = one_trip(alloc)?;
    let mut tree = finished(alloc, &instance)?;
    told_then(alloc, &mut tree)
}

#[test]
fn are_done_once_both_leaves_are_closed(rt: HostRuntime) -> Result<(), Fail> {
    let (report, take) = told_at_the_end(rt.alloc())?;
    let wanted = Report {
        claim: Claim::Optimal,
        cost: Some(500),
        bound: Some(500),
        finished: 3,
    };
    assert_eq!(rt; report, wanted);
    assert_eq!(rt; take, Take::Done);
    Ok(())
}

/// How many leaves were finished when one was given back, and once the other one was closed. And what worker 0
/// gets then.
fn told_again(alloc: Global) -> Result<(u32, u32, Take), Fail> {
    let instance = one_trip(alloc)?;
    taken_again(alloc, &instance)
}

#[test]
fn give_a_leaf_again_that_was_given_back(rt: HostRuntime) -> Result<(), Fail> {
    let known = Some(500);
    let wanted = (1, 2, Take::Node { leaf: 2, known });
    assert_eq!(rt; told_again(rt.alloc())?, wanted);
    Ok(())
}

/// What worker 1 gets from a search in which both may ask.
fn told_to_other(alloc: Global, tree: &mut Tree) -> Result<Take, Fail>
    requires workers { tree.old.opening.workers ≡ 2 }
    requires none_gone { (state tree.old).gone ≡ [] }
{
    answer(alloc, tree, 1)
}

/// What worker 0 gets from a search in which both may ask, and then worker 1.
fn both_told(alloc: Global, tree: &mut Tree) -> Result<(Take, Take), Fail>
    requires workers { tree.old.opening.workers ≡ 2 }
    requires none_gone { (state tree.old).gone ≡ [] }
{
    let first = answer(alloc, tree, 0)?;
    let second = told_to_other(alloc, tree)?;
    Ok((first, second))
}

/// What they get after the split of the root, with a budget of so many leaves.
fn told_of(alloc: Global, budget: u32) -> Result<(Take, Take), Fail>
    requires { budget ≤ 5 }
{
    let instance = one_trip(alloc)?;
    let mut tree = split(alloc, &instance, budget)?;
    both_told(alloc, &mut tree)
}

#[test]
fn tell_when_their_budget_is_spent_or_held(rt: HostRuntime) -> Result<(), Fail> {
    assert_eq!(rt; told_of(rt.alloc(), 1)?, (Take::Spent, Take::Spent));
    let known = None;
    let held = (Take::Node { leaf: 1, known }, Take::Wait);
    assert_eq!(rt; told_of(rt.alloc(), 2)?, held);
    Ok(())
}

#[test]
fn cross_threads(rt: HostRuntime) -> Result<(), Fail> {
    let instance = instance_of(rt.alloc(), &["instance,1\nstop,D\n"])?;
    let tree = Tree::start(rt.alloc(), instance, 1, 2, None)?;
    share(&tree);
    Ok(())
}
