//! Searches by several workers at once.

ghost use Rattle.std.specs.Prelude.{◌≡◌, ◌<◌, ◌≤◌, [], IfOk, None};

mod seats;
mod two_workers;

use std::alloc::Global;
use std::sync::Wait;
use std::test::Fail;
use std::thread::Threads;
use test_fixtures::instance_of;
use test_fixtures::texts::{HALVES, LAYER, STOPS, TRIPS, TWO_LAYERS};
use vs_crew::{NoGate, run};
use vs_instance::Instance;
use vs_match::layer_nets;
use vs_tree::{Claim, MAX_WORKERS, Report, Tree};
use vs_types::Memory;

/// An instance, how many workers search, what they claim, and the plan's cost, which is the bound as well.
const SEARCHES: [(&[&str], u32, Claim, Option<i64>); 3] = [
    (&[STOPS, LAYER, TRIPS], 2, Claim::Optimal, Some(1080)),
    (&[STOPS, TWO_LAYERS], 1, Claim::Optimal, Some(500)),
    (&HALVES, 4, Claim::Infeasible, None),
];

/// A search of 127 nodes at most by so many workers, as it starts.
fn started(alloc: Global, instance: &Instance, workers: u32) -> Result<Tree, Memory>
    requires some { 0 < workers }
    requires few { workers ≤ MAX_WORKERS }
    ensures { IfOk result (λ tree. tree ≡ record {
      opening = record { problem = instance.now; budget = 127; workers = workers; first = None };
      steps = [];
    }) }
{
    Tree::start(alloc, instance.copy(alloc)?, 127, workers, None)
}

/// What that search reports.
fn reported<R: Threads + Wait + Sync>(
    rt: &R,
    alloc: Global,
    instance: &Instance,
    workers: u32,
) -> Result<Report, Fail>
    requires some { 0 < workers }
    requires few { workers ≤ MAX_WORKERS }
{
    let nets = layer_nets(alloc, instance)?;
    let tree = started(alloc, instance, workers)?;
    match run(rt, alloc, instance, &nets, tree, workers, &NoGate) {
        Ok(tree) => Ok(tree.report()),
        Err(_) => Err(Fail::new("memory")),
    }
}

/// The same of the instance that a text stands for: the claim, the cost and the bound.
fn searched<R: Threads + Wait + Sync>(
    rt: &R,
    alloc: Global,
    text: &[&str],
    workers: u32,
) -> Result<(Claim, Option<i64>, Option<i128>), Fail> {
    if workers == 0 || MAX_WORKERS < workers {
        return Err(Fail::new("no number of workers"));
    }
    let instance = instance_of(alloc, text)?;
    let report = reported(rt, alloc, &instance, workers)?;
    Ok((report.claim, report.cost, report.bound))
}

#[test]
fn find_the_cheapest_plan_or_that_there_is_none(rt: HostRuntime) -> Result<(), Fail> {
    for (text, workers, claim, cost) in SEARCHES {
        let found = searched(&rt, rt.alloc(), text, workers)?;
        assert_eq!(rt; found, (claim, cost, cost.map(i128::from)));
    }
    Ok(())
}
