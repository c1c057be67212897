//! Two workers that work at the same time.

ghost use Rattle.std.specs.Prelude.{◌≡◌, []};
ghost use Rattle.vs_crew.specs.Sharing.{NoneIsHeld};
ghost use Rattle.vs_tree.specs.Search.{state};

use crate::leaves::{one_trip, two_leaves};
use crate::meeting::Meeting;
use std::alloc::Global;
use std::sync::Wait;
use std::test::Fail;
use std::thread::Threads;
use std::time::Clock;
use vs_crew::run;
use vs_instance::Instance;
use vs_match::layer_nets;
use vs_tree::{Claim, Report, Tree};

/// How often a worker looks for the other one before it passes the gate alone.
const LOOKS: u32 = 1_000_000_000;

/// What a search whose root is split reports, by two workers that pass the gate.
fn reported<R: Threads + Wait + Sync + Clock>(
    rt: &R,
    alloc: Global,
    instance: &Instance,
    tree: Tree,
    gate: &Meeting<'_, R>,
) -> Result<Report, Fail>
    requires problem { tree.opening.problem ≡ instance.now }
    requires workers { tree.opening.workers ≡ 2 }
    requires none_held { NoneIsHeld (state tree) }
    requires none_gone { (state tree).gone ≡ [] }
{
    let nets = layer_nets(alloc, instance)?;
    match run(rt, alloc, instance, &nets, tree, 2, gate) {
        Ok(tree) => Ok(tree.report()),
        Err(_) => Err(Fail::new("memory")),
    }
}

/// What two workers report that meet at the gate, of a search whose root is split.
fn searched_by_two<R: Threads + Wait + Sync + Clock>(
    rt: &R,
    alloc: Global,
    gate: &Meeting<'_, R>,
) -> Result<Report, Fail> {
    let instance = one_trip(alloc)?;
    let tree = two_leaves(alloc, &instance)?;
    reported(rt, alloc, &instance, tree, gate)
}

/// How many of them passed the gate with the other, and what they report.
fn met<R: Threads + Wait + Sync + Clock>(rt: &R, alloc: Global) -> Result<(u32, Report), Fail> {
    let gate = Meeting::new(rt, LOOKS);
    let report = searched_by_two(rt, alloc, &gate)?;
    Ok((gate.met(), report))
}

#[test]
fn two_workers_meet(rt: HostRuntime) -> Result<(), Fail> {
    let (met, report) = met(&rt, rt.alloc())?;
    let told = (met, report.claim, report.cost, report.bound);
    assert_eq!(rt; told, (2, Claim::Optimal, Some(500), Some(500)));
    Ok(())
}
