//! Sums at the ends of the limits.

ghost use Rattle.std.specs.Prelude.{IfOk};
ghost use Rattle.vs_instance.specs.Restriction.{IsRestriction};
ghost use Rattle.vs_match.specs.LayerNets.{AreLayerNets};
ghost use Rattle.vs_multi.specs.Rounds.{IsCase};
ghost use Rattle.vs_prices.specs.Table.{Fits, HoldingTable};

use std::alloc::Global;
use std::test::Fail;
use test_fixtures::{input_of, joined};
use vs_circ::Work;
use vs_instance::{Instance, most_multiplier};
use vs_match::{LayerNet, layer_nets};
use vs_multi::{Best, Case, rounds};
use vs_node::{Room, Task, work};
use vs_prices::{Bound, permitted_sets};
use vs_tree::Next;

/// Texts with the greatest rates of their versions, how many trips follow, and what these cost when they run all the
/// time there is. A trip's vehicle costs FIXED, each of its 2,879 minutes PER_MINUTE, and each of its 1,000,000 metres
/// PER_METRE.
const DEAREST: [(&str, u32, i64); 2] = [
    (
        "instance,1\nstop,S\nlayer,L1,S,2000,1000000000,1000000,10000\n",
        2_000,
        2_000 * (1_000_000_000 + 2_879 * 1_000_000 + 1_000_000 * 10_000),
    ),
    (
        "instance,3\nstop,S\nlayer,L1,S,10000,1000000000,416666,1800\n",
        10_000,
        10_000 * (1_000_000_000 + 2_879 * 416_666 + 1_000_000 * 1_800),
    ),
];

/// So many trips behind the head of a text, with a vehicle for each.
fn dearest(alloc: Global, head: &str, trips: u32) -> Result<Instance, Fail> {
    let mut text = joined(alloc, &[head])?;
    for n in 0..trips {
        let row = format!(in alloc; "trip,T{n},S,0:00,S,47:59,1000000,L1\n")?;
        text.extend_from_slice(row.as_bytes())?;
    }
    Ok(input_of(alloc, &text)?.instance)
}

/// The best round from the greatest multipliers on.
fn best_round(case: &Case<'_>, kept: &mut Work) -> Result<Best, Fail>
    requires { IsCase case.now.instance.now case.now.nets.now case.now.sets.now }
    ensures fits { IfOk result (λ best. Fits case.now.instance.now best.table) }
    ensures holds { IfOk result (λ best. HoldingTable case.now.instance.now best.table) }
{
    let (alloc, instance) = (case.alloc, case.instance);
    let most = most_multiplier(instance.trips());
    let mut multipliers = vec![in alloc; most; instance.trips() as usize]?;
    Ok(rounds(
        alloc,
        instance,
        case.nets,
        case.sets,
        &mut multipliers,
        kept,
    )?)
}

/// What that round is worth, and the work on the root from its table on.
fn root_task(
    alloc: Global,
    instance: &Instance,
    nets: &[LayerNet],
    kept: &mut Work,
) -> Result<(Bound, Task), Fail>
    requires nets { AreLayerNets instance.now nets.now }
    ensures restriction { IfOk result (λ r. IsRestriction instance.now r.1.sets.items) }
    ensures fits { IfOk result (λ r. Fits instance.now r.1.table) }
    ensures holds { IfOk result (λ r. HoldingTable instance.now r.1.table) }
{
    let sets = permitted_sets(alloc, instance)?;
    let case = Case {
        alloc,
        instance,
        nets,
        sets: &sets,
    };
    let best = best_round(&case, kept)?;
    let task = Task {
        sets,
        table: best.table,
        known: None,
        root: true,
    };
    Ok((best.worth, task))
}

/// What the plan costs that this work finds, and what becomes of the root.
fn worked(
    alloc: Global,
    instance: &Instance,
    nets: &[LayerNet],
    task: &Task,
    room: &mut Room,
) -> Result<(Option<i64>, Next), Fail>
    requires nets { AreLayerNets instance.now nets.now }
    requires restriction { IsRestriction instance.now task.now.sets.items }
    requires fits { Fits instance.now task.now.table }
    requires holds { HoldingTable instance.now task.now.table }
{
    let outcome = work(alloc, instance, nets, task, room)?;
    let cost = match &outcome.plan {
        Some(plan) => Some(plan.cost()),
        None => None,
    };
    Ok((cost, outcome.next))
}

/// What the best round is worth, what the plan costs then, and what becomes of the root.
fn found(alloc: Global, instance: &Instance) -> Result<(Bound, Option<i64>, Next), Fail> {
    let nets = layer_nets(alloc, instance)?;
    let mut room = Room::new(alloc, &nets, 1)?;
    let (worth, task) = root_task(alloc, instance, &nets, &mut room.work)?;
    let (cost, next) = worked(alloc, instance, &nets, &task, &mut room)?;
    Ok((worth, cost, next))
}

#[test]
fn sums_fit_at_the_greatest_rates_and_multipliers(rt: HostRuntime) -> Result<(), Fail> {
    for (head, trips, all) in DEAREST {
        let instance = dearest(rt.alloc(), head, trips)?;
        let (worth, cost, next) = found(rt.alloc(), &instance)?;
        assert_eq!(rt; worth, Bound::AtLeast(i128::from(all)));
        assert_eq!(rt; (cost, next), (Some(all), Next::Close));
    }
    Ok(())
}
