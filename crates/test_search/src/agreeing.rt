//! Plans and tables on which layers agree, compared with those of rules that are simpler.

ghost use Rattle.std.specs.Prelude.{IfOk};
ghost use Rattle.vs_match.specs.LayerNets.{AreLayerNets};
ghost use Rattle.vs_multi.specs.Rounds.{IsCase};
ghost use Rattle.vs_prices.specs.Table.{Fits, HoldingTable};

use std::alloc::Global;
use std::test::Fail;
use test_fixtures::texts::STOPS;
use test_fixtures::{input_of, instance_of};
use vs_circ::Work;
use vs_instance::{Instance, MAX_TRIPS};
use vs_make::make_text;
use vs_match::{LayerNet, layer_nets};
use vs_multi::{Case, NoWatch, few_rounds, rounds, start};
use vs_penalty::agree;
use vs_plan::greedy;
use vs_prices::{Bound, Table, permitted_sets, worth};

/// The generator's instance of so many trips.
fn made(alloc: Global, trips: u32) -> Result<Instance, Fail> {
    let text = make_text(alloc, trips.min(MAX_TRIPS))?;
    Ok(input_of(alloc, &text)?.instance)
}

/// What the plan costs on which the layers agree, from this table on.
fn agreed_from(
    alloc: Global,
    instance: &Instance,
    nets: &[LayerNet],
    table: &mut Table,
) -> Result<Option<i64>, Fail>
    requires nets { AreLayerNets instance.now nets.now }
    requires fits { Fits instance.now table.old }
    requires holds { HoldingTable instance.now table.old }
    ensures fits { Fits instance.now table.new }
{
    let mut work = Work::new(alloc, nets)?;
    match agree(alloc, instance, nets, None, table, &mut work, &NoWatch)? {
        Some(plan) => Ok(Some(plan.cost())),
        None => Ok(None),
    }
}

/// The same from a table of zeros, and the table then.
fn agreed(alloc: Global, instance: &Instance) -> Result<(Option<i64>, Table), Fail>
    ensures { IfOk result (λ found. Fits instance.now found.1) }
{
    let nets = layer_nets(alloc, instance)?;
    let mut table = Table::zero(alloc, instance)?;
    let cost = agreed_from(alloc, instance, &nets, &mut table)?;
    Ok((cost, table))
}

/// What that plan costs, and what the table is worth.
fn agreed_worth(alloc: Global, instance: &Instance) -> Result<(Option<i64>, Bound), Fail> {
    let (cost, table) = agreed(alloc, instance)?;
    let sets = permitted_sets(alloc, instance)?;
    Ok((cost, worth(instance, &sets, &table)))
}

/// What the greedy rule's plan costs.
fn greedy_cost(alloc: Global, instance: &Instance) -> Result<Option<i64>, Fail> {
    match greedy(alloc, instance)? {
        Some(plan) => Ok(Some(plan.cost())),
        None => Ok(None),
    }
}

/// What rounds from `start` are worth: the first alone, or all of them.
fn rounds_worth(case: &Case<'_>, first: bool, work: &mut Work) -> Result<Bound, Fail>
    requires { IsCase case.now.instance.now case.now.nets.now case.now.sets.now }
{
    let instance = case.instance;
    let mut multipliers = vec![in case.alloc; 0; instance.trips() as usize]?;
    start(instance, &mut multipliers);
    let best = if first {
        few_rounds(case, 1, &mut multipliers, work)?
    } else {
        rounds(
            case.alloc,
            instance,
            case.nets,
            case.sets,
            &mut multipliers,
            work,
        )?
    };
    Ok(best.worth)
}

/// What the first round from `start` is worth, and what all of them are.
fn first_and_all(alloc: Global, instance: &Instance) -> Result<[Bound; 2], Fail> {
    let nets = layer_nets(alloc, instance)?;
    let sets = permitted_sets(alloc, instance)?;
    let mut work = Work::new(alloc, &nets)?;
    let case = Case {
        alloc,
        instance,
        nets: &nets,
        sets: &sets,
    };
    let first = rounds_worth(&case, true, &mut work)?;
    Ok([first, rounds_worth(&case, false, &mut work)?])
}

/// What is found of the generator's instance of 100 trips.
#[derive(Drop)]
struct Found {
    agreed: i64,
    greedy: i64,
    worth: Bound,
    best: Bound,
}

fn compared(alloc: Global) -> Result<Found, Fail> {
    let instance = made(alloc, 100)?;
    let (agreed, worth) = agreed_worth(alloc, &instance)?;
    let greedy = greedy_cost(alloc, &instance)?;
    let [_first, best] = first_and_all(alloc, &instance)?;
    Ok(Found {
        agreed: agreed.unwrap_or(i64::MAX),
        greedy: greedy.unwrap_or(0),
        worth,
        best,
    })
}

#[test]
fn agrees_on_cheap_plans(rt: HostRuntime) -> Result<(), Fail> {
    let found = compared(rt.alloc())?;
    let (agreed, greedy) = (found.agreed, found.greedy);
    assert!(rt;
        i128::from(agreed) * 6 <= i128::from(greedy) * 5,
        "{agreed} {greedy}"
    );
    assert!(rt; !found.best.is_no_less(found.worth));
    Ok(())
}

/// Two layers that have one vehicle between them, and two trips at one time that both may run.
const ONE_BETWEEN_TWO: [&str; 3] = [
    STOPS,
    "layer,L1,D,0,1000,1,0\nlayer,L2,P,1,1000,1,0\n",
    "trip,t1,P,8:00,Q,8:30,0,L1,L2\ntrip,t2,P,8:00,Q,8:30,0,L1,L2\n",
];

#[test]
fn ends_where_there_is_no_plan(rt: HostRuntime) -> Result<(), Fail> {
    let instance = instance_of(rt.alloc(), &ONE_BETWEEN_TWO)?;
    let (cost, _table) = agreed(rt.alloc(), &instance)?;
    assert_eq!(rt; cost, None);
    Ok(())
}

#[test]
fn later_rounds_are_worth_more(rt: HostRuntime) -> Result<(), Fail> {
    let instance = made(rt.alloc(), 30)?;
    let [first, best] = first_and_all(rt.alloc(), &instance)?;
    assert!(rt; !first.is_no_less(best));
    Ok(())
}
