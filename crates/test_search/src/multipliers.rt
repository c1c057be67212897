//! Multipliers of trips that several layers may run.

ghost use Rattle.std.specs.Prelude.{IfOk};
ghost use Rattle.vs_match.specs.LayerNets.{AreLayerNets};
ghost use Rattle.vs_multi.specs.Multipliers.{AreMultipliers};
ghost use Rattle.vs_multi.specs.Rounds.{IsCase};
ghost use Rattle.vs_prices.specs.Table.{Fits};

use std::alloc::Global;
use std::test::Fail;
use test_fixtures::texts::{END, LAYER, OPEN_HEAD, STOPS, TRIPS};
use test_fixtures::{documented, instance_of};
use vs_circ::Work;
use vs_instance::Instance;
use vs_match::{LayerNet, layer_nets};
use vs_multi::{Best, Case, few_rounds, of_table, raise, rounds, start};
use vs_prices::{Bound, Table, broken, permitted_sets, worth};
use vs_types::Memory;

/// The multipliers of `start`.
pub fn started(alloc: Global, instance: &Instance) -> Result<Vec<i64>, Memory>
    ensures { IfOk result (λ multipliers. AreMultipliers instance.now multipliers.items) }
{
    let mut multipliers = vec![in alloc; 0; instance.trips() as usize]?;
    start(instance, &mut multipliers);
    Ok(multipliers)
}

/// 30,000 for each trip: so little that no trip is run.
pub fn even(alloc: Global, instance: &Instance) -> Result<Vec<i64>, Memory>
    ensures { IfOk result (λ multipliers. AreMultipliers instance.now multipliers.items) }
{
    let multipliers = vec![in alloc; 30_000; instance.trips() as usize]?;
    Ok(multipliers)
}

/// Those of a table of zeros.
fn of_zeros(alloc: Global, instance: &Instance) -> Result<Vec<i64>, Memory> {
    let sets = permitted_sets(alloc, instance)?;
    let zero = Table::zero(alloc, instance)?;
    let mut multipliers = vec![in alloc; 0; instance.trips() as usize]?;
    of_table(instance, &sets, &zero, &mut multipliers);
    Ok(multipliers)
}

/// Both, of two trips in one layer.
fn begun(alloc: Global) -> Result<[Vec<i64>; 2], Fail> {
    let instance = instance_of(alloc, &[STOPS, LAYER, TRIPS])?;
    let first = started(alloc, &instance)?;
    Ok([first, of_zeros(alloc, &instance)?])
}

#[test]
fn begin_as_what_a_trip_costs_alone(rt: HostRuntime) -> Result<(), Fail> {
    let [first, later] = begun(rt.alloc())?;
    // 10 minutes out, 30 with passengers and 10 back, and the vehicle.
    assert_eq!(rt; first.as_slice(), [1_050_000, 1_050_000].as_slice());
    assert_eq!(rt; later.as_slice(), [30_000, 30_000].as_slice());
    Ok(())
}

/// The best of the rounds from these multipliers on.
fn best_of(
    alloc: Global,
    instance: &Instance,
    multipliers: &mut [i64],
    few: bool,
) -> Result<Best, Fail>
    requires { AreMultipliers instance.now multipliers.old }
{
    let nets = layer_nets(alloc, instance)?;
    let sets = permitted_sets(alloc, instance)?;
    let mut work = Work::new(alloc, &nets)?;
    let case = Case {
        alloc,
        instance,
        nets: &nets,
        sets: &sets,
    };
    rounds_of(&case, few, multipliers, &mut work)
}

/// Ten small rounds, or all of them.
fn rounds_of(
    case: &Case<'_>,
    few: bool,
    multipliers: &mut [i64],
    work: &mut Work,
) -> Result<Best, Fail>
    requires case { IsCase case.now.instance.now case.now.nets.now case.now.sets.now }
    requires multipliers { AreMultipliers case.now.instance.now multipliers.old }
{
    if few {
        return Ok(few_rounds(case, 10, multipliers, work)?);
    }
    Ok(rounds(
        case.alloc,
        case.instance,
        case.nets,
        case.sets,
        multipliers,
        work,
    )?)
}

/// What the rounds from `start` are worth, how often they run each trip, and the multipliers then.
fn after_rounds(alloc: Global) -> Result<(Bound, Vec<u32>, Vec<i64>), Fail> {
    let instance = instance_of(alloc, &[STOPS, LAYER, TRIPS])?;
    let mut multipliers = started(alloc, &instance)?;
    let best = best_of(alloc, &instance, &mut multipliers, false)?;
    Ok((best.worth, best.covers, multipliers))
}

/// One vehicle runs both trips for 1080, so neither multiplier moves.
#[test]
fn stay_where_one_vehicle_runs_both_trips(rt: HostRuntime) -> Result<(), Fail> {
    let (worth, covers, multipliers) = after_rounds(rt.alloc())?;
    assert_eq!(rt; worth, Bound::AtLeast(1080));
    assert_eq!(rt; covers.as_slice(), [1, 1].as_slice());
    assert_eq!(rt; multipliers.as_slice(), [1_050_000, 1_050_000].as_slice());
    Ok(())
}

/// How often ten small rounds from 30,000 run each trip, and the multipliers then.
fn after_few_rounds(alloc: Global) -> Result<(Vec<u32>, Vec<i64>), Fail> {
    let instance = instance_of(alloc, &[STOPS, LAYER, TRIPS])?;
    let mut multipliers = even(alloc, &instance)?;
    let best = best_of(alloc, &instance, &mut multipliers, true)?;
    Ok((best.covers, multipliers))
}

/// So little runs no trip. The steps are 26250 / 10, / 11, and so on to / 19: 2625, 2386, 2187, 2019, 1875, 1750, 1640,
/// 1544, 1458 and 1381.
#[test]
fn rise_where_no_trip_is_run(rt: HostRuntime) -> Result<(), Fail> {
    let (covers, multipliers) = after_few_rounds(rt.alloc())?;
    assert_eq!(rt; covers.as_slice(), [0, 0].as_slice());
    assert_eq!(rt; multipliers.as_slice(), [48_865, 48_865].as_slice());
    Ok(())
}

/// Two layers of one depot, each of which may run both trips. In the first the table's trips pay 1040 and 40, in the
/// second their own 30 each.
const UNEVEN: [&str; 5] = [
    STOPS,
    "layer,L1,D,2,1000,1,0\nlayer,L2,D,2,1000,1,0\ntrip,t1,P,8:00,Q,8:30,0,L1,L2\ntrip,t2,Q,8:30,P,9:00,0,L1,L2\n",
    OPEN_HEAD,
    "table,1,cost\nfleet,L1,0\nprice,L1,t1,1010000,0\nprice,L1,t2,0,-10000\n\
        fleet,L2,0\nprice,L2,t1,0,0\nprice,L2,t2,0,0\n",
    END,
];

/// What a table is worth, and what it is worth once it was raised.
fn raised_of(
    alloc: Global,
    instance: &Instance,
    nets: &[LayerNet],
    table: &mut Table,
) -> Result<(Bound, Bound), Fail>
    requires nets { AreLayerNets instance.now nets.now }
    requires fits { Fits instance.now table.old }
{
    if broken(instance, table).is_some() {
        return Err(Fail::new("a table that breaks"));
    }
    let sets = permitted_sets(alloc, instance)?;
    let mut work = Work::new(alloc, nets)?;
    let before = worth(instance, &sets, table);
    let case = Case {
        alloc,
        instance,
        nets,
        sets: &sets,
    };
    let raised = raise(&case, table, before, &mut work)?;
    Ok((before, raised))
}

/// The same of that table.
fn raised(alloc: Global) -> Result<(Bound, Bound), Fail> {
    let (instance, document) = documented(alloc, &UNEVEN)?;
    let nets = layer_nets(alloc, &instance)?;
    let mut tables = document.tables;
    let Some(table) = tables.first_mut() else {
        return Err(Fail::new("no table"));
    };
    raised_of(alloc, &instance, &nets, table)
}

/// For 1040 and 40 no vehicle of the second layer gains anything, so its trips pay as much.
#[test]
fn raise_the_layer_that_pays_less(rt: HostRuntime) -> Result<(), Fail> {
    let worths = raised(rt.alloc())?;
    assert_eq!(rt; worths, (Bound::AtLeast(60), Bound::AtLeast(1080)));
    Ok(())
}
