//! Least circulations of one layer, compared with every way to give its trips to vehicles.

ghost use Rattle.std.specs.Prelude.{◌≡◌, ℕ, ◌<◌, length};
ghost use Rattle.vs_match.specs.LawfulNets.{IsLawful};
ghost use Rattle.vs_match.specs.LayerNets.{net_at};
ghost use Rattle.vs_circ.specs.shipping.Ready.{IsReadyToRun};

mod every_way;
mod offers;

use every_way::{least_that_runs, least_value, value_of_marked};
use offers::{Row, must_of, net_of, offers_of, rows_instance};
use std::alloc::Global;
use std::test::Fail;
use test_fixtures::texts::{LATE_TRIPS, LAYER, ONE_VEHICLE, STOPS, TRIPS};
use test_fixtures::{instance_of, share};
use vs_circ::{Circ, FixedFlow, MAX_MULTIPLIER, Work, begin_runs, fixed, relaxed, runs};
use vs_instance::Instance;
use vs_match::LayerNet;
use vs_types::LayerNo;

/// A least circulation of the first layer, where each of its trips is offered for its multiplier.
fn relaxed_at(
    alloc: Global,
    instance: &Instance,
    net: &LayerNet,
    multipliers: &[i64],
    work: &mut Work,
) -> Result<Circ, Fail>
    requires lawful { IsLawful instance.now 0 net.now }
{
    let offers = offers_of(alloc, instance, multipliers)?;
    Ok(relaxed(alloc, net, &offers, work)?)
}

/// The trips that `runs` marks in the first net at these multipliers.
fn run_at(
    alloc: Global,
    instance: &Instance,
    nets: &[LayerNet],
    multipliers: &[i64],
    work: &mut Work,
) -> Result<Vec<bool>, Fail>
    requires some { 0 < length nets.now }
    requires lawful { IsLawful instance.now 0 (net_at nets.now 0) }
    requires ready { IsReadyToRun nets.now work.old }
    ensures { IsReadyToRun nets.now work.new }
{
    let offers = offers_of(alloc, instance, multipliers)?;
    let mut marked = vec![in alloc; true; offers.len()]?;
    let _ = runs(nets, LayerNo(0), &offers, work, &mut marked);
    Ok(marked)
}

/// What a least circulation costs that runs the trips marked, None where there is none.
fn cost_of(
    alloc: Global,
    instance: &Instance,
    net: &LayerNet,
    marks: &[bool],
    work: &mut Work,
) -> Result<Option<i128>, Fail>
    requires lawful { IsLawful instance.now 0 net.now }
{
    let must = must_of(alloc, instance, marks)?;
    match fixed(alloc, net, &must, work)? {
        FixedFlow::Covered { cost, .. } => Ok(Some(cost)),
        FixedFlow::Short { .. } => Ok(None),
    }
}

/// The greatest rates and the greatest fleet, and trips of 1,000,000 metres.
const DEAREST: &str = "layer,L1,D,2000,1000000000,1000000,10000\n";

const LONG_WAYS: &str = "trip,t1,P,8:00,Q,8:30,1000000,L1\ntrip,t2,Q,8:30,P,9:00,1000000,L1\n";

/// Vehicles that may rest in the depot, and trips with time for it between them.
const RESTING: [&str; 3] = [
    "instance,2\nstop,D\nstop,P\nstop,Q\ndeadhead,D,P,10,0\ndeadhead,P,D,10,0\n\
        deadhead,D,Q,10,0\ndeadhead,Q,D,10,0\ndeadhead,P,Q,15,0\ndeadhead,Q,P,15,0\n",
    "layer,L1,D,2,1000,1,0,20\n",
    "trip,t1,P,8:00,Q,8:30,0,L1\ntrip,t2,Q,12:00,P,12:30,0,L1\n",
];

/// A layer and two trips, what each trip is offered for, the least value, and the trips that are run.
const OFFERED: [([&str; 3], i64, i128, [bool; 2]); 3] = [
    // One vehicle is out for 80 minutes: it costs 1,080, and is worth 1,050 for each trip.
    ([STOPS, LAYER, TRIPS], 1_050_000, -1_020_000, [true, true]),
    // A vehicle costs 10^9, and 10^6 for each of 80 minutes, and 10^4 for each of 2 * 10^6 metres.
    (
        [STOPS, DEAREST, LONG_WAYS],
        MAX_MULTIPLIER,
        -178_920_000_000_000,
        [true, true],
    ),
    // One vehicle is out for 50 minutes twice, and rests between.
    (RESTING, 1_050_000, -1_000_000, [true, true]),
];

/// The least value of a net.
fn value_in(alloc: Global, instance: &Instance, net: &LayerNet, offer: i64) -> Result<i128, Fail>
    requires lawful { IsLawful instance.now 0 net.now }
{
    let mut work = Work::new(alloc, &[])?;
    let circ = relaxed_at(alloc, instance, net, &[offer; 2], &mut work)?;
    Ok(circ.value)
}

/// The trips that are run in a net.
fn marked_in(
    alloc: Global,
    instance: &Instance,
    net: LayerNet,
    offer: i64,
) -> Result<Vec<bool>, Fail>
    requires lawful { IsLawful instance.now 0 net }
{
    let nets = [net];
    let mut work = Work::new(alloc, &[])?;
    begin_runs(alloc, &nets, &mut work)?;
    run_at(alloc, instance, &nets, &[offer; 2], &mut work)
}

/// The least value of a net, and the trips that are run.
fn found(
    alloc: Global,
    parts: &[&str],
    latest: bool,
    offer: i64,
) -> Result<(i128, Vec<bool>), Fail> {
    let instance = instance_of(alloc, parts)?;
    let net = net_of(alloc, &instance, latest)?;
    let value = value_in(alloc, &instance, &net, offer)?;
    Ok((value, marked_in(alloc, &instance, net, offer)?))
}

#[test]
fn have_the_least_value(rt: HostRuntime) -> Result<(), Fail> {
    for (parts, offer, value, runs) in OFFERED {
        for latest in [false, true] {
            let (least, marked) = found(rt.alloc(), &parts, latest, offer)?;
            assert_eq!(rt; (least, marked.as_slice()), (value, runs.as_slice()));
        }
    }
    Ok(())
}

/// A layer and two trips, which of them have to run, and what that costs, None where there are too few vehicles.
const FIXED: [([&str; 3], [bool; 2], Option<i128>); 5] = [
    ([STOPS, LAYER, TRIPS], [true, true], Some(1_080_000)),
    ([STOPS, ONE_VEHICLE, LATE_TRIPS], [true, true], None),
    // 10 minutes out, 30 with passengers and 10 back.
    (
        [STOPS, ONE_VEHICLE, LATE_TRIPS],
        [true, false],
        Some(1_050_000),
    ),
    (
        [STOPS, DEAREST, LONG_WAYS],
        [true, true],
        Some(21_080_000_000_000),
    ),
    (RESTING, [true, true], Some(1_100_000)),
];

/// What it costs in a net to run the trips marked.
fn cost_in(
    alloc: Global,
    instance: &Instance,
    net: &LayerNet,
    marks: [bool; 2],
) -> Result<Option<i128>, Fail>
    requires lawful { IsLawful instance.now 0 net.now }
{
    let mut work = Work::new(alloc, &[])?;
    cost_of(alloc, instance, net, &marks, &mut work)
}

fn cost(
    alloc: Global,
    parts: &[&str],
    latest: bool,
    marks: [bool; 2],
) -> Result<Option<i128>, Fail> {
    let instance = instance_of(alloc, parts)?;
    let net = net_of(alloc, &instance, latest)?;
    cost_in(alloc, &instance, &net, marks)
}

#[test]
fn run_the_trips_that_have_to(rt: HostRuntime) -> Result<(), Fail> {
    for (parts, marks, wanted) in FIXED {
        for latest in [false, true] {
            assert_eq!(rt; cost(rt.alloc(), &parts, latest, marks)?, wanted);
        }
    }
    Ok(())
}

/// Four trips each; some can follow one another with one vehicle, by a wait or a deadhead.
const TABLE: [[Row; 4]; 3] = [
    [
        (1, 480, 2, 510),
        (2, 510, 1, 540),
        (1, 520, 2, 550),
        (2, 565, 1, 600),
    ],
    [
        (1, 480, 2, 510),
        (1, 525, 2, 555),
        (1, 525, 1, 570),
        (2, 600, 1, 630),
    ],
    [
        (1, 480, 1, 500),
        (2, 490, 2, 520),
        (1, 516, 2, 530),
        (1, 534, 2, 560),
    ],
];

/// Multipliers in the order in which the calls come.
const MULTIPLIERS: [[i64; 4]; 6] = [
    [0, 0, 0, 0],
    [1_050_000, 1_050_000, 1_050_000, 1_050_000],
    [600_000, 500_000, 480_000, 30_000],
    [
        MAX_MULTIPLIER,
        MAX_MULTIPLIER,
        MAX_MULTIPLIER,
        MAX_MULTIPLIER,
    ],
    [1_070_000, 10_000, MAX_MULTIPLIER, 0],
    [20_000, 1_200_000, 1_045_001, 1_044_999],
];

/// The first multipliers at which `relaxed` doesn't find the least value of every way. They come one after the other,
/// and each call begins with what those before it left.
fn first_miss_in(
    alloc: Global,
    rows: &[Row; 4],
    instance: &Instance,
    net: &LayerNet,
    work: &mut Work,
) -> Result<Option<[i64; 4]>, Fail>
    requires lawful { IsLawful instance.now 0 net.now }
{
    for multipliers in &MULTIPLIERS {
        let circ = relaxed_at(alloc, instance, net, multipliers, work)?;
        if circ.value != i128::from(least_value(rows, multipliers)) {
            return Ok(Some(*multipliers));
        }
    }
    Ok(None)
}

fn first_miss(alloc: Global, rows: &[Row; 4], work: &mut Work) -> Result<Option<[i64; 4]>, Fail> {
    let instance = rows_instance(alloc, rows)?;
    let net = net_of(alloc, &instance, true)?;
    first_miss_in(alloc, rows, &instance, &net, work)
}

/// The first multipliers at which the trips that `runs` marks can't be run for the least value of every way. All calls
/// but the first begin with what an earlier one settled.
fn first_run_miss_in(
    alloc: Global,
    rows: &[Row; 4],
    instance: &Instance,
    nets: &[LayerNet],
    work: &mut Work,
) -> Result<Option<[i64; 4]>, Fail>
    requires some { 0 < length nets.now }
    requires lawful { IsLawful instance.now 0 (net_at nets.now 0) }
    requires ready { IsReadyToRun nets.now work.old }
{
    for multipliers in &MULTIPLIERS {
        let marked = run_at(alloc, instance, nets, multipliers, work)?;
        let least = least_value(rows, multipliers);
        if value_of_marked(rows, multipliers, &marked) != Some(least) {
            return Ok(Some(*multipliers));
        }
    }
    Ok(None)
}

fn first_run_miss(
    alloc: Global,
    rows: &[Row; 4],
    work: &mut Work,
) -> Result<Option<[i64; 4]>, Fail> {
    let instance = rows_instance(alloc, rows)?;
    let nets = [net_of(alloc, &instance, true)?];
    begin_runs(alloc, &nets, work)?;
    first_run_miss_in(alloc, rows, &instance, &nets, work)
}

#[test]
fn have_the_least_value_of_every_way(rt: HostRuntime) -> Result<(), Fail> {
    let mut work = Work::new(rt.alloc(), &[])?;
    for rows in &TABLE {
        assert_eq!(rt; first_miss(rt.alloc(), rows, &mut work)?, None);
        assert_eq!(rt; first_run_miss(rt.alloc(), rows, &mut work)?, None);
    }
    Ok(())
}

/// The trips marked by a number in binary.
fn marks_of(number: u32) -> [bool; 4] {
    [
        number & 1 != 0,
        number & 2 != 0,
        number & 4 != 0,
        number & 8 != 0,
    ]
}

/// The first number whose trips `fixed` doesn't run at the least cost of every way.
fn first_dearer_in(
    alloc: Global,
    rows: &[Row; 4],
    instance: &Instance,
    net: &LayerNet,
    work: &mut Work,
) -> Result<Option<u32>, Fail>
    requires lawful { IsLawful instance.now 0 net.now }
{
    for number in 0..16 {
        let marks = marks_of(number);
        let least = least_that_runs(rows, &marks).map(i128::from);
        if cost_of(alloc, instance, net, &marks, work)? != least {
            return Ok(Some(number));
        }
    }
    Ok(None)
}

fn first_dearer(alloc: Global, rows: &[Row; 4], work: &mut Work) -> Result<Option<u32>, Fail> {
    let instance = rows_instance(alloc, rows)?;
    let net = net_of(alloc, &instance, false)?;
    first_dearer_in(alloc, rows, &instance, &net, work)
}

#[test]
fn have_the_least_cost_of_every_way(rt: HostRuntime) -> Result<(), Fail> {
    let mut work = Work::new(rt.alloc(), &[])?;
    for rows in &TABLE {
        assert_eq!(rt; first_dearer(rt.alloc(), rows, &mut work)?, None);
    }
    Ok(())
}

#[test]
fn keep_what_crosses_threads(rt: HostRuntime) -> Result<(), Fail> {
    let work = Work::new(rt.alloc(), &[])?;
    share(&work);
    Ok(())
}
