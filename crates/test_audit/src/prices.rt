//! Tables of prices: what they are worth, and where they break first.

ghost use Rattle.vs_prices.specs.Table.{Fits};

use std::alloc::Global;
use std::test::Fail;
use test_fixtures::texts::{
    END, LAYER, NOON_TABLE, NOON_TRIPS, OPEN_HEAD, RESTING_LAYER, RESTING_STOPS, STOPS, TRIPS,
};
use test_fixtures::{documented, instance_of, share};
use vs_instance::Instance;
use vs_match::layer_nets;
use vs_need::{Counted, Scratch, broken_for};
use vs_prices::{Bound, BrokenAt, Table, broken, permitted_sets, worth};
use vs_types::{LayerNo, TripNo};

/// The text of a table of two trips in one layer with two vehicles, and what it is worth. The two trips cost 60,000,
/// and each vehicle's price is paid twice.
const WORTHS: [(&str, Bound); 11] = [
    // 60,000 and 1,019,001.
    (
        "table,1,cost\nfleet,L1,0\nprice,L1,t1,1019001,0\nprice,L1,t2,0,0\n",
        Bound::AtLeast(1080),
    ),
    // 60,000 and 1,020,000.
    (
        "table,1,cost\nfleet,L1,0\nprice,L1,t1,1020000,0\nprice,L1,t2,0,0\n",
        Bound::AtLeast(1080),
    ),
    // 60,000 less 60,001.
    (
        "table,1,cost\nfleet,L1,0\nprice,L1,t1,-60001,0\nprice,L1,t2,0,0\n",
        Bound::AtLeast(0),
    ),
    // 60,000 and 1,020,000 less twice 500,000.
    (
        "table,1,cost\nfleet,L1,500000\nprice,L1,t1,1020000,0\nprice,L1,t2,0,0\n",
        Bound::AtLeast(80),
    ),
    (
        "table,1,ray\nfleet,L1,0\nprice,L1,t1,0,0\nprice,L1,t2,0,0\n",
        Bound::AtLeast(0),
    ),
    // 3 less 1 less twice 1.
    (
        "table,1,ray\nfleet,L1,1\nprice,L1,t1,3,0\nprice,L1,t2,0,1\n",
        Bound::AtLeast(0),
    ),
    // 3 less twice 1.
    (
        "table,1,ray\nfleet,L1,1\nprice,L1,t1,3,0\nprice,L1,t2,0,0\n",
        Bound::NoPlan,
    ),
    (
        "table,1,cost\nfleet,L1,0\nprice,L1,t1,1000000000000000000,0\nprice,L1,t2,0,-1000000000000000000\n",
        Bound::AtLeast(2_000_000_000_000_060),
    ),
    (
        "table,1,cost\nfleet,L1,1000000000000000000\n\
            price,L1,t1,-1000000000000000000,0\nprice,L1,t2,0,1000000000000000000\n",
        Bound::AtLeast(-3_999_999_999_999_940),
    ),
    (
        "table,1,cost\nfleet,L1,0\nprice,L1,t1,0,0\nprice,L1,t2,0,0\n",
        Bound::AtLeast(60),
    ),
    (
        "table,1,cost\nfleet,L1,0\nprice,L1,t1,1010000,0\nprice,L1,t2,0,-10000\n",
        Bound::AtLeast(1080),
    ),
];

/// What the table of this text is worth.
fn worth_of(alloc: Global, table: &str) -> Result<Bound, Fail> {
    let (instance, document) = documented(alloc, &[STOPS, LAYER, TRIPS, OPEN_HEAD, table, END])?;
    let sets = permitted_sets(alloc, &instance)?;
    match document.tables.first() {
        Some(table) => Ok(worth(&instance, &sets, table)),
        None => Err(Fail::new("no table")),
    }
}

#[test]
fn are_worth_what_trips_pay_less_what_vehicles_do(rt: HostRuntime) -> Result<(), Fail> {
    for (table, wanted) in WORTHS {
        assert_eq!(rt; worth_of(rt.alloc(), table)?, wanted, "{table}");
    }
    Ok(())
}

const LAYER_1: LayerNo = LayerNo(0);

const TRIP_1: TripNo = TripNo(0);

const TRIP_2: TripNo = TripNo(1);

/// The text of such a table, and where it breaks first.
const BREAKS: [(&str, Option<BrokenAt>); 8] = [
    (
        "table,1,cost\nfleet,L1,0\nprice,L1,t1,1010000,0\nprice,L1,t2,0,-10000\n",
        None,
    ),
    (
        "table,1,cost\nfleet,L1,0\nprice,L1,t1,1010000,-1\nprice,L1,t2,0,-10000\n",
        Some(BrokenAt::Link(LAYER_1, TRIP_1, TRIP_2)),
    ),
    (
        "table,1,cost\nfleet,L1,-1\nprice,L1,t1,0,0\nprice,L1,t2,0,0\n",
        Some(BrokenAt::Fleet(LAYER_1)),
    ),
    (
        "table,1,cost\nfleet,L1,0\nprice,L1,t1,1010001,0\nprice,L1,t2,0,0\n",
        Some(BrokenAt::PullOut(LAYER_1, TRIP_1)),
    ),
    (
        "table,1,cost\nfleet,L1,0\nprice,L1,t1,0,0\nprice,L1,t2,0,-10001\n",
        Some(BrokenAt::PullIn(LAYER_1, TRIP_2)),
    ),
    (
        "table,1,cost\nfleet,L1,1000000000000000000\nprice,L1,t1,-1000000000000000000,1000000000000000000\n\
            price,L1,t2,-1000000000000000000,1000000000000000000\n",
        None,
    ),
    (
        "table,1,cost\nfleet,L1,1000000000000000000\nprice,L1,t1,1000000000000000000,1000000000000000000\n\
            price,L1,t2,1000000000000000000,-1000000000000000000\n",
        Some(BrokenAt::PullIn(LAYER_1, TRIP_2)),
    ),
    (
        "table,1,cost\nfleet,L1,-1000000000000000000\nprice,L1,t1,1000000000000000000,-1000000000000000000\n\
            price,L1,t2,1000000000000000000,-1000000000000000000\n",
        Some(BrokenAt::Fleet(LAYER_1)),
    ),
];

/// Where a table breaks first, by all pairs of trips and by passes along the nets.
fn both_ways(
    alloc: Global,
    instance: &Instance,
    table: &Table,
) -> Result<[Option<BrokenAt>; 2], Fail>
    requires { Fits instance.now table.now }
{
    let nets = layer_nets(alloc, instance)?;
    let mut scratch = Scratch::new(alloc, &nets, instance.trips())?;
    let mut reader = Counted::new(&nets);
    let by_passes = broken_for(instance, &mut reader, table, &mut scratch);
    Ok([broken(instance, table), by_passes])
}

/// Where the table of this text breaks first, both ways, behind the stops, the layer and the trips of a timetable.
fn broken_at(
    alloc: Global,
    timetable: [&str; 3],
    table: &str,
) -> Result<[Option<BrokenAt>; 2], Fail> {
    let [stops, layer, trips] = timetable;
    let (instance, document) = documented(alloc, &[stops, layer, trips, OPEN_HEAD, table, END])?;
    match document.tables.first() {
        Some(table) => both_ways(alloc, &instance, table),
        None => Err(Fail::new("no table")),
    }
}

#[test]
fn break_where_a_move_pays_more_than_it_costs(rt: HostRuntime) -> Result<(), Fail> {
    for (table, wanted) in BREAKS {
        let found = broken_at(rt.alloc(), [STOPS, LAYER, TRIPS], table)?;
        assert_eq!(rt; found, [wanted, wanted], "{table}");
    }
    Ok(())
}

/// The text of a table for a trip in the morning and one at noon, and where it breaks first. A rest between the trips
/// costs 20.
const RESTING_BREAKS: [(&str, Option<BrokenAt>); 2] = [
    (NOON_TABLE, None),
    (
        "table,1,cost\nfleet,L1,0\nprice,L1,t1,1010000,0\nprice,L1,t2,20001,-10000\n",
        Some(BrokenAt::Link(LAYER_1, TRIP_1, TRIP_2)),
    ),
];

#[test]
fn break_where_a_rest_costs_less_than_it_pays(rt: HostRuntime) -> Result<(), Fail> {
    for (table, wanted) in RESTING_BREAKS {
        let timetable = [RESTING_STOPS, RESTING_LAYER, NOON_TRIPS];
        let found = broken_at(rt.alloc(), timetable, table)?;
        assert_eq!(rt; found, [wanted, wanted], "{table}");
    }
    Ok(())
}

#[test]
fn are_zeros_at_first_and_cross_threads(rt: HostRuntime) -> Result<(), Fail> {
    let instance = instance_of(rt.alloc(), &[STOPS, LAYER, TRIPS])?;
    let zero = Table::zero(rt.alloc(), &instance)?;
    share(&zero);
    assert_eq!(rt; zero.into.as_slice(), [0, 0].as_slice());
    assert_eq!(rt; zero.from.as_slice(), [0, 0].as_slice());
    assert_eq!(rt; zero.fleet.as_slice(), [0].as_slice());
    assert_eq!(rt; zero.ray, false);
    Ok(())
}
