//! Plans on which layers agree.

use std::alloc::Global;
use std::test::Fail;
use test_fixtures::instance_of;
use test_fixtures::texts::{LAYER, STOPS, TRIPS};
use vs_circ::Work;
use vs_match::layer_nets;
use vs_multi::NoWatch;
use vs_penalty::{agree, seek_plan};
use vs_prices::{Table, permitted_sets};

/// Two layers of one depot, each of which may run both trips.
const ALIKE: &str = "layer,L1,D,2,1000,1,0\nlayer,L2,D,2,1000,1,0\n";

const EITHER: &str = "trip,t1,P,8:00,Q,8:30,0,L1,L2\ntrip,t2,Q,8:30,P,9:00,0,L1,L2\n";

/// An instance, and what the plan costs on which its layers agree from a table of zeros. Where each trip has one layer
/// there is nothing to agree on. One vehicle is out from 7:50 to 9:10.
const AGREED: [([&str; 3], Option<i64>); 2] = [
    ([STOPS, LAYER, TRIPS], None),
    ([STOPS, ALIKE, EITHER], Some(1080)),
];

/// What the plan costs, and the table then.
fn agreed(alloc: Global, parts: &[&str]) -> Result<(Option<i64>, Table), Fail> {
    let instance = instance_of(alloc, parts)?;
    let nets = layer_nets(alloc, &instance)?;
    let mut work = Work::new(alloc, &nets)?;
    let mut table = Table::zero(alloc, &instance)?;
    let plan = agree(
        alloc, &instance, &nets, None, &mut table, &mut work, &NoWatch,
    )?;
    Ok((plan.as_ref().map(|plan| plan.cost()), table))
}

#[test]
fn are_found_where_trips_have_several_layers(rt: HostRuntime) -> Result<(), Fail> {
    for (parts, wanted) in AGREED {
        let (cost, _table) = agreed(rt.alloc(), &parts)?;
        assert_eq!(rt; cost, wanted);
    }
    Ok(())
}

#[test]
fn leave_tables_of_trips_of_one_layer(rt: HostRuntime) -> Result<(), Fail> {
    let (_cost, table) = agreed(rt.alloc(), &[STOPS, LAYER, TRIPS])?;
    assert_eq!(rt; table.into.as_slice(), [0, 0].as_slice());
    assert_eq!(rt; table.from.as_slice(), [0, 0].as_slice());
    assert_eq!(rt; table.fleet.as_slice(), [0].as_slice());
    Ok(())
}

/// What the plan costs that passes on a leaf find, from a table of zeros.
fn sought(alloc: Global, parts: &[&str]) -> Result<Option<i64>, Fail> {
    let instance = instance_of(alloc, parts)?;
    let sets = permitted_sets(alloc, &instance)?;
    let table = Table::zero(alloc, &instance)?;
    let nets = layer_nets(alloc, &instance)?;
    let mut work = Work::new(alloc, &nets)?;
    let plan = seek_plan(alloc, &instance, &nets, &sets, &table, &mut work)?;
    Ok(plan.as_ref().map(|plan| plan.cost()))
}

#[test]
fn are_found_on_leaves(rt: HostRuntime) -> Result<(), Fail> {
    let cost = sought(rt.alloc(), &[STOPS, ALIKE, EITHER])?;
    assert_eq!(rt; cost, Some(1080));
    Ok(())
}
