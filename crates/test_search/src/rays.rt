//! Prices that show that there is no plan.

use std::alloc::Global;
use std::test::Fail;
use test_fixtures::instance_of;
use test_fixtures::texts::STOPS;
use vs_multi::NoWatch;
use vs_penalty::seek_ray;
use vs_prices::{Table, permitted_sets};

/// Two layers of one depot with one vehicle each.
const ONE_EACH: &str = "layer,L1,D,1,1000,1,0\nlayer,L2,D,1,1000,1,0\n";

/// Two trips that follow each other.
const BOTH: &str = "trip,t1,P,8:00,Q,8:30,0,L1,L2\ntrip,t2,Q,8:30,P,9:00,0,L1,L2\n";

/// Three trips at one time.
const AT_ONCE: &str =
    "trip,t1,P,8:00,Q,8:30,0,L1,L2\ntrip,t2,Q,8:10,P,8:40,0,L1,L2\ntrip,t3,Q,8:20,P,9:00,0,L1,L2\n";

/// A trip that starts before a vehicle can be there.
const TOO_EARLY: &str = "trip,t1,P,0:05,Q,0:35,0,L1,L2\ntrip,t2,Q,8:10,P,8:40,0,L1,L2\n";

/// A climb of so many rounds.
const ROUNDS: u32 = 100;

fn found(alloc: Global, trips: &str) -> Result<Option<Table>, Fail> {
    let instance = instance_of(alloc, &[STOPS, ONE_EACH, trips])?;
    let sets = permitted_sets(alloc, &instance)?;
    Ok(seek_ray(alloc, &instance, &sets, ROUNDS, &NoWatch)?)
}

#[test]
fn show_nothing_where_there_is_a_plan(rt: HostRuntime) -> Result<(), Fail> {
    assert!(rt; found(rt.alloc(), BOTH)?.is_none());
    Ok(())
}

#[test]
fn show_that_a_trip_is_too_early(rt: HostRuntime) -> Result<(), Fail> {
    assert!(rt; found(rt.alloc(), TOO_EARLY)?.is_some());
    Ok(())
}

#[test]
fn count_the_vehicles_where_they_are_short(rt: HostRuntime) -> Result<(), Fail> {
    let fleet = found(rt.alloc(), AT_ONCE)?.map(|table| table.fleet);
    match fleet {
        Some(prices) => assert_eq!(rt; prices.as_slice(), [1, 1].as_slice()),
        None => assert!(rt; false),
    }
    Ok(())
}
