//! Plans: which blocks are one, what they cost, what is wrong first with those that aren't, and the plan of the greedy
//! rule.

use std::alloc::Global;
use std::test::Fail;
use test_fixtures::texts::{
    BLOCK, END, LATE_TRIPS, LAYER, NOON_TRIPS, ONE_VEHICLE, OPEN_HEAD, OTHER_LAYER, RESTING_LAYER,
    RESTING_STOPS, STOPS, TABLE_APART, TRIPS, ZERO_TABLE,
};
use test_fixtures::{documented, instance_of, share};
use vs_plan::{PlanError, PlanFault, check_plan, greedy, judge};
use vs_types::{LayerNo, TripNo};

/// A trip from P to Q in the first layer.
const FIRST: &str = "trip,t1,P,8:00,Q,8:30,0,L1\n";

const TOGETHER: &str = "block,L1,t1,t2\n";

const APART: &str = "block,L1,t1\nblock,L1,t2\n";

/// A table of zeros for trips of the first of two layers.
const ZERO: [&str; 2] = [ZERO_TABLE, "fleet,L2,0\n"];

/// A first layer, trips, blocks, a table, and what the blocks cost or what is wrong with them first.
type Judged = (
    &'static str,
    [&'static str; 2],
    &'static str,
    [&'static str; 2],
    Result<i64, PlanFault>,
);

const JUDGED: [Judged; 9] = [
    (LAYER, [TRIPS, ""], TOGETHER, ZERO, Ok(1080)),
    (LAYER, [TRIPS, ""], APART, ZERO, Ok(2100)),
    (
        ONE_VEHICLE,
        [TRIPS, ""],
        APART,
        ZERO,
        Err(PlanFault::Fleet(LayerNo(0), 2)),
    ),
    (
        LAYER,
        [TRIPS, ""],
        "block,L1,t1\n",
        ZERO,
        Err(PlanFault::Uncovered(TripNo(1))),
    ),
    (
        LAYER,
        [TRIPS, ""],
        "block,L1,t1,t2\nblock,L1,t2\n",
        ZERO,
        Err(PlanFault::Twice(TripNo(1))),
    ),
    (
        LAYER,
        [FIRST, "trip,t2,Q,8:30,P,9:00,0,L2\n"],
        TOGETHER,
        [TABLE_APART, ""],
        Err(PlanFault::NotPermitted(0, 1)),
    ),
    (
        LAYER,
        [LATE_TRIPS, ""],
        TOGETHER,
        ZERO,
        Err(PlanFault::NoConnection(0, 1)),
    ),
    (
        LAYER,
        [FIRST, "trip,t2,P,0:09,Q,0:30,0,L1\n"],
        APART,
        ZERO,
        Err(PlanFault::NoPullOut(1)),
    ),
    (
        LAYER,
        [FIRST, "trip,t2,Q,8:30,X,9:00,0,L1\n"],
        TOGETHER,
        ZERO,
        Err(PlanFault::NoPullIn(0)),
    ),
];

/// What `judge` and `check_plan` answer of the blocks. Stop X has no deadhead.
fn judged(alloc: Global, row: &Judged) -> Result<[Result<i64, PlanError>; 2], Fail> {
    let (layer, trips, blocks, table, _) = row;
    let text = [
        STOPS,
        "stop,X\n",
        layer,
        OTHER_LAYER,
        trips[0],
        trips[1],
        OPEN_HEAD,
        blocks,
        table[0],
        table[1],
        END,
    ];
    let (instance, document) = documented(alloc, &text)?;
    let found = judge(alloc, &instance, &document.plan);
    let checked = match check_plan(alloc, &instance, document.plan) {
        Ok(checked) => Ok(checked.cost()),
        Err((_plan, error)) => Err(error),
    };
    Ok([found, checked])
}

#[test]
fn cost_something_or_have_a_first_fault(rt: HostRuntime) -> Result<(), Fail> {
    for row in &JUDGED {
        let wanted = row.4.map_err(PlanError::Fault);
        assert_eq!(rt; judged(rt.alloc(), row)?, [wanted, wanted]);
    }
    Ok(())
}

/// The stops and the layer of an instance, and what one vehicle costs that runs a trip in the morning and one at noon.
const RESTING: [(&str, &str, i64); 4] = [
    // The ways from and to the depot: 40 minutes with the trips' 60.
    (RESTING_STOPS, RESTING_LAYER, 1100),
    // From 8:40 to 11:50, just long enough.
    (RESTING_STOPS, "layer,L1,D,2,1000,1,0,190\n", 1100),
    // All minutes from 7:50 to 12:40.
    (RESTING_STOPS, "layer,L1,D,2,1000,1,0,191\n", 1290),
    (STOPS, LAYER, 1290),
];

#[test]
fn cost_nothing_while_their_vehicle_rests(rt: HostRuntime) -> Result<(), Fail> {
    for (stops, layer, cost) in RESTING {
        let text = [stops, layer, NOON_TRIPS, OPEN_HEAD, BLOCK, ZERO_TABLE, END];
        let (instance, document) = documented(rt.alloc(), &text)?;
        assert_eq!(rt;
            judge(rt.alloc(), &instance, &document.plan),
            Ok(cost),
            "{layer}"
        );
    }
    Ok(())
}

/// The texts of an instance, and what the greedy rule's plan costs and how many trips its first block has. None where
/// the rule makes no plan.
const PLANNED: [([&str; 3], Option<(i64, usize)>); 3] = [
    // One vehicle is out from 7:50 to 9:10.
    ([STOPS, LAYER, TRIPS], Some((1080, 2))),
    // One is out for 50 minutes, and another one for 51.
    ([STOPS, LAYER, LATE_TRIPS], Some((2101, 1))),
    ([STOPS, ONE_VEHICLE, LATE_TRIPS], None),
];

/// What the greedy rule's plan costs, and how many trips its first block has.
fn planned(alloc: Global, parts: &[&str]) -> Result<Option<(i64, usize)>, Fail> {
    let instance = instance_of(alloc, parts)?;
    let Some(plan) = greedy(alloc, &instance)? else {
        return Ok(None);
    };
    match plan.plan().blocks.first() {
        Some(block) => Ok(Some((plan.cost(), block.trips.len()))),
        None => Err(Fail::new("no block")),
    }
}

#[test]
fn are_made_by_the_rule(rt: HostRuntime) -> Result<(), Fail> {
    for (parts, wanted) in PLANNED {
        assert_eq!(rt; planned(rt.alloc(), &parts)?, wanted);
    }
    Ok(())
}

#[test]
fn cross_threads(rt: HostRuntime) -> Result<(), Fail> {
    let instance = instance_of(rt.alloc(), &[STOPS, LAYER, TRIPS])?;
    let plan = greedy(rt.alloc(), &instance)?.ok_or("a plan")?;
    share(&plan);
    Ok(())
}
