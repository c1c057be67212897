//! Work on the root of a search.

ghost use Rattle.std.specs.Prelude.{IfOk};
ghost use Rattle.vs_prices.specs.Table.{Fits};

use std::alloc::Global;
use std::test::Fail;
use test_fixtures::instance_of;
use test_fixtures::texts::{LATE_TRIPS, LAYER, ONE_VEHICLE, STOPS, TRIPS};
use vs_instance::Instance;
use vs_match::layer_nets;
use vs_node::{Outcome, Room, Task, work};
use vs_prices::{Bound, Table, permitted_sets, worth};
use vs_tree::Next;
use vs_types::{LayerNo, LayerSet, TripNo};

/// What the work on the root finds, where nothing is known.
fn worked(alloc: Global, instance: &Instance) -> Result<Outcome, Fail>
    ensures { IfOk result (λ outcome. Fits instance.now outcome.table) }
{
    let nets = layer_nets(alloc, instance)?;
    let task = Task {
        sets: permitted_sets(alloc, instance)?,
        table: Table::zero(alloc, instance)?,
        known: None,
        root: true,
    };
    let mut room = Room::new(alloc, &nets, 1)?;
    Ok(work(alloc, instance, &nets, &task, &mut room)?)
}

/// What becomes of the root, what the plan costs that is found, and the layer of its first block.
type Found = (Next, Option<i64>, Option<LayerNo>);

const FIRST: Option<LayerNo> = Some(LayerNo(0));

/// An instance, what the work on its root comes to, and what the table is worth.
const ROOTS: [([&str; 3], Found, Bound); 3] = [
    // One vehicle is out from 7:50 to 9:10.
    (
        [STOPS, LAYER, TRIPS],
        (Next::Close, Some(1080), FIRST),
        Bound::AtLeast(1080),
    ),
    // The second trip starts before the first one ends.
    (
        [STOPS, ONE_VEHICLE, LATE_TRIPS],
        (Next::Close, None, None),
        Bound::NoPlan,
    ),
    // Two layers that are alike have the same prices, and a tie goes to the lower one.
    (
        [
            STOPS,
            "layer,L1,D,1,1000,1,0\nlayer,L2,D,1,1000,1,0\n",
            "trip,t1,P,8:00,Q,8:30,0,L1,L2\n",
        ],
        (Next::Close, Some(1050), FIRST),
        Bound::AtLeast(1050),
    ),
];

/// Two layers without vehicles. Prices of costs can't show that there are none.
const NO_VEHICLES: [&str; 3] = [
    STOPS,
    "layer,L1,D,0,1000,1,0\nlayer,L2,P,0,1000,1,0\n",
    "trip,t1,P,8:00,Q,8:30,0,L1,L2\ntrip,t2,Q,8:30,P,9:00,0,L1,L2\n",
];

/// What the work on the root comes to.
fn found(alloc: Global, parts: &[&str]) -> Result<(Found, Bound), Fail> {
    let instance = instance_of(alloc, parts)?;
    let outcome = worked(alloc, &instance)?;
    let sets = permitted_sets(alloc, &instance)?;
    let worth = worth(&instance, &sets, &outcome.table);
    let (cost, layer) = match &outcome.plan {
        None => (None, None),
        Some(plan) => {
            let block = plan.plan().blocks.first();
            (Some(plan.cost()), block.map(|block| block.layer))
        }
    };
    Ok(((outcome.next, cost, layer), worth))
}

#[test]
fn are_closed_or_split(rt: HostRuntime) -> Result<(), Fail> {
    for (parts, wanted, least) in ROOTS {
        assert_eq!(rt; found(rt.alloc(), &parts)?, (wanted, least));
    }
    let split = Next::Split {
        trip: TripNo(0),
        left: LayerSet(1),
    };
    let (found, _worth) = found(rt.alloc(), &NO_VEHICLES)?;
    assert_eq!(rt; found, (split, None, None));
    Ok(())
}
