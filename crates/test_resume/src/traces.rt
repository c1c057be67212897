//! What small traces are read as.

use std::alloc::Global;
use std::test::Fail;
use test_fixtures::texts::{LAYER, STOPS, TRIPS, TWO_LAYERS};
use test_fixtures::{input_of, joined};
use vs_prices::Table;
use vs_trace::{Full, Trace, read};
use vs_types::{LayerNo, LayerSet, TripNo};

/// The trace that stands behind an instance.
fn trace_of(alloc: Global, parts: &[&str]) -> Result<Trace, Fail> {
    let text = joined(alloc, parts)?;
    let input = input_of(alloc, &text)?;
    Ok(read(alloc, &input)?)
}

/// A trace of all kinds of steps, behind an instance of one trip in two layers. The layers of its split don't stand in
/// number order.
const ALL_KINDS: [&str; 4] = [
    "\"result\",1,trace\r\nopening,100000,64\r\nfirst,none\r\n",
    "took,1,1\nsplit,64,200001,t1,L2,L1\n\
        table,1,ray\nfleet,L1,1\nprice,L1,t1,2,-3\nfleet,L2,4\nprice,L2,t1,5,6\n",
    "offered,2,100000000000000000\nblock,L2,t1\noffered,3,0\ngaveback,4,5\n",
    "closed,6,7\ntable,2,cost\nfleet,L1,0\nprice,L1,t1,0,0\nfleet,L2,0\nprice,L2,t1,0,0\nend\n",
];

/// The word for a step's kind, and its numbers. They are its worker, its spot or its cost, and how many blocks or
/// prices for entering trips it has.
fn numbers_of(step: &Full) -> (&'static str, u32, i64, usize) {
    match step {
        Full::Took { worker, spot } => ("took", *worker, i64::from(*spot), 0),
        Full::Split {
            worker,
            spot,
            table,
            ..
        } => ("split", *worker, i64::from(*spot), table.into.len()),
        Full::Closed {
            worker,
            spot,
            table,
        } => ("closed", *worker, i64::from(*spot), table.into.len()),
        Full::Offered { worker, cost, plan } => ("offered", *worker, *cost, plan.blocks.len()),
        Full::GaveBack { worker, spot } => ("gaveback", *worker, i64::from(*spot), 0),
    }
}

/// Those of the steps above.
const STEPS: [(&str, u32, i64, usize); 6] = [
    ("took", 0, 0, 0),
    ("split", 63, 200_000, 2),
    ("offered", 1, 100_000_000_000_000_000, 1),
    ("offered", 2, 0, 0),
    ("gaveback", 3, 4, 0),
    ("closed", 5, 6, 2),
];

#[test]
fn tell_their_steps_in_order(rt: HostRuntime) -> Result<(), Fail> {
    let [a, b, c, d] = ALL_KINDS;
    let trace = trace_of(rt.alloc(), &[STOPS, TWO_LAYERS, a, b, c, d])?;
    assert_eq!(rt; (trace.budget, trace.workers), (100_000, 64));
    assert!(rt; trace.first.is_none());
    assert_eq!(rt; trace.steps.len(), STEPS.len());
    for (step, wanted) in trace.steps.iter().zip(STEPS) {
        assert_eq!(rt; numbers_of(step), wanted);
    }
    Ok(())
}

/// Whether a step is that split: of the first trip, in both layers, with that ray.
fn is_that_split(step: &Full) -> bool {
    let Full::Split {
        trip,
        left,
        table,
        ..
    } = step
    else {
        return false;
    };
    *trip == TripNo(0) && *left == LayerSet(3) && is_that_ray(table)
}

/// Whether a table is a ray of those prices.
fn is_that_ray(table: &Table) -> bool {
    table.ray
        && table.into.as_slice() == [2, 5].as_slice()
        && table.from.as_slice() == [-3, 6].as_slice()
        && table.fleet.as_slice() == [1, 4].as_slice()
}

/// Whether a step is an offer of one block, of the second layer and the first trip.
fn is_that_offer(step: &Full) -> bool {
    let Full::Offered { plan, .. } = step else {
        return false;
    };
    let [block] = plan.blocks.as_slice() else {
        return false;
    };
    block.layer == LayerNo(1) && block.trips.as_slice() == [TripNo(0)].as_slice()
}

/// Which of the steps are that split, and which that offer.
fn found(trace: &Trace) -> ([bool; 6], [bool; 6]) {
    let mut splits = [false; 6];
    let mut offers = [false; 6];
    for (k, step) in trace.steps.iter().enumerate().take(6) {
        splits[k] = is_that_split(step);
        offers[k] = is_that_offer(step);
    }
    (splits, offers)
}

#[test]
fn tell_tables_and_blocks(rt: HostRuntime) -> Result<(), Fail> {
    let [a, b, c, d] = ALL_KINDS;
    let trace = trace_of(rt.alloc(), &[STOPS, TWO_LAYERS, a, b, c, d])?;
    let (splits, offers) = found(&trace);
    assert_eq!(rt; splits, [false, true, false, false, false, false]);
    assert_eq!(rt; offers, [false, false, true, false, false, false]);
    Ok(())
}

/// What a first plan costs, and how many blocks it has; none where there is none.
fn first_of(alloc: Global, rows: &str) -> Result<Option<(i64, usize)>, Fail> {
    let trace = trace_of(
        alloc,
        &[STOPS, LAYER, TRIPS, "result,1,trace\nopening,0,1\n", rows],
    )?;
    match &trace.first {
        None => Ok(None),
        Some(first) => Ok(Some((first.0, first.1.blocks.len()))),
    }
}

/// The rows of a first plan and `end`, and what is read: its cost and how many blocks it has.
const FIRSTS: [(&str, Option<(i64, usize)>); 4] = [
    ("first,none\nend\n", None),
    ("first,0\nend\n", Some((0, 0))),
    ("first,1080\nblock,L1,t1,t2\nend\n", Some((1080, 1))),
    (
        "first,100000000000000000\nblock,L1,t1\nblock,L1,t1\nend\n",
        Some((100_000_000_000_000_000, 2)),
    ),
];

#[test]
fn tell_their_first_plan(rt: HostRuntime) -> Result<(), Fail> {
    for (rows, wanted) in FIRSTS {
        let first = first_of(rt.alloc(), rows)?;
        assert_eq!(rt; first, wanted, "{rows}");
    }
    Ok(())
}
