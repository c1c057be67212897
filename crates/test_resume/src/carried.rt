//! Searches that are carried on within one budget, and what comes of them.

use crate::one_worker::OneWorker;
use crate::runs::{Case, carried_on, case_of};
use std::alloc::Global;
use std::process::Abort;
use std::test::Fail;
use test_fixtures::texts::{BLOCK, END, HEAD, LAYER, STOPS, TABLE, TRIPS, ZERO_TABLE};
use vs_document::text_of;
use vs_prices::Claim;

/// A case, its parts, the budget, and what has to come. That is the claim, the cost, the bound, the nodes, how many
/// parts were searched, and how the text begins.
struct Carried {
    case: &'static str,
    parts: &'static [&'static str],
    budget: u32,
    claim: Claim,
    cost: Option<i64>,
    bound: Option<i128>,
    nodes: u64,
    turns: u32,
    begins: &'static str,
}

const OPEN: &str = "result,1,open\ncost,1080\nbound,60\nnodes,0\n";

const CARRIED: &[Carried] = &[
    Carried {
        case: "two trips and one node",
        parts: &[STOPS, LAYER, TRIPS, OPEN, BLOCK, ZERO_TABLE, END],
        budget: 1,
        claim: Claim::Optimal,
        cost: Some(1080),
        bound: Some(1080),
        nodes: 1,
        turns: 1,
        begins: "result,1,optimal\ncost,1080\nbound,1080\nnodes,1\nblock,L1,t1,t2\ntable,1,cost\n",
    },
    Carried {
        case: "two trips and no node",
        parts: &[STOPS, LAYER, TRIPS, OPEN, BLOCK, ZERO_TABLE, END],
        budget: 0,
        claim: Claim::StillOpen,
        cost: Some(1080),
        bound: Some(60),
        nodes: 0,
        turns: 0,
        begins: "result,1,open\ncost,1080\nbound,60\nnodes,0\nblock,L1,t1,t2\ntable,1,cost\nfleet,L1,0\n\
            price,L1,t1,0,0\nprice,L1,t2,0,0\nleaf,1\nend\n",
    },
    Carried {
        case: "nothing left to do",
        parts: &[STOPS, LAYER, TRIPS, HEAD, BLOCK, TABLE, END],
        budget: 5,
        claim: Claim::Optimal,
        cost: Some(1080),
        bound: Some(1080),
        nodes: 0,
        turns: 0,
        begins: "result,1,optimal\ncost,1080\nbound,1080\nnodes,0\nblock,L1,t1,t2\n",
    },
];

/// What comes of a row is what it says.
fn comes_out<R: Abort>(rt: &R, alloc: Global, row: &Carried) -> Result<(), Fail> {
    let Case { input, document } = case_of(alloc, row.parts)?;
    let mut worker = OneWorker { parts: 0 };
    let instance = &input.instance;
    let after = carried_on(alloc, instance, document, row.budget, &mut worker)?;
    assert_eq!(rt; after.claim, row.claim, "{}", row.case);
    assert_eq!(rt;
        (after.cost, after.bound),
        (row.cost, row.bound),
        "{}",
        row.case
    );
    assert_eq!(rt;
        (after.nodes, worker.parts),
        (row.nodes, row.turns),
        "{}",
        row.case
    );
    let text = text_of(alloc, instance, &input.names, &after)?;
    assert!(rt;
        text.as_slice().starts_with(row.begins.as_bytes()),
        "{}",
        row.case
    );
    Ok(())
}

/// So it is of all rows.
fn come_out<R: Abort>(rt: &R, alloc: Global, rows: &[Carried]) -> Result<(), Fail> {
    for row in rows {
        comes_out(rt, alloc, row)?;
    }
    Ok(())
}

#[test]
fn carries_searches_on_without_threads(rt: HostRuntime) -> Result<(), Fail> {
    come_out(&rt, rt.alloc(), CARRIED)
}
