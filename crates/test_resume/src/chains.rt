//! Searches that are carried on again and again, from what they came to.

ghost use Rattle.std.specs.Prelude.{IfOk};
ghost use Rattle.vs_check.specs.HoldingDocument.{HoldingDocument};
ghost use Rattle.vs_rows.specs.DocumentText.{HasText};

use crate::one_worker::OneWorker;
use crate::runs::{Case, carried_on, case_of};
use std::alloc::Global;
use std::process::Abort;
use std::test::Fail;
use test_fixtures::texts::{HALVES, STOPS, TWO_LAYERS};
use vs_document::Document;
use vs_instance::Instance;
use vs_prices::Claim;

/// A document of one trip, whose root is split, without a plan.
const SPLIT: [&str; 3] = [
    "result,1,open\ncost,none\nbound,30\nnodes,0\n",
    "table,1,cost\nfleet,L1,0\nprice,L1,t1,0,0\nfleet,L2,0\nprice,L2,t1,0,0\n",
    "split,t1,L2\nleaf,1\nleaf,1\nend\n",
];

/// A document of six trips that halves of blocks cover and no blocks do, of a search without a node.
const NO_NODE: [&str; 2] = [
    "result,1,open\ncost,none\nbound,180\nnodes,0\n",
    "table,1,cost\nfleet,L1,0\nprice,L1,a,0,0\nprice,L1,b,0,0\nprice,L1,d,0,0\nprice,L1,e,0,0\n\
        fleet,L2,0\nprice,L2,a,0,0\nprice,L2,c,0,0\nprice,L2,d,0,0\nprice,L2,f,0,0\n\
        fleet,L3,0\nprice,L3,b,0,0\nprice,L3,c,0,0\nprice,L3,e,0,0\nprice,L3,f,0,0\nleaf,1\nend\n",
];

/// What a search comes to that is carried on so often, each time by so many nodes.
fn chained(
    alloc: Global,
    instance: &Instance,
    mut document: Document,
    runs: u32,
    nodes: u32,
) -> Result<Document, Fail>
    requires text { HasText instance.now document }
    requires holds { HoldingDocument instance.now document }
    ensures text { IfOk result (HasText instance.now) }
    ensures holds { IfOk result (HoldingDocument instance.now) }
{
    for _ in 0..runs {
        let mut worker = OneWorker { parts: 0 };
        document = carried_on(alloc, instance, document, nodes, &mut worker)?;
    }
    Ok(document)
}

/// What the search of such a text comes to.
fn end_of(alloc: Global, parts: &[&str], runs: u32, nodes: u32) -> Result<Document, Fail> {
    let Case { input, document } = case_of(alloc, parts)?;
    chained(alloc, &input.instance, document, runs, nodes)
}

#[test]
fn come_to_a_plan_node_by_node(rt: HostRuntime) -> Result<(), Fail> {
    let parts = [STOPS, TWO_LAYERS, SPLIT[0], SPLIT[1], SPLIT[2]];
    let end = end_of(rt.alloc(), &parts, 3, 1)?;
    assert_eq!(rt; end.claim, Claim::Optimal);
    assert_eq!(rt; (end.cost, end.bound), (Some(500), Some(500)));
    Ok(())
}

/// Each of six trips has two layers, so 127 nodes are enough, whether at once or in several runs.
#[test]
fn come_to_no_plan_with_enough_nodes(rt: HostRuntime) -> Result<(), Fail> {
    let parts = [
        HALVES[0], HALVES[1], HALVES[2], HALVES[3], NO_NODE[0], NO_NODE[1],
    ];
    let once = end_of(rt.alloc(), &parts, 1, 127)?;
    assert_eq!(rt; once.claim, Claim::Infeasible);
    let often = end_of(rt.alloc(), &parts, 13, 10)?;
    assert_eq!(rt; often.claim, Claim::Infeasible);
    Ok(())
}
