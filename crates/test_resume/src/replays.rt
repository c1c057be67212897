//! Traces that are replayed, and their first step that may not come.

use std::alloc::Global;
use std::test::Fail;
use test_fixtures::texts::{LAYER, STOPS, TRIPS, TWO_LAYERS};
use test_fixtures::{input_of, joined};
use vs_replay::{Replayed, replay, write};
use vs_trace::read;

/// What becomes of the trace behind an instance: the text of its search's trace, and of its document. Else the first
/// step that may not come.
fn outcome(alloc: Global, parts: &[&str]) -> Result<Result<(Vec<u8>, Vec<u8>), u32>, Fail> {
    let text = joined(alloc, parts)?;
    let input = input_of(alloc, &text)?;
    let trace = read(alloc, &input)?;
    match replay(alloc, &input.instance, trace)? {
        Replayed::Tree(tree) => {
            let again = write(alloc, &tree, &input.names)?;
            let document = vs_cert::write(alloc, &tree, &input.names)?;
            Ok(Ok((again, document)))
        }
        Replayed::NotAStep(step) => Ok(Err(step)),
    }
}

/// One leaf is taken and closed, and the document of that.
const OPENING: &str = "result,1,trace\nopening,1,1\n";

const FIRST: &str = "first,1080\nblock,L1,t1,t2\n";

const TOOK: &str = "took,1,1\n";

const CLOSED: &str =
    "closed,1,1\ntable,1,cost\nfleet,L1,0\nprice,L1,t1,1010000,0\nprice,L1,t2,0,-10000\n";

const DOCUMENT: &str = "result,1,optimal\ncost,1080\nbound,1080\nnodes,1\nblock,L1,t1,t2\n\
    table,1,cost\nfleet,L1,0\nprice,L1,t1,1010000,0\nprice,L1,t2,0,-10000\nleaf,1\nend\n";

#[test]
fn come_to_their_document(rt: HostRuntime) -> Result<(), Fail> {
    let rows = [STOPS, LAYER, TRIPS, OPENING, FIRST, TOOK, CLOSED, "end\n"];
    let found = outcome(rt.alloc(), &rows)?;
    let trace = joined(rt.alloc(), &rows[3..])?;
    let document = joined(rt.alloc(), &[DOCUMENT])?;
    assert_eq!(rt; found, Ok((trace, document)));
    Ok(())
}

/// The rows behind the opening, and the first step that may not come.
const WRONG: [([&str; 4], u32); 9] = [
    ([FIRST, "took,1,2\n", CLOSED, ""], 1),
    (["first,1079\nblock,L1,t1,t2\n", TOOK, CLOSED, ""], 0),
    (["first,1080\nblock,L1,t1\n", TOOK, CLOSED, ""], 0),
    ([FIRST, TOOK, "", ""], 2),
    ([FIRST, TOOK, CLOSED, TOOK], 3),
    ([FIRST, "took,2,1\n", "", ""], 1),
    ([FIRST, TOOK, "offered,1,1080\nblock,L1,t1,t2\n", ""], 2),
    (
        ["first,none\n", TOOK, "offered,1,1079\nblock,L1,t1,t2\n", ""],
        2,
    ),
    (["first,none\n", TOOK, "gaveback,1,1\n", TOOK], 3),
];

#[test]
fn stop_at_the_first_wrong_step(rt: HostRuntime) -> Result<(), Fail> {
    for (rows, step) in WRONG {
        let found = outcome(
            rt.alloc(),
            &[
                STOPS, LAYER, TRIPS, OPENING, rows[0], rows[1], rows[2], rows[3], "end\n",
            ],
        )?;
        assert_eq!(rt; found, Err(step), "{step}");
    }
    Ok(())
}

/// One trip in two layers; two workers, of which the first finds a plan.
const SPLIT: &str = "result,1,trace\nopening,5,2\nfirst,none\ntook,1,1\nsplit,1,1,t1,L1\n\
    table,1,cost\nfleet,L1,0\nprice,L1,t1,0,0\nfleet,L2,0\nprice,L2,t1,0,0\n\
    took,1,2\ntook,2,3\n";

const OFFERED: &str = "offered,1,500\nblock,L1,t1\n";

const BOTH_CLOSED: &str =
    "closed,1,2\ntable,2,cost\nfleet,L1,0\nprice,L1,t1,460000,-10000\nfleet,L2,0\nprice,L2,t1,455000,-15000\n\
    closed,2,3\ntable,3,cost\nfleet,L1,0\nprice,L1,t1,460000,-10000\nfleet,L2,0\nprice,L2,t1,455000,-15000\n\
    end\n";

const SPLIT_DOCUMENT: &str = "result,1,optimal\ncost,500\nbound,500\nnodes,3\nblock,L1,t1\n\
    table,1,cost\nfleet,L1,0\nprice,L1,t1,460000,-10000\nfleet,L2,0\nprice,L2,t1,455000,-15000\n\
    table,2,cost\nfleet,L1,0\nprice,L1,t1,460000,-10000\nfleet,L2,0\nprice,L2,t1,455000,-15000\n\
    split,t1,L1\nleaf,1\nleaf,2\nend\n";

#[test]
fn of_two_workers_come_to_their_document(rt: HostRuntime) -> Result<(), Fail> {
    let rows = [STOPS, TWO_LAYERS, SPLIT, OFFERED, BOTH_CLOSED];
    let found = outcome(rt.alloc(), &rows)?;
    let trace = joined(rt.alloc(), &rows[2..])?;
    let document = joined(rt.alloc(), &[SPLIT_DOCUMENT])?;
    assert_eq!(rt; found, Ok((trace, document)));
    Ok(())
}
