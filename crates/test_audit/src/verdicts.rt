//! Documents that are judged: which hold, and the first flaw of those that don't.

use std::alloc::Global;
use std::test::Fail;
use test_fixtures::texts::*;
use test_fixtures::{document_of, documented, input_of, joined};
use vs_check::{Flaw, Verdict, check};
use vs_plan::PlanFault;
use vs_prices::{BrokenAt, Claim};
use vs_types::{LayerNo, TripNo};

/// What a document is like, its text behind that of its instance, and the verdict.
struct Judged {
    case: &'static str,
    text: &'static [&'static str],
    verdict: Verdict,
}

const LINK: BrokenAt = BrokenAt::Link(LayerNo(0), TripNo(0), TripNo(1));

const VERDICTS: [Judged; 10] = [
    Judged {
        case: "holds",
        text: &[STOPS, LAYER, TRIPS, HEAD, BLOCK, TABLE, END],
        verdict: Verdict::Yes,
    },
    Judged {
        case: "is open and holds",
        text: &[
            STOPS,
            LAYER,
            TRIPS,
            "result,1,open\ncost,1080\nbound,60\nnodes,1\n",
            BLOCK,
            TABLE,
            END,
        ],
        verdict: Verdict::Yes,
    },
    Judged {
        case: "another cost, a bound too high and a broken table",
        text: &[
            STOPS,
            LAYER,
            TRIPS,
            "result,1,optimal\ncost,1079\nbound,1081\nnodes,1\n",
            BLOCK,
            BROKEN_TABLE,
            END,
        ],
        verdict: Verdict::No(Flaw::CostDiffers(1079, 1080)),
    },
    Judged {
        case: "a broken table and a bound too high",
        text: &[
            STOPS,
            LAYER,
            TRIPS,
            "result,1,open\ncost,1080\nbound,1081\nnodes,1\n",
            BLOCK,
            BROKEN_TABLE,
            END,
        ],
        verdict: Verdict::No(Flaw::TableBroken(0, LINK)),
    },
    Judged {
        case: "a bound too high",
        text: &[
            STOPS,
            LAYER,
            TRIPS,
            "result,1,optimal\ncost,1080\nbound,1081\nnodes,1\n",
            BLOCK,
            TABLE,
            END,
        ],
        verdict: Verdict::No(Flaw::LeafTooWeak(0, 1080, Some(1081))),
    },
    Judged {
        case: "a claim too bold",
        text: &[
            STOPS,
            LAYER,
            TRIPS,
            "result,1,optimal\ncost,1080\nbound,60\nnodes,1\n",
            BLOCK,
            TABLE,
            END,
        ],
        verdict: Verdict::No(Flaw::ClaimDiffers(Claim::Optimal, Claim::StillOpen)),
    },
    Judged {
        case: "blocks that don't connect, another cost and a broken table",
        text: &[
            STOPS,
            LAYER,
            LATE_TRIPS,
            "result,1,optimal\ncost,1079\nbound,1080\nnodes,1\n",
            BLOCK,
            "table,1,cost\nfleet,L1,-1\nprice,L1,t1,0,0\nprice,L1,t2,0,0\n",
            END,
        ],
        verdict: Verdict::No(Flaw::Plan(PlanFault::NoConnection(0, 1))),
    },
    Judged {
        case: "a ray",
        text: &[STOPS, ONE_VEHICLE, LATE_TRIPS, SHORT_HEAD, RAY, END],
        verdict: Verdict::Yes,
    },
    Judged {
        case: "a ray that shows nothing",
        text: &[
            STOPS,
            ONE_VEHICLE,
            LATE_TRIPS,
            SHORT_HEAD,
            "table,1,ray\nfleet,L1,1\nprice,L1,t1,1,0\nprice,L1,t2,0,0\n",
            END,
        ],
        verdict: Verdict::No(Flaw::LeafTooWeak(0, 0, None)),
    },
    Judged {
        case: "a cost table in place of a ray",
        text: &[STOPS, LAYER, TRIPS, SHORT_HEAD, TABLE, END],
        verdict: Verdict::No(Flaw::LeafTooWeak(0, 1080, None)),
    },
];

/// The verdict on the document behind an instance.
fn verdict(alloc: Global, text: &[&str]) -> Result<Verdict, Fail> {
    let (instance, document) = documented(alloc, text)?;
    Ok(check(alloc, &instance, &document)?)
}

#[test]
fn tell_the_first_flaw(rt: HostRuntime) -> Result<(), Fail> {
    for row in &VERDICTS {
        assert_eq!(rt; verdict(rt.alloc(), row.text)?, row.verdict, "{}", row.case);
    }
    Ok(())
}

/// Three tables of one trip that costs 500 in either layer: worth 500 in both, in the first alone, in the second alone.
const SPLIT_TABLES: &str =
    "table,1,cost\nfleet,L1,0\nprice,L1,t1,460000,-10000\nfleet,L2,0\nprice,L2,t1,455000,-15000\n\
    table,2,cost\nfleet,L1,0\nprice,L1,t1,460000,-10000\nfleet,L2,0\nprice,L2,t1,0,0\n\
    table,3,cost\nfleet,L1,0\nprice,L1,t1,0,0\nfleet,L2,0\nprice,L2,t1,455000,-15000\n";

/// A tree over these tables, and the verdict.
const TREES: [(&str, Verdict); 5] = [
    ("split,t1,L1\nleaf,1\nleaf,1\n", Verdict::Yes),
    ("split,t1,L1\nleaf,2\nleaf,3\n", Verdict::Yes),
    (
        "split,t1,L1\nleaf,3\nleaf,2\n",
        Verdict::No(Flaw::LeafTooWeak(1, 30, Some(500))),
    ),
    (
        "split,t1,L1\nleaf,1\nleaf,2\n",
        Verdict::No(Flaw::LeafTooWeak(2, 30, Some(500))),
    ),
    (
        "split,t1,L1,L2\nleaf,1\nleaf,1\n",
        Verdict::No(Flaw::BadSplit(0)),
    ),
];

#[test]
fn judge_each_leaf_within_its_own_sets(rt: HostRuntime) -> Result<(), Fail> {
    for (tree, wanted) in TREES {
        let text = [STOPS, TWO_LAYERS, SPLIT_HEAD, SPLIT_TABLES, tree, "end\n"];
        assert_eq!(rt; verdict(rt.alloc(), &text)?, wanted, "{tree}");
    }
    Ok(())
}

/// How many trips there are in an instance of a deep tree.
const MANY: u32 = 1000;

/// Trips of half an hour, one from each minute on, each of which may be run in either of two layers.
fn many_trips(alloc: Global, text: &mut Vec<u8>) -> Result<(), Fail> {
    for n in 0..MANY {
        let (end, hour, minute) = (n + 30, n / 60, n % 60);
        let (last, past) = (end / 60, end % 60);
        let row = format!(in alloc; "trip,T{n},P,{hour}:{minute:02},Q,{last}:{past:02},0,L1,L2\n")?;
        text.extend_from_slice(row.as_bytes())?;
    }
    Ok(())
}

/// A price of 0 for each of them in this layer.
fn many_zeros(alloc: Global, layer: &str, text: &mut Vec<u8>) -> Result<(), Fail> {
    text.extend_from_slice(format!(in alloc; "fleet,{layer},0\n")?.as_bytes())?;
    for n in 0..MANY {
        let row = format!(in alloc; "price,{layer},T{n},0,0\n")?;
        text.extend_from_slice(row.as_bytes())?;
    }
    Ok(())
}

/// So many splits, each the right part of the one before: of those trips one after the other, and then of these again.
fn many_splits(alloc: Global, splits: u32, text: &mut Vec<u8>) -> Result<(), Fail> {
    for k in 0..splits {
        let row = format!(in alloc; "split,T{},L1\nleaf,1\n", k % MANY)?;
        text.extend_from_slice(row.as_bytes())?;
    }
    text.extend_from_slice(b"leaf,1\nend\n")?;
    Ok(())
}

/// The verdict on a tree of so many splits, in whose every leaf the trips cost at least their own 30 each.
fn deep_verdict(alloc: Global, splits: u32) -> Result<Verdict, Fail> {
    let layers = "layer,L1,D,2000,0,1,0\nlayer,L2,P,2000,0,1,0\n";
    let mut text = joined(alloc, &[STOPS, layers])?;
    many_trips(alloc, &mut text)?;
    text.extend_from_slice(b"result,1,open\ncost,none\nbound,30000\nnodes,1\ntable,1,cost\n")?;
    many_zeros(alloc, "L1", &mut text)?;
    many_zeros(alloc, "L2", &mut text)?;
    many_splits(alloc, splits, &mut text)?;
    let input = input_of(alloc, &text)?;
    let document = document_of(alloc, &input)?;
    Ok(check(alloc, &input.instance, &document)?)
}

#[test]
fn go_over_deep_trees(rt: HostRuntime) -> Result<(), Fail> {
    assert_eq!(rt; deep_verdict(rt.alloc(), 1000)?, Verdict::Yes);
    let again = Verdict::No(Flaw::BadSplit(2000));
    assert_eq!(rt; deep_verdict(rt.alloc(), 1001)?, again);
    Ok(())
}
