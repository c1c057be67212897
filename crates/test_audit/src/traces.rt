//! The words for a trace that is refused, and for one whose steps may not come.

use crate::refusals::{Told, are_told};
use std::test::Fail;
use test_fixtures::texts::{HEAD, LAYER, STOPS, TRIPS};

/// The first rows of a trace, up to its steps.
const TRACE: &str = "result,1,trace\nopening,1,1\nfirst,none\n";

const REFUSED: &[Told] = &[
    (
        &[STOPS, LAYER, TRIPS, HEAD],
        "refused,14,50,NoTrace\n",
        "record 14: no trace of a search follows the timetable",
    ),
    (
        &[STOPS, LAYER, TRIPS, TRACE, "took,0,1\n"],
        "refused,17,51,BadRow\n",
        "record 17: no row of a trace looks like this: took,0,1",
    ),
    (
        &[STOPS, LAYER, TRIPS, TRACE, "table,1,cost\n"],
        "refused,17,52,OutOfOrder\n",
        "record 17: another row of the trace has to come here than table,1,cost",
    ),
    (
        &[
            STOPS,
            LAYER,
            TRIPS,
            TRACE,
            "took,1,1\nclosed,1,1\ntable,2,cost\n",
        ],
        "refused,19,53,TableNumber\n",
        "record 19: the tables of a trace are numbered 1, 2, 3 in order, and this one has number 2",
    ),
    (
        &[STOPS, LAYER, TRIPS, TRACE, "took,1,1\n"],
        "refused,18,54,EndsEarly\n",
        "record 18: the trace ends here, without its row end: was it cut off?",
    ),
    (
        &[STOPS, LAYER, TRIPS, TRACE, "end\nmore\n"],
        "refused,18,55,RowsAfterEnd\n",
        "record 18: behind the end of the trace stands more",
    ),
    (
        &[
            STOPS,
            LAYER,
            TRIPS,
            TRACE,
            "took,1,1\nclosed,1,1\ntable,1,cost\nfleet,L1,-1000000000000000001\n",
        ],
        "refused,20,56,PriceRange\n",
        "record 20: a price is greater than 1000000000000000000 or less than its negative: \
            fleet,L1,-1000000000000000001",
    ),
];

/// Rows that say no, whose words need no text.
const STEPS: &[Told] = &[
    (
        &[],
        "no,7,NotAStep,0\n",
        "the trace's first plan is none, or costs something else",
    ),
    (
        &[],
        "no,7,NotAStep,12\n",
        "step 12 of the trace may not come there; where it has no such step, a leaf is still held at its end",
    ),
];

#[test]
fn tell_why_traces_are_refused(rt: HostRuntime) -> Result<(), Fail> {
    are_told(&rt, rt.alloc(), REFUSED)
}

#[test]
fn tell_which_steps_may_not_come(rt: HostRuntime) -> Result<(), Fail> {
    are_told(&rt, rt.alloc(), STEPS)
}
