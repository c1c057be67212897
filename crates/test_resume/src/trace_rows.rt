//! Rows that are no trace, and the record at which they are refused.

use std::alloc::Global;
use std::test::Fail;
use test_fixtures::texts::{LAYER, OPEN_HEAD, STOPS, TRIPS, ZERO_TABLE};
use test_fixtures::{input_of, joined, text_with};
use vs_trace::{TraceError, TraceWhy, read};

/// Rows of a trace behind an instance of 13 records, of which the first is record 14.
const ROWS: [&str; 11] = [
    "result,1,trace\n",
    "opening,1,1\n",
    "first,1080\n",
    "block,L1,t1,t2\n",
    "took,1,1\n",
    "closed,1,1\n",
    "table,1,cost\n",
    "fleet,L1,0\n",
    "price,L1,t1,1010000,0\n",
    "price,L1,t2,0,-10000\n",
    "end\n",
];

/// Why the rows behind an instance are no trace.
fn error_of(alloc: Global, text: &[u8]) -> Result<Option<TraceError>, Fail> {
    let input = input_of(alloc, text)?;
    Ok(read(alloc, &input).err())
}

/// The place of a row, the rows that stand there instead, the record that is refused, and why.
type Wrong = (usize, &'static str, u64, TraceWhy);

/// How a trace begins.
const BEGINNINGS: [Wrong; 20] = [
    (0, "result,1,optimal\n", 14, TraceWhy::NoTrace),
    (0, "result,1,trace,1\n", 14, TraceWhy::NoTrace),
    (0, "result,2,trace\n", 14, TraceWhy::NoTrace),
    (1, "opening,100001,1\n", 15, TraceWhy::BadRow),
    (1, "opening,1,0\n", 15, TraceWhy::BadRow),
    (1, "opening,1,65\n", 15, TraceWhy::BadRow),
    (1, "opening,01,1\n", 15, TraceWhy::BadRow),
    (1, "opening,1\n", 15, TraceWhy::BadRow),
    (1, "result,1,trace\n", 15, TraceWhy::OutOfOrder),
    (1, "", 15, TraceWhy::OutOfOrder),
    (2, "first,-1\n", 16, TraceWhy::BadRow),
    (2, "first,100000000000000001\n", 16, TraceWhy::BadRow),
    (2, "first,1080,1\n", 16, TraceWhy::BadRow),
    (2, "took,1,1\n", 16, TraceWhy::OutOfOrder),
    (2, "first,none\n", 17, TraceWhy::OutOfOrder),
    (3, "block,L1,t3\n", 17, TraceWhy::BadRow),
    (3, "block,L2,t1\n", 17, TraceWhy::BadRow),
    (3, "block,L1\n", 17, TraceWhy::BadRow),
    (3, "first,1080\n", 17, TraceWhy::OutOfOrder),
    (3, "opening,1,1\n", 17, TraceWhy::OutOfOrder),
];

/// Its steps.
const STEPS: [Wrong; 22] = [
    (4, "took,65,1\n", 18, TraceWhy::BadRow),
    (4, "took,0,1\n", 18, TraceWhy::BadRow),
    (4, "took,1,200002\n", 18, TraceWhy::BadRow),
    (4, "took,1,0\n", 18, TraceWhy::BadRow),
    (4, "took,1\n", 18, TraceWhy::BadRow),
    (4, "closed,1,0\n", 18, TraceWhy::BadRow),
    (4, "gaveback,0,1\n", 18, TraceWhy::BadRow),
    (4, "leaf,1\n", 18, TraceWhy::BadRow),
    (4, "nodes,1\n", 18, TraceWhy::BadRow),
    (4, "split,t1,L1\n", 18, TraceWhy::BadRow),
    (4, "split,1,1,t1\n", 18, TraceWhy::BadRow),
    (4, "split,1,1,t1,L1,L1\n", 18, TraceWhy::BadRow),
    (4, "split,1,1,t3,L1\n", 18, TraceWhy::BadRow),
    (4, "offered,1,none\n", 18, TraceWhy::BadRow),
    (4, "offered,65,1080\n", 18, TraceWhy::BadRow),
    (4, "table,1,cost\n", 18, TraceWhy::OutOfOrder),
    (4, "first,none\n", 18, TraceWhy::OutOfOrder),
    (4, "result,1,trace\n", 18, TraceWhy::OutOfOrder),
    (5, "block,L1,t1,t2\n", 19, TraceWhy::OutOfOrder),
    (5, "", 19, TraceWhy::OutOfOrder),
    (10, "", 24, TraceWhy::EndsEarly),
    (10, "end\nnonsense\n", 25, TraceWhy::RowsAfterEnd),
];

/// The table of a step.
const TABLES: [Wrong; 16] = [
    (6, "", 20, TraceWhy::OutOfOrder),
    (6, "took,1,1\n", 20, TraceWhy::OutOfOrder),
    (6, "end\n", 20, TraceWhy::OutOfOrder),
    (6, "table,1,free\n", 20, TraceWhy::BadRow),
    (6, "table,2,cost\n", 20, TraceWhy::TableNumber),
    (6, "table,0,cost\n", 20, TraceWhy::TableNumber),
    (6, "table,1000000001,cost\n", 20, TraceWhy::BadRow),
    (
        7,
        "fleet,L1,1000000000000000001\n",
        21,
        TraceWhy::PriceRange,
    ),
    (7, "fleet,L1,10000000000000000000\n", 21, TraceWhy::BadRow),
    (7, "", 21, TraceWhy::OutOfOrder),
    (
        8,
        "price,L1,t1,0,-1000000000000000001\n",
        22,
        TraceWhy::PriceRange,
    ),
    (
        8,
        "price,L1,t2,1000000000000000001,0\n",
        22,
        TraceWhy::OutOfOrder,
    ),
    (8, "price,L1,t3,0,0\n", 22, TraceWhy::BadRow),
    (9, "", 23, TraceWhy::OutOfOrder),
    (9, "end\n", 23, TraceWhy::OutOfOrder),
    (10, "closed,1,1\ntable,1,ray\n", 25, TraceWhy::TableNumber),
];

/// The first rows of some that aren't refused there, or for another reason.
fn first_other(alloc: Global, wrong: &[Wrong]) -> Result<Option<&'static str>, Fail> {
    for (place, rows, row, why) in wrong {
        let text = text_with(alloc, &[STOPS, LAYER, TRIPS], &ROWS, *place, rows)?;
        let error = error_of(alloc, &text)?;
        let wanted = TraceError::Refused {
            row: *row,
            why: *why,
        };
        if error != Some(wanted) {
            return Ok(Some(rows));
        }
    }
    Ok(None)
}

#[test]
fn are_refused_at_their_beginning(rt: HostRuntime) -> Result<(), Fail> {
    assert_eq!(rt; first_other(rt.alloc(), &BEGINNINGS)?, None);
    Ok(())
}

#[test]
fn are_refused_at_a_step(rt: HostRuntime) -> Result<(), Fail> {
    assert_eq!(rt; first_other(rt.alloc(), &STEPS)?, None);
    Ok(())
}

#[test]
fn are_refused_at_a_table(rt: HostRuntime) -> Result<(), Fail> {
    assert_eq!(rt; first_other(rt.alloc(), &TABLES)?, None);
    Ok(())
}

/// Rows behind the instance, the record that is refused, and why.
const WHOLE: [(&[&str], u64, TraceWhy); 4] = [
    (&[], 14, TraceWhy::NoTrace),
    (
        &[OPEN_HEAD, ZERO_TABLE, "leaf,1\nend\n"],
        14,
        TraceWhy::NoTrace,
    ),
    (&["result,1,trace\n"], 15, TraceWhy::EndsEarly),
    (
        &["result,1,trace\nopening,1,1\nfirst,none\n"],
        17,
        TraceWhy::EndsEarly,
    ),
];

/// Why the rows behind the instance are no trace.
fn error_behind(alloc: Global, parts: &[&str]) -> Result<Option<TraceError>, Fail> {
    let mut text = joined(alloc, &[STOPS, LAYER, TRIPS])?;
    for part in parts {
        text.extend_from_slice(part.as_bytes())?;
    }
    error_of(alloc, &text)
}

#[test]
fn are_refused_where_they_end(rt: HostRuntime) -> Result<(), Fail> {
    for (parts, row, why) in WHOLE {
        let error = error_behind(rt.alloc(), parts)?;
        assert_eq!(rt; error, Some(TraceError::Refused { row, why }));
    }
    Ok(())
}
