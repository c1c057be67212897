//! One run of each command.

use crate::runs::{ran, reads_nothing};
use mdvsp::Status;
use std::alloc::Global;
use std::process::Abort;
use std::sync::Wait;
use std::test::Fail;
use std::thread::Threads;
use test_fixtures::joined;
use test_fixtures::texts::{BLOCK, END, HEAD, LAYER, STOPS, TABLE, TRIPS, ZERO_TABLE};

/// The head of a document of two trips that no search worked on.
const OPEN: &str = "result,1,open\ncost,1080\nbound,60\nnodes,0\n";

/// The trace of a search that takes no step.
const TRACE: &str = "result,1,trace\nopening,0,1\nfirst,1080\nblock,L1,t1,t2\nend\n";

/// A text of the peak of two trips that one vehicle runs.
const PEAK: &str = "result,1,peak\npeak,L1,1\nblock,L1,t1,t2\n\
    fleet,L1,0\nprice,L1,t1,1000,0\nprice,L1,t2,0,0\nend\n";

/// A command, the arguments of a run, its input, how it has to end, and what it has to write.
struct Row {
    command: &'static str,
    arguments: &'static [&'static str],
    input: &'static [&'static str],
    status: Status,
    written: &'static [&'static str],
}

const ROWS: &[Row] = &[
    Row {
        command: "solve",
        arguments: &["solve", "--nodes", "0"],
        input: &[STOPS, LAYER, TRIPS],
        status: Status::StillOpen,
        written: &[OPEN, BLOCK, ZERO_TABLE, END],
    },
    Row {
        command: "resume",
        arguments: &["resume", "--nodes", "0"],
        input: &[STOPS, LAYER, TRIPS, OPEN, BLOCK, ZERO_TABLE, END],
        status: Status::StillOpen,
        written: &[OPEN, BLOCK, ZERO_TABLE, END],
    },
    Row {
        command: "trace",
        arguments: &["trace", "--nodes", "0", "--workers", "1"],
        input: &[STOPS, LAYER, TRIPS],
        status: Status::StillOpen,
        written: &[TRACE],
    },
    Row {
        command: "replay",
        arguments: &["replay"],
        input: &[STOPS, LAYER, TRIPS, TRACE],
        status: Status::Done,
        written: &[OPEN, BLOCK, ZERO_TABLE, END],
    },
    Row {
        command: "check",
        arguments: &["check"],
        input: &[STOPS, LAYER, TRIPS, HEAD, BLOCK, TABLE, END],
        status: Status::Done,
        written: &["yes,optimal,1080,1080\n"],
    },
    Row {
        command: "blocks",
        arguments: &["blocks"],
        input: &[STOPS, LAYER, TRIPS, HEAD, "block,L1,t1\n", TABLE, END],
        status: Status::SaysNo,
        written: &["no,1,Uncovered,t2\n"],
    },
    Row {
        command: "network",
        arguments: &["network"],
        input: &[STOPS, LAYER, TRIPS],
        status: Status::Done,
        written: &["network,L1,first,3,1,0,2,2,2,1\nnetwork,L1,latest,3,1,0,2,2,2,1\n"],
    },
    Row {
        command: "peak",
        arguments: &["peak"],
        input: &[STOPS, LAYER],
        status: Status::Done,
        written: &["result,1,peak\npeak,L1,0\nfleet,L1,0\nend\n"],
    },
    Row {
        command: "peakcheck",
        arguments: &["peakcheck"],
        input: &[STOPS, LAYER, TRIPS, PEAK],
        status: Status::Done,
        written: &["yes\n"],
    },
];

/// A run ends and writes as the row says.
fn comes_out<R: Abort + Threads + Wait + Sync>(
    rt: &R,
    alloc: Global,
    row: &Row,
) -> Result<(), Fail> {
    let (status, written) = ran(rt, alloc, row.arguments, joined(alloc, row.input)?)?;
    let wanted = joined(alloc, row.written)?;
    assert_eq!(rt; status, row.status, "{}", row.command);
    assert_eq!(rt; written.as_slice(), wanted.as_slice(), "{}", row.command);
    Ok(())
}

#[test]
fn end_and_write_as_they_must(rt: HostRuntime) -> Result<(), Fail> {
    for row in ROWS {
        comes_out(&rt, rt.alloc(), row)?;
    }
    Ok(())
}

/// Arguments of a run that reads nothing, how it has to end, and how what it writes has to begin.
type Alone = (&'static [&'static str], Status, &'static str);

const ALONE: &[Alone] = &[
    (&["make", "0"], Status::Done, "instance,1\nstop,S1\n"),
    (&["trial", "0"], Status::Done, "trial,0,optimal,0,0,0,yes\n"),
    (&["plan"], Status::BadWords, "words,1\n"),
];

#[test]
fn read_nothing_where_they_need_no_input(rt: HostRuntime) -> Result<(), Fail> {
    for (arguments, status, begins) in ALONE {
        let written = reads_nothing(&rt, rt.alloc(), arguments, *status)?;
        assert!(rt; written.starts_with(begins.as_bytes()), "{begins}");
    }
    Ok(())
}
