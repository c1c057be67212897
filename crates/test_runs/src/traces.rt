//! Traces, compared with the documents of the same searches.

use crate::runs::ran;
use std::alloc::Global;
use std::process::Abort;
use std::sync::Wait;
use std::test::Fail;
use std::thread::Threads;
use test_fixtures::joined;
use test_fixtures::texts::{LAYER, STOPS, TRIPS, TWO_LAYERS};

/// What stands behind the records of an instance.
fn behind(alloc: Global, records: &[&str], written: &[u8]) -> Result<Vec<u8>, Fail> {
    let mut both = joined(alloc, records)?;
    both.extend_from_slice(written)?;
    Ok(both)
}

/// By one worker the trace of an instance replays to the document that `solve` writes.
fn comes_to_the_same<R: Abort + Threads + Wait + Sync>(
    rt: &R,
    alloc: Global,
    records: &[&str],
) -> Result<(), Fail> {
    let input = joined(alloc, records)?;
    let (_, trace) = ran(rt, alloc, &["trace", "--workers", "1"], input)?;
    let input = joined(alloc, records)?;
    let (_, document) = ran(rt, alloc, &["solve", "--workers", "1"], input)?;
    let text = behind(alloc, records, &trace)?;
    let (_, replayed) = ran(rt, alloc, &["replay"], text)?;
    assert_eq!(rt; replayed, document);
    Ok(())
}

#[test]
fn of_one_worker_replay_to_its_document(rt: HostRuntime) -> Result<(), Fail> {
    comes_to_the_same(&rt, rt.alloc(), &[STOPS, LAYER, TRIPS])?;
    comes_to_the_same(&rt, rt.alloc(), &[STOPS, TWO_LAYERS])
}
