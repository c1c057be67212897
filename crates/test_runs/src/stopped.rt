//! Searches that are told to stop.

use crate::audited::{Audited, audit};
use crate::runs::ran;
use mdvsp::Status;
use std::alloc::Global;
use std::process::Abort;
use std::sync::Wait;
use std::sync::atomic::{AtomicU64, Ordering};
use std::test::Fail;
use std::thread::Threads;
use test_fixtures::joined;
use test_fixtures::texts::{HALVES, LAYER, STOPS, TRIPS, TWO_LAYERS};
use vs_crew::{Gate, Stand};

/// A gate that ends the search at its k-th asking and at all that follow, k counted from 1.
#[derive(Drop)]
struct Stopping {
    k: u64,
    asked: AtomicU64,
}

impl Gate for Stopping {
    // it may end any search
    ghost may_stop = { λ _. Unit {0} };

    fn before(&self, _worker: u32, _leaf: u32) {}

    fn is_over(&self, _stand: &Stand) -> bool {
        self.asked.fetch_add(1, Ordering::SeqCst).saturating_add(1) >= self.k
    }
}

/// How many askings are tried at the beginning and at the end of a search, and one in so many in between.
const FIRST: u64 = 12;

const LAST: u64 = 24;

const STEP: u64 = 499;

/// How many workers search, as the arguments say it.
const WORKERS: [&str; 3] = ["1", "2", "4"];

/// The search of an instance that ends at the k-th asking, its document judged, and how often the gate was asked.
fn stopped<R: Threads + Wait + Sync>(
    rt: &R,
    alloc: Global,
    input: &[u8],
    workers: &str,
    k: u64,
) -> Result<(Audited, u64), Fail> {
    let gate = Stopping {
        k,
        asked: AtomicU64::new(0),
    };
    let words = [
        "solve",
        "--workers",
        workers,
        "--nodes",
        "127",
        "--seconds",
        "86400",
    ];
    let told = audit(rt, alloc, &words, input, input, &gate)?;
    Ok((told, gate.asked.load(Ordering::SeqCst)))
}

/// How the search ends that is carried on from a document.
fn carried_on<R: Threads + Wait + Sync>(
    rt: &R,
    alloc: Global,
    input: &[u8],
    document: &[u8],
) -> Result<Status, Fail> {
    let mut both = input.to_vec(alloc)?;
    both.extend_from_slice(document)?;
    let (status, _) = ran(rt, alloc, &["resume", "--nodes", "127"], both)?;
    Ok(status)
}

/// Whether an asking is tried: the first ones, the last ones, and some of those within the work at the root.
fn is_tried(k: u64, asked: u64) -> bool {
    k <= FIRST || k >= asked.saturating_sub(LAST) || k % STEP == 0
}

/// Wherever such a search is told to stop, its document holds, and is carried on to this end.
fn stops_anywhere<R: Abort + Threads + Wait + Sync>(
    rt: &R,
    alloc: Global,
    records: &[&str],
    end: Status,
) -> Result<(), Fail> {
    let input = joined(alloc, records)?;
    for workers in WORKERS {
        let (whole, asked) = stopped(rt, alloc, &input, workers, u64::MAX)?;
        assert_eq!(rt; whole.status, end);
        for k in (1..asked).filter(|k| is_tried(*k, asked)) {
            let (told, _) = stopped(rt, alloc, &input, workers, k)?;
            let resumed = carried_on(rt, alloc, &input, &told.document)?;
            assert_eq!(rt;
                (told.verdict, resumed),
                (Status::Done, end),
                "{k} of {asked}"
            );
        }
    }
    Ok(())
}

#[test]
fn leave_what_holds_and_can_be_carried_on(rt: HostRuntime) -> Result<(), Fail> {
    stops_anywhere(&rt, rt.alloc(), &[STOPS, LAYER, TRIPS], Status::Done)?;
    stops_anywhere(&rt, rt.alloc(), &[STOPS, TWO_LAYERS], Status::Done)?;
    stops_anywhere(&rt, rt.alloc(), &HALVES, Status::Infeasible)
}
