//! Two workers that are between their takes and their work at one time.

use crate::audited::audit;
use mdvsp::Status;
use std::sync::atomic::{AtomicBool, AtomicU64, Ordering};
use std::test::Fail;
use std::thread::yield_now;
use test_fixtures::joined;
use test_fixtures::texts::HALVES;
use vs_crew::Gate;

/// A gate that holds the first worker that comes for a leaf other than the root until one has come for another such
/// leaf.
#[derive(Drop)]
struct Meeting {
    came: AtomicU64,
    met: AtomicBool,
}

/// How often the first worker looks for the other one at most.
const MOST_LOOKS: u32 = 1_000_000_000;

impl Gate for Meeting {
    fn before(&self, _worker: u32, leaf: u32) {
        if leaf == 0 || self.came.fetch_add(1, Ordering::SeqCst) != 0 {
            return;
        }
        for _ in 0..MOST_LOOKS {
            if self.came.load(Ordering::SeqCst) != 1 {
                self.met.store(true, Ordering::SeqCst);
                return;
            }
            yield_now();
        }
    }
}

#[test]
fn two_workers_meet(rt: HostRuntime) -> Result<(), Fail> {
    let meeting = Meeting {
        came: AtomicU64::new(0),
        met: AtomicBool::new(false),
    };
    let words = ["solve", "--workers", "2", "--nodes", "127"];
    let input = joined(rt.alloc(), &HALVES)?;
    let told = audit(&rt, rt.alloc(), &words, &input, &input, &meeting)?;
    assert_eq!(rt; told.status, Status::Infeasible);
    assert_eq!(rt; told.verdict, Status::Done);
    assert!(rt; meeting.met.load(Ordering::SeqCst));
    Ok(())
}
