//! How a worker that waits learns that the search has changed.
use std::sync::{Condvar, Mutex, Wait};

/// How often a shared search was changed so that a worker may find a leaf again. A worker that waits for a change
/// sleeps. It changes once for each leaf that a worker takes, so the count never comes to the limit of its type.
#[derive(Drop)]
pub(crate) struct Changes {
    count: Mutex<u64>,
    changed: Condvar,
}

impl Changes {
    pub(crate) fn new() -> Changes {
        Changes {
            count: Mutex::new(0),
            changed: Condvar::new(),
        }
    }

    /// How many there were.
    pub(crate) fn count<R: Wait>(&self, rt: &R) -> u64 {
        *self.count.lock(rt)
    }

    /// Counts one more, and wakes those that wait.
    pub(crate) fn tell<R: Wait>(&self, rt: &R) {
        let mut count = self.count.lock(rt);
        *count = count.saturating_add(1);
        self.changed.notify_all();
    }

    /// Waits until there were others than these.
    pub(crate) fn wait<R: Wait>(&self, rt: &R, seen: u64) {
        let _count = self
            .changed
            .wait_while(rt, self.count.lock(rt), |count| *count == seen);
    }
}
