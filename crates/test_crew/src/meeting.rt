//! A gate at which two workers meet.

use std::sync::atomic::{AtomicBool, AtomicU32, Ordering};
use std::thread;
use std::time::{Clock, Duration};
use vs_crew::Gate;

/// How long a worker sleeps before it looks for the other one again, in milliseconds.
const NAP: u64 = 1;

/// A gate that a worker of spot 1 or 2 passes once the other of them was taken too. A worker that the other doesn't
/// join, as where no thread could be made for it, passes alone in the end.
#[derive(Drop)]
pub struct Meeting<'a, R: Clock> {
    rt: &'a R,
    /// How often a worker looks for the other one.
    looks: u32,
    left: AtomicBool,
    right: AtomicBool,
    /// How many workers passed it with the other.
    met: AtomicU32,
}

impl<'a, R: Clock> Meeting<'a, R> {
    /// A gate at which a worker looks so often for the other one, a millisecond or more between two looks.
    pub fn new(rt: &'a R, looks: u32) -> Meeting<'a, R> {
        Meeting {
            rt,
            looks,
            left: AtomicBool::new(false),
            right: AtomicBool::new(false),
            met: AtomicU32::new(0),
        }
    }

    /// How many workers passed it with the other.
    pub fn met(&self) -> u32 {
        self.met.load(Ordering::SeqCst)
    }

    /// Shows the other worker that this one is at its spot, and waits for the other.
    fn meet(&self, own: &AtomicBool, other: &AtomicBool) {
        own.store(true, Ordering::SeqCst);
        for _ in 0..self.looks {
            if other.load(Ordering::SeqCst) {
                self.met.fetch_add(1, Ordering::SeqCst);
                return;
            }
            thread::sleep(self.rt, Duration::from_millis(NAP));
        }
    }
}

impl<R: Clock> Gate for Meeting<'_, R> {
    fn before(&self, _worker: u32, leaf: u32) {
        match leaf {
            1 => self.meet(&self.left, &self.right),
            2 => self.meet(&self.right, &self.left),
            _ => {}
        }
    }
}
