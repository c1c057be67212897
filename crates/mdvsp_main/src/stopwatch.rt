//! For how long a run has lasted.

use std::rt::Clock;
use std::sync::atomic::{AtomicU64, Ordering};
use std::time::Instant;

/// How many milliseconds a second has.
const SECOND: u64 = 1000;

/// A stopwatch that starts with the program, and again at the end of the input. So the time for which a run waits for
/// its input isn't counted.
#[derive(Drop)]
pub struct Stopwatch<'a, R: Clock> {
    rt: &'a R,
    /// When the program started. None where the clock doesn't say.
    start: Option<Instant>,
    /// How many milliseconds later it started again.
    later: AtomicU64,
}

impl<'a, R: Clock> Stopwatch<'a, R> {
    /// One that starts now.
    pub fn new(rt: &'a R) -> Stopwatch<'a, R> {
        Stopwatch {
            rt,
            start: Instant::now(rt).ok(),
            later: AtomicU64::new(0),
        }
    }

    /// Starts it again.
    pub fn restart(&self) {
        self.later.store(self.milliseconds(), Ordering::SeqCst);
    }

    /// How many whole seconds ago it started last. It is 0 where the clock doesn't say.
    pub fn seconds(&self) -> u64 {
        let later = self.later.load(Ordering::SeqCst);
        self.milliseconds().saturating_sub(later) / SECOND
    }

    /// How many milliseconds ago the program started. It is 0 where the clock doesn't say.
    fn milliseconds(&self) -> u64 {
        let Some(start) = self.start else {
            return 0;
        };
        match start.elapsed(self.rt) {
            Ok(time) => {
                let whole = time.as_secs().saturating_mul(SECOND);
                whole.saturating_add(u64::from(time.subsec_millis()))
            }
            Err(_) => 0,
        }
    }
}
