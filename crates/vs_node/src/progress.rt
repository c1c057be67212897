//! Whether further leaves bring anything.

use vs_prices::Bound;

/// For so many leaves the bound's rise is reckoned: as many as a search takes that is given no budget.
const LEAVES: i128 = 200;

/// Leaves are in vain where so many times that rise wouldn't close the gap.
const TIMES: i128 = 4;

/// What the leaves so far brought. A search takes the leaf next whose table is worth least, so what these are worth is
/// how far it has come.
#[derive(Clone, Copy, Debug)]
pub struct Progress {
    /// How many workers take leaves side by side.
    workers: u32,
    /// How many leaves they have taken together, as far as one of them can tell.
    leaves: u32,
    /// What the first one's table was worth.
    first: Option<i128>,
    /// Whether the last one was in vain.
    vain: bool,
}

impl Progress {
    /// Before the first leaf of one of so many workers.
    pub fn new(workers: u32) -> Progress {
        Progress {
            workers,
            leaves: 0,
            first: None,
            vain: false,
        }
    }

    /// Whether the work on the last leaf was thought to be in vain.
    pub fn is_vain(&self) -> bool {
        self.vain
    }

    /// Counts a leaf whose table is worth so much, once for each worker, since all of them take as many. After this
    /// many leaves, further ones are in vain where they raise the bound so slowly that it doesn't come near the cost
    /// that is known.
    pub(crate) fn note(&mut self, trial: u32, worth: Bound, known: Option<i64>) {
        let (Bound::AtLeast(worth), Some(known)) = (worth, known) else {
            self.vain = false;
            return;
        };
        let first = self.first.unwrap_or(worth);
        self.first = Some(first);
        let rise = worth.saturating_sub(first).saturating_mul(LEAVES * TIMES);
        let gap = i128::from(known).saturating_sub(worth);
        self.vain = self.leaves > trial && rise < gap.saturating_mul(i128::from(self.leaves));
        self.leaves = self.leaves.saturating_add(self.workers);
    }
}
