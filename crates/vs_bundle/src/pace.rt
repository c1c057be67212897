//! Whether a climb still gets on.

use crate::aim::Aim;

/// After so many rounds it is looked at what they gained.
const ROUNDS: u32 = 10;

/// How a climb gets on.
#[derive(Drop)]
pub(crate) struct Pace {
    /// The value when that was looked at last. None before the climb has gained anything.
    mark: Option<i64>,
    /// After how many rounds it is looked at next.
    left: u32,
}

impl Pace {
    /// At the beginning.
    pub fn new() -> Pace {
        Pace {
            mark: None,
            left: ROUNDS,
        }
    }

    /// Counts a round of a climb from one value, which has come to another. Gives whether it is slow: whether it has
    /// gained before, and its last rounds gained little of what is left to gain.
    pub fn is_slow(&mut self, aim: &Aim, begin: i64, top: i64) -> bool {
        let Some(mark) = self.mark else {
            self.mark = if top > begin { Some(top) } else { None };
            return false;
        };
        self.left = self.left.saturating_sub(1);
        if self.left > 0 {
            return false;
        }
        self.left = ROUNDS;
        self.mark = Some(top);
        aim.is_little(top, top.saturating_sub(mark))
    }
}
