//! How far a step goes.

/// How many rounds that gain make a step longer, and how many that don't may make it shorter.
const IN_A_ROW: u32 = 3;

/// How many rounds that don't gain may make a step shorter where what is forecast can't close the case.
const IN_A_ROW_WHERE_LOW: u32 = 10;

/// How far a step goes: how much a multiplier changes for a whole trip that is lacking, in 1/1000 of a cost unit.
#[derive(Clone, Copy, Debug)]
pub(crate) struct Stride {
    pub now: i64,
    unit: i64,
    /// How many rounds in a row gained.
    gains: u32,
    /// How many rounds in a row didn't.
    misses: u32,
}

impl Stride {
    /// So many units to begin with.
    pub fn new(unit: i64, units: i64) -> Stride {
        Stride {
            now: unit.saturating_mul(units),
            unit,
            gains: 0,
            misses: 0,
        }
    }

    /// A round has gained. The stride becomes longer where it gained much, or for the third time in a row.
    pub fn gain(&mut self, much: bool) {
        self.misses = 0;
        self.gains = self.gains.saturating_add(1);
        if much || self.gains >= IN_A_ROW {
            self.gains = 0;
            let longer = self.now.saturating_add(self.now / 2).saturating_add(1);
            self.set(longer);
        }
    }

    /// A round hasn't gained. The stride becomes shorter after some in a row, where what was found is far off.
    pub fn miss(&mut self, low: bool, far_off: bool) {
        self.gains = 0;
        self.misses = self.misses.saturating_add(1);
        let most = if low { IN_A_ROW_WHERE_LOW } else { IN_A_ROW };
        if self.misses >= most && far_off {
            self.misses = 0;
            let shorter = self.now.saturating_sub((self.now / 10).saturating_mul(3));
            self.set(shorter);
        }
    }

    /// Takes a length, within limits.
    fn set(&mut self, length: i64) {
        let least = (self.unit / 10_000).max(1);
        let most = self.unit.saturating_mul(1_000);
        self.now = length.min(most).max(least);
    }
}
