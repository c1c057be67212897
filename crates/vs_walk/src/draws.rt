//! Numbers drawn from a sequence, and parts that are tried larger and smaller.

ghost use Rattle.std.specs.Prelude.{◌<◌, ◌≤◌};
ghost use Rattle.vs_walk.specs.declared.draws.TheConstants.{MODULUS};

/// What a number is multiplied by on the way to the next one (Park, Miller and Stockmeyer 1993).
const MULTIPLIER: u64 = 48_271;

/// What the product is divided by, of which the next number is the rest (Lehmer 1949).
const MODULUS: u64 = 2_147_483_647;

/// Numbers that are drawn the same way each time.
#[derive(Clone, Copy, Debug)]
pub(crate) struct Draws {
    last: u64,
    ghost small: { last < MODULUS },
}

impl Draws {
    /// The numbers that follow one more than this.
    pub fn new(seed: u32) -> Draws {
        Draws {
            last: (u64::from(seed) + 1) % MODULUS,
        }
    }

    /// The next number, of those below this.
    pub fn below(&mut self, count: u32) -> u32
        requires { 0 < count }
        ensures { result < count }
    {
        self.last = self.last * MULTIPLIER % MODULUS;
        (self.last % u64::from(count)) as u32
    }
}

/// So small a part of the rate at which layers agreed before is the first one of passes from a choice.
#[derive(Clone, Copy, Debug)]
pub(crate) struct Divisor {
    now: u64,
    ghost some: { 0 < now },
    ghost few: { now ≤ 64 },
}

impl Divisor {
    /// This part.
    pub fn new(now: u64) -> Divisor
        requires some { 0 < now }
        requires few { now ≤ 64 }
    {
        Divisor { now }
    }

    /// The part of a rate, at least 1.
    pub fn part_of(self, rate: u64) -> u64 {
        (rate / self.now).max(1)
    }

    /// Passes found the same choice again: with a smaller rate they go further from it.
    pub fn raise(&mut self) {
        let raised = self.now + self.now / 4 + 1;
        self.now = if raised > 64 { 64 } else { raised };
    }

    /// Passes came to no agreement: with a greater rate they do sooner.
    pub fn lower(&mut self) {
        let lowered = self.now - self.now / 4;
        self.now = if lowered < 2 { 2 } else { lowered };
    }
}
