//! By how much layers are offered more or less than a multiplier.
ghost use Rattle.std.specs.Prelude.{◌≡◌, ◌≢◌, ◌/◌, ◌<◌, ◌≤◌, ◌≤ℤ◌, min, pos};
ghost use Rattle.vs_instance.specs.declared.limits.TheConstants.{MAX_MULTIPLIER};
ghost use Rattle.vs_walk.specs.Rates.{raised};

/// By how much less a trip is worth to a layer that another one runs than one that none does, in 1/1000 of a cost
/// unit. It rises while trips are left out, and falls once all are run.
#[derive(Clone, Copy, Debug)]
pub struct Rate {
    pub now: u64,
    pub least: u64,
    pub most: u64,
    /// By so small a part it rises.
    growth: u64,
    /// What it becomes where it would rise past the greatest one.
    past: u64,
    ghost within: { pos now ≤ℤ MAX_MULTIPLIER },
    ghost least_within: { pos least ≤ℤ MAX_MULTIPLIER },
    ghost most_within: { pos most ≤ℤ MAX_MULTIPLIER },
    ghost past_within: { pos past ≤ℤ MAX_MULTIPLIER },
    ghost grows: { 0 < growth },
}

impl Rate {
    /// A rate that begins with the least one, rises by so small a part, and begins again past the greatest one.
    pub fn new(least: u64, most: u64, growth: u64) -> Rate
        requires most { pos most ≤ℤ MAX_MULTIPLIER }
        requires growth { 0 < growth }
        ensures now { result.now ≡ min least most }
        ensures least { result.least ≡ min least most }
        ensures most { result.most ≡ most }
        ensures growth { result.growth ≡ growth }
        ensures past { result.past ≡ min least most }
    {
        let least = if least > most { most } else { least };
        Rate {
            now: least,
            least,
            most,
            growth,
            past: least,
        }
    }

    /// The same, but it stays at the greatest one.
    pub fn up_to(least: u64, most: u64, growth: u64) -> Rate
        requires most { pos most ≤ℤ MAX_MULTIPLIER }
        requires growth { 0 < growth }
        ensures now { result.now ≡ min least most }
        ensures least { result.least ≡ min least most }
        ensures most { result.most ≡ most }
        ensures growth { result.growth ≡ growth }
        ensures past { result.past ≡ most }
    {
        let mut rate = Rate::new(least, most, growth);
        rate.past = most;
        rate
    }

    /// Somewhat more, within the greatest one.
    pub fn raise(&mut self)
        ensures raised { raised self.old.growth self.old.now ≤ self.old.most
            → self.new.now ≡ raised self.old.growth self.old.now }
        ensures beyond { self.old.most < raised self.old.growth self.old.now
            → self.new.now ≡ self.old.past }
        ensures least { self.new.least ≡ self.old.least }
        ensures most { self.new.most ≡ self.old.most }
        ensures growth { self.new.growth ≡ self.old.growth }
        ensures past { self.new.past ≡ self.old.past }
    {
        let raised = self.now + self.now / self.growth + 1;
        self.now = if raised > self.most {
            self.past
        } else {
            raised
        };
    }

    /// An eighth of it, or the least again where nothing is left.
    pub fn ease(&mut self)
        ensures eased { self.old.now / 8 ≢ 0 → self.new.now ≡ self.old.now / 8 }
        ensures again { self.old.now / 8 ≡ 0 → self.new.now ≡ self.old.least }
        ensures least { self.new.least ≡ self.old.least }
        ensures most { self.new.most ≡ self.old.most }
        ensures growth { self.new.growth ≡ self.old.growth }
        ensures past { self.new.past ≡ self.old.past }
    {
        let eased = self.now / 8;
        self.now = if eased == 0 { self.least } else { eased };
    }

    /// The least again.
    pub fn begin(&mut self)
        ensures now { self.new.now ≡ self.old.least }
        ensures least { self.new.least ≡ self.old.least }
        ensures most { self.new.most ≡ self.old.most }
        ensures growth { self.new.growth ≡ self.old.growth }
        ensures past { self.new.past ≡ self.old.past }
    {
        self.now = self.least;
    }
}
