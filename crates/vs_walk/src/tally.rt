//! How many trips the layers agree on.
ghost use Rattle.std.specs.Prelude.{◌≡◌, ◌≤◌, length};
ghost use Rattle.vs_walk.specs.Tallies.{many_in, none_in};
ghost use Rattle.vs_instance.specs.declared.limits.TheConstants.{MAX_TRIPS};

use vs_types::LayerSet;

/// How many trips no layer runs, and how many two or more do.
#[derive(Clone, Copy, Debug, PartialEq, Eq)]
pub(crate) struct Tally {
    pub none: u32,
    pub many: u32,
}

impl Tally {
    /// That of the layers that run each trip.
    pub fn of(runs: &[LayerSet]) -> Tally
        requires { length runs.now ≤ MAX_TRIPS }
        ensures none { result.none ≡ none_in runs.now }
        ensures many { result.many ≡ many_in runs.now }
    {
        let mut tally = Tally { none: 0, many: 0 };
        for layers in runs {
            match layers.count() {
                0 => tally.none += 1,
                1 => {}
                _ => tally.many += 1,
            }
        }
        tally
    }
}
