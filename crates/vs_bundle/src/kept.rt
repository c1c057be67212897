//! What a climb leaves: for the next one, and for a look at what a split would bring.

ghost use Rattle.std.specs.Prelude.{◌<◌, ◌≤◌, IfOk, length};
ghost use Rattle.vs_weights.specs.Bundles.{HasSizes};
ghost use Rattle.vs_weights.specs.declared.layer_cuts.TheConstants.{MOST_CUTS};
ghost use Rattle.vs_multi.specs.Rounds.{IsCase};

use vs_multi::Case;
use vs_types::{LayerSet, MAX_LAYERS, Memory, TripNo};
use vs_weights::Bundle;

/// So many times what a move of weights has to gain in a climb, it has to in a forecast, which only ranks splits.
const ROUGH: i64 = 10;

/// What a climb leaves. The circulations that its layers found are near those that the next one looks for: a climb that
/// knows none gains nothing for some twenty rounds.
#[derive(Drop)]
pub struct KeptCuts {
    /// The cuts of the last climb, if any.
    bundle: Option<Bundle>,
    /// How far a step went in the end, and how much a move of weights had to gain.
    step: i64,
    tolerance: i64,
}

impl KeptCuts {
    /// Nothing.
    pub fn none() -> KeptCuts {
        KeptCuts {
            bundle: None,
            step: 0,
            tolerance: 1,
        }
    }

    /// The cuts of the last climb that may be used within the sets of a case, or room for others where there are none.
    pub(crate) fn take(&mut self, case: &Case<'_>, cuts: u32) -> Result<Bundle, Memory>
        requires case { IsCase case.now.instance.now case.now.nets.now case.now.sets.now }
        requires cuts { cuts ≤ MOST_CUTS }
        ensures { IfOk result
            (HasSizes (length case.now.instance.now.trips) (length case.now.instance.now.layers)) }
    {
        let trips = case.instance.trips() as usize;
        let layers = case.instance.layers();
        if let Some(mut bundle) = self.bundle.take() {
            if bundle.is_for(trips, layers, cuts) {
                bundle.refit(case.sets);
                return Ok(bundle);
            }
        }
        Bundle::new(case.alloc, trips, layers, cuts)
    }

    /// Keeps the cuts of a climb.
    pub(crate) fn keep(&mut self, bundle: Bundle, step: i64, tolerance: i64) {
        self.bundle = Some(bundle);
        self.step = step;
        self.tolerance = tolerance;
    }

    /// What the last climb's next step would gain by its forecast if these layers might not run a trip. It is a guess,
    /// by the circulations that are known. None where there was no climb of so many sets, or where one of the layers
    /// knows no circulation without the trip.
    pub fn forecast(&mut self, sets: &[LayerSet], layers: LayerSet, trip: TripNo) -> Option<i64>
        requires { trip.0 < length sets.now }
    {
        let Some(bundle) = &mut self.bundle else {
            return None;
        };
        if bundle.trips() != sets.len() || bundle.layers() > MAX_LAYERS as usize {
            return None;
        }
        let tolerance = self.tolerance.saturating_mul(ROUGH);
        bundle.forecast_without(layers, trip.0 as usize, self.step, tolerance)
    }
}
