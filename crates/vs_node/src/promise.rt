//! What a split promises.

ghost use Rattle.std.specs.Prelude.{◌<◌, length};
ghost use Rattle.vs_types.specs.declared.numbers.TheConstants.{MAX_LAYERS};

use crate::leads::Candidate;
use vs_bundle::KeptCuts;
use vs_types::{LayerSet, SCALE};

/// What the two parts of a split by this candidate promise to gain together: the product of what each of them does by a
/// forecast, within one cost unit and the gap. So a split counts for much where both parts gain.
pub(crate) fn promise_of(
    sets: &[LayerSet],
    candidate: &Candidate,
    gap: i64,
    cuts: &mut KeptCuts,
) -> i128
    requires trip { candidate.now.trip.0 < length sets.now }
    requires layer { candidate.now.layer.0 < MAX_LAYERS }
{
    let set = sets[candidate.trip.0 as usize];
    let others = set.without(candidate.layer);
    let alone = LayerSet::only(candidate.layer);
    let left = cuts.forecast(sets, others, candidate.trip);
    let right = cuts.forecast(sets, alone, candidate.trip);
    i128::from(within(left, gap)).saturating_mul(i128::from(within(right, gap)))
}

/// A forecast within one cost unit and the gap. Where there is none, the part may close the gap.
fn within(forecast: Option<i64>, gap: i64) -> i64 {
    forecast.unwrap_or(gap).min(gap).max(SCALE)
}
