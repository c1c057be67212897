//! What the dearest piece of a layer can cost, and what a trip of so many is paid for at most.

ghost use Rattle.std.specs.Prelude.{◌≡◌, ◌*◌, ◌≤◌, ◌≤ℤ◌, nat_lt, pos};
ghost use Rattle.vs_instance.specs.Dearest.{dearest, most_multiplier};
ghost use Rattle.vs_instance.specs.declared.limits.TheConstants.{MAX_DEAREST_SUM, MAX_FIXED, MAX_MULTIPLIER, MAX_PER_METRE, MAX_PER_MINUTE, MAX_TRIPS};

use crate::layer::Layer;
use crate::limits::{MAX_DEAREST_SUM, MAX_METRES, MAX_MULTIPLIER_SUM, TWO_DAYS, USUAL_TRIPS};

/// What one piece can cost at most by the rates of a layer, in cost units: a vehicle for the day, all minutes of two
/// days, and the longest way.
fn dearest(layer: &Layer) -> u64
    requires fixed { layer.now.fixed ≤ MAX_FIXED }
    requires per_minute { layer.now.per_minute ≤ MAX_PER_MINUTE }
    requires per_metre { layer.now.per_metre ≤ MAX_PER_METRE }
    ensures value { result ≡ dearest layer.now }
    ensures limit { result ≤ 20000000000 }
{
    layer.fixed + layer.per_minute * u64::from(TWO_DAYS) + layer.per_metre * MAX_METRES
}

/// Whether so many pieces of a layer cost too much, each as dear as the dearest.
pub fn is_too_dear(trips: u32, layer: &Layer) -> bool
    requires trips { trips ≤ MAX_TRIPS }
    requires fixed { layer.now.fixed ≤ MAX_FIXED }
    requires per_minute { layer.now.per_minute ≤ MAX_PER_MINUTE }
    requires per_metre { layer.now.per_metre ≤ MAX_PER_METRE }
    ensures { result ≡ nat_lt MAX_DEAREST_SUM (trips * dearest layer.now) }
{
    u64::from(trips) * dearest(layer) > MAX_DEAREST_SUM
}

/// What each of so many trips is paid for at most, in 1/1000 of a cost unit. It is the greatest multiplier up to 2,000
/// trips; past them all together stay within what those of 2,000 come to.
pub fn most_multiplier(trips: u32) -> i64
    ensures value { result ≡ pos (most_multiplier trips) }
    ensures limit { result ≤ℤ MAX_MULTIPLIER }
{
    MAX_MULTIPLIER_SUM / i64::from(trips.max(USUAL_TRIPS))
}
