//! Multipliers moved a step along what is lacking of their trips.

ghost use Rattle.std.specs.Prelude.{◌≡◌, length};
ghost use Rattle.vs_weights.specs.Bundles.{trips_of_all};
ghost use Rattle.vs_multi.specs.Multipliers.{AreWithin, IsMultiplier};

use vs_cuts::part_of;
use vs_instance::most_multiplier;
use vs_weights::Bundle;

/// The multipliers a step of this length further, none beyond the limit of so many trips.
pub(crate) fn go_further(
    bundle: &Bundle,
    step: i64,
    trips: u32,
    multipliers: &[i64],
    further: &mut [i64],
)
    requires few { length further.old ≡ trips }
    requires trips { trips_of_all bundle.now ≡ length multipliers.now }
    requires each { length further.old ≡ length multipliers.now }
    requires within { AreWithin further.old }
    ensures { AreWithin further.new }
{
    for i in 0..further.len() {
        further[i] = stepped(step, trips, multipliers[i], bundle.lack(i));
    }
}

/// A multiplier of one of so many trips a step further, by what is lacking of its trip.
fn stepped(step: i64, trips: u32, multiplier: i64, lack: i64) -> i64
    ensures { IsMultiplier trips result }
{
    let further = multiplier.saturating_add(part_of(step, lack));
    further.max(0).min(most_multiplier(trips))
}
