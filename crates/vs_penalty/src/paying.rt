//! What trips are paid where nothing costs anything: all of them as much, or those alone that a reason is about.

ghost use Rattle.std.specs.Prelude.{IfOk, length};
ghost use Rattle.vs_multi.specs.Multipliers.{AreMultipliers, IsMultiplier};

use vs_instance::{Instance, Trip};
use vs_multi::Case;
use vs_types::{Memory, TripNo};

/// What each trip is paid that the reason is about, so that prices are 0 and 1.
const PAID: i64 = 1;

/// Multipliers that pay as much for each trip.
pub(crate) fn evenly(case: &Case<'_>, paid: i64) -> Result<Vec<i64>, Memory>
    requires { IsMultiplier (length case.now.instance.now.trips) paid }
    ensures { IfOk result (λ multipliers. AreMultipliers case.now.instance.now multipliers.items) }
{
    let multipliers = vec![in case.alloc; paid; case.instance.trips() as usize]?;
    Ok(multipliers)
}

/// Pays for this trip, and for no other one.
pub(crate) fn pay_one(instance: &Instance, paid: TripNo, multipliers: &mut [i64])
    requires { AreMultipliers instance.now multipliers.old }
    ensures { AreMultipliers instance.now multipliers.new }
{
    for i in 0..instance.trips() {
        multipliers[i as usize] = if TripNo(i) == paid { PAID } else { 0 };
    }
}

/// Pays for the trips that are under way at this minute, and for no other one.
pub(crate) fn pay_at(instance: &Instance, minute: u32, multipliers: &mut [i64])
    requires { AreMultipliers instance.now multipliers.old }
    ensures { AreMultipliers instance.now multipliers.new }
{
    for i in 0..instance.trips() {
        let is_paid = is_under_way(instance.trip(TripNo(i)), minute);
        multipliers[i as usize] = if is_paid { PAID } else { 0 };
    }
}

/// Whether the trip is under way at this minute.
fn is_under_way(trip: &Trip, minute: u32) -> bool {
    trip.start <= minute && minute < trip.end
}
