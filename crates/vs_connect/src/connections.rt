//! Which trips one vehicle can run one after the other.

ghost use Rattle.std.specs.Prelude.{◌<◌, ◌↔◌, length, IsTrue};
ghost use Rattle.vs_instance.specs.Ways.{Connects};

use vs_instance::Instance;
use vs_types::TripNo;

/// Whether a vehicle that ran trip i is at the start of trip j in time. The way from the one's end to the
/// other's start must exist, and must take no more minutes than there are between the two.
pub fn connects(instance: &Instance, i: TripNo, j: TripNo) -> bool
    requires trip { i.0 < length instance.now.trips }
    requires next { j.0 < length instance.now.trips }
    ensures { IsTrue result ↔ Connects instance.now i.0 j.0 }
{
    // for the proof: trips of an instance are within its limits
    prove!(i.0 < instance.trips() && j.0 < instance.trips());
    let ended = instance.trip(i);
    let next = instance.trip(j);
    match instance.minutes(ended.to, next.from) {
        Some(minutes) => ended.end + minutes <= next.start,
        None => false,
    }
}
