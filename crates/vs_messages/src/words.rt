//! The words for a reason.

ghost use Rattle.std.specs.Prelude.{◌<◌, length, All};
ghost use Rattle.vs_messages.specs.Reasons.{trips_of};

use crate::reason::Reason;
use std::alloc::{AllocError, Global};
use std::fmt::Write;
use vs_reader::Names;
use vs_types::TripNo;

/// How many trips are named at most.
const MAX_NAMED: usize = 10;

/// What a reason says, in a line without its end, by the names of its trips.
pub fn reason_words(alloc: Global, names: &Names, reason: &Reason) -> Result<String, AllocError>
    requires { All (λ i. i.0 < length names.now.trips) (trips_of reason.now) }
{
    match reason {
        Reason::Minute {
            minute,
            trips,
            vehicles,
        } => minute_words(alloc, names, *minute, trips, *vehicles),
        Reason::Trips(trips) => trips_words(alloc, names, trips),
    }
}

/// That trips are more at a minute than the vehicles of their layers.
fn minute_words(
    alloc: Global,
    names: &Names,
    minute: u32,
    trips: &[TripNo],
    vehicles: u64,
) -> Result<String, AllocError>
    requires { All (λ i. i.0 < length names.now.trips) trips.now }
{
    let count = trips.len() as u64;
    let (hour, past) = (minute / 60, minute % 60);
    let their = if count == 1 { "its" } else { "their" };
    let trip = noun(count, "trip", "trips");
    let vehicle = noun(vehicles, "vehicle", "vehicles");
    let list = listed(alloc, names, trips)?;
    format!(in alloc;
        "no plan: {count} {trip} at {hour:02}:{past:02}, {vehicles} {vehicle} of {their} layers: {list}"
    )
}

/// That trips can't be run together.
fn trips_words(alloc: Global, names: &Names, trips: &[TripNo]) -> Result<String, AllocError>
    requires { All (λ i. i.0 < length names.now.trips) trips.now }
{
    let count = trips.len();
    let list = listed(alloc, names, trips)?;
    if count == 1 {
        return format!(in alloc; "no plan: no vehicle of its layers can run the trip {list}");
    }
    format!(in alloc; "no plan: {count} trips that can't be run together: {list}")
}

/// That none of so many cases has a plan.
pub fn cases_words(alloc: Global, cases: usize) -> Result<String, AllocError> {
    format!(in alloc; "no plan: {cases} cases, none of which has a plan: `check` judges them")
}

/// The word for one thing or for more.
fn noun(count: u64, one: &'static str, more: &'static str) -> &'static str {
    if count == 1 { one } else { more }
}

/// The names of trips, at most ten of them, and how many more there are.
fn listed(alloc: Global, names: &Names, trips: &[TripNo]) -> Result<String, AllocError>
    requires { All (λ i. i.0 < length names.now.trips) trips.now }
{
    let mut list = String::new(alloc);
    for (k, i) in trips.iter().enumerate() {
        if k == MAX_NAMED {
            break;
        }
        if k > 0 {
            list.push_str(", ")?;
        }
        list.push_str(names.trip(*i))?;
    }
    if trips.len() > MAX_NAMED {
        let others = trips.len() - MAX_NAMED;
        write!(list, " and {others} more")?;
    }
    Ok(list)
}
