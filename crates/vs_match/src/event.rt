//! The events of a trip, and the points in space and time that a net's nodes stand for.

ghost use Rattle.std.specs.Prelude.{◌≡◌, ◌<◌, length};
ghost use Rattle.vs_match.specs.Events.{point_of};
ghost use Rattle.vs_match.specs.TripEnds.{event_at};

use vs_instance::Instance;
use vs_types::{StopNo, TripNo};

/// A stop at a minute, at which a trip departs or arrives. Events are ordered by minute, then by stop.
#[derive(Clone, Copy, Debug, PartialEq, Eq, PartialOrd, Ord)]
pub struct Event {
    /// Minutes from 0:00 of the first day, 0 to 2,879.
    pub minute: u32,
    pub stop: StopNo,
}

impl Event {
    /// The same as a point.
    pub fn point(self) -> Point
        ensures { result ≡ point_of self }
    {
        Point {
            minute: self.minute,
            stop: Some(self.stop),
        }
    }
}

/// What a node of a layer's net between the first and the last stands for. It is an event at a stop, or a minute in
/// the depot at which a vehicle that rests there may leave. Such minutes are the depot line. Points are ordered by
/// minute; at one minute the depot comes first, and then the stops.
#[derive(Clone, Copy, Debug, PartialEq, Eq, PartialOrd, Ord)]
pub struct Point {
    /// Minutes from 0:00 of the first day, 0 to 2,879.
    pub minute: u32,
    /// None in the depot.
    pub stop: Option<StopNo>,
}

/// One of the two events of a trip.
#[derive(Clone, Copy, Debug, PartialEq, Eq)]
pub enum TripEnd {
    Departure,
    Arrival,
}

impl TripEnd {
    /// This event of a trip.
    pub fn event(self, instance: &Instance, i: TripNo) -> Event
        requires { i.0 < length instance.now.trips }
        ensures { result ≡ event_at self instance.now i.0 }
    {
        let trip = instance.trip(i);
        match self {
            TripEnd::Departure => Event {
                minute: trip.start,
                stop: trip.from,
            },
            TripEnd::Arrival => Event {
                minute: trip.end,
                stop: trip.to,
            },
        }
    }
}
