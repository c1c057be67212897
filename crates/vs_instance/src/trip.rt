//! The timetabled trips.

use vs_types::{LayerSet, StopNo};

/// A timetabled trip with passengers, which has to be run exactly once. Minutes count from 0:00 of the
/// first day.
#[derive(Clone, Copy, Debug, PartialEq, Eq)]
pub struct Trip {
    /// The stop where it starts.
    pub from: StopNo,
    /// The minute at which it starts, 0 to 2,879.
    pub start: u32,
    /// The stop where it ends.
    pub to: StopNo,
    /// The minute at which it ends, later than the start and at most 2,879.
    pub end: u32,
    /// Its length, 0 to 1,000,000 metres.
    pub metres: u64,
    /// The layers whose vehicles may run it, at least one.
    pub layers: LayerSet,
}
