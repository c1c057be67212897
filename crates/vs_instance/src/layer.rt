//! The vehicles of a depot.

use vs_types::StopNo;

/// The vehicles of one type at one depot.
#[derive(Clone, Copy, Debug, PartialEq, Eq)]
pub struct Layer {
    /// The stop where they leave and to which they come back.
    pub depot: StopNo,
    /// How many there are, 0 to 10,000.
    pub fleet: u64,
    /// What each vehicle that is used costs, 0 to 10^9 cost units.
    pub fixed: u64,
    /// What each minute away from the depot costs, 0 to 10^6 cost units.
    pub per_minute: u64,
    /// What each metre driven costs, 0 to 10^4 cost units.
    pub per_metre: u64,
    /// How many minutes a vehicle that pulls in between two trips rests in the depot at least, 1 to 600. None where
    /// none of them ever rests.
    pub stay: Option<u64>,
}
