//! What an instance is made of.

use crate::layer::Layer;
use crate::trip::Trip;
use vs_types::StopNo;

/// What an instance is made of, before it is known to be one.
#[derive(Debug, Drop)]
pub struct Parts {
    /// How many stops there are, at most 500.
    pub stops: u32,
    /// The deadheads, in any order.
    pub deadheads: Vec<Deadhead>,
    /// The layers in number order, at most 16.
    pub layers: Vec<Layer>,
    /// The trips in number order, at most `most`.
    pub trips: Vec<Trip>,
    /// How many trips there may be, and how many vehicles in a layer: 2,000 for a text of version 1 or 2, else 10,000.
    pub most: u32,
}

/// A drive without passengers from one stop to another, in this direction.
#[derive(Clone, Copy, Debug, PartialEq, Eq)]
pub struct Deadhead {
    /// The stop that is left.
    pub from: StopNo,
    /// The stop that is reached, another one.
    pub to: StopNo,
    /// How long it takes, 1 to 1,440 minutes.
    pub minutes: u64,
    /// Its length, 0 to 1,000,000 metres.
    pub metres: u64,
}
