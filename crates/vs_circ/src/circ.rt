//! What the calls on a layer's net answer: circulations, and the prices that prove them.

use vs_layer::Flow;

/// Prices of one layer, in 1/1000 of a cost unit, with an entry for each trip of the instance.
#[derive(Debug, Drop)]
pub struct LayerPrices {
    /// For entering each trip.
    pub into: Vec<i64>,
    /// For leaving each trip.
    pub from: Vec<i64>,
    /// Of a vehicle, never below 0.
    pub fleet: i64,
}

/// A least circulation of offered trips.
#[derive(Debug, Drop)]
pub struct Circ {
    /// The units on each arc of the net.
    pub flow: Flow,
    /// Prices that hold, and show that nothing is lower than the value.
    pub prices: LayerPrices,
    /// Its cost less the multipliers of the trips that it runs, in 1/1000 of a cost unit.
    pub value: i128,
}

/// A least circulation that runs exactly given trips, or why there is none.
#[derive(Debug, Drop)]
pub enum FixedFlow {
    /// The circulation, prices that hold and show that none costs less, and its cost in 1/1000 of
    /// a cost unit.
    Covered {
        flow: Flow,
        prices: LayerPrices,
        cost: i128,
    },
    /// No circulation within the fleet runs exactly these trips: the prices hold as a ray and show
    /// so.
    Short {
        prices: LayerPrices,
    },
}
