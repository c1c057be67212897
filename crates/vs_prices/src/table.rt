//! A table of prices, one for each move of a vehicle.

use std::alloc::Global;
use vs_instance::Instance;
use vs_types::{LayerNo, Memory, TripNo};

/// Prices in 1/1000 of a cost unit, each within `MAX_PRICE`. Those of trips stand layer by layer,
/// so trip i in layer l has place `l * trips + i`. They are dual prices in the sense of linear
/// programming: a vehicle pays to get into a trip and is paid on leaving it.
#[derive(Debug, Drop)]
pub struct Table {
    /// The price for entering each trip.
    pub into: Vec<i64>,
    /// The price for leaving each trip.
    pub from: Vec<i64>,
    /// The price of a vehicle of each layer.
    pub fleet: Vec<i64>,
    /// Whether all pieces of cost count nothing, so that the table can show only that there is no
    /// plan.
    pub ray: bool,
}

impl Table {
    ghost use Rattle.std.specs.Prelude.{◌≡◌, ◌<◌, false, length, All, IfOk};
    ghost use Rattle.vs_prices.specs.Table.{AreZeros, Fits, HoldingTable, IsPrice};
    ghost use Rattle.vs_prices.specs.Table.{from_price, into_price, vehicle_price};

    /// A cost table of zeros. It holds in every instance.
    pub fn zero(alloc: Global, instance: &Instance) -> Result<Table, Memory>
        ensures fits { IfOk result (Fits instance.now) }
        ensures holds { IfOk result (HoldingTable instance.now) }
        ensures costs { IfOk result (λ table. table.ray ≡ false) }
        ensures zero { IfOk result AreZeros }
    {
        let layers = instance.layers() as usize;
        let places = layers * instance.trips() as usize;
        let into = vec![in alloc; 0; places]?;
        let from = vec![in alloc; 0; places]?;
        let fleet = vec![in alloc; 0; layers]?;
        Ok(Table {
            into,
            from,
            fleet,
            ray: false,
        })
    }

    /// The price for entering trip i in layer l.
    pub(crate) fn into_price(&self, instance: &Instance, l: LayerNo, i: TripNo) -> i64
        requires fits { Fits instance.now self.now }
        requires layer { l.0 < length instance.now.layers }
        requires trip { i.0 < length instance.now.trips }
        ensures value { result ≡ into_price instance.now self.now l.0 i.0 }
        ensures price { IsPrice result }
    {
        self.into[l.0 as usize * instance.trips() as usize + i.0 as usize]
    }

    /// The price for leaving trip i in layer l.
    pub(crate) fn from_price(&self, instance: &Instance, l: LayerNo, i: TripNo) -> i64
        requires fits { Fits instance.now self.now }
        requires layer { l.0 < length instance.now.layers }
        requires trip { i.0 < length instance.now.trips }
        ensures value { result ≡ from_price instance.now self.now l.0 i.0 }
        ensures price { IsPrice result }
    {
        self.from[l.0 as usize * instance.trips() as usize + i.0 as usize]
    }

    /// The price of a vehicle of layer l.
    pub(crate) fn vehicle_price(&self, l: LayerNo) -> i64
        requires layer { l.0 < length self.now.fleet.items }
        requires prices { All IsPrice self.now.fleet.items }
        ensures value { result ≡ vehicle_price self.now l.0 }
        ensures price { IsPrice result }
    {
        self.fleet[l.0 as usize]
    }
}
