//! The numbers of stops, layers and trips, and the step of prices.

ghost use Rattle.std.specs.Prelude.{◌≡◌, pos};
ghost use Rattle.vs_types.specs.declared.numbers.TheConstants.{MAX_LAYERS, SCALE};

/// How many steps of a price make one cost unit: prices count in 1/1000 of a unit.
pub const SCALE: i64 = 1000;

/// The number of a stop, counted from 0 in the order of declaration.
#[derive(Clone, Copy, Debug, PartialEq, Eq, PartialOrd, Ord, Hash)]
pub struct StopNo(pub u32);

/// How many layers there are at most: the number of each is below this.
pub const MAX_LAYERS: u32 = 16;

/// The number of a layer, which is a pair of a depot and a vehicle type, counted from 0 in the
/// order of declaration.
#[derive(Clone, Copy, Debug, PartialEq, Eq, PartialOrd, Ord, Hash)]
pub struct LayerNo(pub u32);

/// The number of a trip, counted from 0 in the order of declaration.
#[derive(Clone, Copy, Debug, PartialEq, Eq, PartialOrd, Ord, Hash)]
pub struct TripNo(pub u32);

/// What the definitions take from the code: there are 16 layers at most, and a price counts in 1/1000 of a cost unit.
pub fn limits_are_fixed()
    ensures layers { MAX_LAYERS ≡ 16 }
    ensures scale { SCALE ≡ pos 1000 }
{}
