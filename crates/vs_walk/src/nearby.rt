//! Vehicles that come near each other, whose trips are shared out anew.

ghost use Rattle.std.specs.Prelude.{◌≡◌, ◌<◌, ℕ, IfOk, length};
ghost use Rattle.vs_instance.specs.Restriction.{IsRestriction};
ghost use Rattle.vs_walk.specs.Walkers.{AreVehiclesOf};

use crate::draws::Draws;
use crate::scope::{ALL, narrowed};
use std::alloc::Global;
use vs_instance::{Instance, Trip};
use vs_types::{LayerSet, Memory, TripNo};

/// How many minutes apart two trips start at most that are near each other.
const NEAR: u32 = 30;

/// How many trips are drawn at most until there are enough vehicles.
const MOST_DRAWS: u32 = 100_000;

/// The vehicles of a plan, and which of them were drawn.
#[derive(Drop)]
pub(crate) struct Nearby {
    /// By trip: the number of the vehicle that runs it.
    pub vehicles: Vec<u32>,
    /// By trip: whether its vehicle was drawn.
    drawn: Vec<bool>,
}

impl Nearby {
    /// One vehicle runs all trips, and none was drawn.
    pub fn new(alloc: Global, trips: usize) -> Result<Nearby, Memory>
        ensures { IfOk result (AreVehiclesOf trips) }
    {
        Ok(Nearby {
            vehicles: vec![in alloc; 0; trips]?,
            drawn: vec![in alloc; false; trips]?,
        })
    }

    /// Draws no more than so many vehicles, at least one. Each further one runs a trip near one of a vehicle that was
    /// drawn before.
    pub fn draw(&mut self, draws: &mut Draws, instance: &Instance, most: u32)
        requires trips { 0 < length instance.now.trips }
        requires vehicles { AreVehiclesOf (length instance.now.trips) self.old }
        ensures { AreVehiclesOf (length instance.now.trips) self.new }
    {
        forget(&mut self.drawn);
        let mut known = TripNo(draws.below(instance.trips()));
        self.take(known);
        let mut left = most.saturating_sub(1);
        for _ in 0..MOST_DRAWS {
            if left == 0 {
                break;
            }
            let next = TripNo(draws.below(instance.trips()));
            if self.drawn[next.0 as usize] {
                known = next;
            } else if are_near(instance.trip(known), instance.trip(next)) {
                self.take(next);
                left -= 1;
            }
        }
    }

    /// Draws the vehicle of a trip.
    fn take(&mut self, trip: TripNo)
        requires trip { trip.0 < length self.old.vehicles.items }
        requires drawn { length self.old.drawn.items ≡ length self.old.vehicles.items }
        ensures { (trips : ℕ) → AreVehiclesOf trips self.old → AreVehiclesOf trips self.new }
    {
        let vehicle = self.vehicles[trip.0 as usize];
        mark(&self.vehicles, vehicle, &mut self.drawn);
    }

    /// Lets each trip of a vehicle that was drawn be run by all layers that may, and each other one by its own.
    pub fn free(&self, instance: &Instance, own: &[LayerSet], sets: &mut [LayerSet])
        requires vehicles { AreVehiclesOf (length instance.now.trips) self.now }
        requires own { length own.now ≡ length instance.now.trips }
        requires sets { length sets.old ≡ length instance.now.trips }
        ensures { IsRestriction instance.now sets.new }
    {
        for i in 0..instance.trips() {
            let trip = instance.trip(TripNo(i));
            let is_drawn = self.drawn[i as usize];
            let layers = if is_drawn { ALL } else { own[i as usize] };
            sets[i as usize] = narrowed(trip.layers, layers);
        }
    }
}

/// None was drawn.
fn forget(drawn: &mut [bool])
    ensures { length drawn.new ≡ length drawn.old }
{
    for is_drawn in drawn.iter_mut() {
        *is_drawn = false;
    }
}

/// Marks the trips of a vehicle as drawn.
fn mark(vehicles: &[u32], vehicle: u32, drawn: &mut [bool])
    requires { length drawn.old ≡ length vehicles.now }
    ensures { length drawn.new ≡ length drawn.old }
{
    for i in 0..drawn.len() {
        if vehicles[i] == vehicle {
            drawn[i] = true;
        }
    }
}

/// Whether two trips start at about the same time, and share a stop where a vehicle may take one in place of the other,
/// or after it.
fn are_near(one: &Trip, other: &Trip) -> bool {
    let is_shared = one.from == other.from || one.to == other.to || one.to == other.from;
    is_shared && one.start.abs_diff(other.start) <= NEAR
}
