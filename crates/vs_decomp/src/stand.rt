//! The vehicles at a node, each with the trips that it has run.

ghost use Rattle.std.specs.Prelude.{◌≡◌, ◌<◌, [], ◌∷◌, ◌++◌, IfOk, OnOk, length, replicate};
ghost use Rattle.std.specs.List.{filter};
ghost use Rattle.vs_plan.specs.Blocks.{pair_of, pairs_of};
ghost use Rattle.vs_match.specs.Underway.{trips_at};
ghost use Rattle.vs_decomp.specs.Stands.{has_run};

use std::alloc::Global;
use vs_match::ArcKind;
use vs_plan::Block;
use vs_types::{LayerNo, Memory};

/// The vehicles that stand at a node of a net.
#[derive(Drop)]
pub struct Stand {
    /// Each with the trips that it has run so far.
    pub vehicles: Vec<Block>,
}

impl Stand {
    /// Takes the vehicle away that came last.
    pub fn leave(&mut self) -> Block
        requires { 0 < length self.old.vehicles.items }
        ensures { self.old.vehicles.items ≡ self.new.vehicles.items ++ result ∷ [] }
    {
        match self.vehicles.pop() {
            Some(vehicle) => vehicle,
            None => unreachable!(),
        }
    }

    /// Puts a vehicle there.
    pub fn come(&mut self, vehicle: Block) -> Result<(), Memory>
        ensures { OnOk result (self.new.vehicles.items ≡ self.old.vehicles.items ++ vehicle ∷ []) }
    {
        self.vehicles.push(vehicle)?;
        Ok(())
    }

    /// What the vehicles have run, but for those that have run nothing.
    pub fn into_blocks(mut self) -> Vec<Block>
        ensures { pairs_of result.items ≡ filter has_run (pairs_of self.vehicles.items) }
    {
        self.vehicles.retain(|vehicle| !vehicle.trips.is_empty());
        self.vehicles
    }
}

/// So many vehicles of layer l that have run no trip.
pub fn fresh(alloc: Global, l: LayerNo, vehicles: u32) -> Result<Stand, Memory>
    ensures { IfOk result (λ stand. pairs_of stand.vehicles.items ≡ replicate vehicles (l, [])) }
{
    let mut stand = Stand {
        vehicles: Vec::new(alloc),
    };
    for _ in 0..vehicles {
        stand.come(Block {
            layer: l,
            trips: Vec::new(alloc),
        })?;
    }
    Ok(stand)
}

/// Has the vehicle run an arc of this kind.
pub fn run(vehicle: &mut Block, kind: ArcKind) -> Result<(), Memory>
    ensures { OnOk result (pair_of vehicle.new
        ≡ ((pair_of vehicle.old).0, (pair_of vehicle.old).1 ++ trips_at kind)) }
{
    if let ArcKind::Trip(i) = kind {
        vehicle.trips.push(i)?;
    }
    Ok(())
}
