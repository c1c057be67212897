//! What can be wrong with blocks that are to be a plan, and why there is no answer on them.

ghost use Rattle.std.specs.Prelude.{◌≡◌};

use vs_types::{LayerNo, Memory, TripNo};

/// Why blocks are no plan. Blocks, and places in a block, count from 0.
#[derive(Clone, Copy, Debug, PartialEq, Eq)]
pub enum PlanFault {
    /// The layer of this block may not run the trip at this place.
    NotPermitted(u32, u32),
    /// The vehicle of this block can't leave its depot at minute 0 or later and be at the first trip in time.
    NoPullOut(u32),
    /// The vehicle of this block isn't at the trip at this place in time, after the trip before.
    NoConnection(u32, u32),
    /// The vehicle of this block has no way back to its depot.
    NoPullIn(u32),
    /// The trip stands more than once.
    Twice(TripNo),
    /// The trip stands nowhere.
    Uncovered(TripNo),
    /// So many blocks are of this layer, which has fewer vehicles.
    Fleet(LayerNo, u32),
}

/// Why there is no answer on a plan, or none that accepts it.
#[derive(Clone, Copy, Debug, PartialEq, Eq)]
pub enum PlanError {
    /// The blocks are no plan: this is the first error of all. Blocks come first, then trips that stand
    /// more than once, then trips that stand nowhere, and last fleets.
    Fault(PlanFault),
    /// There was no memory.
    Memory,
}

impl From<Memory> for PlanError {
    ghost use Rattle.vs_plan.specs.declared.plan_fault.PlanError.TheVariants as error;

    ghost from_gives = { λ _ e. e ≡ error.Memory };

    fn from(_memory: Memory) -> PlanError {
        PlanError::Memory
    }
}
