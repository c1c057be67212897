//! What is wrong with blocks that are to be a plan, error by error in order, and the judge that answers the first.

ghost use Rattle.std.specs.Prelude.{◌≡◌, ℕ, ◌<◌, ◌^◌, length, IfOk, IfErr, pos, ◌≤ℤ◌};
ghost use Rattle.vs_plan.specs.Blocks.{CanBeJudged, IsOfInstance, blocks_of, pair_of, pairs_of};
ghost use Rattle.vs_instance.specs.Firsts.{first};
ghost use Rattle.vs_plan.specs.PlanFaults.{IsFault, IsFirstFault, arrival_faults, block_faults, blocks_faults, faults_of, fleet_faults, joint_faults, layer_faults, place_faults, return_faults};
ghost use Rattle.vs_plan.specs.declared.costs.TheConstants.{MAX_PLAN_COST};
ghost use Rattle.vs_instance.specs.Plan.{IsPlan, plan_cost, vehicles_used};

use crate::block::{Block, Plan};
use crate::costs::blocks_cost;
use crate::cover::cover_fault;
use crate::plan_fault::{PlanError, PlanFault};
use std::alloc::Global;
use vs_connect::{connects, in_cost, out_cost};
use vs_instance::Instance;
use vs_types::{LayerNo, Memory};

/// What is wrong with how the vehicle of block b gets to the trip at this place.
fn arrival_fault(instance: &Instance, b: u32, block: &Block, place: u32) -> Option<PlanFault>
    requires block { IsOfInstance instance.now (pair_of block.now) }
    requires place { place < length block.now.trips.items }
    ensures { result ≡ first
        (arrival_faults instance.now b block.now.layer block.now.trips.items place) }
{
    let trip = block.trips[place as usize];
    if place == 0 {
        return match out_cost(instance, block.layer, trip) {
            Some(_) => None,
            None => Some(PlanFault::NoPullOut(b)),
        };
    }
    if connects(instance, block.trips[place as usize - 1], trip) {
        None
    } else {
        Some(PlanFault::NoConnection(b, place))
    }
}

/// What is wrong at this place of block b.
fn place_fault(instance: &Instance, b: u32, block: &Block, place: u32) -> Option<PlanFault>
    requires block { IsOfInstance instance.now (pair_of block.now) }
    requires place { place < length block.now.trips.items }
    ensures { result ≡ first
        (place_faults instance.now b block.now.layer block.now.trips.items place) }
{
    // for the proof: the instance is within its limits
    prove!(block.layer.0 < instance.layers());
    if !instance
        .trip(block.trips[place as usize])
        .layers
        .has(block.layer)
    {
        return Some(PlanFault::NotPermitted(b, place));
    }
    arrival_fault(instance, b, block, place)
}

/// What is wrong with how the vehicle of block b gets back to its depot.
fn return_fault(instance: &Instance, b: u32, block: &Block) -> Option<PlanFault>
    requires { IsOfInstance instance.now (pair_of block.now) }
    ensures { result ≡ first
        (return_faults instance.now b block.now.layer block.now.trips.items) }
{
    let last = block.trips[block.trips.len() - 1];
    match in_cost(instance, block.layer, last) {
        Some(_) => None,
        None => Some(PlanFault::NoPullIn(b)),
    }
}

/// The first error of block b.
fn block_fault(instance: &Instance, b: u32, block: &Block) -> Option<PlanFault>
    requires block { IsOfInstance instance.now (pair_of block.now) }
    requires few { length block.now.trips.items < 2 ^ 32 }
    ensures { result ≡ first (block_faults instance.now b (pair_of block.now)) }
{
    for place in 0..block.trips.len() as u32 {
        if let Some(fault) = place_fault(instance, b, block, place) {
            return Some(fault);
        }
    }
    return_fault(instance, b, block)
}

/// The first error of the blocks by themselves.
fn blocks_fault(instance: &Instance, blocks: &[Block]) -> Option<PlanFault>
    requires { CanBeJudged instance.now (pairs_of blocks.now) }
    ensures { result ≡ first (blocks_faults instance.now (pairs_of blocks.now)) }
{
    for (b, block) in blocks.iter().enumerate() {
        if let Some(fault) = block_fault(instance, b as u32, block) {
            return Some(fault);
        }
    }
    None
}

/// How many of the blocks are layer l's.
fn vehicles_used(blocks: &[Block], l: LayerNo) -> usize
    ensures { result ≡ vehicles_used (pairs_of blocks.now) l.0 }
{
    blocks.iter().filter(|block| block.layer == l).count()
}

/// Whether more vehicles of layer l are used than it has.
fn layer_fault(instance: &Instance, blocks: &[Block], l: LayerNo) -> Option<PlanFault>
    requires few { length blocks.now < 2 ^ 32 }
    requires layer { l.0 < length instance.now.layers }
    ensures { result ≡ first (layer_faults instance.now (pairs_of blocks.now) l.0) }
{
    let used = vehicles_used(blocks, l) as u32;
    if u64::from(used) > instance.layer(l).fleet {
        Some(PlanFault::Fleet(l, used))
    } else {
        None
    }
}

/// The first layer of which more vehicles are used than it has.
fn fleet_fault(instance: &Instance, blocks: &[Block]) -> Option<PlanFault>
    requires { length blocks.now < 2 ^ 32 }
    ensures { result ≡ first (fleet_faults instance.now (pairs_of blocks.now)) }
{
    for l in 0..instance.layers() {
        if let Some(fault) = layer_fault(instance, blocks, LayerNo(l)) {
            return Some(fault);
        }
    }
    None
}

/// The first error of the blocks together: of the trips that they run, and of the vehicles that they use.
fn joint_fault(
    alloc: Global,
    instance: &Instance,
    blocks: &[Block],
) -> Result<Option<PlanFault>, Memory>
    requires { CanBeJudged instance.now (pairs_of blocks.now) }
    ensures { IfOk result
        (λ fault. fault ≡ first (joint_faults instance.now (pairs_of blocks.now))) }
{
    match cover_fault(alloc, instance, blocks)? {
        Some(fault) => Ok(Some(fault)),
        None => Ok(fleet_fault(instance, blocks)),
    }
}

/// The first of all errors of the blocks.
fn plan_fault(
    alloc: Global,
    instance: &Instance,
    blocks: &[Block],
) -> Result<Option<PlanFault>, Memory>
    requires { CanBeJudged instance.now (pairs_of blocks.now) }
    ensures { IfOk result (λ fault. fault ≡ first (faults_of instance.now (pairs_of blocks.now))) }
{
    match blocks_fault(instance, blocks) {
        Some(fault) => Ok(Some(fault)),
        None => joint_fault(alloc, instance, blocks),
    }
}

/// What the plan costs, in cost units, or the first of all errors. Its blocks come first, each by its trips
/// in order and then by its way back. Then come the trips that stand more than once, then those that stand
/// nowhere, and last the fleets.
pub fn judge(alloc: Global, instance: &Instance, plan: &Plan) -> Result<i64, PlanError>
    requires { CanBeJudged instance.now (blocks_of plan.now) }
    ensures plan { IfOk result (λ cost. IsPlan instance.now (blocks_of plan.now)
        × (cost ≡ pos (plan_cost instance.now (blocks_of plan.now)))) }
    ensures limit { IfOk result (λ cost. cost ≤ℤ MAX_PLAN_COST) }
    ensures fault { IfErr result (IsFirstFault instance.now (blocks_of plan.now)) }
    ensures refused { IfErr result (λ e. IsFault e → ¬ (IsPlan instance.now (blocks_of plan.now))) }
{
    let blocks = plan.blocks.as_slice();
    match plan_fault(alloc, instance, blocks)? {
        Some(fault) => Err(PlanError::Fault(fault)),
        None => Ok(blocks_cost(instance, blocks)),
    }
}
