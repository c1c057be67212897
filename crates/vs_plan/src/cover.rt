//! Whether each trip stands once in the blocks: what is wrong where one stands more than once or nowhere.

ghost use Rattle.std.specs.Prelude.{◌≡◌, ℕ, ◌+◌, ◌<◌, ◌≤◌, ◌^◌, ◌==◌, length, All, IfOk, count_by, slice_index};
ghost use Rattle.vs_plan.specs.Blocks.{CanBeJudged, pairs_of};
ghost use Rattle.vs_instance.specs.Firsts.{first};
ghost use Rattle.vs_plan.specs.PlanFaults.{cover_faults, times_of, twice_faults, uncovered_faults};

use crate::block::Block;
use crate::plan_fault::PlanFault;
use std::alloc::Global;
use vs_instance::{Instance, MAX_TRIPS};
use vs_types::{Memory, TripNo};

/// Counts each of the trips once more.
fn count_trips(counts: &mut [u32], trips: &[TripNo])
    requires trips { All (λ i. i.0 < length counts.old) trips.now }
    requires room { (i : ℕ) → i < length counts.old
        → slice_index counts.old i + length trips.now < 2 ^ 32 }
    ensures { (i : ℕ) → i < length counts.old
        → slice_index counts.new i ≡ slice_index counts.old i + count_by (λ t. t.0 == i) trips.now }
{
    for i in trips {
        counts[i.0 as usize] += 1;
    }
}

/// How often each trip of the instance stands in the blocks, in number order.
fn times_run(alloc: Global, instance: &Instance, blocks: &[Block]) -> Result<Vec<u32>, Memory>
    requires { CanBeJudged instance.now (pairs_of blocks.now) }
    ensures times { IfOk result
        (λ times. times.items ≡ times_of instance.now (pairs_of blocks.now)) }
    ensures few { IfOk result (λ times. length times.items ≤ MAX_TRIPS) }
{
    let mut times = vec![in alloc; 0; instance.trips() as usize]?;
    for block in blocks {
        count_trips(&mut times, &block.trips);
    }
    Ok(times)
}

/// The first trip that stands more than once.
fn twice_fault(times: &[u32]) -> Option<PlanFault>
    requires { length times.now ≤ MAX_TRIPS }
    ensures { result ≡ first (twice_faults times.now) }
{
    for (i, count) in times.iter().enumerate() {
        if *count > 1 {
            return Some(PlanFault::Twice(TripNo(i as u32)));
        }
    }
    None
}

/// The first trip that stands nowhere.
fn uncovered_fault(times: &[u32]) -> Option<PlanFault>
    requires { length times.now ≤ MAX_TRIPS }
    ensures { result ≡ first (uncovered_faults times.now) }
{
    for (i, count) in times.iter().enumerate() {
        if *count < 1 {
            return Some(PlanFault::Uncovered(TripNo(i as u32)));
        }
    }
    None
}

/// The first trip that stands more than once, else the first that stands nowhere.
pub fn cover_fault(
    alloc: Global,
    instance: &Instance,
    blocks: &[Block],
) -> Result<Option<PlanFault>, Memory>
    requires { CanBeJudged instance.now (pairs_of blocks.now) }
    ensures { IfOk result
        (λ fault. fault ≡ first (cover_faults instance.now (pairs_of blocks.now))) }
{
    let times = times_run(alloc, instance, blocks)?;
    match twice_fault(&times) {
        Some(fault) => Ok(Some(fault)),
        None => Ok(uncovered_fault(&times)),
    }
}
