//! The reading of blocks.

ghost use Rattle.std.specs.Prelude.{◌≡◌, ◌<◌, ◌≤◌, ℕ, Option, length, map, All, Contains, IfOk, IfErr, IfSome, IfNone, MatchOption, slice_index_or};
ghost use Rattle.vs_plan.specs.Blocks.{pair_of, pairs_of};
ghost use Rattle.vs_instance.specs.declared.limits.TheConstants.{MAX_TRIPS};
ghost use Rattle.vs_rows.specs.DocumentRows.{BlockRow};
ghost use Rattle.vs_rows.specs.RowForms.{IsInput, SaysThere};
ghost use Rattle.vs_peakcheck.specs.Counting.{numbered, permitted_trips};
ghost use Rattle.vs_peakcheck.specs.Places.{AtBlocks, MayRun};
ghost use Rattle.vs_peakcheck.specs.Reading.{IsCountedBlock, IsRefusedAt, ReadsBlocks};

use crate::refused::{PeakError, PeakWhy, refusal};
use std::alloc::Global;
use vs_instance::Instance;
use vs_plan::Block;
use vs_reader::Input;
use vs_rows::forms;
use vs_types::{LayerNo, Memory, TripNo};

/// The blocks that stand from a row on together with a count of layer l, and the row behind them. They are in the
/// numbers of the layer's trips.
pub(crate) fn read_blocks(
    alloc: Global,
    input: &Input,
    at: usize,
    l: LayerNo,
    count: Option<u32>,
    trips: &[TripNo],
) -> Result<(Vec<Block>, usize), PeakError>
    requires input { IsInput input.now }
    requires row { at ≤ length input.now.rest }
    requires trips { trips.now ≡ map numbered (permitted_trips input.now.instance l.0) }
    ensures found { IfOk result (λ r. ReadsBlocks input.now at l count r.1 (pairs_of r.0.items)) }
    ensures refused { IfErr result (IsRefusedAt input.now at (AtBlocks l.0 count)) }
{
    let mut blocks = Vec::new(alloc);
    if count.is_none() {
        return Ok((blocks, at));
    }
    for row in at..input.rest.len() {
        let Some(block) = forms::block(alloc, input, row)? else {
            return Ok((blocks, row));
        };
        let counted = block_at(alloc, input, row, l, trips, &block)?;
        blocks.push(counted)?;
    }
    Ok((blocks, input.rest.len()))
}

/// The block that a row gives, in the numbers of layer l's trips. It is refused where it is another layer's, and where
/// it has a trip that l may not run.
fn block_at(
    alloc: Global,
    input: &Input,
    row: usize,
    l: LayerNo,
    trips: &[TripNo],
    block: &Block,
) -> Result<Block, PeakError>
    requires input { IsInput input.now }
    requires row { row < length input.now.rest }
    requires trips { trips.now ≡ map numbered (permitted_trips input.now.instance l.0) }
    requires block { SaysThere input.now row (BlockRow (pair_of block.now)) }
    ensures found { IfOk result (λ b.
        IsCountedBlock input.now.instance l (pair_of block.now) (pair_of b)) }
    ensures refused { IfErr result (λ e. (count : Option ℕ)
        → IsRefusedAt input.now row (AtBlocks l.0 count) e) }
{
    let Some(counted) = counted_block(alloc, &input.instance, l, trips, block)? else {
        return Err(refusal(input, row, PeakWhy::OutOfOrder));
    };
    Ok(counted)
}

/// The block in the numbers of layer l's trips. None where it is another layer's, or has a trip that l may not run.
fn counted_block(
    alloc: Global,
    instance: &Instance,
    l: LayerNo,
    trips: &[TripNo],
    block: &Block,
) -> Result<Option<Block>, Memory>
    requires trips { trips.now ≡ map numbered (permitted_trips instance.now l.0) }
    requires block { All (λ i. i.0 < length instance.now.trips) block.now.trips.items }
    ensures found { IfOk result (λ r. IfSome r (λ b.
        IsCountedBlock instance.now l (pair_of block.now) (pair_of b))) }
    ensures none { IfOk result (λ r. IfNone r (¬ (MayRun instance.now l.0 (pair_of block.now)))) }
{
    // for the proof: the instance is within its limits
    let _trips = instance.trips();
    if block.layer != l {
        return Ok(None);
    }
    let mut counted = Vec::with_capacity(alloc, block.trips.len())?;
    for k in 0..block.trips.len() {
        let Some(place) = place_of(trips, block.trips[k]) else {
            return Ok(None);
        };
        counted.push(TripNo(place))?;
    }
    Ok(Some(Block {
        layer: LayerNo(0),
        trips: counted,
    }))
}

/// Where the trip stands among these.
fn place_of(trips: &[TripNo], i: TripNo) -> Option<u32>
    requires { length trips.now ≤ MAX_TRIPS }
    ensures { MatchOption result (¬ (Contains trips.now i))
        (λ k. (k < length trips.now) × (slice_index_or trips.now k i ≡ i)) }
{
    for k in 0..trips.len() as u32 {
        if trips[k as usize] == i {
            return Some(k);
        }
    }
    None
}
