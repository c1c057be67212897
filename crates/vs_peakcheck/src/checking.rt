//! What is claimed of layers, judged.

ghost use Rattle.std.specs.Prelude.{◌≡◌, ◌<◌, ◌↔◌, length, IfOk};
ghost use Rattle.vs_peakcheck.specs.Counting.{counting};
ghost use Rattle.vs_instance.specs.Firsts.{first};
ghost use Rattle.vs_plan.specs.Blocks.{CanBeJudged, blocks_of, pairs_of};
ghost use Rattle.vs_prices.specs.Table.{Fits};
ghost use Rattle.vs_peakcheck.specs.Claims.{CanBeChecked, IsClaimed, IsShort};
ghost use Rattle.vs_peakcheck.specs.Flaws.{count_flaws, difference, flaws_in, flaws_of, table_flaws, verdict_of, weak_flaws, weakness};
ghost use Rattle.vs_peakcheck.specs.HoldingClaims.{HoldingClaims, ProvePeaks};
ghost use Rattle.vs_peakcheck.specs.declared.flaw.PeakVerdict.TheVariants.{Yes};

use crate::claimed::Claimed;
use crate::counted::counting;
use crate::flaw::{PeakFlaw, PeakVerdict};
use std::alloc::Global;
use vs_instance::Instance;
use vs_plan::{Block, Plan, PlanError, judge};
use vs_prices::{Bound, Table, broken, permitted_sets, worth};
use vs_types::{LayerNo, Memory};

/// Whether what is claimed of each layer holds, and else the first flaw of the first layer that has one. Whoever claims
/// it, yes alone means that each count is how many vehicles the layer needs for all that it may run. It also means that
/// no number is enough where no count is claimed.
pub fn check(alloc: Global, instance: &Instance, claimed: &[Claimed]) -> Result<PeakVerdict, Memory>
    requires { CanBeChecked instance.now claimed.now }
    ensures verdict { IfOk result (λ v.
        v ≡ verdict_of (first (flaws_of instance.now claimed.now))) }
    ensures yes { IfOk result (λ v. (v ≡ Yes) ↔ HoldingClaims instance.now claimed.now) }
    ensures proves { IfOk result (λ v. v ≡ Yes → ProvePeaks instance.now claimed.now) }
{
    // for the proof: the instance is within its limits
    let _layers = instance.layers();
    check_layers(alloc, instance, claimed)
}

/// The first flaw of the first layer that has one.
fn check_layers(
    alloc: Global,
    instance: &Instance,
    claimed: &[Claimed],
) -> Result<PeakVerdict, Memory>
    requires { CanBeChecked instance.now claimed.now }
    ensures { IfOk result (λ v. v ≡ verdict_of (first (flaws_of instance.now claimed.now))) }
{
    // for the proof: the instance is within its limits
    let _layers = instance.layers();
    for l in 0..claimed.len() {
        let layer = LayerNo(l as u32);
        let counted = counting(alloc, instance, layer)?;
        let found = flaw_in(alloc, &counted, &claimed[l])?;
        if let Some(flaw) = found {
            return Ok(PeakVerdict::No(layer, flaw));
        }
    }
    Ok(PeakVerdict::Yes)
}

/// The first flaw of what is claimed for an instance that counts vehicles.
fn flaw_in(alloc: Global, counted: &Instance, claimed: &Claimed) -> Result<Option<PeakFlaw>, Memory>
    requires claimed { IsClaimed counted.now claimed.now }
    requires short { IsShort claimed.now }
    ensures { IfOk result (λ flaw. flaw ≡ first (flaws_in counted.now claimed.now)) }
{
    let blocks = claimed.blocks.as_slice();
    if let Some(flaw) = count_flaw(alloc, counted, blocks, claimed.count)? {
        return Ok(Some(flaw));
    }
    if let Some(flaw) = table_flaw(counted, &claimed.table) {
        return Ok(Some(flaw));
    }
    weak_flaw(alloc, counted, &claimed.table, claimed.count)
}

/// What is wrong with the blocks of a count.
fn count_flaw(
    alloc: Global,
    counted: &Instance,
    blocks: &[Block],
    count: Option<u32>,
) -> Result<Option<PeakFlaw>, Memory>
    requires { CanBeJudged counted.now (pairs_of blocks.now) }
    ensures { IfOk result (λ flaw.
        flaw ≡ first (count_flaws counted.now (pairs_of blocks.now) count)) }
{
    let Some(count) = count else {
        return Ok(None);
    };
    let plan = plan_of(alloc, blocks)?;
    match judge(alloc, counted, &plan) {
        Err(PlanError::Memory) => Err(Memory),
        Err(PlanError::Fault(fault)) => Ok(Some(PeakFlaw::Blocks(fault))),
        Ok(_) => Ok(difference(count, blocks)),
    }
}

/// The flaw where there aren't as many blocks as are counted.
fn difference(count: u32, blocks: &[Block]) -> Option<PeakFlaw>
    requires { length blocks.now < 4294967296 }
    ensures { result ≡ first (difference count (length blocks.now)) }
{
    let found = blocks.len() as u32;
    if count == found {
        None
    } else {
        Some(PeakFlaw::CountDiffers(count, found))
    }
}

/// The same blocks as a plan that isn't judged yet.
fn plan_of(alloc: Global, blocks: &[Block]) -> Result<Plan, Memory>
    ensures { IfOk result (λ plan. blocks_of plan ≡ pairs_of blocks.now) }
{
    let mut copies = Vec::with_capacity(alloc, blocks.len())?;
    for k in 0..blocks.len() {
        let block: &Block = &blocks[k];
        copies.push(Block {
            layer: block.layer,
            trips: Vec::from_slice(alloc, &block.trips)?,
        })?;
    }
    Ok(Plan { blocks: copies })
}

/// The flaw where the prices break.
fn table_flaw(counted: &Instance, table: &Table) -> Option<PeakFlaw>
    requires { Fits counted.now table.now }
    ensures { result ≡ first (table_flaws counted.now table.now) }
{
    match broken(counted, table) {
        Some(at) => Some(PeakFlaw::TableBroken(at)),
        None => None,
    }
}

/// The flaw where the prices are worth less than the count, or show nothing where there is none.
fn weak_flaw(
    alloc: Global,
    counted: &Instance,
    table: &Table,
    count: Option<u32>,
) -> Result<Option<PeakFlaw>, Memory>
    requires { Fits counted.now table.now }
    ensures { IfOk result (λ flaw. flaw ≡ first (weak_flaws counted.now table.now count)) }
{
    let sets = permitted_sets(alloc, counted)?;
    let worth = worth(counted, &sets, table);
    Ok(weakness(worth, count))
}

/// The same, by what the prices are worth.
fn weakness(worth: Bound, count: Option<u32>) -> Option<PeakFlaw>
    ensures { result ≡ first (weakness worth count) }
{
    match (worth, count) {
        (Bound::NoPlan, _) => None,
        (Bound::AtLeast(n), None) => Some(PeakFlaw::TooWeak(n, None)),
        (Bound::AtLeast(n), Some(count)) => {
            if n < i128::from(count) {
                Some(PeakFlaw::TooWeak(n, Some(count)))
            } else {
                None
            }
        }
    }
}
