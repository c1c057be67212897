//! The verdict on a document: its flaws one after the other, the first of which is reported.

ghost use Rattle.std.specs.Prelude.{◌≡◌, ◌<◌, ◌^◌, ◌↔◌, length, slice_get, All, IfOk};
ghost use Rattle.vs_check.specs.Flaws.{claim_flaws, leaf_flaws, named_flaws, plan_flaws, shape_flaws, IsVerdictWithin, flaws_of, tables_flaws, verdict_of};
ghost use Rattle.vs_types.specs.Parts.{is_proper_part};
ghost use Rattle.vs_check.specs.Walk.{GoesOver};
ghost use Rattle.vs_document.specs.Form.{IsReadFor};
ghost use Rattle.vs_rows.specs.Shapes.{IsShapeOf};
ghost use Rattle.vs_check.specs.HoldingDocument.{HoldingDocument, ProvesItsClaim};
ghost use Rattle.vs_prices.specs.Claims.{claim_found};
ghost use Rattle.vs_instance.specs.Firsts.{first};
ghost use Rattle.vs_instance.specs.Instance.{IsInstance};
ghost use Rattle.vs_instance.specs.Restriction.{IsRestriction};
ghost use Rattle.vs_plan.specs.Blocks.{CanBeJudged, blocks_of};
ghost use Rattle.vs_prices.specs.Table.{Fits};
ghost use Rattle.vs_need.specs.Nets.{AreNets};
ghost use Rattle.vs_need.specs.Room.{HasRoom};

use crate::flaw::Flaw;
use crate::walk::Walk;
use std::alloc::Global;
use vs_document::{Document, Shape};
use vs_instance::{Instance, MAX_TRIPS};
use vs_match::layer_nets;
use vs_need::{Counted, Scratch, broken_for};
use vs_plan::{PlanError, judge};
use vs_prices::{Bound, Table, claim_found, worth};
use vs_types::{LayerSet, Memory};

/// Whether a document holds, and else its first flaw.
#[derive(Clone, Copy, Debug, PartialEq, Eq)]
pub enum Verdict {
    /// The document holds.
    Yes,
    /// It doesn't, first of all for this flaw.
    No(Flaw),
}

/// The flaw of the blocks, where a cost is printed.
fn plan_flaw(
    alloc: Global,
    instance: &Instance,
    document: &Document,
) -> Result<Option<Flaw>, Memory>
    requires { CanBeJudged instance.now (blocks_of document.now.plan) }
    ensures { IfOk result (λ flaw.
        flaw ≡ first (plan_flaws instance.now (blocks_of document.now.plan) document.now.cost)) }
{
    let Some(cost) = document.cost else {
        return Ok(None);
    };
    match judge(alloc, instance, &document.plan) {
        Err(PlanError::Memory) => Err(Memory),
        Err(PlanError::Fault(fault)) => Ok(Some(Flaw::Plan(fault))),
        Ok(found) => {
            if found == cost {
                return Ok(None);
            }
            Ok(Some(Flaw::CostDiffers(cost, found)))
        }
    }
}

/// The first table that breaks, and where, by passes along the nets of the layers.
fn first_broken(
    instance: &Instance,
    nets: &mut Counted,
    tables: &[Table],
    scratch: &mut Scratch,
) -> Option<Flaw>
    requires fits { All (Fits instance.now) tables.now }
    requires few { length tables.now < 2 ^ 32 }
    requires nets { AreNets instance.now nets.old.nets.now }
    requires room { HasRoom (length instance.now.trips) nets.old.nets.now scratch.old }
    ensures { result ≡ first (tables_flaws instance.now tables.now) }
{
    for (t, table) in tables.iter().enumerate() {
        let found = broken_for(instance, nets, table, scratch);
        if let Some(at) = found {
            return Some(Flaw::TableBroken(t as u32, at));
        }
    }
    None
}

/// The first table that breaks, and where. The net of each layer is built once for all tables.
fn tables_flaw(alloc: Global, instance: &Instance, tables: &[Table]) -> Result<Option<Flaw>, Memory>
    requires fits { All (Fits instance.now) tables.now }
    requires few { length tables.now < 2 ^ 32 }
    ensures { IfOk result (λ flaw. flaw ≡ first (tables_flaws instance.now tables.now)) }
{
    let nets = layer_nets(alloc, instance)?;
    let mut scratch = Scratch::new(alloc, &nets, instance.trips())?;
    let mut reader = Counted::new(&nets);
    Ok(first_broken(instance, &mut reader, tables, &mut scratch))
}

/// The flaw of a leaf at this position, whose table is worth so much there, compared with the
/// printed bound.
fn weak_flaw(position: u32, worth: Bound, bound: Option<i128>) -> Option<Flaw>
    ensures { result ≡ first (leaf_flaws position worth bound) }
{
    match (worth, bound) {
        (Bound::NoPlan, _) => None,
        (Bound::AtLeast(least), Some(bound)) if bound <= least => None,
        (Bound::AtLeast(least), bound) => Some(Flaw::LeafTooWeak(position, least, bound)),
    }
}

/// The flaw of a leaf at this position, which names this table, where each trip may be run in a
/// layer of its set.
fn leaf_flaw(
    instance: &Instance,
    document: &Document,
    position: u32,
    sets: &[LayerSet],
    table: u32,
) -> Option<Flaw>
    requires tables { All (Fits instance.now) document.now.tables.items }
    requires restriction { IsRestriction instance.now sets.now }
    requires named { table < length document.now.tables.items }
    ensures { let named = slice_get document.now.tables.items table in
        result ≡ first (named_flaws instance.now document.now.bound position sets.now named) }
{
    let worth = worth(instance, sets, &document.tables[table as usize]);
    weak_flaw(position, worth, document.bound)
}

/// The flaw of the row at this position of the shape. Where it has none, the walk goes on to the
/// next row.
fn row_flaw(
    instance: &Instance,
    document: &Document,
    position: u32,
    row: Shape,
    walk: &mut Walk,
) -> Result<Option<Flaw>, Memory>
    requires tables { All (Fits instance.now) document.now.tables.items }
    requires restriction { IsRestriction instance.now walk.old.sets.items }
    requires row { IsShapeOf instance.now (length document.now.tables.items) row }
    ensures { IfOk result (λ flaw.
        GoesOver instance.now document.now position row walk.old walk.new flaw) }
{
    match row {
        Shape::Leaf { table } => {
            let flaw = leaf_flaw(instance, document, position, walk.sets(), table);
            walk.leave_part();
            Ok(flaw)
        }
        Shape::Split { trip, left } => {
            if left.is_proper_part(walk.layers(trip)) {
                walk.enter_left(trip, left)?;
                return Ok(None);
            }
            Ok(Some(Flaw::BadSplit(position)))
        }
    }
}

/// The first flaw of the shape, row by row.
fn shape_flaw(
    alloc: Global,
    instance: &Instance,
    document: &Document,
) -> Result<Option<Flaw>, Memory>
    requires instance { IsInstance instance.now }
    requires read { IsReadFor instance.now document.now }
    ensures { IfOk result (λ flaw. flaw ≡ first (shape_flaws instance.now document.now)) }
{
    let mut walk = Walk::new(alloc, instance)?;
    for (position, row) in document.shape.iter().enumerate() {
        let found = row_flaw(instance, document, position as u32, *row, &mut walk)?;
        if let Some(flaw) = found {
            return Ok(Some(flaw));
        }
    }
    Ok(None)
}

/// The flaw of the claim, compared with the printed cost and bound.
fn claim_flaw(document: &Document) -> Option<Flaw>
    ensures { let found = claim_found document.now.cost document.now.bound in
        result ≡ first (claim_flaws document.now.claim found) }
{
    let found = claim_found(document.cost, document.bound);
    if document.claim == found {
        None
    } else {
        Some(Flaw::ClaimDiffers(document.claim, found))
    }
}

/// The first flaw of all.
fn first_flaw(
    alloc: Global,
    instance: &Instance,
    document: &Document,
) -> Result<Option<Flaw>, Memory>
    requires instance { IsInstance instance.now }
    requires read { IsReadFor instance.now document.now }
    ensures { IfOk result (λ flaw. flaw ≡ first (flaws_of instance.now document.now)) }
{
    if let Some(flaw) = plan_flaw(alloc, instance, document)? {
        return Ok(Some(flaw));
    }
    if let Some(flaw) = tables_flaw(alloc, instance, &document.tables)? {
        return Ok(Some(flaw));
    }
    if let Some(flaw) = shape_flaw(alloc, instance, document)? {
        return Ok(Some(flaw));
    }
    Ok(claim_flaw(document))
}

/// Judges a document, over all pairs of trips. Yes exactly where the document holds, and else the
/// first flaw. Flaws of the blocks and their cost come first, where a cost is printed. Then come
/// those of the tables by number, those of the shape row by row, and that of the claim.
///
/// Whoever wrote the document, yes alone proves that its blocks are a plan of the printed cost. It
/// also proves that no plan of the instance costs less than the printed bound.
pub fn check(alloc: Global, instance: &Instance, document: &Document) -> Result<Verdict, Memory>
    requires { IsReadFor instance.now document.now }
    ensures verdict { IfOk result (λ verdict.
        verdict ≡ verdict_of (first (flaws_of instance.now document.now))) }
    ensures holds { IfOk result (λ verdict.
        (verdict ≡ Verdict.Yes) ↔ HoldingDocument instance.now document.now) }
    ensures of_instance { IfOk result
        (IsVerdictWithin (length instance.now.layers) (length instance.now.trips)) }
    ensures proves { IfOk result (λ verdict.
        verdict ≡ Verdict.Yes → ProvesItsClaim instance.now document.now) }
{
    prove!(instance.trips() <= MAX_TRIPS);
    Ok(match first_flaw(alloc, instance, document)? {
        None => Verdict::Yes,
        Some(flaw) => Verdict::No(flaw),
    })
}
