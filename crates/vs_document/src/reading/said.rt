//! What a row says.

ghost use Rattle.std.specs.Prelude.{◌≡◌, ◌<◌, ◌≤◌, length, IfOk, IfErr, IfSome, IfNone};
ghost use Rattle.vs_rows.specs.DocumentRows.{DocumentRow};
ghost use Rattle.vs_rows.specs.RowForms.{IsInput, NeverTells, SaysThere, Tells};
ghost use Rattle.vs_document.specs.Reading.{IsRefusedAnywhere};
ghost use Rattle.vs_document.specs.RowKinds.{row_said, IsOtherRow, IsHeadRow};

use crate::refused::{DocError, DocWhy, refusal};
use std::alloc::Global;
use vs_plan::Block;
use vs_prices::Claim;
use vs_reader::{Input, Rows};
use vs_rows::{Likely, Priced, forms, prices_said};
use vs_types::{LayerSet, TripNo};

/// What a row says.
#[derive(Drop)]
pub enum Said {
    Claim(Claim),
    /// In cost units. None for `none`.
    Cost(Option<i64>),
    /// In cost units. None for `none`.
    Bound(Option<i128>),
    Nodes(u64),
    Block(Block),
    Table { number: u32, ray: bool },
    /// The prices of a vehicle or of a trip.
    Prices(Priced),
    Split { trip: TripNo, left: LayerSet },
    Leaf { number: u32 },
    End,
}

/// What a row says. It is refused where there is none, and where it has the form of no row of a document.
pub fn said_at(alloc: Global, input: &Input, row: usize) -> Result<Said, DocError>
    requires input { IsInput input.now }
    requires row { row ≤ length input.now.rest }
    ensures within { IfOk result (λ _. row < length input.now.rest) }
    ensures says { IfOk result (λ said. SaysThere input.now row (row_said said)) }
    ensures refused { IfErr result (IsRefusedAnywhere input.now row) }
{
    if row >= input.rest.len() {
        return Err(refusal(input, row, DocWhy::EndsEarly));
    }
    if let Some(prices) = prices_said(input, row, Likely::first()) {
        return Ok(Said::Prices(prices));
    }
    if let Some(said) = other_said(input, row) {
        return Ok(said);
    }
    match forms::block(alloc, input, row)? {
        Some(block) => Ok(Said::Block(block)),
        None => Err(refusal(input, row, DocWhy::BadRow)),
    }
}

/// What a row says that is neither one of prices nor a block. None where it has not the form of one.
fn other_said(input: &Input, row: usize) -> Option<Said>
    requires input { IsInput input.now }
    requires row { row < length input.now.rest }
    ensures says { IfSome result (λ said. SaysThere input.now row (row_said said)) }
    ensures none { IfNone result ((said : DocumentRow) → IsOtherRow said
        → ¬ (SaysThere input.now row said)) }
{
    if let Some(number) = forms::leaf(&input.rest, row) {
        return Some(Said::Leaf { number });
    }
    if let Some((trip, left)) = forms::split(input, row) {
        return Some(Said::Split { trip, left });
    }
    if let Some((number, ray)) = forms::table(&input.rest, row) {
        return Some(Said::Table { number, ray });
    }
    if forms::is_end(&input.rest, row) {
        return Some(Said::End);
    }
    head_said(&input.rest, row)
}

/// What one of the first four rows says. None where it has not the form of one.
fn head_said(rows: &Rows, row: usize) -> Option<Said>
    requires { row < length rows.now }
    ensures says { IfSome result (λ said. Tells rows.now row (row_said said)) }
    ensures none { IfNone result ((said : DocumentRow) → IsHeadRow said
        → NeverTells rows.now row said) }
{
    if let Some(claim) = forms::claim(rows, row) {
        return Some(Said::Claim(claim));
    }
    if let Some(cost) = forms::cost(rows, row) {
        return Some(Said::Cost(cost));
    }
    if let Some(bound) = forms::bound(rows, row) {
        return Some(Said::Bound(bound));
    }
    let nodes = forms::nodes(rows, row)?;
    Some(Said::Nodes(nodes))
}
