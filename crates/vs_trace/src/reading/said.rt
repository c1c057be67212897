//! What a row says.

ghost use Rattle.std.specs.Prelude.{◌<◌, ◌≤◌, length, IfOk, IfErr, IfSome, IfNone};
ghost use Rattle.vs_rows.specs.RowForms.{IsInput};
ghost use Rattle.vs_trace.specs.TraceRows.{SaysTrace, TraceRow};
ghost use Rattle.vs_trace.specs.Reading.{IsRefusedAnywhere};
ghost use Rattle.vs_trace.specs.Forms.{NeverTellsTrace, TellsTrace};
ghost use Rattle.vs_trace.specs.RowKinds.{IsBeginRow, IsStepRow, row_said};

use crate::reading::forms::{SplitOf, first, is_head, offered, opening, split, spot_row};
use crate::refused::{TraceError, TraceWhy, refusal};
use std::alloc::Global;
use vs_plan::Block;
use vs_reader::{Input, Rows};
use vs_rows::{Likely, Priced, forms, prices_said};

/// What a row says. Workers and spots are numbered from 0.
#[derive(Drop)]
pub(crate) enum Said {
    Head,
    Opening { budget: u32, workers: u32 },
    /// What the first plan costs, in cost units. None for `none`.
    First(Option<i64>),
    Took { worker: u32, spot: u32 },
    Split(SplitOf),
    Closed { worker: u32, spot: u32 },
    /// The cost is in cost units.
    Offered { worker: u32, cost: i64 },
    GaveBack { worker: u32, spot: u32 },
    Block(Block),
    Table { number: u32, ray: bool },
    /// The prices of a vehicle or of a trip.
    Prices(Priced),
    End,
}

/// What a row says. It is refused where there is none, and where it has the form of no row of a trace.
pub(crate) fn said_at(alloc: Global, input: &Input, row: usize) -> Result<Said, TraceError>
    requires input { IsInput input.now }
    requires row { row ≤ length input.now.rest }
    ensures within { IfOk result (λ _. row < length input.now.rest) }
    ensures says { IfOk result (λ said. SaysTrace input.now row (row_said said)) }
    ensures refused { IfErr result (IsRefusedAnywhere input.now row) }
{
    if row >= input.rest.len() {
        return Err(refusal(input, row, TraceWhy::EndsEarly));
    }
    if let Some(prices) = prices_said(input, row, Likely::first()) {
        return Ok(Said::Prices(prices));
    }
    if let Some(said) = step_said(input, row) {
        return Ok(said);
    }
    if let Some(said) = begin_said(&input.rest, row) {
        return Ok(said);
    }
    match forms::block(alloc, input, row)? {
        Some(block) => Ok(Said::Block(block)),
        None => Err(refusal(input, row, TraceWhy::BadRow)),
    }
}

/// What a row of a step says. None where it has not the form of one.
fn step_said(input: &Input, row: usize) -> Option<Said>
    requires input { IsInput input.now }
    requires row { row < length input.now.rest }
    ensures says { IfSome result (λ said. SaysTrace input.now row (row_said said)) }
    ensures none { IfNone result ((said : TraceRow) → IsStepRow said → ¬ (SaysTrace input.now row said)) }
{
    let rows = &input.rest;
    if let Some((worker, spot)) = spot_row(rows, row, "took") {
        return Some(Said::Took { worker, spot });
    }
    if let Some((worker, spot)) = spot_row(rows, row, "closed") {
        return Some(Said::Closed { worker, spot });
    }
    if let Some(split) = split(input, row) {
        return Some(Said::Split(split));
    }
    if let Some((worker, cost)) = offered(rows, row) {
        return Some(Said::Offered { worker, cost });
    }
    let (worker, spot) = spot_row(rows, row, "gaveback")?;
    Some(Said::GaveBack { worker, spot })
}

/// What a row says that begins a trace or a table, or ends a trace. None where it has not the form of one.
fn begin_said(rows: &Rows, row: usize) -> Option<Said>
    requires { row < length rows.now }
    ensures says { IfSome result (λ said. TellsTrace rows.now row (row_said said)) }
    ensures none { IfNone result ((said : TraceRow) → IsBeginRow said → NeverTellsTrace rows.now row said) }
{
    if let Some((number, ray)) = forms::table(rows, row) {
        return Some(Said::Table { number, ray });
    }
    if forms::is_end(rows, row) {
        return Some(Said::End);
    }
    if let Some((budget, workers)) = opening(rows, row) {
        return Some(Said::Opening { budget, workers });
    }
    if is_head(rows, row) {
        return Some(Said::Head);
    }
    let cost = first(rows, row)?;
    Some(Said::First(cost))
}
