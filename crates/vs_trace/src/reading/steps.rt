//! The reading of the steps.

ghost use Rattle.std.specs.Prelude.{◌≤◌, [], length, IfOk, IfErr};
ghost use Rattle.vs_rows.specs.RowForms.{IsInput};
ghost use Rattle.vs_rows.specs.declared.limits.TheConstants.{MAX_NUMBER};
ghost use Rattle.vs_trace.specs.TraceRows.{ClosedRow, OfferedRow, SplitRow};
ghost use Rattle.vs_trace.specs.Places.{InTable};
ghost use Rattle.vs_trace.specs.Reading.{IsRefusedAt, ReadsStep, ReadsSteps, StandsThere};

use crate::reading::forms::SplitOf;
use crate::reading::said::{Said, said_at};
use crate::reading::tables::next_table;
use crate::refused::{TraceError, TraceWhy, refusal};
use crate::trace::Full;
use std::alloc::Global;
use vs_plan::Plan;
use vs_reader::Input;
use vs_rows::read_blocks;

/// What was read of the steps.
#[derive(Drop)]
pub(crate) enum Read {
    /// A step, the row behind it, and how many tables stand before that.
    Step {
        step: Full,
        next: usize,
        tables: usize,
    },
    /// The end.
    End,
}

/// The steps that stand from a row on, and the row of the end.
pub(crate) fn read_steps(
    alloc: Global,
    input: &Input,
    at: usize,
) -> Result<(Vec<Full>, usize), TraceError>
    requires input { IsInput input.now }
    requires row { at ≤ length input.now.rest }
    ensures found { IfOk result (λ r. ReadsSteps input.now at r.1 r.0.items) }
    ensures refused { IfErr result (IsRefusedAt input.now at (InTable 0 [])) }
{
    let mut steps = Vec::new(alloc);
    let mut row = at;
    let mut before = 0;
    while row < input.rest.len() {
        let read = read_step(alloc, input, row, before)?;
        match read {
            Read::End => return Ok((steps, row)),
            Read::Step { step, next, tables } => {
                steps.push(step)?;
                row = next;
                before = tables;
            }
        }
    }
    Err(refusal(input, row, TraceWhy::EndsEarly))
}

/// The step that stands from a row on behind so many tables, or the end.
fn read_step(alloc: Global, input: &Input, row: usize, before: usize) -> Result<Read, TraceError>
    requires input { IsInput input.now }
    requires row { row ≤ length input.now.rest }
    requires before { before ≤ MAX_NUMBER }
    ensures found { IfOk result (ReadsStep input.now row before) }
    ensures refused { IfErr result (IsRefusedAt input.now row (InTable before [])) }
{
    let next = row + 1;
    let tables = before;
    let said = said_at(alloc, input, row)?;
    match said {
        Said::End => Ok(Read::End),
        Said::Took { worker, spot } => Ok(Read::Step {
            step: Full::Took { worker, spot },
            next,
            tables,
        }),
        Said::GaveBack { worker, spot } => Ok(Read::Step {
            step: Full::GaveBack { worker, spot },
            next,
            tables,
        }),
        Said::Closed { worker, spot } => read_closed(alloc, input, row, before, worker, spot),
        Said::Split(split) => read_split(alloc, input, row, before, split),
        Said::Offered { worker, cost } => read_offered(alloc, input, row, before, worker, cost),
        _ => Err(refusal(input, row, TraceWhy::OutOfOrder)),
    }
}

/// The offer at a row of a plan, with the blocks that stand behind it.
fn read_offered(
    alloc: Global,
    input: &Input,
    row: usize,
    before: usize,
    worker: u32,
    cost: i64,
) -> Result<Read, TraceError>
    requires input { IsInput input.now }
    requires before { before ≤ MAX_NUMBER }
    requires says { StandsThere input.now row (OfferedRow worker cost) }
    ensures found { IfOk result (ReadsStep input.now row before) }
    ensures refused { IfErr result (IsRefusedAt input.now row (InTable before [])) }
{
    let (blocks, next) = read_blocks(alloc, input, row + 1)?;
    let plan = Plan { blocks };
    let step = Full::Offered { worker, cost, plan };
    let tables = before;
    Ok(Read::Step { step, next, tables })
}

/// The closing of a leaf at a row, with the table that stands behind it.
fn read_closed(
    alloc: Global,
    input: &Input,
    row: usize,
    before: usize,
    worker: u32,
    spot: u32,
) -> Result<Read, TraceError>
    requires input { IsInput input.now }
    requires before { before ≤ MAX_NUMBER }
    requires says { StandsThere input.now row (ClosedRow worker spot) }
    ensures found { IfOk result (ReadsStep input.now row before) }
    ensures refused { IfErr result (IsRefusedAt input.now row (InTable before [])) }
{
    let (table, next) = next_table(alloc, input, row + 1, before)?;
    let step = Full::Closed {
        worker,
        spot,
        table,
    };
    let tables = before + 1;
    Ok(Read::Step { step, next, tables })
}

/// The split of a leaf at a row, with the table that stands behind it.
fn read_split(
    alloc: Global,
    input: &Input,
    row: usize,
    before: usize,
    split: SplitOf,
) -> Result<Read, TraceError>
    requires input { IsInput input.now }
    requires before { before ≤ MAX_NUMBER }
    requires says { StandsThere input.now row (SplitRow split.worker split.spot split.trip split.left) }
    ensures found { IfOk result (ReadsStep input.now row before) }
    ensures refused { IfErr result (IsRefusedAt input.now row (InTable before [])) }
{
    let (table, next) = next_table(alloc, input, row + 1, before)?;
    let step = Full::Split {
        worker: split.worker,
        spot: split.spot,
        trip: split.trip,
        left: split.left,
        table,
    };
    let tables = before + 1;
    Ok(Read::Step { step, next, tables })
}
