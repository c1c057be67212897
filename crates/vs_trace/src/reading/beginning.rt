//! The reading of the opening and of the first plan.

ghost use Rattle.std.specs.Prelude.{◌≤◌, length, IfOk, IfErr};
ghost use Rattle.vs_rows.specs.RowForms.{IsInput};
ghost use Rattle.vs_trace.specs.Places.{AtFirst, AtOpening};
ghost use Rattle.vs_trace.specs.Reading.{IsRefusedAt, ReadsCost, ReadsFirst, ReadsOpening};

use crate::reading::said::{Said, said_at};
use crate::refused::{TraceError, TraceWhy, refusal};
use std::alloc::Global;
use vs_plan::Plan;
use vs_reader::Input;
use vs_rows::read_blocks;

/// How many leaves may be worked on, and how many workers there are, in the second row.
pub(crate) fn read_opening(alloc: Global, input: &Input) -> Result<(u32, u32), TraceError>
    requires input { IsInput input.now }
    requires row { 1 ≤ length input.now.rest }
    ensures found { IfOk result (λ r. ReadsOpening input.now r.0 r.1) }
    ensures refused { IfErr result (IsRefusedAt input.now 1 AtOpening) }
{
    let said = said_at(alloc, input, 1)?;
    match said {
        Said::Opening { budget, workers } => Ok((budget, workers)),
        _ => Err(refusal(input, 1, TraceWhy::OutOfOrder)),
    }
}

/// The first plan with its cost, where there is one, and the row behind it.
pub(crate) fn read_first(
    alloc: Global,
    input: &Input,
) -> Result<(Option<(i64, Plan)>, usize), TraceError>
    requires input { IsInput input.now }
    requires row { 2 ≤ length input.now.rest }
    ensures found { IfOk result (λ r. ReadsFirst input.now r.1 r.0) }
    ensures refused { IfErr result (IsRefusedAt input.now 2 AtFirst) }
{
    let told = read_cost(alloc, input)?;
    let Some(cost) = told else {
        return Ok((None, 3));
    };
    let (blocks, next) = read_blocks(alloc, input, 3)?;
    let plan = Plan { blocks };
    Ok((Some((cost, plan)), next))
}

/// What the first plan costs, in the third row.
fn read_cost(alloc: Global, input: &Input) -> Result<Option<i64>, TraceError>
    requires input { IsInput input.now }
    requires row { 2 ≤ length input.now.rest }
    ensures found { IfOk result (ReadsCost input.now) }
    ensures refused { IfErr result (IsRefusedAt input.now 2 AtFirst) }
{
    let said = said_at(alloc, input, 2)?;
    match said {
        Said::First(cost) => Ok(cost),
        _ => Err(refusal(input, 2, TraceWhy::OutOfOrder)),
    }
}
