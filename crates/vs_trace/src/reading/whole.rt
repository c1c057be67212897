//! The reading of a whole trace.

ghost use Rattle.std.specs.Prelude.{◌≡◌, ◌<◌, ◌↔◌, All, IfOk, IfErr, IsTrue, length};
ghost use Rattle.vs_reader.specs.Rows.{row_of};
ghost use Rattle.vs_rows.specs.RowForms.{IsInput};
ghost use Rattle.vs_trace.specs.TraceRows.{head_row};
ghost use Rattle.vs_trace.specs.Traces.{IsReadFor};
ghost use Rattle.vs_trace.specs.declared.trace.Trace.{Trace as TraceOf};
ghost use Rattle.vs_trace.specs.Alike.{AreAlike};
ghost use Rattle.vs_trace.specs.Reading.{IsBlankStep, IsRefusalOf, IsTraceOf};
ghost use Rattle.vs_trace.specs.TraceRefusals.{IsRefusedError};

use crate::reading::beginning::{read_first, read_opening};
use crate::reading::forms::is_head;
use crate::reading::steps::read_steps;
use crate::refused::{TraceError, TraceWhy, refusal};
use crate::trace::Trace;
use std::alloc::Global;
use vs_reader::{Input, Rows};

/// The trace for which the rows of the input's rest stand; else the first row that is refused, and why. Prices for
/// trips that a layer may not run, which no row gives, are 0.
pub fn read(alloc: Global, input: &Input) -> Result<Trace, TraceError>
    requires { IsInput input.now }
    ensures found { IfOk result (IsTraceOf input.now) }
    ensures blank { IfOk result (λ t. All (IsBlankStep input.now.instance) t.steps.items) }
    ensures read_for { IfOk result (IsReadFor input.now.instance) }
    ensures only { IfOk result (λ t. (other : TraceOf)
        → IsTraceOf input.now other → AreAlike input.now.instance t other) }
    ensures refused { IfErr result (IsRefusalOf input.now) }
    ensures none { IfErr result (λ e. IsRefusedError e → (t : TraceOf) → ¬ (IsTraceOf input.now t)) }
{
    // for the proof: names are apart, and so a row says one thing
    let _names = (input.names.layers(), input.names.trips());
    read_rows(alloc, input)
}

/// The trace for which the rows stand; else the first row that is refused.
fn read_rows(alloc: Global, input: &Input) -> Result<Trace, TraceError>
    requires { IsInput input.now }
    ensures found { IfOk result (IsTraceOf input.now) }
    ensures blank { IfOk result (λ t. All (IsBlankStep input.now.instance) t.steps.items) }
    ensures read_for { IfOk result (IsReadFor input.now.instance) }
    ensures refused { IfErr result (IsRefusalOf input.now) }
{
    if !has_head(&input.rest) {
        return Err(refusal(input, 0, TraceWhy::NoTrace));
    }
    let (budget, workers) = read_opening(alloc, input)?;
    let (first, at) = read_first(alloc, input)?;
    let (steps, end) = read_steps(alloc, input, at)?;
    if end + 1 < input.rest.len() {
        return Err(refusal(input, end + 1, TraceWhy::RowsAfterEnd));
    }
    Ok(Trace {
        budget,
        workers,
        first,
        steps,
    })
}

/// Whether the first row is `result`, `1`, `trace`.
fn has_head(rows: &Rows) -> bool
    ensures { IsTrue result ↔ ((0 < length rows.now) × (row_of rows.now 0 ≡ head_row)) }
{
    rows.len() > 0 && is_head(rows, 0)
}
