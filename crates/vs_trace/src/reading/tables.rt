//! The reading of the table of a step.

ghost use Rattle.std.specs.Prelude.{◌≤◌, length, IfOk, IfErr};
ghost use Rattle.vs_rows.specs.declared.limits.TheConstants.{MAX_NUMBER};
ghost use Rattle.vs_rows.specs.RowForms.{IsInput};
ghost use Rattle.vs_rows.specs.TableReading.{ReadsTable};
ghost use Rattle.vs_trace.specs.Places.{AtTable};
ghost use Rattle.vs_trace.specs.Reading.{IsRefusedAt};

use crate::reading::wrong::{another_row, wrong_price};
use crate::refused::{TraceError, TraceWhy, refusal};
use std::alloc::Global;
use vs_prices::Table;
use vs_reader::Input;
use vs_rows::{TableError, read_table};

/// The table that stands from a row on behind so many others, and the row behind it.
pub(crate) fn next_table(
    alloc: Global,
    input: &Input,
    at: usize,
    before: usize,
) -> Result<(Table, usize), TraceError>
    requires input { IsInput input.now }
    requires row { at ≤ length input.now.rest }
    requires before { before ≤ MAX_NUMBER }
    ensures found { IfOk result (λ r. ReadsTable input.now at before r.1 r.0) }
    ensures refused { IfErr result (IsRefusedAt input.now at (AtTable before)) }
{
    match read_table(alloc, input, at, before) {
        Ok(read) => Ok(read),
        Err(error) => match error {
            TableError::NoTable => Err(another_row(alloc, input, at)),
            TableError::Number => Err(refusal(input, at, TraceWhy::TableNumber)),
            TableError::Prices { row, why } => Err(wrong_price(alloc, input, row, why)),
            TableError::Memory => Err(TraceError::Memory),
        },
    }
}
