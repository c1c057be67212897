//! What a row says.

ghost use Rattle.std.specs.Prelude.{◌<◌, ◌≤◌, length, IfOk, IfErr};
ghost use Rattle.vs_rows.specs.RowForms.{IsInput};
ghost use Rattle.vs_peakcheck.specs.PeakRows.{SaysPeak};
ghost use Rattle.vs_peakcheck.specs.Reading.{IsRefusedAnywhere, peak_said};

use crate::reading::counts::count;
use crate::refused::{PeakError, PeakWhy, refusal};
use std::alloc::Global;
use vs_plan::Block;
use vs_reader::Input;
use vs_rows::{Likely, Priced, forms, prices_said};
use vs_types::LayerNo;

/// What a row says.
#[derive(Drop)]
pub(crate) enum Said {
    /// How many vehicles a layer needs. None for `none`.
    Count { layer: LayerNo, count: Option<u32> },
    Block(Block),
    /// The prices of a vehicle or of a trip.
    Prices(Priced),
    End,
}

/// What a row says. It is refused where there is none, and where it has the form of no row of such a text.
pub(crate) fn said_at(alloc: Global, input: &Input, row: usize) -> Result<Said, PeakError>
    requires input { IsInput input.now }
    requires row { row ≤ length input.now.rest }
    ensures within { IfOk result (λ _. row < length input.now.rest) }
    ensures says { IfOk result (λ said. SaysPeak input.now row (peak_said said)) }
    ensures refused { IfErr result (IsRefusedAnywhere input.now row) }
{
    if row >= input.rest.len() {
        return Err(refusal(input, row, PeakWhy::EndsEarly));
    }
    if let Some(prices) = prices_said(input, row, Likely::first()) {
        return Ok(Said::Prices(prices));
    }
    if let Some((layer, count)) = count(input, row) {
        return Ok(Said::Count { layer, count });
    }
    if forms::is_end(&input.rest, row) {
        return Ok(Said::End);
    }
    match forms::block(alloc, input, row)? {
        Some(block) => Ok(Said::Block(block)),
        None => Err(refusal(input, row, PeakWhy::BadRow)),
    }
}
