//! The reading of a whole text.

ghost use Rattle.std.specs.Prelude.{◌≡◌, ◌<◌, ◌≤◌, ◌↔◌, List, length, IfOk, IfErr, IsTrue};
ghost use Rattle.vs_reader.specs.Rows.{row_of};
ghost use Rattle.vs_rows.specs.RowForms.{IsInput};
ghost use Rattle.vs_peakcheck.specs.Claims.{CanBeChecked};
ghost use Rattle.vs_peakcheck.specs.PeakRefusals.{IsRefusedError};
ghost use Rattle.vs_peakcheck.specs.PeakRows.{head_row};
ghost use Rattle.vs_peakcheck.specs.Places.{AtLayer};
ghost use Rattle.vs_peakcheck.specs.Reading.{AreClaimsOf, IsLast, IsRefusalOf, IsRefusedAt, ReadsLayers};
ghost use Rattle.vs_peakcheck.specs.declared.claimed.Claimed.{Claimed as ClaimedOf};

use crate::claimed::Claimed;
use crate::reading::layer::read_layer;
use crate::reading::said::{Said, said_at};
use crate::refused::{PeakError, PeakWhy, refusal};
use std::alloc::Global;
use vs_reader::{Input, Rows};
use vs_rows::is_of_kind;
use vs_types::LayerNo;

/// What the rows of the input's rest claim of each layer, in order; else the first row that is refused, and why.
pub fn read(alloc: Global, input: &Input) -> Result<Vec<Claimed>, PeakError>
    requires { IsInput input.now }
    ensures found { IfOk result (λ claimed. AreClaimsOf input.now claimed.items) }
    ensures checked { IfOk result (λ claimed. CanBeChecked input.now.instance claimed.items) }
    ensures refused { IfErr result (IsRefusalOf input.now) }
    ensures none { IfErr result (λ e. IsRefusedError e
        → (claimed : List ClaimedOf) → ¬ (AreClaimsOf input.now claimed)) }
{
    // Names are apart, and so a row says one thing.
    let _names = (input.names.layers(), input.names.trips());
    read_rows(alloc, input)
}

/// What the rows claim; else the first row that is refused.
fn read_rows(alloc: Global, input: &Input) -> Result<Vec<Claimed>, PeakError>
    requires { IsInput input.now }
    ensures found { IfOk result (λ claimed. AreClaimsOf input.now claimed.items) }
    ensures checked { IfOk result (λ claimed. CanBeChecked input.now.instance claimed.items) }
    ensures refused { IfErr result (IsRefusalOf input.now) }
{
    if input.rest.len() == 0 || !is_head(&input.rest) {
        return Err(refusal(input, 0, PeakWhy::NoPeak));
    }
    let (claimed, end) = read_layers(alloc, input)?;
    read_end(alloc, input, end)?;
    Ok(claimed)
}

/// Whether the first row is `result`, `1`, `peak`.
fn is_head(rows: &Rows) -> bool
    requires { 0 < length rows.now }
    ensures { IsTrue result ↔ (row_of rows.now 0 ≡ head_row) }
{
    is_of_kind(rows, 0, "result", 3)
        && rows.field(0, 1) == "1".as_bytes()
        && rows.field(0, 2) == "peak".as_bytes()
}

/// What is claimed of all layers from the second row on, and the row behind it.
fn read_layers(alloc: Global, input: &Input) -> Result<(Vec<Claimed>, usize), PeakError>
    requires input { IsInput input.now }
    requires head { 1 ≤ length input.now.rest }
    ensures found { IfOk result (λ r.
        ReadsLayers input.now (length input.now.instance.layers) r.1 r.0.items) }
    ensures refused { IfErr result (IsRefusedAt input.now 1 (AtLayer 0)) }
{
    let mut claimed = Vec::new(alloc);
    let mut next = 1;
    for l in 0..input.instance.layers() {
        let (of_layer, behind) = read_layer(alloc, input, next, LayerNo(l))?;
        claimed.push(of_layer)?;
        next = behind;
    }
    Ok((claimed, next))
}

/// Reads the last row.
fn read_end(alloc: Global, input: &Input, row: usize) -> Result<(), PeakError>
    requires input { IsInput input.now }
    requires row { row ≤ length input.now.rest }
    ensures found { IfOk result (λ _. IsLast input.now row) }
    ensures refused { IfErr result (IsRefusedAt input.now row
        (AtLayer (length input.now.instance.layers))) }
{
    let said = said_at(alloc, input, row)?;
    match said {
        Said::End => {}
        _ => return Err(refusal(input, row, PeakWhy::OutOfOrder)),
    }
    if row + 1 < input.rest.len() {
        return Err(refusal(input, row + 1, PeakWhy::RowsAfterEnd));
    }
    Ok(())
}
