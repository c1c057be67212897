//! The reading of what is claimed of one layer.

ghost use Rattle.std.specs.Prelude.{◌<◌, ◌≤◌, length, IfOk, IfErr};
ghost use Rattle.vs_rows.specs.RowForms.{IsInput};
ghost use Rattle.vs_peakcheck.specs.Places.{AtLayer};
ghost use Rattle.vs_peakcheck.specs.Reading.{IsRefusedAt, ReadsCount, ReadsLayer};

use crate::claimed::Claimed;
use crate::reading::blocks::read_blocks;
use crate::reading::prices::{fleet_at, read_prices};
use crate::reading::said::{Said, said_at};
use crate::refused::{PeakError, PeakWhy, refusal};
use crate::trips::trips_of;
use std::alloc::Global;
use vs_prices::Table;
use vs_reader::Input;
use vs_types::LayerNo;

/// What is claimed of layer l from a row on, and the row behind it.
pub(crate) fn read_layer(
    alloc: Global,
    input: &Input,
    at: usize,
    l: LayerNo,
) -> Result<(Claimed, usize), PeakError>
    requires input { IsInput input.now }
    requires row { at ≤ length input.now.rest }
    requires layer { l.0 < length input.now.instance.layers }
    ensures found { IfOk result (λ r. ReadsLayer input.now at l r.1 r.0) }
    ensures refused { IfErr result (IsRefusedAt input.now at (AtLayer l.0)) }
{
    let of_layer = trips_of(alloc, &input.instance, l)?;
    let trips = of_layer.as_slice();
    let count = read_count(alloc, input, at, l)?;
    let (blocks, fleet_row) = read_blocks(alloc, input, at + 1, l, count, trips)?;
    let fleet = fleet_at(alloc, input, fleet_row, l, count)?;
    let prices = read_prices(alloc, input, fleet_row + 1, l, trips)?;
    let vehicles = vec![in alloc; fleet; 1]?;
    let table = Table {
        into: prices.into,
        from: prices.from,
        fleet: vehicles,
        ray: count.is_none(),
    };
    let claimed = Claimed {
        count,
        blocks,
        table,
    };
    Ok((claimed, fleet_row + 1 + trips.len()))
}

/// How many vehicles layer l needs, in the row that has to give it.
fn read_count(
    alloc: Global,
    input: &Input,
    row: usize,
    l: LayerNo,
) -> Result<Option<u32>, PeakError>
    requires input { IsInput input.now }
    requires row { row ≤ length input.now.rest }
    requires layer { l.0 < length input.now.instance.layers }
    ensures found { IfOk result (ReadsCount input.now row l.0) }
    ensures refused { IfErr result (IsRefusedAt input.now row (AtLayer l.0)) }
{
    let said = said_at(alloc, input, row)?;
    let Said::Count { layer, count } = said else {
        return Err(refusal(input, row, PeakWhy::OutOfOrder));
    };
    if layer.0 != l.0 {
        return Err(refusal(input, row, PeakWhy::OutOfOrder));
    }
    Ok(count)
}
