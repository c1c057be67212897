//! The reading of prices.

ghost use Rattle.std.specs.Prelude.{◌≡◌, ◌≢◌, ◌≤◌, ℕ, Option, None, List, [], ◌∷◌, ◌++◌, length, map, IfOk, IfErr, IsSome, OnOk};
ghost use Rattle.vs_rows.specs.PriceOrder.{Trip, Vehicle};
ghost use Rattle.vs_rows.specs.RowForms.{IsInput};
ghost use Rattle.vs_rows.specs.TableReading.{IsWrong, ReadsFleet, ReadsPrice};
ghost use Rattle.vs_peakcheck.specs.Counting.{numbered, permitted_trips};
ghost use Rattle.vs_peakcheck.specs.PeakRows.{PeakRow, SaysPeak};
ghost use Rattle.vs_peakcheck.specs.Places.{AtBlocks, AtEnd, AtPrices, Place, behind, in_prices};
ghost use Rattle.vs_rows.specs.Standing.{IsNoBlock};
ghost use Rattle.vs_peakcheck.specs.Reading.{IsRefusedAt, ReadsPrices};

use crate::reading::said::said_at;
use crate::refused::{PeakError, PeakWhy, refusal};
use std::alloc::Global;
use vs_reader::Input;
use vs_rows::{PriceWhy, read_fleet, read_price};
use vs_types::{LayerNo, Memory, TripNo};

/// The prices for entering and for leaving each trip of a layer.
#[derive(Drop)]
pub(crate) struct Prices {
    pub into: Vec<i64>,
    pub from: Vec<i64>,
}

/// The prices of layer l's trips, which stand from a row on, one row for each trip.
pub(crate) fn read_prices(
    alloc: Global,
    input: &Input,
    at: usize,
    l: LayerNo,
    trips: &[TripNo],
) -> Result<Prices, PeakError>
    requires input { IsInput input.now }
    requires row { at ≤ length input.now.rest }
    requires trips { trips.now ≡ map numbered (permitted_trips input.now.instance l.0) }
    ensures found { IfOk result (ReadsPrices input.now at l.0) }
    ensures refused { IfErr result (IsRefusedAt input.now at
        (in_prices l.0 (permitted_trips input.now.instance l.0))) }
{
    let into = Vec::with_capacity(alloc, trips.len())?;
    let from = Vec::with_capacity(alloc, trips.len())?;
    let mut all = Prices { into, from };
    let mut row = at;
    for k in 0..trips.len() {
        let prices = price_at(alloc, input, row, l, trips[k])?;
        add_trip(&mut all, prices.0, prices.1)?;
        row += 1;
    }
    Ok(all)
}

/// Puts the prices of one more trip behind the others.
fn add_trip(all: &mut Prices, into: i64, from: i64) -> Result<(), Memory>
    ensures into { OnOk result (all.new.into.items ≡ all.old.into.items ++ into ∷ []) }
    ensures from { OnOk result (all.new.from.items ≡ all.old.from.items ++ from ∷ []) }
{
    all.into.push(into)?;
    all.from.push(from)?;
    Ok(())
}

/// The price of a vehicle of layer l, in the row that has to give it.
pub(crate) fn fleet_at(
    alloc: Global,
    input: &Input,
    row: usize,
    l: LayerNo,
    count: Option<u32>,
) -> Result<i64, PeakError>
    requires input { IsInput input.now }
    requires row { row ≤ length input.now.rest }
    requires no_block { IsSome count → IsNoBlock input.now row }
    ensures found { IfOk result (ReadsFleet input.now row l.0) }
    ensures refused { IfErr result (IsRefusedAt input.now row (AtBlocks l.0 count)) }
{
    match read_fleet(input, row, l) {
        Ok(price) => Ok(price),
        Err(why) => Err(wrong_price(alloc, input, row, why)),
    }
}

/// The prices for entering and for leaving a trip in a layer, in the row that has to give them.
fn price_at(
    alloc: Global,
    input: &Input,
    row: usize,
    l: LayerNo,
    i: TripNo,
) -> Result<(i64, i64), PeakError>
    requires input { IsInput input.now }
    requires row { row ≤ length input.now.rest }
    ensures found { IfOk result (ReadsPrice input.now row l.0 i.0) }
    ensures refused { IfErr result (λ e. (later : List ℕ)
        → IsRefusedAt input.now row (AtPrices l.0 i.0 later) e) }
{
    match read_price(input, row, l, i) {
        Ok(prices) => Ok(prices),
        Err(why) => Err(wrong_price(alloc, input, row, why)),
    }
}

/// The refusal of a row of prices that is wrong.
fn wrong_price(alloc: Global, input: &Input, row: usize, why: PriceWhy) -> PeakError
    requires input { IsInput input.now }
    requires row { row ≤ length input.now.rest }
    ensures fleet { (l : ℕ) (count : Option ℕ) → (IsSome count → IsNoBlock input.now row)
        → IsWrong input.now row (Vehicle l) why → IsRefusedAt input.now row (AtBlocks l count) result }
    ensures price { (l i : ℕ) (later : List ℕ) → IsWrong input.now row (Trip l i) why
        → IsRefusedAt input.now row (AtPrices l i later) result }
{
    match why {
        PriceWhy::Another => another_row(alloc, input, row),
        PriceWhy::Range => refusal(input, row, PeakWhy::PriceRange),
    }
}

/// The refusal of a row that says nothing which comes where it stands.
fn another_row(alloc: Global, input: &Input, row: usize) -> PeakError
    requires input { IsInput input.now }
    requires row { row ≤ length input.now.rest }
    ensures { (place : Place) → place ≢ AtEnd
        → ((said : PeakRow) → SaysPeak input.now row said
        → behind input.now.instance place said ≡ None) → IsRefusedAt input.now row place result }
{
    match said_at(alloc, input, row) {
        Ok(_) => refusal(input, row, PeakWhy::OutOfOrder),
        Err(error) => error,
    }
}
