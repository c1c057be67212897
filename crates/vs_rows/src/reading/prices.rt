//! The reading of rows of prices, each in its place.

ghost use Rattle.std.specs.Prelude.{◌≡◌, ◌≤◌, length, IfOk, IfErr, MatchOption, SomeIff};
ghost use Rattle.vs_prices.specs.Table.{IsPrice};
ghost use Rattle.vs_rows.specs.PriceOrder.{Trip, Vehicle};
ghost use Rattle.vs_rows.specs.TableReading.{IsWrong, ReadsFleet, ReadsPrice};

use crate::forms;
use crate::names::Likely;
use crate::wrong::PriceWhy;
use vs_prices::MAX_PRICE;
use vs_reader::Input;
use vs_types::{LayerNo, TripNo};

/// The price of a vehicle of layer l, in the row that has to give it.
pub fn read_fleet(input: &Input, row: usize, l: LayerNo) -> Result<i64, PriceWhy>
    requires { row ≤ length input.now.rest }
    ensures found { IfOk result (ReadsFleet input.now row l.0) }
    ensures refused { IfErr result (IsWrong input.now row (Vehicle l.0)) }
{
    if row >= input.rest.len() {
        return Err(PriceWhy::Another);
    }
    let likely = Likely {
        layer: l,
        trip: TripNo(0),
    };
    // for the proof: names are apart, and so a row says one thing
    let _names = (input.names.layers(), input.names.trips());
    let Some((layer, price)) = forms::fleet(input, row, likely) else {
        return Err(PriceWhy::Another);
    };
    if layer.0 != l.0 {
        return Err(PriceWhy::Another);
    }
    let Some(price) = in_range(price) else {
        return Err(PriceWhy::Range);
    };
    Ok(price)
}

/// The prices for entering and for leaving trip i in layer l, in the row that has to give them.
pub fn read_price(input: &Input, row: usize, l: LayerNo, i: TripNo) -> Result<(i64, i64), PriceWhy>
    requires { row ≤ length input.now.rest }
    ensures found { IfOk result (ReadsPrice input.now row l.0 i.0) }
    ensures refused { IfErr result (IsWrong input.now row (Trip l.0 i.0)) }
{
    if row >= input.rest.len() {
        return Err(PriceWhy::Another);
    }
    let likely = Likely { layer: l, trip: i };
    // for the proof: names are apart, and so a row says one thing
    let _names = (input.names.layers(), input.names.trips());
    let Some((layer, trip, into, from)) = forms::price(input, row, likely) else {
        return Err(PriceWhy::Another);
    };
    if layer.0 != l.0 || trip.0 != i.0 {
        return Err(PriceWhy::Another);
    }
    let Some((into, from)) = both_in_range(into, from) else {
        return Err(PriceWhy::Range);
    };
    Ok((into, from))
}

/// The numbers as prices. None where one of them is less or greater than any.
fn both_in_range(into: i128, from: i128) -> Option<(i64, i64)>
    ensures { MatchOption result
        (¬ (IsPrice into × IsPrice from))
        (λ prices. (IsPrice into × IsPrice from) × (prices.0 ≡ into) × (prices.1 ≡ from)) }
{
    Some((in_range(into)?, in_range(from)?))
}

/// The number as a price. None where it is less or greater than any.
fn in_range(n: i128) -> Option<i64>
    ensures { SomeIff result (IsPrice n) n }
{
    if n < -i128::from(MAX_PRICE) || n > i128::from(MAX_PRICE) {
        return None;
    }
    Some(n as i64)
}
