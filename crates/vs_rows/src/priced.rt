//! What a row of prices says.

ghost use Rattle.std.specs.Prelude.{◌<◌, length, IfSome, IfNone};
ghost use Rattle.vs_rows.specs.DocumentRows.{DocumentRow};
ghost use Rattle.vs_rows.specs.PriceOrder.{IsPriceRow, priced_row};
ghost use Rattle.vs_rows.specs.RowForms.{SaysThere};

use crate::forms::{fleet, price};
use crate::names::Likely;
use vs_reader::Input;
use vs_types::{LayerNo, TripNo};

/// What a row of prices says. Each price has at most 19 digits.
#[derive(Clone, Copy, Debug, PartialEq, Eq)]
pub enum Priced {
    /// The price of a vehicle of a layer.
    Vehicle {
        layer: LayerNo,
        price: i128,
    },
    /// The prices for entering and for leaving a trip in a layer.
    Trip {
        layer: LayerNo,
        trip: TripNo,
        into: i128,
        from: i128,
    },
}

/// What a row of prices says. None where it has not the form of one. It is read fastest where it names what is likely.
pub fn prices_said(input: &Input, row: usize, likely: Likely) -> Option<Priced>
    requires { row < length input.now.rest }
    ensures says { IfSome result (λ said. SaysThere input.now row (priced_row said)) }
    ensures none { IfNone result ((said : DocumentRow) → IsPriceRow said
        → ¬ (SaysThere input.now row said)) }
{
    if let Some((layer, trip, into, from)) = price(input, row, likely) {
        return Some(Priced::Trip {
            layer,
            trip,
            into,
            from,
        });
    }
    let (layer, price) = fleet(input, row, likely)?;
    Some(Priced::Vehicle { layer, price })
}
