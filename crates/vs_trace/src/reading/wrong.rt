//! Rows that aren't those which have to come.

ghost use Rattle.std.specs.Prelude.{◌≡◌, ◌≢◌, ◌≤◌, ℕ, List, ◌∷◌, None, length};
ghost use Rattle.vs_rows.specs.PriceOrder.{PriceOf};
ghost use Rattle.vs_rows.specs.RowForms.{IsInput};
ghost use Rattle.vs_rows.specs.TableReading.{IsWrong};
ghost use Rattle.vs_trace.specs.TraceRows.{SaysTrace, TraceRow};
ghost use Rattle.vs_trace.specs.Places.{AtEnd, InTable, Place, behind};
ghost use Rattle.vs_trace.specs.Reading.{IsRefusedAt};

use crate::reading::said::said_at;
use crate::refused::{TraceError, TraceWhy, refusal};
use std::alloc::Global;
use vs_reader::Input;
use vs_rows::PriceWhy;

/// The refusal of a row of prices that is wrong.
pub(crate) fn wrong_price(alloc: Global, input: &Input, row: usize, why: PriceWhy) -> TraceError
    requires input { IsInput input.now }
    requires row { row ≤ length input.now.rest }
    ensures { (n : ℕ) (price : PriceOf) (later : List PriceOf) → IsWrong input.now row price why
        → IsRefusedAt input.now row (InTable n (price ∷ later)) result }
{
    match why {
        PriceWhy::Another => another_row(alloc, input, row),
        PriceWhy::Range => refusal(input, row, TraceWhy::PriceRange),
    }
}

/// The refusal of a row that says nothing which comes where it stands.
pub(crate) fn another_row(alloc: Global, input: &Input, row: usize) -> TraceError
    requires input { IsInput input.now }
    requires row { row ≤ length input.now.rest }
    ensures { (place : Place) → place ≢ AtEnd
        → ((said : TraceRow) → SaysTrace input.now row said
        → behind input.now.instance place said ≡ None) → IsRefusedAt input.now row place result }
{
    match said_at(alloc, input, row) {
        Ok(_) => refusal(input, row, TraceWhy::OutOfOrder),
        Err(error) => error,
    }
}
