//! Why rows are no trace.

ghost use Rattle.std.specs.Prelude.{◌≡◌, ◌+◌, ◌≤◌, length};
ghost use Rattle.vs_rows.specs.RowForms.{IsInput};
ghost use Rattle.vs_trace.specs.declared.refused.TraceError.TheVariants.{Memory};

use std::alloc::{AllocError, AllocFailed};
use vs_reader::Input;
use vs_types::Memory as NoMemory;

/// Why rows are no trace.
#[derive(Clone, Copy, Debug, PartialEq, Eq)]
pub enum TraceWhy {
    /// There is no record whose first field is `result`, or the first such isn't `result`, `1`, `trace`.
    NoTrace,
    /// The record has the form of no row of a trace.
    BadRow,
    /// The row isn't the one that has to come there.
    OutOfOrder,
    /// A table hasn't the next number.
    TableNumber,
    /// The records end before `end`.
    EndsEarly,
    /// A record stands behind `end`.
    RowsAfterEnd,
    /// A price is out of the range of prices.
    PriceRange,
}

/// Why no trace was read.
#[derive(Clone, Copy, Debug, PartialEq, Eq)]
pub enum TraceError {
    /// What follows the instance is no trace, first of all at this record of the whole text, counted from 1, and for
    /// this reason.
    Refused { row: u64, why: TraceWhy },
    /// There was no memory.
    Memory,
}

impl From<AllocError> for TraceError {
    ghost from_gives = { λ _ e. e ≡ Memory };

    fn from(_: AllocError) -> Self {
        TraceError::Memory
    }
}

impl<T: Drop> From<AllocFailed<T>> for TraceError {
    ghost from_gives = { λ _ e. e ≡ Memory };

    fn from(_: AllocFailed<T>) -> Self {
        TraceError::Memory
    }
}

impl From<NoMemory> for TraceError {
    ghost from_gives = { λ _ e. e ≡ Memory };

    fn from(_: NoMemory) -> Self {
        TraceError::Memory
    }
}

/// The error that gives a row of the trace, counted from 0, by its number among all records.
pub fn refusal(input: &Input, row: usize, why: TraceWhy) -> TraceError
    requires input { IsInput input.now }
    requires row { row ≤ length input.now.rest }
    ensures { result ≡ TraceError.Refused (input.now.before + 1 + row) why }
{
    TraceError::Refused {
        row: input.before + 1 + row as u64,
        why,
    }
}
