//! Why a text is no document.

ghost use Rattle.std.specs.Prelude.{◌≡◌, ◌+◌, ◌≤◌, length};
ghost use Rattle.vs_rows.specs.RowForms.{IsInput};
ghost use Rattle.vs_document.specs.declared.refused.DocError.TheVariants.{Memory};

use std::alloc::{AllocError, AllocFailed};
use vs_reader::Input;
use vs_types::Memory as NoMemory;

/// Why rows are no document.
#[derive(Clone, Copy, Debug, PartialEq, Eq)]
pub enum DocWhy {
    /// There is no record whose first field is `result`.
    NoResult,
    /// The record has the form of no row of a document.
    BadRow,
    /// The row isn't the one that has to come there.
    OutOfOrder,
    /// A table hasn't the next number, or a leaf not that of a table.
    TableNumber,
    /// The records end before `end`.
    EndsEarly,
    /// A record stands behind `end`.
    RowsAfterEnd,
    /// A price is out of the range of prices.
    PriceRange,
}

/// Why a document wasn't read.
#[derive(Clone, Copy, Debug, PartialEq, Eq)]
pub enum DocError {
    /// What follows the instance is no document, first of all at this record of the whole text, counted
    /// from 1, and for this reason.
    Refused { row: u64, why: DocWhy },
    /// There was no memory.
    Memory,
}

impl From<AllocError> for DocError {
    ghost from_gives = { λ _ e. e ≡ Memory };

    fn from(_: AllocError) -> Self {
        DocError::Memory
    }
}

impl<T: Drop> From<AllocFailed<T>> for DocError {
    ghost from_gives = { λ _ e. e ≡ Memory };

    fn from(_: AllocFailed<T>) -> Self {
        DocError::Memory
    }
}

impl From<NoMemory> for DocError {
    ghost from_gives = { λ _ e. e ≡ Memory };

    fn from(_: NoMemory) -> Self {
        DocError::Memory
    }
}

/// The error that names a row of the document, counted from 0, by its number among all records.
pub fn refusal(input: &Input, row: usize, why: DocWhy) -> DocError
    requires input { IsInput input.now }
    requires row { row ≤ length input.now.rest }
    ensures { result ≡ DocError.Refused (input.now.before + 1 + row) why }
{
    DocError::Refused {
        row: input.before + 1 + row as u64,
        why,
    }
}
