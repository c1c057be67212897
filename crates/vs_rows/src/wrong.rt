//! Why rows are no table.

ghost use Rattle.std.specs.Prelude.{◌≡◌};
ghost use Rattle.vs_rows.specs.declared.wrong.TableError.TheVariants.{Memory};

use std::alloc::{AllocError, AllocFailed};
use vs_types::Memory as NoMemory;

/// Why a row isn't the row of prices that has to come there.
#[derive(Clone, Copy, Debug, PartialEq, Eq)]
pub enum PriceWhy {
    /// It is another row, or there is none.
    Another,
    /// A price in it is out of the range of prices.
    Range,
}

/// Why a table wasn't read.
#[derive(Clone, Copy, Debug, PartialEq, Eq)]
pub enum TableError {
    /// The first row gives no table.
    NoTable,
    /// The first row gives a table that hasn't the next number.
    Number,
    /// A row of prices, counted from 0, is wrong, first of all this one and for this reason.
    Prices { row: usize, why: PriceWhy },
    /// There was no memory.
    Memory,
}

impl From<AllocError> for TableError {
    ghost from_gives = { λ _ e. e ≡ Memory };

    fn from(_: AllocError) -> Self {
        TableError::Memory
    }
}

impl<T: Drop> From<AllocFailed<T>> for TableError {
    ghost from_gives = { λ _ e. e ≡ Memory };

    fn from(_: AllocFailed<T>) -> Self {
        TableError::Memory
    }
}

impl From<NoMemory> for TableError {
    ghost from_gives = { λ _ e. e ≡ Memory };

    fn from(_: NoMemory) -> Self {
        TableError::Memory
    }
}
