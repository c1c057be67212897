//! Why rows claim nothing.

ghost use Rattle.std.specs.Prelude.{◌≡◌, ◌+◌, ◌≤◌, length};
ghost use Rattle.vs_rows.specs.RowForms.{IsInput};
ghost use Rattle.vs_peakcheck.specs.declared.refused.PeakError.TheVariants.{Memory};

use std::alloc::{AllocError, AllocFailed};
use vs_reader::Input;
use vs_types::Memory as NoMemory;

/// Why rows are no text of peaks.
#[derive(Clone, Copy, Debug, PartialEq, Eq)]
pub enum PeakWhy {
    /// There is no record whose first field is `result`, or the first such isn't `result`, `1`, `peak`.
    NoPeak,
    /// The record has the form of no row of such a text.
    BadRow,
    /// The row isn't the one that has to come there.
    OutOfOrder,
    /// The records end before `end`.
    EndsEarly,
    /// A record stands behind `end`.
    RowsAfterEnd,
    /// A price is out of the range of prices.
    PriceRange,
}

/// Why nothing was read.
#[derive(Clone, Copy, Debug, PartialEq, Eq)]
pub enum PeakError {
    /// What follows the instance is no text of peaks. The first record that is refused has this number in the whole
    /// text, counted from 1, and is refused for this reason.
    Refused { row: u64, why: PeakWhy },
    /// There was no memory.
    Memory,
}

impl From<AllocError> for PeakError {
    ghost from_gives = { λ _ e. e ≡ Memory };

    fn from(_: AllocError) -> Self {
        PeakError::Memory
    }
}

impl<T: Drop> From<AllocFailed<T>> for PeakError {
    ghost from_gives = { λ _ e. e ≡ Memory };

    fn from(_: AllocFailed<T>) -> Self {
        PeakError::Memory
    }
}

impl From<NoMemory> for PeakError {
    ghost from_gives = { λ _ e. e ≡ Memory };

    fn from(_: NoMemory) -> Self {
        PeakError::Memory
    }
}

/// The error that names a row of the text, counted from 0, by its number among all records.
pub fn refusal(input: &Input, row: usize, why: PeakWhy) -> PeakError
    requires input { IsInput input.now }
    requires row { row ≤ length input.now.rest }
    ensures { result ≡ PeakError.Refused (input.now.before + 1 + row) why }
{
    PeakError::Refused {
        row: input.before + 1 + row as u64,
        why,
    }
}
