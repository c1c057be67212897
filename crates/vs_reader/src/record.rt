//! The fields of one record, and why a record adds nothing.

ghost use Rattle.std.specs.Prelude.{◌≡◌};
ghost use Rattle.csv.specs.Records.{fields_of};
ghost use Rattle.vs_reader.specs.Rows.{field_of};
ghost use Rattle.vs_reader.specs.Kinds.{is_result};
ghost use Rattle.vs_reader.specs.declared.record.RecordError.TheVariants as error;

use crate::kind::is_text;
use crate::refused::Why;
use csv::ByteRecord;
use std::alloc::AllocFailed;

/// Why a record adds nothing.
#[derive(Clone, Copy)]
pub enum RecordError {
    /// It breaks a rule.
    Refused(Why),
    /// There was no memory.
    Memory,
}

impl From<Why> for RecordError {
    ghost from_gives = { λ why e. e ≡ error.Refused why };

    fn from(why: Why) -> Self {
        RecordError::Refused(why)
    }
}

impl From<vs_types::Memory> for RecordError {
    ghost from_gives = { λ _ e. e ≡ error.Memory };

    fn from(_: vs_types::Memory) -> Self {
        RecordError::Memory
    }
}

impl<T: Drop> From<AllocFailed<T>> for RecordError {
    ghost from_gives = { λ _ e. e ≡ error.Memory };

    fn from(_: AllocFailed<T>) -> Self {
        RecordError::Memory
    }
}

/// A field of a record, empty where the record has fewer.
pub fn field(row: &ByteRecord, k: usize) -> &[u8]
    ensures { result.now ≡ field_of (fields_of row.now) k }
{
    row.get(k).unwrap_or(&[])
}

/// Whether the first field of a record is `result`.
pub fn is_result(row: &ByteRecord) -> bool
    ensures { result ≡ is_result (fields_of row.now) }
{
    is_text(field(row, 0), "result")
}
