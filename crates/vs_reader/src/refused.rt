//! Why a text is refused, and at which record.

ghost use Rattle.std.specs.Prelude.{◌≡◌};
ghost use Rattle.vs_reader.specs.declared.refused.ReadError.TheVariants.{Memory};

use std::alloc::{AllocError, AllocFailed};
use vs_instance::Misfit;

/// Why a text is refused.
#[derive(Clone, Copy, Debug, PartialEq, Eq)]
pub enum Why {
    /// The first record is neither `instance`, `1` nor `instance`, `2`, or there is no record.
    NoHeader,
    /// The first field of a record is none of the kinds.
    UnknownKind,
    /// The record's kind has another number of fields in a text of this version.
    FieldCount,
    /// A field that has to be a name isn't one.
    BadName,
    /// The name was declared before in its kind, or a layer stands twice in one trip.
    NameTwice,
    /// No earlier record declares the name in its kind.
    UnknownName,
    /// A field that has to be a number isn't 1 to 10 digits.
    BadNumber,
    /// A field that has to be a time isn't one.
    BadTime,
    /// The record declares a stop, layer or trip beyond the limit.
    TooMany,
    /// Each record is good, and what they declare is no instance.
    Misfit(Misfit),
}

/// A refusal, and the record at which it is reported.
#[derive(Clone, Copy, Debug, PartialEq, Eq)]
pub struct Refused {
    /// The number of the record, counted from 1. 0 for an error of the deadheads of three stops.
    pub row: u64,
    pub why: Why,
}

/// Why nothing was read.
#[derive(Clone, Copy, Debug, PartialEq, Eq)]
pub enum ReadError {
    /// The text is no instance text: this is the first refusal.
    Refused(Refused),
    /// There was no memory.
    Memory,
}

impl From<AllocError> for ReadError {
    ghost from_gives = { λ _ e. e ≡ Memory };

    fn from(_: AllocError) -> Self {
        ReadError::Memory
    }
}

impl From<vs_types::Memory> for ReadError {
    ghost from_gives = { λ _ e. e ≡ Memory };

    fn from(_: vs_types::Memory) -> Self {
        ReadError::Memory
    }
}

impl<T: Drop> From<AllocFailed<T>> for ReadError {
    ghost from_gives = { λ _ e. e ≡ Memory };

    fn from(_: AllocFailed<T>) -> Self {
        ReadError::Memory
    }
}
