//! The versions of instance texts.

ghost use Rattle.std.specs.Prelude.{◌≡◌};
ghost use Rattle.csv.specs.Records.{fields_of};
ghost use Rattle.vs_reader.specs.Versions.{layer_fields, most_in, version_of, writes_stay};

use crate::kind::is_text;
use crate::record::field;
use csv::ByteRecord;
use vs_instance::{MAX_TRIPS, USUAL_TRIPS};

/// The version of an instance text, which its first record says.
#[derive(Clone, Copy, Debug, PartialEq, Eq)]
pub enum Version {
    /// No vehicle rests in its depot between two trips.
    One,
    /// Each layer has a least rest.
    Two,
    /// Each layer may have a least rest, and there may be up to 10,000 trips.
    Three,
}

impl Version {
    /// The version that a first record says, `instance` and 1, 2 or 3. None where it says none.
    pub fn of(row: &ByteRecord) -> Option<Version>
        ensures { result ≡ version_of (fields_of row.now) }
    {
        if row.len() != 2 || !is_text(field(row, 0), "instance") {
            None
        } else if is_text(field(row, 1), "1") {
            Some(Version::One)
        } else if is_text(field(row, 1), "2") {
            Some(Version::Two)
        } else if is_text(field(row, 1), "3") {
            Some(Version::Three)
        } else {
            None
        }
    }

    /// Whether the record of a layer that has so many fields writes its least rest.
    pub fn writes_stay(self, fields: usize) -> bool
        ensures { result ≡ writes_stay self fields }
    {
        match self {
            Version::One => false,
            Version::Two => true,
            Version::Three => fields == 8,
        }
    }

    /// How many fields the record of a layer has to have that has so many.
    pub fn layer_fields(self, fields: usize) -> usize
        ensures { result ≡ layer_fields self fields }
    {
        if self.writes_stay(fields) { 8 } else { 7 }
    }

    /// How many trips a text has at most, and how many vehicles each of its layers.
    pub fn most(self) -> u32
        ensures { result ≡ most_in self }
    {
        match self {
            Version::One | Version::Two => USUAL_TRIPS,
            Version::Three => MAX_TRIPS,
        }
    }
}
