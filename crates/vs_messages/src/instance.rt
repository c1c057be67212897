//! The words for a record of an instance that is refused.

use crate::forms::form_words;
use crate::numbers::range_words;
use crate::records::{number_in, record_at, record_like};
use crate::sentence::{Part, sentence};
use crate::twice::twice_words;
use crate::unknown::unknown_words;
use csv::ByteRecord;
use std::alloc::Global;
use vs_instance::{MAX_DEAREST_SUM, MAX_STOPS, USUAL_TRIPS};
use vs_reader::{Kind, Version, field, is_text};
use vs_types::{MAX_LAYERS, Memory};

/// A record of an instance that is refused.
#[derive(Clone, Copy)]
pub struct Refusal<'r> {
    /// The whole text.
    pub input: &'r [u8],
    /// The record's number, counted from 1.
    pub number: u64,
    pub kind: Kind,
    /// The record itself.
    pub at: &'r ByteRecord,
}

/// The words for a refusal of a record of an instance: its row, and that record, without fields where the text has no
/// record there.
pub fn instance_words(
    alloc: Global,
    input: &[u8],
    row: &ByteRecord,
    at: &ByteRecord,
) -> Result<String, Memory> {
    let name = field(row, 3);
    if is_text(name, "NoHeader") {
        return header_words(alloc, at);
    }
    let Some(kind) = Kind::of(field(at, 0)) else {
        return sentence(alloc, "unknown kind of record: \"%\"", &[Part::of(at, 0)]);
    };
    if is_text(name, "Range") {
        let most = most_of(version_of(alloc, input)?);
        return range_words(alloc, field(row, 4), kind, most, at);
    }
    let number = number_in(row, 1);
    let refusal = Refusal {
        input,
        number,
        kind,
        at,
    };
    record_words(alloc, name, &refusal)
}

/// The words for a first record that says no version, or for a text without a record.
fn header_words(alloc: Global, at: &ByteRecord) -> Result<String, Memory> {
    let words = if at.is_empty() {
        "the text is empty"
    } else {
        "it isn't instance,1, instance,2 or instance,3: is this a spreadsheet's export?"
    };
    sentence(alloc, words, &[])
}

/// The words for a refusal of this name, of a record of one of the kinds.
fn record_words(alloc: Global, name: &[u8], refusal: &Refusal<'_>) -> Result<String, Memory> {
    if is_text(name, "FieldCount") {
        return count_words(alloc, refusal);
    }
    if is_text(name, "NameTwice") {
        return twice_words(alloc, refusal);
    }
    if is_text(name, "UnknownName") {
        return unknown_words(alloc, refusal);
    }
    if is_text(name, "TooMany") {
        return many_words(alloc, refusal);
    }
    if is_text(name, "EndNotAfterStart") {
        return time_words(alloc, refusal.at);
    }
    if is_text(name, "SelfDeadhead") || is_text(name, "DeadheadTwice") {
        return deadhead_words(alloc, refusal);
    }
    if is_text(name, "TooDear") {
        return dear_words(alloc, refusal.at);
    }
    form_words(alloc, name, refusal)
}

/// The words for a record that has too many fields or too few.
fn count_words(alloc: Global, refusal: &Refusal<'_>) -> Result<String, Memory> {
    let wanted = match refusal.kind {
        Kind::Stop => "2",
        Kind::Deadhead => "5",
        Kind::Layer => layer_fields(alloc, refusal.input)?,
        Kind::Trip => "8 or more",
    };
    let found = refusal.at.len() as u64;
    sentence(
        alloc,
        "a % has % fields, and this one %",
        &[
            Part::Word(refusal.kind.name()),
            Part::Word(wanted),
            Part::Number(found),
        ],
    )
}

/// How many fields a layer has in this text.
fn layer_fields(alloc: Global, input: &[u8]) -> Result<&'static str, Memory> {
    match version_of(alloc, input)? {
        Some(Version::Two) => Ok("8"),
        Some(Version::Three) => Ok("7 or 8"),
        _ => Ok("7"),
    }
}

/// The version that the first record of a text says. None where it says none.
fn version_of(alloc: Global, input: &[u8]) -> Result<Option<Version>, Memory> {
    let header = record_at(alloc, input, 1)?.unwrap_or(ByteRecord::new(alloc));
    Ok(Version::of(&header))
}

/// How many trips a text of this version has at most, and how many vehicles a layer.
fn most_of(version: Option<Version>) -> u32 {
    match version {
        Some(version) => version.most(),
        None => USUAL_TRIPS,
    }
}

/// The words for one stop, layer or trip too many.
fn many_words(alloc: Global, refusal: &Refusal<'_>) -> Result<String, Memory> {
    let kind = refusal.kind;
    let most = match kind {
        Kind::Layer => MAX_LAYERS,
        Kind::Trip => most_of(version_of(alloc, refusal.input)?),
        Kind::Stop | Kind::Deadhead => MAX_STOPS,
    };
    sentence(
        alloc,
        "one % too many: there may be %",
        &[Part::Word(kind.name()), Part::Number(u64::from(most))],
    )
}

/// The words for a layer whose dearest piece is too dear for so many trips.
fn dear_words(alloc: Global, at: &ByteRecord) -> Result<String, Memory> {
    sentence(
        alloc,
        "layer % is too dear: trips times fixed + 2880 per_minute + 1000000 per_metre may be % at most",
        &[Part::of(at, 1), Part::Number(MAX_DEAREST_SUM)],
    )
}

/// The words for a trip that doesn't end after it starts.
fn time_words(alloc: Global, at: &ByteRecord) -> Result<String, Memory> {
    sentence(
        alloc,
        "trip % starts at % and ends at %; past midnight 24:00 follows",
        &[Part::of(at, 1), Part::of(at, 3), Part::of(at, 5)],
    )
}

/// The words for a deadhead from a stop to itself, or for one that is given twice.
fn deadhead_words(alloc: Global, refusal: &Refusal<'_>) -> Result<String, Memory> {
    let at = refusal.at;
    let (from, to) = (field(at, 1), field(at, 2));
    if from == to {
        return sentence(alloc, "a deadhead from % to itself", &[Part::Bytes(from)]);
    }
    let number = match record_like(alloc, refusal.input, Kind::Deadhead, from, Some(to))? {
        Some(found) => found.number,
        None => 0,
    };
    sentence(
        alloc,
        "record % gives the deadhead from % to % already",
        &[Part::Number(number), Part::Bytes(from), Part::Bytes(to)],
    )
}
