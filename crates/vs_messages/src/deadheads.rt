//! The words for refusals that name no record: of deadheads that aren't closed, and of too large a search.

use crate::records::{number_in, record_like, record_of_kind};
use crate::sentence::{Part, sentence};
use csv::ByteRecord;
use std::alloc::Global;
use vs_reader::{Kind, field, is_text};
use vs_types::Memory;

/// How long a drive is.
#[derive(Clone, Copy)]
struct Drive {
    minutes: u64,
    metres: u64,
}

impl Drive {
    /// This drive, and that one behind it.
    fn then(self, next: Drive) -> Drive {
        Drive {
            minutes: self.minutes.saturating_add(next.minutes),
            metres: self.metres.saturating_add(next.metres),
        }
    }
}

const SHORTER_MINUTES: &str = "% to % by way of % is shorter: % in place of % minutes";

const SHORTER_METRES: &str = "% to % by way of % is shorter: % in place of % metres";

const NOT_STRAIGHT: &str =
    "% to % by way of % is % minutes and % metres, and no deadhead leads there straight";

/// The names of the stops of a way that goes by another stop.
#[derive(Clone, Copy)]
struct Detour<'a> {
    from: &'a [u8],
    by: &'a [u8],
    to: &'a [u8],
}

/// The words for a refusal that names no record.
pub fn deadheads_words(alloc: Global, input: &[u8], row: &ByteRecord) -> Result<String, Memory> {
    if is_text(field(row, 3), "TooLarge") {
        return sentence(
            alloc,
            "so many cases are too many: trips times layers times --nodes, or the cases of a trace's opening, is \
                3000000 at most, and for resume, the document's cases among them, 6000000",
            &[],
        );
    }
    let from = record_of_kind(alloc, input, "stop", number_in(row, 4))?;
    let by = record_of_kind(alloc, input, "stop", number_in(row, 5))?;
    let to = record_of_kind(alloc, input, "stop", number_in(row, 6))?;
    let detour = Detour {
        from: field(&from, 1),
        by: field(&by, 1),
        to: field(&to, 1),
    };
    detour_words(alloc, input, field(row, 3), detour)
}

/// The words for a way that is shorter by another stop, or given by it alone.
fn detour_words(
    alloc: Global,
    input: &[u8],
    name: &[u8],
    detour: Detour<'_>,
) -> Result<String, Memory> {
    let Detour { from, by, to } = detour;
    let straight = drive_of(alloc, input, from, to)?;
    let first = drive_of(alloc, input, from, by)?;
    let Drive { minutes, metres } = first.then(drive_of(alloc, input, by, to)?);
    let (words, first, second) = if is_text(name, "LongerMinutes") {
        (SHORTER_MINUTES, minutes, straight.minutes)
    } else if is_text(name, "LongerMetres") {
        (SHORTER_METRES, metres, straight.metres)
    } else {
        (NOT_STRAIGHT, minutes, metres)
    };
    sentence(
        alloc,
        words,
        &[
            Part::Bytes(from),
            Part::Bytes(to),
            Part::Bytes(by),
            Part::Number(first),
            Part::Number(second),
        ],
    )
}

/// How long the deadhead from a stop to another is. No minutes and no metres where there is none.
fn drive_of(alloc: Global, input: &[u8], from: &[u8], to: &[u8]) -> Result<Drive, Memory> {
    match record_like(alloc, input, Kind::Deadhead, from, Some(to))? {
        Some(found) => Ok(Drive {
            minutes: number_in(&found.fields, 3),
            metres: number_in(&found.fields, 4),
        }),
        None => Ok(Drive {
            minutes: 0,
            metres: 0,
        }),
    }
}
