//! The words for a number that is out of its range.

use crate::sentence::{Part, sentence};
use csv::ByteRecord;
use std::alloc::Global;
use vs_instance::{MAX_FIXED, MAX_METRES, MAX_MINUTES, MAX_PER_METRE, MAX_PER_MINUTE, MAX_STAY};
use vs_reader::{Kind, is_text};
use vs_types::Memory;

/// Where a number stands in a record, and what it may be.
#[derive(Clone, Copy)]
struct Range {
    place: usize,
    least: u64,
    most: u64,
}

/// The names of numbers, their places in their records, and the least and the most that they may be. The fleet is left
/// out, since the version limits it, and so are metres: they stand elsewhere in a trip than in a deadhead.
const NUMBERS: &[(&str, usize, u64, u64)] = &[
    ("fixed", 4, 0, MAX_FIXED),
    ("per_minute", 5, 0, MAX_PER_MINUTE),
    ("per_metre", 6, 0, MAX_PER_METRE),
    ("stay", 7, 1, MAX_STAY),
    ("minutes", 3, 1, MAX_MINUTES),
];

/// The range of the number with this name in a record of this kind, where a fleet has so many vehicles at most.
fn range_of(name: &[u8], kind: Kind, fleet: u32) -> Range {
    if is_text(name, "fleet") {
        let most = u64::from(fleet);
        return Range {
            place: 3,
            least: 0,
            most,
        };
    }
    for &(of, place, least, most) in NUMBERS {
        if is_text(name, of) {
            return Range { place, least, most };
        }
    }
    let place = if matches!(kind, Kind::Trip) { 6 } else { 4 };
    Range {
        place,
        least: 0,
        most: MAX_METRES,
    }
}

/// The words for a number that is out of its range, by its name and the record in which it stands. A fleet has so many
/// vehicles at most.
pub fn range_words<'r>(
    alloc: Global,
    name: &'r [u8],
    kind: Kind,
    fleet: u32,
    at: &'r ByteRecord,
) -> Result<String, Memory> {
    let Range { place, least, most } = range_of(name, kind, fleet);
    sentence(
        alloc,
        "% is %, and may be % to %",
        &[
            Part::Bytes(name),
            Part::of(at, place),
            Part::Number(least),
            Part::Number(most),
        ],
    )
}
