//! The words for a name that stands twice.

use crate::instance::Refusal;
use crate::sentence::{Part, sentence};
use crate::unknown::declared_at;
use csv::ByteRecord;
use std::alloc::Global;
use vs_reader::field;
use vs_types::Memory;

/// The words for a name that is declared twice, or for a layer that stands twice in a trip.
pub fn twice_words(alloc: Global, refusal: &Refusal<'_>) -> Result<String, Memory> {
    let at = refusal.at;
    let first = declared_at(alloc, refusal, refusal.kind, field(at, 1))?;
    if first < refusal.number {
        return sentence(
            alloc,
            "record % declares % % already",
            &[
                Part::Number(first),
                Part::Word(refusal.kind.name()),
                Part::of(at, 1),
            ],
        );
    }
    sentence(
        alloc,
        "layer % stands twice in the trip",
        &[Part::of(at, layer_twice(at))],
    )
}

/// The place in a trip's record of the first layer that stands there before; the place behind its last field where
/// there is none.
fn layer_twice(at: &ByteRecord) -> usize {
    for k in 8..at.len() {
        if stands_before(at, k) {
            return k;
        }
    }
    at.len()
}

/// Whether the layer at a place of a trip's record stands there before.
fn stands_before(at: &ByteRecord, k: usize) -> bool {
    for j in 7..k {
        if field(at, j) == field(at, k) {
            return true;
        }
    }
    false
}
