//! The words for blocks that are no plan.

use crate::records::{number_in, record_like, record_of_kind};
use crate::sentence::{Part, sentence};
use csv::ByteRecord;
use std::alloc::Global;
use vs_reader::{Kind, field, is_text};
use vs_types::Memory;

/// The words for blocks that are no plan.
pub fn plan_words(alloc: Global, input: &[u8], row: &ByteRecord) -> Result<String, Memory> {
    let name = field(row, 2);
    let third = Part::of(row, 3);
    if is_text(name, "Twice") {
        return sentence(
            alloc,
            "trip % stands in the blocks more than once",
            &[third],
        );
    }
    if is_text(name, "Uncovered") {
        return sentence(alloc, "no block runs trip %", &[third]);
    }
    if is_text(name, "Fleet") {
        return fleet_words(alloc, input, row);
    }
    let block = record_of_kind(alloc, input, "block", number_in(row, 3))?;
    if block.is_empty() {
        return sentence(alloc, "block % can't be run", &[third]);
    }
    block_words(alloc, row, &block)
}

/// The words for more blocks of a layer than it has vehicles.
fn fleet_words(alloc: Global, input: &[u8], row: &ByteRecord) -> Result<String, Memory> {
    let fleet = match record_like(alloc, input, Kind::Layer, field(row, 3), None)? {
        Some(found) => number_in(&found.fields, 3),
        None => 0,
    };
    sentence(
        alloc,
        "layer % has % blocks, and % vehicles",
        &[Part::of(row, 3), Part::of(row, 4), Part::Number(fleet)],
    )
}

/// The words for a block that no vehicle of its layer can run.
fn block_words<'r>(
    alloc: Global,
    row: &'r ByteRecord,
    block: &'r ByteRecord,
) -> Result<String, Memory> {
    let name = field(row, 2);
    let (number, layer) = (Part::of(row, 3), Part::of(block, 1));
    let at = place_in(row);
    if is_text(name, "NotPermitted") {
        return sentence(
            alloc,
            "block %: layer % may not run trip %",
            &[number, layer, Part::of(block, at)],
        );
    }
    if is_text(name, "NoConnection") {
        return sentence(
            alloc,
            "block %: after trip % no vehicle is in time for trip %, or no deadhead leads there",
            &[
                number,
                Part::of(block, at.saturating_sub(1)),
                Part::of(block, at),
            ],
        );
    }
    if is_text(name, "NoPullOut") {
        return sentence(
            alloc,
            "block %: no vehicle of layer % is in time for trip %, or no deadhead leads there",
            &[number, layer, Part::of(block, 2)],
        );
    }
    sentence(
        alloc,
        "block %: no deadhead leads from trip % to the depot of layer %",
        &[
            number,
            Part::of(block, block.len().saturating_sub(1)),
            layer,
        ],
    )
}

/// The place in its block's record of the trip that a flaw names.
fn place_in(row: &ByteRecord) -> usize {
    number_in(row, 4).saturating_add(1).min(u64::from(u32::MAX)) as usize
}
