//! The words for a document, a trace or a text of peaks that doesn't hold.

use crate::blocks::plan_words;
use crate::peaks::peak_flaw_words;
use crate::records::number_in;
use crate::sentence::{Part, sentence};
use crate::traces::step_words;
use csv::ByteRecord;
use std::alloc::Global;
use vs_reader::{field, is_text};
use vs_types::Memory;

/// The number of the first flaw of a text of peaks.
const FIRST_OF_PEAKS: u64 = 8;

/// The words for a row that says why a document, a trace or a text of peaks doesn't hold.
pub fn flaw_words(alloc: Global, input: &[u8], row: &ByteRecord) -> Result<String, Memory> {
    if number_in(row, 1) >= FIRST_OF_PEAKS {
        return peak_flaw_words(alloc, row);
    }
    if is_text(field(row, 1), "1") {
        return plan_words(alloc, input, row);
    }
    let name = field(row, 2);
    if is_text(name, "TableBroken") {
        return table_words(alloc, "table", row);
    }
    if is_text(name, "LeafTooWeak") {
        return leaf_words(alloc, row);
    }
    if is_text(name, "NotAStep") {
        return step_words(alloc, row);
    }
    claim_words(alloc, name, row)
}

/// The words for a cost, a split or a claim that isn't what it has to be.
fn claim_words(alloc: Global, name: &[u8], row: &ByteRecord) -> Result<String, Memory> {
    let (third, fourth) = (Part::of(row, 3), Part::of(row, 4));
    if is_text(name, "CostDiffers") {
        return sentence(
            alloc,
            "the blocks cost %, and the document says %",
            &[fourth, third],
        );
    }
    if is_text(name, "BadSplit") {
        return sentence(
            alloc,
            "row % of the tree: the split names all layers that its trip may be run in there, or another",
            &[third],
        );
    }
    if is_text(name, "ClaimDiffers") {
        return sentence(
            alloc,
            "the document claims %, and its cost and its bound together say %",
            &[third, fourth],
        );
    }
    sentence(alloc, "the document doesn't hold: %", &[Part::Bytes(name)])
}

/// The words for a leaf whose table shows too little.
fn leaf_words(alloc: Global, row: &ByteRecord) -> Result<String, Memory> {
    let words = if is_text(field(row, 5), "none") {
        "row % of the tree: the leaf's table doesn't show that there is no plan"
    } else {
        "row % of the tree: the leaf's table shows a cost of % at least, and the bound is %"
    };
    let parts = [Part::of(row, 3), Part::of(row, 4), Part::of(row, 5)];
    sentence(alloc, words, &parts)
}

/// The words for prices that are worth more somewhere than what they pay for costs, and whose they are.
pub fn table_words(alloc: Global, whose: &str, row: &ByteRecord) -> Result<String, Memory> {
    let (whose, of, layer) = (Part::Word(whose), Part::of(row, 3), Part::of(row, 5));
    let (first, second) = (Part::of(row, 6), Part::of(row, 7));
    let place = field(row, 4);
    if is_text(place, "fleet") {
        return sentence(
            alloc,
            "% %: a vehicle of layer % has a price below 0",
            &[whose, of, layer],
        );
    }
    if is_text(place, "link") {
        return sentence(
            alloc,
            "% %: to go from trip % to trip % in layer % is worth more than it costs",
            &[whose, of, first, second, layer],
        );
    }
    let words = if is_text(place, "out") {
        "% %: to leave the depot for trip % in layer % is worth more than it costs"
    } else {
        "% %: to go home from trip % in layer % is worth more than it costs"
    };
    sentence(alloc, words, &[whose, of, first, layer])
}
