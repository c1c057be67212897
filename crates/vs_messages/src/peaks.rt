//! The words for a text of peaks that is refused, and for one that doesn't hold.

use crate::flaw::table_words;
use crate::sentence::{Part, sentence, shown_words, words_for};
use csv::ByteRecord;
use std::alloc::Global;
use vs_reader::{field, is_text};
use vs_types::Memory;

/// The words for refusals of a text of peaks, by their names. A gap is the record that is named.
const REFUSED: &[(&str, &str)] = &[
    ("NoPeak", "no text of peaks follows the timetable"),
    (
        "EndsEarly",
        "the text of peaks ends here, without its row end: was it cut off?",
    ),
    ("BadRow", "no row of a text of peaks looks like this: %"),
    (
        "OutOfOrder",
        "another row of the text of peaks has to come here than %",
    ),
    (
        "RowsAfterEnd",
        "behind the end of the text of peaks stands %",
    ),
    (
        "PriceRange",
        "a price is greater than 1000000000000000000 or less than its negative: %",
    ),
];

/// The words for blocks with a count that are no plan, by what is wrong with them. The gaps are the layer, the block
/// or the trip, and the place in the block.
const BLOCKS: &[(&str, &str)] = &[
    (
        "NoPullOut",
        "layer %: no vehicle is in time for the first trip of block %, or no deadhead leads there",
    ),
    (
        "NoConnection",
        "layer %: in block % no vehicle is in time for trip number % after the one before, or no deadhead leads there",
    ),
    (
        "NoPullIn",
        "layer %: no deadhead leads from the last trip of block % to the depot",
    ),
    (
        "Twice",
        "layer %: trip % stands in the blocks more than once",
    ),
    ("Uncovered", "layer %: no block runs trip %"),
];

/// The words for a refusal of a text of peaks, and the record that it names: no fields where the text has none.
pub fn peaks_words(alloc: Global, row: &ByteRecord, at: &ByteRecord) -> Result<String, Memory> {
    shown_words(alloc, REFUSED, row, at)
}

/// The words for a row that says why a text of peaks doesn't hold.
pub fn peak_flaw_words(alloc: Global, row: &ByteRecord) -> Result<String, Memory> {
    let name = field(row, 2);
    if is_text(name, "TableBroken") {
        return table_words(alloc, "the prices of layer", row);
    }
    if is_text(name, "Blocks") {
        let words = words_for(BLOCKS, field(row, 4)).unwrap_or("layer %: block % can't be run");
        let parts = [Part::of(row, 3), Part::of(row, 5), Part::of(row, 6)];
        return sentence(alloc, words, &parts);
    }
    count_words(alloc, name, row)
}

/// The words for a count that has more or fewer blocks, or that the prices don't show.
fn count_words(alloc: Global, name: &[u8], row: &ByteRecord) -> Result<String, Memory> {
    let words = if is_text(name, "CountDiffers") {
        "layer %: the count is %, and the number of blocks is %"
    } else if is_text(field(row, 5), "none") {
        "layer %: the prices don't show that no number of vehicles is enough"
    } else {
        "layer %: by the prices the peak is at least %, and the count is %"
    };
    let parts = [Part::of(row, 3), Part::of(row, 4), Part::of(row, 5)];
    sentence(alloc, words, &parts)
}
