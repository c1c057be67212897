//! The words for a document that is refused.

use crate::sentence::{Part, sentence, shown_words};
use csv::ByteRecord;
use std::alloc::Global;
use vs_reader::{field, is_text};
use vs_types::Memory;

/// The words for refusals of a document, by their names. A gap is the record that is named.
const REFUSED: &[(&str, &str)] = &[
    ("NoResult", "no document of a plan follows the timetable"),
    (
        "EndsEarly",
        "the document ends here, without its row end: was it cut off?",
    ),
    ("BadRow", "no row of a document looks like this: %"),
    (
        "OutOfOrder",
        "another row of the document has to come here than %",
    ),
    ("RowsAfterEnd", "behind the document's end stands %"),
    (
        "PriceRange",
        "a price is greater than 1000000000000000000 or less than its negative: %",
    ),
];

/// The words for a refusal of what stands behind an instance, and the record that it names: no fields where the text
/// has none.
pub fn document_words(alloc: Global, row: &ByteRecord, at: &ByteRecord) -> Result<String, Memory> {
    let name = field(row, 3);
    if is_text(name, "TableNumber") {
        return table_words(alloc, at);
    }
    shown_words(alloc, REFUSED, row, at)
}

/// The words for a table that hasn't the next number, or a leaf that names no table.
fn table_words(alloc: Global, at: &ByteRecord) -> Result<String, Memory> {
    let words = if is_text(field(at, 0), "leaf") {
        "the leaf names table %, and no such table stands above"
    } else {
        "tables are numbered 1, 2, 3 in order, and this one has number %"
    };
    sentence(alloc, words, &[Part::of(at, 1)])
}
