//! The words for a trace that is refused, and for one whose steps may not come.

use crate::sentence::{Part, sentence, shown_words};
use csv::ByteRecord;
use std::alloc::Global;
use vs_reader::{field, is_text};
use vs_types::Memory;

/// The words for refusals of a trace, by their names. A gap is the record that is named.
const REFUSED: &[(&str, &str)] = &[
    ("NoTrace", "no trace of a search follows the timetable"),
    (
        "EndsEarly",
        "the trace ends here, without its row end: was it cut off?",
    ),
    ("BadRow", "no row of a trace looks like this: %"),
    (
        "OutOfOrder",
        "another row of the trace has to come here than %",
    ),
    ("RowsAfterEnd", "behind the end of the trace stands %"),
    (
        "PriceRange",
        "a price is greater than 1000000000000000000 or less than its negative: %",
    ),
];

/// The words for a refusal of a trace, and the record that it names: no fields where the text has none.
pub fn trace_words(alloc: Global, row: &ByteRecord, at: &ByteRecord) -> Result<String, Memory> {
    if is_text(field(row, 3), "TableNumber") {
        return sentence(
            alloc,
            "the tables of a trace are numbered 1, 2, 3 in order, and this one has number %",
            &[Part::of(at, 1)],
        );
    }
    shown_words(alloc, REFUSED, row, at)
}

/// The words for a row that says which step of a trace may not come.
pub fn step_words(alloc: Global, row: &ByteRecord) -> Result<String, Memory> {
    if is_text(field(row, 3), "0") {
        return sentence(
            alloc,
            "the trace's first plan is none, or costs something else",
            &[],
        );
    }
    sentence(
        alloc,
        "step % of the trace may not come there; where it has no such step, a leaf is still held at its end",
        &[Part::of(row, 3)],
    )
}
