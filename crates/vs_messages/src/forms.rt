//! The words for a field that isn't written as it has to be: a name, a number or a time.

use crate::column::Column;
use crate::instance::Refusal;
use crate::sentence::{Part, sentence, words_for};
use csv::ByteRecord;
use std::alloc::Global;
use vs_reader::{Kind, field, is_text, name, number, time};
use vs_types::Memory;

/// The words for refusals of a field, by their names. A gap is the field.
const REFUSED: &[(&str, &str)] = &[
    (
        "BadName",
        "no name: \"%\"; a name has 1 to 32 letters, digits or signs of _ . : -",
    ),
    (
        "BadTime",
        "no time: \"%\"; a time is H:MM or HH:MM, 47:59 at most",
    ),
    ("BadNumber", "no number: \"%\"; a number is 1 to 10 digits"),
];

/// The words for the first field of a record that isn't written as it has to be.
pub fn form_words(alloc: Global, why: &[u8], refusal: &Refusal<'_>) -> Result<String, Memory> {
    let at = refusal.at;
    match words_for(REFUSED, why) {
        Some(words) => {
            let k = first_bad(why, refusal.kind, at);
            sentence(alloc, words, &[Part::of(at, k)])
        }
        None => sentence(
            alloc,
            "the % is refused",
            &[Part::Word(refusal.kind.name())],
        ),
    }
}

/// The place of the first field of a record that isn't what a refusal of this name asks for. Where there is none, it is
/// the place behind the last.
fn first_bad(why: &[u8], kind: Kind, at: &ByteRecord) -> usize {
    for k in 1..at.len() {
        if is_bad(why, Column::of(kind, k), field(at, k)) {
            return k;
        }
    }
    at.len()
}

/// Whether a field isn't what a refusal of this name asks for in its column.
fn is_bad(why: &[u8], column: Column, field: &[u8]) -> bool {
    match column {
        Column::New | Column::Stop | Column::Layer => {
            is_text(why, "BadName") && name(field).is_none()
        }
        Column::Number => is_text(why, "BadNumber") && number(field).is_none(),
        Column::Time => is_text(why, "BadTime") && time(field).is_none(),
    }
}
