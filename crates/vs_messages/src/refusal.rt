//! The sentence for a row that was written.

ghost use Rattle.std.specs.Prelude.{◌≡◌, ◌||◌, [], IfOk, IfSome, is_some, true};
ghost use Rattle.std.specs.String.{string_bytes};
ghost use Rattle.csv.specs.Records.{fields_of};
ghost use Rattle.vs_messages.specs.Told.{BeginWith, first_row, is_flaw, is_refusal, place_of};

use crate::deadheads::deadheads_words;
use crate::document::document_words;
use crate::flaw::flaw_words;
use crate::instance::instance_words;
use crate::peaks::peaks_words;
use crate::records::{first_record, number_in, record_at};
use crate::traces::trace_words;
use csv::ByteRecord;
use std::alloc::Global;
use vs_reader::{field, is_text};
use vs_types::Memory;

/// The numbers of the first refusals of documents, of traces and of texts of peaks.
const FIRST_OF_DOCUMENTS: u64 = 20;

const FIRST_OF_TRACES: u64 = 50;

const FIRST_OF_PEAKS: u64 = 60;

/// What a row says that was written for an input, in a sentence without a line's end. It is what was refused, and
/// where, or why a document doesn't hold, by the names of the input. None exactly where the row is neither a refusal's
/// nor one that says no. Where a refusal names a record, the sentence begins with its number.
pub fn refusal_text(alloc: Global, input: &[u8], row: &[u8]) -> Result<Option<String>, Memory>
    ensures told { IfOk result (λ words.
        is_some words ≡ (is_refusal (first_row row.now) || is_flaw (first_row row.now))) }
    ensures place { IfOk result (λ words. IfSome words (λ words.
        BeginWith (place_of (first_row row.now)) (string_bytes words))) }
{
    let row = first_record(alloc, row)?;
    if is_text(field(&row, 0), "refused") {
        return Ok(Some(refused_words(alloc, input, &row)?));
    }
    if is_text(field(&row, 0), "no") {
        return Ok(Some(flaw_words(alloc, input, &row)?));
    }
    Ok(None)
}

/// The words for a refusal: the record that it names, where it names one, and what is wrong.
fn refused_words(alloc: Global, input: &[u8], row: &ByteRecord) -> Result<String, Memory>
    requires { is_refusal (fields_of row.now) ≡ true }
    ensures { IfOk result (λ words. BeginWith (place_of (fields_of row.now)) (string_bytes words)) }
{
    let mut words = place_words(alloc, row)?;
    let why = why_words(alloc, input, row)?;
    words.push_str(why.as_str())?;
    Ok(words)
}

/// The words for the record that a refusal names. None where it names none, as for the whole table of deadheads.
fn place_words(alloc: Global, row: &ByteRecord) -> Result<String, Memory>
    requires { is_refusal (fields_of row.now) ≡ true }
    ensures { IfOk result (λ words. string_bytes words ≡ place_of (fields_of row.now)) }
{
    let mut words = String::new(alloc);
    if is_text(field(row, 1), "0") {
        return Ok(words);
    }
    let number = String::from_utf8_lossy(alloc, field(row, 1))?;
    words.push_str("record ")?;
    words.push_str(number.as_str())?;
    words.push_str(": ")?;
    Ok(words)
}

/// The words for what a refusal says, without the record's number.
fn why_words(alloc: Global, input: &[u8], row: &ByteRecord) -> Result<String, Memory> {
    let number = number_in(row, 1);
    if number == 0 {
        return deadheads_words(alloc, input, row);
    }
    let at = record_at(alloc, input, number)?.unwrap_or(ByteRecord::new(alloc));
    if number_in(row, 2) < FIRST_OF_DOCUMENTS {
        return instance_words(alloc, input, row, &at);
    }
    if number_in(row, 2) < FIRST_OF_TRACES {
        return document_words(alloc, row, &at);
    }
    if number_in(row, 2) < FIRST_OF_PEAKS {
        return trace_words(alloc, row, &at);
    }
    peaks_words(alloc, row, &at)
}
