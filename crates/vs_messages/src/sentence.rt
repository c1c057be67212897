//! Sentences with gaps, which fields of records fill as a screen can show them.

use csv::ByteRecord;
use std::alloc::Global;
use vs_reader::{field, is_text};
use vs_types::Memory;

/// How many signs of a field or a record are shown at most.
const MAX_SHOWN: usize = 60;

/// How many bytes a sign has at most.
const SIGN_BYTES: usize = 4;

/// What stands for a gap.
const GAP: char = '%';

/// What fills a gap.
#[derive(Clone, Copy)]
pub enum Part<'a> {
    /// A field, or other bytes of a text.
    Bytes(&'a [u8]),
    Word(&'a str),
    Number(u64),
}

impl<'a> Part<'a> {
    /// Field k of a record, empty where the record has fewer.
    pub fn of(row: &'a ByteRecord, k: usize) -> Part<'a> {
        Part::Bytes(field(row, k))
    }
}

/// The words that a table has for a name. None where it has none.
pub fn words_for(table: &[(&'static str, &'static str)], name: &[u8]) -> Option<&'static str> {
    for &(of, words) in table {
        if is_text(name, of) {
            return Some(words);
        }
    }
    None
}

/// The sentence, each gap of which is filled by the part with its number.
pub fn sentence(alloc: Global, words: &str, parts: &[Part<'_>]) -> Result<String, Memory> {
    let mut text = String::new(alloc);
    for (k, piece) in words.split(GAP).enumerate() {
        if k > 0 {
            fill(alloc, &mut text, parts.get(k - 1).copied())?;
        }
        text.push_str(piece)?;
    }
    Ok(text)
}

/// Adds what fills a gap, and nothing where there is no part for it.
fn fill(alloc: Global, text: &mut String, part: Option<Part<'_>>) -> Result<(), Memory> {
    match part {
        Some(Part::Bytes(bytes)) => show(alloc, text, bytes),
        Some(Part::Word(word)) => {
            text.push_str(word)?;
            Ok(())
        }
        Some(Part::Number(number)) => {
            let digits = format!(in alloc; "{number}")?;
            text.push_str(digits.as_str())?;
            Ok(())
        }
        None => Ok(()),
    }
}

/// Adds the first signs of some bytes, 60 at most, and two points where there are more. A sign that steers a screen is
/// shown as a question mark, and bytes that are no text as the sign for that.
fn show(alloc: Global, text: &mut String, bytes: &[u8]) -> Result<(), Memory> {
    let most = bytes.len().min(MAX_SHOWN * SIGN_BYTES);
    let shown = String::from_utf8_lossy(alloc, &bytes[..most])?;
    for (k, sign) in shown.as_str().chars().enumerate() {
        if k == MAX_SHOWN {
            text.push_str("..")?;
            break;
        }
        text.push(if sign.is_control() { '?' } else { sign })?;
    }
    Ok(())
}

/// The beginning of a record, with commas between its fields: as much of it as is shown, or more.
pub fn begin_of(alloc: Global, row: &ByteRecord) -> Result<Vec<u8>, Memory> {
    let mut bytes = Vec::new(alloc);
    for k in 0..row.len() {
        if k > 0 {
            bytes.push(b',')?;
        }
        if bytes.len() > MAX_SHOWN * SIGN_BYTES {
            break;
        }
        bytes.extend_from_slice(field(row, k))?;
    }
    Ok(bytes)
}

/// The sentence that a table has for the name of a refusal, with the record that it names in its gap.
pub fn shown_words(
    alloc: Global,
    table: &[(&'static str, &'static str)],
    row: &ByteRecord,
    at: &ByteRecord,
) -> Result<String, Memory> {
    let begin = begin_of(alloc, at)?;
    let shown = Part::Bytes(begin.as_slice());
    match words_for(table, field(row, 3)) {
        Some(words) => sentence(alloc, words, &[shown]),
        None => sentence(alloc, "%: %", &[Part::of(row, 3), shown]),
    }
}
