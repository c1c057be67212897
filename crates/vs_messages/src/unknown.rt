//! The words for a name that no record above declares.

use crate::column::Column;
use crate::instance::Refusal;
use crate::records::record_like;
use crate::sentence::{Part, sentence};
use std::alloc::Global;
use vs_reader::{Kind, field};
use vs_types::Memory;

/// A name that no record above declares.
#[derive(Clone, Copy)]
struct Unknown<'a> {
    kind: Kind,
    name: &'a [u8],
    /// The first record that declares it, and the greatest number where none does.
    first: u64,
}

/// The words for the first name of a record that no record before it declares.
pub fn unknown_words(alloc: Global, refusal: &Refusal<'_>) -> Result<String, Memory> {
    let Some(unknown) = first_unknown(alloc, refusal)? else {
        return sentence(alloc, "a name isn't declared above", &[]);
    };
    let (kind, name) = (Part::Word(unknown.kind.name()), Part::Bytes(unknown.name));
    if unknown.first == u64::MAX {
        return sentence(alloc, "unknown % %", &[kind, name]);
    }
    sentence(
        alloc,
        "% % is declared only behind, in record %",
        &[kind, name, Part::Number(unknown.first)],
    )
}

/// The first name of a record that no record before it declares. None where each is declared.
fn first_unknown<'r>(alloc: Global, refusal: &Refusal<'r>) -> Result<Option<Unknown<'r>>, Memory> {
    let at = refusal.at;
    for k in 1..at.len() {
        let Some(kind) = Column::of(refusal.kind, k).declared() else {
            continue;
        };
        let name = field(at, k);
        let first = declared_at(alloc, refusal, kind, name)?;
        if first >= refusal.number {
            return Ok(Some(Unknown { kind, name, first }));
        }
    }
    Ok(None)
}

/// The number of the first record that declares the name in this kind, and the greatest number where none does.
pub fn declared_at(
    alloc: Global,
    refusal: &Refusal<'_>,
    kind: Kind,
    name: &[u8],
) -> Result<u64, Memory> {
    match record_like(alloc, refusal.input, kind, name, None)? {
        Some(found) => Ok(found.number),
        None => Ok(u64::MAX),
    }
}
