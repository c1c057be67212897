//! Records of a text, looked for by their number or by how they begin.

ghost use Rattle.std.specs.Prelude.{◌≡◌, ◌<◌, List, length, IfOk, MatchOption};
ghost use Rattle.csv.specs.Records.{fields_of};
ghost use Rattle.vs_reader.specs.Rows.{Row};
ghost use Rattle.vs_reader.specs.Texts.{HasRows};
ghost use Rattle.vs_messages.specs.Given.{IsAt};
ghost use Rattle.vs_messages.specs.Told.{first_row};

use csv::{ByteRecord, ReaderBuilder};
use std::alloc::Global;
use vs_reader::{Kind, TextRecords, field, is_text, number};
use vs_types::Memory;

/// A record of a text, and its number, counted from 1.
#[derive(Drop)]
pub struct Found {
    pub number: u64,
    pub fields: ByteRecord,
}

/// The first record of a text. It has no fields where the text has no record.
pub fn first_record(alloc: Global, text: &[u8]) -> Result<ByteRecord, Memory>
    ensures { IfOk result (λ row. fields_of row ≡ first_row text.now) }
{
    let mut reader = ReaderBuilder::new()
        .has_headers(false)
        .flexible(true)
        .from_reader(alloc, text);
    let mut row = ByteRecord::new(alloc);
    match reader.read_byte_record(&mut row) {
        Ok(true) => Ok(row),
        Ok(false) => Ok(ByteRecord::new(alloc)),
        // Bytes in memory can't fail to be read, so the only error is to be out of memory.
        Err(_) => Err(Memory),
    }
}

/// The record of a text with this number, counted from 1. None where the text has fewer.
pub fn record_at(alloc: Global, text: &[u8], number: u64) -> Result<Option<ByteRecord>, Memory>
    requires { 0 < number }
    ensures { IfOk result (λ found. (rows : List Row) → HasRows text.now rows → MatchOption found
        (length rows < number)
        (λ row. IsAt rows number (fields_of row))) }
{
    let mut records = TextRecords::new(alloc, text);
    for _count in 0..number {
        if !records.next()? {
            return Ok(None);
        }
    }
    Ok(Some(records.current))
}

/// The first record of an instance whose first fields are its kind's, this name and, where it is given, this other one.
/// None where no record before the first `result` record is such a one.
pub fn record_like(
    alloc: Global,
    text: &[u8],
    kind: Kind,
    name: &[u8],
    other: Option<&[u8]>,
) -> Result<Option<Found>, Memory> {
    let mut records = TextRecords::new(alloc, text);
    for number in 1..u64::MAX {
        if !records.next()? || is_text(field(&records.current, 0), "result") {
            return Ok(None);
        }
        if is_like(&records.current, kind, name, other) {
            return Ok(Some(Found {
                number,
                fields: records.current,
            }));
        }
    }
    Ok(None)
}

/// Record number `place`, counted from 1, of those whose first field is this one. It has no fields where there are
/// fewer.
pub fn record_of_kind(
    alloc: Global,
    text: &[u8],
    kind: &str,
    place: u64,
) -> Result<ByteRecord, Memory> {
    let mut records = TextRecords::new(alloc, text);
    let mut seen: u64 = 0;
    for _number in 1..u64::MAX {
        if !records.next()? {
            return Ok(ByteRecord::new(alloc));
        }
        if is_text(field(&records.current, 0), kind) {
            seen = seen.saturating_add(1);
            if seen == place {
                return Ok(records.current);
            }
        }
    }
    Ok(ByteRecord::new(alloc))
}

/// Whether a record's first fields are its kind's, this name and, where it is given, this other one.
fn is_like(row: &ByteRecord, kind: Kind, name: &[u8], other: Option<&[u8]>) -> bool {
    if !is_text(field(row, 0), kind.name()) || field(row, 1) != name {
        return false;
    }
    match other {
        Some(other) => field(row, 2) == other,
        None => true,
    }
}

/// The number that a field of a record writes in digits. 0 where it writes none.
pub fn number_in(row: &ByteRecord, k: usize) -> u64 {
    number(field(row, k)).unwrap_or(0)
}
