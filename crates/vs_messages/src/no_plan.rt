//! The words for a document that claims that there is no plan.

ghost use Rattle.std.specs.Prelude.{IfOk, IfSome};
ghost use Rattle.vs_document.specs.Form.{IsReadFor};
ghost use Rattle.vs_prices.specs.Table.{Fits};
ghost use Rattle.vs_reader.specs.Names.{HaveCounts};
ghost use Rattle.vs_reader.specs.Rows.{AreCounted};
ghost use Rattle.vs_rows.specs.RowForms.{IsInput};

use crate::reason::ray_reason;
use crate::words::{cases_words, reason_words};
use std::alloc::Global;
use vs_document::{DocError, Document, Shape};
use vs_prices::{Claim, Table};
use vs_reader::{Input, MAX_BYTES, ReadError, Timetable, read, read_instance};
use vs_types::Memory;

/// The instance of nothing, behind which a document's rows are read alone.
const HEADER: &[u8] = b"instance,1\n";

/// Why there is no plan, in a line without its end. It follows from the text of an instance and that of the document
/// that was written for it. Anything may stand behind the records of the instance. None where one of the texts isn't
/// read, or the document doesn't claim that there is no plan, or has no ray for that.
pub fn reason_text(alloc: Global, input: &[u8], document: &[u8]) -> Result<Option<String>, Memory> {
    let Some(input) = input_of(alloc, input, document)? else {
        return Ok(None);
    };
    match vs_document::read(alloc, &input) {
        Ok(document) => document_words(alloc, &input, &document),
        Err(DocError::Memory) => Err(Memory),
        Err(DocError::Refused { .. }) => Ok(None),
    }
}

/// The instance of a text, and the rows of a document in place of what stands behind it. None where one of them isn't
/// read.
fn input_of(alloc: Global, input: &[u8], document: &[u8]) -> Result<Option<Input>, Memory>
    ensures { IfOk result (λ read. IfSome read IsInput) }
{
    let Some(timetable) = timetable_of(alloc, input)? else {
        return Ok(None);
    };
    let Some(rows) = rows_of(alloc, document)? else {
        return Ok(None);
    };
    Ok(Some(Input {
        instance: timetable.instance,
        names: timetable.names,
        before: rows.before,
        rest: rows.rest,
    }))
}

/// The instance of a text, with its names. None where there is none.
fn timetable_of(alloc: Global, input: &[u8]) -> Result<Option<Timetable>, Memory>
    ensures { IfOk result (λ read. IfSome read (λ timetable.
        HaveCounts timetable.instance timetable.names)) }
{
    if input.len() > MAX_BYTES {
        return Ok(None);
    }
    match read_instance(alloc, input) {
        Ok(timetable) => Ok(Some(timetable)),
        Err(ReadError::Memory) => Err(Memory),
        Err(ReadError::Refused(_)) => Ok(None),
    }
}

/// The rows of a document behind an instance of nothing. None where they aren't read.
fn rows_of(alloc: Global, document: &[u8]) -> Result<Option<Input>, Memory>
    ensures { IfOk result (λ read. IfSome read (λ rows. AreCounted rows.before rows.rest)) }
{
    let mut text = Vec::from_slice(alloc, HEADER)?;
    text.extend_from_slice(document)?;
    if text.len() > MAX_BYTES {
        return Ok(None);
    }
    match read(alloc, &text) {
        Ok(rows) => Ok(Some(rows)),
        Err(ReadError::Memory) => Err(Memory),
        Err(ReadError::Refused(_)) => Ok(None),
    }
}

/// The words for a document of an input: by its ray where it has one case, else how many cases there are.
fn document_words(
    alloc: Global,
    input: &Input,
    document: &Document,
) -> Result<Option<String>, Memory>
    requires input { IsInput input.now }
    requires document { IsReadFor input.now.instance document.now }
{
    if document.claim != Claim::Infeasible {
        return Ok(None);
    }
    match document.shape.first() {
        Some(Shape::Leaf { table }) => match document.tables.get(*table as usize) {
            Some(ray) if ray.ray => ray_words(alloc, input, ray),
            _ => Ok(None),
        },
        _ => Ok(Some(cases_words(alloc, leaves(&document.shape))?)),
    }
}

/// How many cases a tree has.
fn leaves(shape: &[Shape]) -> usize {
    shape
        .iter()
        .filter(|part| matches!(part, Shape::Leaf { .. }))
        .count()
}

/// The words for the ray of the one case. None where no trip counts more than 0 in it.
fn ray_words(alloc: Global, input: &Input, ray: &Table) -> Result<Option<String>, Memory>
    requires input { IsInput input.now }
    requires ray { Fits input.now.instance ray.now }
{
    let reason = ray_reason(alloc, &input.instance, ray)?;
    if reason.trips().is_empty() {
        return Ok(None);
    }
    Ok(Some(reason_words(alloc, &input.names, &reason)?))
}
