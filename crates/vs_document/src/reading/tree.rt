//! The reading of a tree of cases, and of the end.

ghost use Rattle.std.specs.Prelude.{◌≡◌, ◌+◌, ◌≤◌, ◌<◌, length, IfOk, IfErr};
ghost use Rattle.vs_rows.specs.declared.limits.TheConstants.{MAX_NUMBER};
ghost use Rattle.vs_document.specs.Places.{InTree};
ghost use Rattle.vs_rows.specs.RowForms.{IsInput};
ghost use Rattle.vs_document.specs.Reading.{IsLast, IsRefusedAt, IsRefusedInTree, ReadsPart, ReadsTree};

use crate::reading::said::{Said, said_at};
use crate::refused::{DocError, DocWhy, refusal};
use std::alloc::Global;
use vs_reader::Input;
use vs_rows::Shape;

/// The tree that stands from a row on behind so many tables, and the row behind it.
pub fn read_tree(
    alloc: Global,
    input: &Input,
    at: usize,
    tables: usize,
) -> Result<(Vec<Shape>, usize), DocError>
    requires input { IsInput input.now }
    requires row { at ≤ length input.now.rest }
    requires tables { tables ≤ MAX_NUMBER }
    ensures found { IfOk result (λ r. ReadsTree input.now at tables r.1 r.0.items) }
    ensures refused { IfErr result (IsRefusedAt input.now at (InTree tables 1)) }
{
    let mut shape = Vec::new(alloc);
    // The parts of the tree that are still to come.
    let mut parts: usize = 1;
    for row in at..input.rest.len() {
        if parts == 0 {
            return Ok((shape, row));
        }
        let part = read_part(alloc, input, row, tables)?;
        parts = match part {
            Shape::Split { .. } => parts + 1,
            Shape::Leaf { .. } => parts - 1,
        };
        shape.push(part)?;
    }
    let end = input.rest.len();
    if parts > 0 {
        return Err(refusal(input, end, DocWhy::EndsEarly));
    }
    Ok((shape, end))
}

/// The split or the leaf of a row that stands in a tree behind so many tables.
fn read_part(alloc: Global, input: &Input, row: usize, tables: usize) -> Result<Shape, DocError>
    requires input { IsInput input.now }
    requires row { row ≤ length input.now.rest }
    requires tables { tables ≤ MAX_NUMBER }
    ensures found { IfOk result (ReadsPart input.now row tables) }
    ensures refused { IfErr result (IsRefusedInTree input.now row tables) }
{
    let said = said_at(alloc, input, row)?;
    match said {
        Said::Split { trip, left } => Ok(Shape::Split { trip, left }),
        Said::Leaf { number } => {
            if number == 0 || number as usize > tables {
                return Err(refusal(input, row, DocWhy::TableNumber));
            }
            Ok(Shape::Leaf { table: number - 1 })
        }
        _ => Err(refusal(input, row, DocWhy::OutOfOrder)),
    }
}

/// Reads the last row, behind so many tables and the tree.
pub fn read_end(alloc: Global, input: &Input, row: usize, tables: usize) -> Result<(), DocError>
    requires input { IsInput input.now }
    requires row { row ≤ length input.now.rest }
    ensures found { IfOk result (λ _. IsLast input.now row) }
    ensures refused { IfErr result (IsRefusedAt input.now row (InTree tables 0)) }
{
    match said_at(alloc, input, row)? {
        Said::End => {}
        _ => return Err(refusal(input, row, DocWhy::OutOfOrder)),
    }
    if row + 1 < input.rest.len() {
        return Err(refusal(input, row + 1, DocWhy::RowsAfterEnd));
    }
    Ok(())
}
