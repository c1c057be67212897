//! The reading of tables.

ghost use Rattle.std.specs.Prelude.{◌≡◌, ◌≤◌, ◌<◌, [], length, codes, IfOk, IfErr};
ghost use Rattle.vs_rows.specs.declared.limits.TheConstants.{MAX_NUMBER};
ghost use Rattle.vs_reader.specs.Rows.{field_of, row_of};
ghost use Rattle.vs_document.specs.Places.{InTable};
ghost use Rattle.vs_rows.specs.RowForms.{IsInput};
ghost use Rattle.vs_rows.specs.TableReading.{ReadsTable};
ghost use Rattle.vs_document.specs.Reading.{IsRefusedAt, ReadsTables};

use crate::reading::prices::wrong_price;
use crate::refused::{DocError, DocWhy, refusal};
use std::alloc::Global;
use vs_prices::Table;
use vs_reader::Input;
use vs_rows::{TableError, is_of_kind, read_table};

/// The tables that stand from a row on, and the row behind them.
pub fn read_tables(alloc: Global, input: &Input, at: usize) -> Result<(Vec<Table>, usize), DocError>
    requires input { IsInput input.now }
    requires row { at ≤ length input.now.rest }
    ensures found { IfOk result (λ r. ReadsTables input.now at r.1 r.0.items) }
    ensures refused { IfErr result (IsRefusedAt input.now at (InTable 0 [])) }
{
    let mut tables = Vec::new(alloc);
    let mut next = at;
    while next < input.rest.len() && is_of_kind(&input.rest, next, "table", 3) {
        let (table, behind) = next_table(alloc, input, next, tables.len())?;
        tables.push(table)?;
        next = behind;
    }
    Ok((tables, next))
}

/// The table that stands from a row on behind so many others, and the row behind it.
fn next_table(
    alloc: Global,
    input: &Input,
    at: usize,
    before: usize,
) -> Result<(Table, usize), DocError>
    requires input { IsInput input.now }
    requires row { at < length input.now.rest }
    requires kind { field_of (row_of input.now.rest at) 0 ≡ codes "table" }
    requires before { before ≤ MAX_NUMBER }
    ensures found { IfOk result (λ r. ReadsTable input.now at before r.1 r.0) }
    ensures refused { IfErr result (IsRefusedAt input.now at (InTable before [])) }
{
    match read_table(alloc, input, at, before) {
        Ok(read) => Ok(read),
        Err(error) => match error {
            TableError::NoTable => Err(refusal(input, at, DocWhy::BadRow)),
            TableError::Number => Err(refusal(input, at, DocWhy::TableNumber)),
            TableError::Prices { row, why } => Err(wrong_price(alloc, input, row, why)),
            TableError::Memory => Err(DocError::Memory),
        },
    }
}
