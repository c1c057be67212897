//! The rows of tables.

ghost use Rattle.std.specs.Prelude.{◌≡◌, ◌∷◌, [], ◌<◌, ◌++◌, length, All, OnOk, codes, decimal};
ghost use Rattle.vs_reader.specs.Rows.{line};
ghost use Rattle.vs_prices.specs.Table.{Fits};
ghost use Rattle.vs_rows.specs.DocumentRows.{kind_field, table_rows, tables_rows};
ghost use Rattle.vs_rows.specs.Writing.{AddsRow, AddsRows};

use crate::text::Text;
use crate::writing::prices::write_layer;
use vs_instance::Instance;
use vs_prices::Table;
use vs_reader::Names;
use vs_types::{LayerNo, Memory};

/// Writes the tables, numbered from 1 on.
pub fn write_tables(
    text: &mut Text,
    instance: &Instance,
    names: &Names,
    tables: &Vec<Table>,
) -> Result<(), Memory>
    requires fit { All (Fits instance.now) tables.now.items }
    requires layers { length names.now.layers ≡ length instance.now.layers }
    requires trips { length names.now.trips ≡ length instance.now.trips }
    ensures { OnOk result (AddsRows names.now (tables_rows instance.now tables.now.items) text.old text.new) }
{
    for (k, table) in tables.iter().enumerate() {
        write_table(text, instance, names, k + 1, table)?;
    }
    Ok(())
}

/// Writes a table: its number, its kind, and the prices of each layer.
pub fn write_table(
    text: &mut Text,
    instance: &Instance,
    names: &Names,
    number: usize,
    table: &Table,
) -> Result<(), Memory>
    requires fits { Fits instance.now table.now }
    requires layers { length names.now.layers ≡ length instance.now.layers }
    requires trips { length names.now.trips ≡ length instance.now.trips }
    ensures { OnOk result (AddsRows names.now (table_rows instance.now (number, table.now)) text.old text.new) }
{
    write_kind(text, number, table.ray)?;
    for l in 0..instance.layers() {
        write_layer(text, instance, names, LayerNo(l), table)?;
    }
    Ok(())
}

/// Writes a table's number and its kind.
fn write_kind(text: &mut Text, number: usize, ray: bool) -> Result<(), Memory>
    ensures { OnOk result (text.new ≡ text.old ++ line (codes "table" ∷ decimal number ∷ kind_field ray ∷ [])) }
{
    text.begin_row("table")?;
    text.number(number)?;
    text.field(if ray { "ray" } else { "cost" })?;
    text.end_row()
}
