//! The reading of a table, row by row.

ghost use Rattle.std.specs.Prelude.{◌≡◌, ◌≤◌, ◌<◌, List, [], ◌∷◌, ◌++◌, length, map, IfOk, IfErr, OnOk};
ghost use Rattle.vs_rows.specs.DocumentRows.{permitted_trips};
ghost use Rattle.vs_rows.specs.PriceOrder.{PriceOf, Trip, Vehicle, prices_from};
ghost use Rattle.vs_rows.specs.RowForms.{IsInput};
ghost use Rattle.vs_rows.specs.TableReading.{IsEmptyTable, IsNoTable, IsWrongAt, ReadsFleet, ReadsKind};
ghost use Rattle.vs_rows.specs.TableReading.{ReadsLayer, ReadsPrice, ReadsPrices, ReadsTable};
ghost use Rattle.vs_rows.specs.declared.limits.TheConstants.{MAX_NUMBER};

use crate::forms;
use crate::reading::prices::{read_fleet, read_price};
use crate::wrong::TableError;
use std::alloc::Global;
use vs_prices::Table;
use vs_reader::Input;
use vs_types::{LayerNo, Memory, TripNo};

/// The table that stands from a row on behind `before` others, and the row behind it. Prices for trips that a layer may
/// not run, which no row gives, are 0.
pub fn read_table(
    alloc: Global,
    input: &Input,
    at: usize,
    before: usize,
) -> Result<(Table, usize), TableError>
    requires input { IsInput input.now }
    requires row { at ≤ length input.now.rest }
    requires before { before ≤ MAX_NUMBER }
    ensures found { IfOk result (λ r. ReadsTable input.now at before r.1 r.0) }
    ensures refused { IfErr result (IsNoTable input.now at before) }
{
    let ray = read_kind(input, at, before)?;
    let mut table = empty_table(alloc, input, ray)?;
    let mut next = at + 1;
    for l in 0..input.instance.layers() {
        next = read_layer(input, next, LayerNo(l), &mut table)?;
    }
    Ok((table, next))
}

/// Whether the table that begins at a row, behind so many others, is a ray.
fn read_kind(input: &Input, row: usize, before: usize) -> Result<bool, TableError>
    requires row { row ≤ length input.now.rest }
    requires before { before ≤ MAX_NUMBER }
    ensures found { IfOk result (ReadsKind input.now row before) }
    ensures refused { IfErr result (IsNoTable input.now row before) }
{
    if row >= input.rest.len() {
        return Err(TableError::NoTable);
    }
    let Some((number, ray)) = forms::table(&input.rest, row) else {
        return Err(TableError::NoTable);
    };
    if number as usize != before + 1 {
        return Err(TableError::Number);
    }
    Ok(ray)
}

/// A table without prices, and with room for those of all layers and trips.
fn empty_table(alloc: Global, input: &Input, ray: bool) -> Result<Table, Memory>
    ensures { IfOk result (IsEmptyTable ray) }
{
    let layers = input.names.layers();
    let prices = layers.saturating_mul(input.names.trips());
    Ok(Table {
        into: Vec::with_capacity(alloc, prices)?,
        from: Vec::with_capacity(alloc, prices)?,
        fleet: Vec::with_capacity(alloc, layers)?,
        ray,
    })
}

/// Reads the rows of a layer, puts its prices at the end of those of the table, and answers the row behind them.
fn read_layer(input: &Input, at: usize, l: LayerNo, table: &mut Table) -> Result<usize, TableError>
    requires input { IsInput input.now }
    requires row { at ≤ length input.now.rest }
    requires layer { l.0 < length input.now.instance.layers }
    ensures found { IfOk result (λ next. ReadsLayer input.now at l.0 next table.old table.new) }
    ensures refused { IfErr result (IsWrongAt input.now at (prices_from input.now.instance l.0)) }
{
    let price = fleet_at(input, at, l)?;
    table.fleet.push(price)?;
    read_prices(input, at + 1, l, table)
}

/// Reads the rows of prices of a layer's trips, and answers the row behind them. The prices of all trips are put at the
/// end of those of the table.
fn read_prices(input: &Input, at: usize, l: LayerNo, table: &mut Table) -> Result<usize, TableError>
    requires input { IsInput input.now }
    requires row { at ≤ length input.now.rest }
    requires layer { l.0 < length input.now.instance.layers }
    ensures found { IfOk result (λ next. ReadsPrices input.now at l.0 next table.old table.new) }
    ensures refused { IfErr result (λ e. (later : List PriceOf) → IsWrongAt input.now at
        (map (Trip l.0) (permitted_trips input.now.instance l.0) ++ later) e) }
{
    let mut next = at;
    for i in 0..input.instance.trips() {
        let trip = TripNo(i);
        let may = input.instance.trip(trip).layers.has(l);
        let mut prices = (0, 0);
        if may {
            prices = price_at(input, next, l, trip)?;
            next += 1;
        }
        add_trip(table, prices.0, prices.1)?;
    }
    Ok(next)
}

/// The price of a vehicle of layer l, or at which row it isn't given.
fn fleet_at(input: &Input, row: usize, l: LayerNo) -> Result<i64, TableError>
    requires { row ≤ length input.now.rest }
    ensures found { IfOk result (ReadsFleet input.now row l.0) }
    ensures refused { IfErr result (λ e. (later : List PriceOf)
        → IsWrongAt input.now row (Vehicle l.0 ∷ later) e) }
{
    match read_fleet(input, row, l) {
        Ok(price) => Ok(price),
        Err(why) => Err(TableError::Prices { row, why }),
    }
}

/// The prices of trip i in layer l, or at which row they aren't given.
fn price_at(input: &Input, row: usize, l: LayerNo, i: TripNo) -> Result<(i64, i64), TableError>
    requires { row ≤ length input.now.rest }
    ensures found { IfOk result (ReadsPrice input.now row l.0 i.0) }
    ensures refused { IfErr result (λ e. (later : List PriceOf)
        → IsWrongAt input.now row (Trip l.0 i.0 ∷ later) e) }
{
    match read_price(input, row, l, i) {
        Ok(prices) => Ok(prices),
        Err(why) => Err(TableError::Prices { row, why }),
    }
}

/// Puts the prices of one more trip at the end of those of the table.
fn add_trip(table: &mut Table, into: i64, from: i64) -> Result<(), Memory>
    ensures into { OnOk result (table.new.into.items ≡ table.old.into.items ++ into ∷ []) }
    ensures from { OnOk result (table.new.from.items ≡ table.old.from.items ++ from ∷ []) }
    ensures fleet { table.new.fleet.items ≡ table.old.fleet.items }
    ensures ray { table.new.ray ≡ table.old.ray }
{
    table.into.push(into)?;
    table.from.push(from)?;
    Ok(())
}
