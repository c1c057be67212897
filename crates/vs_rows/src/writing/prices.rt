//! The rows of the prices of a layer.

ghost use Rattle.std.specs.Prelude.{◌≡◌, ◌∷◌, [], ◌<◌, ◌++◌, length, codes, OnOk};
ghost use Rattle.std.specs.Fmt.{signed_decimal};
ghost use Rattle.vs_prices.specs.Table.{Fits};
ghost use Rattle.vs_rows.specs.DocumentRows.{FleetRow, PriceRow, layer_rows};
ghost use Rattle.vs_rows.specs.Writing.{AddsRow, AddsRows};
ghost use Rattle.vs_reader.specs.Names.{name_of};

use crate::text::Text;
use vs_instance::Instance;
use vs_prices::Table;
use vs_reader::Names;
use vs_types::{LayerNo, Memory, TripNo};

/// Writes a layer of a table: the price of a vehicle, and the prices of each trip that the layer may run.
pub fn write_layer(
    text: &mut Text,
    instance: &Instance,
    names: &Names,
    l: LayerNo,
    table: &Table,
) -> Result<(), Memory>
    requires layer { l.0 < length instance.now.layers }
    requires fits { Fits instance.now table.now }
    requires layers { length names.now.layers ≡ length instance.now.layers }
    requires trips { length names.now.trips ≡ length instance.now.trips }
    ensures { OnOk result (AddsRows names.now (layer_rows instance.now table.now l.0) text.old text.new) }
{
    write_fleet(text, names, l, table.fleet[l.0 as usize])?;
    let trips = instance.trips();
    for i in 0..trips {
        if instance.trip(TripNo(i)).layers.has(l) {
            let place = l.0 as usize * trips as usize + i as usize;
            let into = table.into[place];
            let from = table.from[place];
            write_price(text, names, l, TripNo(i), into, from)?;
        }
    }
    Ok(())
}

/// Writes the price of a vehicle of a layer.
pub fn write_fleet(text: &mut Text, names: &Names, l: LayerNo, fleet: i64) -> Result<(), Memory>
    requires { l.0 < length names.now.layers }
    ensures { OnOk result (AddsRow names.now (FleetRow l.0 fleet) text.old text.new) }
{
    text.begin_row("fleet")?;
    text.field(names.layer(l))?;
    text.number(fleet)?;
    text.end_row()
}

/// Writes the prices for entering and for leaving a trip in a layer.
pub fn write_price(
    text: &mut Text,
    names: &Names,
    l: LayerNo,
    i: TripNo,
    into: i64,
    from: i64,
) -> Result<(), Memory>
    requires layer { l.0 < length names.now.layers }
    requires trip { i.0 < length names.now.trips }
    ensures { OnOk result (AddsRow names.now (PriceRow l.0 i.0 into from) text.old text.new) }
{
    text.begin_row("price")?;
    text.field(names.layer(l))?;
    text.field(names.trip(i))?;
    text.number(into)?;
    text.number(from)?;
    text.end_row()
}
