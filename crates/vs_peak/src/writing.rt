//! The text that claims peaks.

ghost use Rattle.std.specs.Prelude.{◌≡◌, ◌<◌, length, map, All, IfOk, OnOk};
ghost use Rattle.vs_peakcheck.specs.Counting.{counting};
ghost use Rattle.vs_peakcheck.specs.Claims.{AreClaimed, IsClaimed};
ghost use Rattle.vs_peakcheck.specs.PeakRows.{CountRow, layer_rows, layers_rows, peak_text, price_rows};
ghost use Rattle.vs_plan.specs.Blocks.{pairs_of};
ghost use Rattle.vs_prices.specs.Table.{IsPrice};
ghost use Rattle.vs_reader.specs.Names.{HaveCounts};
ghost use Rattle.vs_reader.specs.Rows.{lines};
ghost use Rattle.vs_peak.specs.Writing.{AddsPeakRow, AddsPeakRows, AreTripsOf, own_row, own_rows};

use std::alloc::Global;
use vs_instance::Instance;
use vs_peakcheck::{Claimed, trips_of};
use vs_plan::Block;
use vs_prices::Table;
use vs_reader::Names;
use vs_rows::{Text, write_fleet, write_price};
use vs_types::{LayerNo, Memory, TripNo};

/// The text that claims this of each layer, by the names of the instance.
pub fn write(
    alloc: Global,
    instance: &Instance,
    names: &Names,
    claimed: &[Claimed],
) -> Result<Vec<u8>, Memory>
    requires claimed { AreClaimed instance.now claimed.now }
    requires names { HaveCounts instance.now names.now }
    ensures { IfOk result (λ bytes.
        bytes.items ≡ lines (peak_text instance.now names.now claimed.now)) }
{
    let mut text = Text::new(alloc);
    text.begin_row("result")?;
    text.field("1")?;
    text.field("peak")?;
    text.end_row()?;
    write_layers(alloc, &mut text, instance, names, claimed)?;
    text.begin_row("end")?;
    text.end_row()?;
    Ok(text.into_bytes())
}

/// Writes the rows of all layers, in order.
fn write_layers(
    alloc: Global,
    text: &mut Text,
    instance: &Instance,
    names: &Names,
    claimed: &[Claimed],
) -> Result<(), Memory>
    requires claimed { AreClaimed instance.now claimed.now }
    requires names { HaveCounts instance.now names.now }
    ensures { OnOk result
        (AddsPeakRows names.now (layers_rows instance.now 0 claimed.now) text.old text.new) }
{
    // for the proof: the instance is within its limits
    let _layers = instance.layers();
    for l in 0..claimed.len() {
        let layer = LayerNo(l as u32);
        let trips = trips_of(alloc, instance, layer)?;
        write_layer(text, instance, names, layer, &trips, &claimed[l])?;
    }
    Ok(())
}

/// Writes the rows of layer l, which may run these trips: its count, its blocks and its prices.
fn write_layer(
    text: &mut Text,
    instance: &Instance,
    names: &Names,
    l: LayerNo,
    trips: &[TripNo],
    claimed: &Claimed,
) -> Result<(), Memory>
    requires layer { l.0 < length instance.now.layers }
    requires trips { AreTripsOf instance.now l.0 trips.now }
    requires claimed { IsClaimed (counting instance.now l.0) claimed.now }
    requires names { HaveCounts instance.now names.now }
    ensures { OnOk result
        (AddsPeakRows names.now (layer_rows instance.now l.0 claimed.now) text.old text.new) }
{
    write_count(text, names, l, claimed.count)?;
    write_blocks(text, names, l, trips, &claimed.blocks)?;
    write_fleet(text, names, l, claimed.table.fleet[0])?;
    write_prices(text, names, l, trips, &claimed.table)?;
    Ok(())
}

/// Writes how many vehicles layer l needs.
fn write_count(text: &mut Text, names: &Names, l: LayerNo, count: Option<u32>) -> Result<(), Memory>
    requires { l.0 < length names.now.layers }
    ensures { OnOk result (AddsPeakRow names.now (CountRow l.0 count) text.old text.new) }
{
    text.begin_row("peak")?;
    text.field(names.layer(l))?;
    match count {
        Some(count) => text.number(count)?,
        None => text.field("none")?,
    }
    text.end_row()
}

/// Writes the blocks, which have the numbers of layer l's trips.
fn write_blocks(
    text: &mut Text,
    names: &Names,
    l: LayerNo,
    trips: &[TripNo],
    blocks: &[Block],
) -> Result<(), Memory>
    requires layer { l.0 < length names.now.layers }
    requires trips { All (λ i. i.0 < length names.now.trips) trips.now }
    requires blocks { All (λ b. All (λ k. k.0 < length trips.now) b.1) (pairs_of blocks.now) }
    ensures { OnOk result
        (AddsPeakRows names.now (own_rows l trips.now blocks.now) text.old text.new) }
{
    for k in 0..blocks.len() {
        write_block(text, names, l, trips, &blocks[k])?;
    }
    Ok(())
}

/// Writes a block of layer l.
fn write_block(
    text: &mut Text,
    names: &Names,
    l: LayerNo,
    trips: &[TripNo],
    block: &Block,
) -> Result<(), Memory>
    requires layer { l.0 < length names.now.layers }
    requires trips { All (λ i. i.0 < length names.now.trips) trips.now }
    requires block { All (λ k. k.0 < length trips.now) block.now.trips.items }
    ensures { OnOk result
        (AddsPeakRow names.now (own_row l trips.now block.now) text.old text.new) }
{
    text.begin_row("block")?;
    text.field(names.layer(l))?;
    for place in 0..block.trips.len() {
        let trip = trips[block.trips[place].0 as usize];
        text.field(names.trip(trip))?;
    }
    text.end_row()
}

/// Writes the prices of layer l's trips.
fn write_prices(
    text: &mut Text,
    names: &Names,
    l: LayerNo,
    trips: &[TripNo],
    table: &Table,
) -> Result<(), Memory>
    requires layer { l.0 < length names.now.layers }
    requires trips { All (λ i. i.0 < length names.now.trips) trips.now }
    requires into { length table.now.into.items ≡ length trips.now }
    requires from { length table.now.from.items ≡ length trips.now }
    requires into_prices { All IsPrice table.now.into.items }
    requires from_prices { All IsPrice table.now.from.items }
    ensures { OnOk result (AddsPeakRows names.now
        (price_rows l.0 (map (λ i. i.0) trips.now) table.now.into.items table.now.from.items)
        text.old text.new) }
{
    for k in 0..trips.len() {
        write_price(text, names, l, trips[k], table.into[k], table.from[k])?;
    }
    Ok(())
}
