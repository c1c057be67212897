//! The rows of the instance that `make N` writes. They are stops in a grid, all deadheads between them, four layers,
//! and N trips drawn from one sequence of numbers.

ghost use Rattle.std.specs.Prelude.{◌≡◌, ◌<◌, ◌≤◌, [], ◌∷◌, ◌++◌, codes, map, flat_map, IfOk, OnOk};
ghost use Rattle.std.specs.List.{range_with_len};
ghost use Rattle.vs_make.specs.Generator.{deadhead_row, deadheads_from, depot_of, drawn_row, layer_name, layer_names, layer_row, made_version, make_rows, stop_name, stop_row, trip_row};
ghost use Rattle.vs_reader.specs.Rows.{fields, line, lines};
ghost use Rattle.vs_reader.specs.Versions.{header, version_name};
ghost use Rattle.vs_rows.specs.Fields.{numbered, time_field};

use crate::grid::{DEPOTS, STOPS, depot_of, distance};
use crate::sequence::{Draws, Sequence};
use std::alloc::Global;
use vs_instance::{MAX_LAYERS, MAX_TRIPS, USUAL_TRIPS};
use vs_rows::Text;
use vs_types::{LayerNo, LayerSet, Memory};

/// The bytes of the instance of n trips.
pub fn make_text(alloc: Global, n: u32) -> Result<Vec<u8>, Memory>
    requires { n ≤ MAX_TRIPS }
    ensures { IfOk result (λ bytes. bytes.items ≡ lines (make_rows n)) }
{
    let mut text = Text::new(alloc);
    write_header(&mut text, n)?;
    write_stops(&mut text)?;
    write_deadheads(&mut text)?;
    write_layers(&mut text, n)?;
    write_trips(&mut text, n)?;
    Ok(text.into_bytes())
}

/// Writes the first row, which says the version of an instance of n trips.
fn write_header(text: &mut Text, n: u32) -> Result<(), Memory>
    ensures { OnOk result (text.new ≡ text.old ++ line (header (made_version n))) }
{
    text.begin_row("instance")?;
    text.field(made_version(n))?;
    text.end_row()
}

/// The number of the version: 1 up to 2,000 trips, and 3 beyond.
fn made_version(n: u32) -> &'static str
    ensures { result.now ≡ version_name (made_version n) }
{
    if n <= USUAL_TRIPS { "1" } else { "3" }
}

/// Writes a row for each stop.
fn write_stops(text: &mut Text) -> Result<(), Memory>
    ensures { OnOk result (text.new ≡ text.old ++ lines (map stop_row (range_with_len 0 STOPS))) }
{
    for k in 0..STOPS {
        write_stop(text, k)?;
    }
    Ok(())
}

fn write_stop(text: &mut Text, k: u32) -> Result<(), Memory>
    ensures { OnOk result (text.new ≡ text.old ++ line (stop_row k)) }
{
    text.begin_row("stop")?;
    text.numbered("S", k)?;
    text.end_row()
}

/// Writes a row for each stop and each other one.
fn write_deadheads(text: &mut Text) -> Result<(), Memory>
    ensures { OnOk result (text.new ≡ text.old
        ++ lines (flat_map deadheads_from (range_with_len 0 STOPS))) }
{
    for k in 0..STOPS {
        write_deadheads_from(text, k)?;
    }
    Ok(())
}

fn write_deadheads_from(text: &mut Text, k: u32) -> Result<(), Memory>
    requires { k < STOPS }
    ensures { OnOk result (text.new ≡ text.old ++ lines (deadheads_from k)) }
{
    for s in 0..STOPS {
        if s != k {
            write_deadhead(text, k, s)?;
        }
    }
    Ok(())
}

/// A step of the grid takes 6 minutes and is 2,500 metres long.
fn write_deadhead(text: &mut Text, k: u32, s: u32) -> Result<(), Memory>
    requires from { k < STOPS }
    requires to { s < STOPS }
    ensures { OnOk result (text.new ≡ text.old ++ line (deadhead_row k s)) }
{
    let steps = distance(k, s);
    text.begin_row("deadhead")?;
    text.numbered("S", k)?;
    text.numbered("S", s)?;
    text.number(6 * steps)?;
    text.number(2_500 * steps)?;
    text.end_row()
}

/// Writes a row for each layer. The depots stand in the corners of the grid.
fn write_layers(text: &mut Text, n: u32) -> Result<(), Memory>
    requires { n ≤ MAX_TRIPS }
    ensures { OnOk result (text.new ≡ text.old
        ++ lines (map (layer_row n) (range_with_len 0 DEPOTS))) }
{
    for l in 0..DEPOTS {
        write_layer(text, n, l)?;
    }
    Ok(())
}

fn write_layer(text: &mut Text, n: u32, l: u32) -> Result<(), Memory>
    requires trips { n ≤ MAX_TRIPS }
    requires layer { l < DEPOTS }
    ensures { OnOk result (text.new ≡ text.old ++ line (layer_row n l)) }
{
    begin_layer(text, l)?;
    text.number(n / 4 + 8)?;
    text.number(50_000 + 2_000 * l)?;
    text.field("10")?;
    text.field("1")?;
    text.end_row()
}

/// Begins the row of a layer with its name and its depot.
fn begin_layer(text: &mut Text, l: u32) -> Result<(), Memory>
    ensures { OnOk result (text.new ≡ text.old
        ++ fields (codes "layer" ∷ layer_name l ∷ stop_name (depot_of l) ∷ [])) }
{
    text.begin_row("layer")?;
    text.numbered("L", l)?;
    text.numbered("S", depot_of(l))
}

/// Writes a row for each trip, as the sequence draws it.
fn write_trips(text: &mut Text, n: u32) -> Result<(), Memory>
    requires { n ≤ MAX_TRIPS }
    ensures { OnOk result (text.new ≡ text.old ++ lines (map (drawn_row n) (range_with_len 0 n))) }
{
    let mut sequence = Sequence::new(n);
    for i in 0..n {
        let drawn = sequence.draws();
        write_trip(text, i, drawn)?;
    }
    Ok(())
}

/// Writes trip i. A step of the grid takes 6 minutes and is 3,000 metres long.
fn write_trip(text: &mut Text, i: u32, drawn: Draws) -> Result<(), Memory>
    requires from { drawn.from < STOPS }
    requires to { drawn.to < STOPS }
    requires start { drawn.start < 1380 }
    requires extra { drawn.extra < 25 }
    ensures { OnOk result (text.new ≡ text.old ++ line (trip_row i drawn)) }
{
    let steps = distance(drawn.from, drawn.to);
    begin_trip(text, i, drawn.from, drawn.start)?;
    text.numbered("S", drawn.to)?;
    text.time(drawn.start + (6 * steps + drawn.extra))?;
    text.number(3_000 * steps)?;
    write_layer_names(text, drawn.layers)?;
    text.end_row()
}

/// Begins the row of a trip with its name, the stop that it leaves, and when.
fn begin_trip(text: &mut Text, i: u32, from: u32, start: u32) -> Result<(), Memory>
    requires { start < 6000 }
    ensures { OnOk result (text.new ≡ text.old
        ++ fields (codes "trip" ∷ numbered (codes "T") i ∷ stop_name from ∷ time_field start ∷ [])) }
{
    text.begin_row("trip")?;
    text.numbered("T", i)?;
    text.numbered("S", from)?;
    text.time(start)
}

/// Adds the names of the layers to a row, in number order.
fn write_layer_names(text: &mut Text, layers: LayerSet) -> Result<(), Memory>
    ensures { OnOk result (text.new ≡ text.old
        ++ flat_map (λ name. 44 ∷ name) (layer_names layers)) }
{
    for l in 0..MAX_LAYERS {
        if layers.has(LayerNo(l)) {
            text.numbered("L", l)?;
        }
    }
    Ok(())
}
