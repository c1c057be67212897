//! The rows of splits and leaves.

ghost use Rattle.std.specs.Prelude.{◌≡◌, ℕ, ◌+◌, ◌<◌, ◌∷◌, [], ◌++◌, length, map, All, codes, decimal, OnOk};
ghost use Rattle.vs_types.specs.LayerSet.{Has, members};
ghost use Rattle.vs_reader.specs.Rows.{line, more_fields};
ghost use Rattle.vs_reader.specs.Names.{name_of};
ghost use Rattle.vs_rows.specs.DocumentRows.{HasForm, SplitRow, shape_row};
ghost use Rattle.vs_rows.specs.Writing.{AddsRow, AddsRows};

use crate::document::Shape;
use crate::text::Text;
use vs_reader::Names;
use vs_types::{LayerNo, LayerSet, MAX_LAYERS, Memory, TripNo};

/// Writes a row for each split and each leaf.
pub fn write_shapes(text: &mut Text, names: &Names, shapes: &Vec<Shape>) -> Result<(), Memory>
    requires { All (λ s. HasForm names.now (shape_row s)) shapes.now.items }
    ensures { OnOk result (AddsRows names.now (map shape_row shapes.now.items) text.old text.new) }
{
    for shape in shapes {
        write_shape(text, names, *shape)?;
    }
    Ok(())
}

/// Writes a split or a leaf.
fn write_shape(text: &mut Text, names: &Names, shape: Shape) -> Result<(), Memory>
    requires { HasForm names.now (shape_row shape) }
    ensures { OnOk result (AddsRow names.now (shape_row shape) text.old text.new) }
{
    match shape {
        Shape::Split { trip, left } => write_split(text, names, trip, left),
        Shape::Leaf { table } => write_leaf(text, table),
    }
}

/// Writes a split: its trip, and the layers on its left in number order.
fn write_split(text: &mut Text, names: &Names, trip: TripNo, left: LayerSet) -> Result<(), Memory>
    requires trip { trip.0 < length names.now.trips }
    requires layers { (l : ℕ) → Has left l → l < length names.now.layers }
    ensures { OnOk result (AddsRow names.now (SplitRow trip left) text.old text.new) }
{
    text.begin_row("split")?;
    text.field(names.trip(trip))?;
    write_layer_names(text, names, left)?;
    text.end_row()
}

/// Writes the names of the layers of a set as further fields of a row, in number order.
pub fn write_layer_names(text: &mut Text, names: &Names, layers: LayerSet) -> Result<(), Memory>
    requires { (l : ℕ) → Has layers l → l < length names.now.layers }
    ensures { OnOk result (text.new
        ≡ text.old ++ more_fields (map (name_of names.now.layers) (members layers))) }
{
    for l in 0..MAX_LAYERS {
        if layers.has(LayerNo(l)) {
            text.field(names.layer(LayerNo(l)))?;
        }
    }
    Ok(())
}

/// Writes a leaf: the number of its table, counted from 1.
fn write_leaf(text: &mut Text, table: u32) -> Result<(), Memory>
    ensures { OnOk result (text.new ≡ text.old ++ line (codes "leaf" ∷ decimal (table + 1) ∷ [])) }
{
    text.begin_row("leaf")?;
    text.number(u64::from(table) + 1)?;
    text.end_row()
}
