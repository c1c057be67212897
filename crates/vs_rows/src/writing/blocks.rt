//! The rows of blocks.

ghost use Rattle.std.specs.Prelude.{◌≡◌, ◌<◌, ◌++◌, length, map, All, OnOk};
ghost use Rattle.vs_plan.specs.Blocks.{blocks_of};
ghost use Rattle.vs_rows.specs.DocumentRows.{BlockRow, IsNamedBlock};
ghost use Rattle.vs_rows.specs.Writing.{AddsRow, AddsRows};

use crate::text::Text;
use vs_plan::{Block, Plan};
use vs_reader::Names;
use vs_types::Memory;

/// Writes a row for each block.
pub fn write_blocks(text: &mut Text, names: &Names, plan: &Plan) -> Result<(), Memory>
    requires { All (IsNamedBlock names.now) (blocks_of plan.now) }
    ensures { OnOk result (AddsRows names.now (map BlockRow (blocks_of plan.now)) text.old text.new) }
{
    for block in &plan.blocks {
        write_block(text, names, block)?;
    }
    Ok(())
}

/// Writes a block: its layer and its trips.
fn write_block(text: &mut Text, names: &Names, block: &Block) -> Result<(), Memory>
    requires { IsNamedBlock names.now (block.now.layer, block.now.trips.items) }
    ensures { OnOk result (AddsRow names.now (BlockRow (block.now.layer, block.now.trips.items)) text.old text.new) }
{
    text.begin_row("block")?;
    text.field(names.layer(block.layer))?;
    for trip in &block.trips {
        text.field(names.trip(*trip))?;
    }
    text.end_row()
}
