//! The reading of blocks.

ghost use Rattle.std.specs.Prelude.{◌≤◌, length, IfOk, IfErr};
ghost use Rattle.vs_plan.specs.Blocks.{pairs_of};
ghost use Rattle.vs_document.specs.Places.{AtBlocks};
ghost use Rattle.vs_rows.specs.RowForms.{IsInput};
ghost use Rattle.vs_document.specs.Reading.{IsRefusedAt, ReadsBlocks};

use crate::refused::DocError;
use std::alloc::Global;
use vs_plan::Block;
use vs_reader::Input;
use vs_rows::read_blocks;

/// The blocks that stand from a row on together with a cost, and the row behind them.
pub fn blocks_beside(
    alloc: Global,
    input: &Input,
    at: usize,
    cost: Option<i64>,
) -> Result<(Vec<Block>, usize), DocError>
    requires input { IsInput input.now }
    requires row { at ≤ length input.now.rest }
    ensures found { IfOk result (λ r. ReadsBlocks input.now at cost r.1 (pairs_of r.0.items)) }
    ensures refused { IfErr result (IsRefusedAt input.now at (AtBlocks cost)) }
{
    if cost.is_none() {
        return Ok((Vec::new(alloc), at));
    }
    let (blocks, next) = read_blocks(alloc, input, at)?;
    Ok((blocks, next))
}
