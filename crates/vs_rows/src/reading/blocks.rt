//! The reading of blocks.

ghost use Rattle.std.specs.Prelude.{◌≤◌, length, IfOk};
ghost use Rattle.vs_plan.specs.Blocks.{pairs_of};
ghost use Rattle.vs_rows.specs.RowForms.{IsInput};
ghost use Rattle.vs_rows.specs.Standing.{BlocksStand};

use crate::forms;
use std::alloc::Global;
use vs_plan::Block;
use vs_reader::Input;
use vs_types::Memory;

/// The blocks that stand from a row on, and the row behind them.
pub fn read_blocks(alloc: Global, input: &Input, at: usize) -> Result<(Vec<Block>, usize), Memory>
    requires input { IsInput input.now }
    requires row { at ≤ length input.now.rest }
    ensures { IfOk result (λ r. BlocksStand input.now at r.1 (pairs_of r.0.items)) }
{
    let mut blocks = Vec::new(alloc);
    for row in at..input.rest.len() {
        let Some(block) = forms::block(alloc, input, row)? else {
            return Ok((blocks, row));
        };
        blocks.push(block)?;
    }
    Ok((blocks, input.rest.len()))
}
