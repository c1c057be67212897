//! What a search of a part finds, as it serves the whole instance: its tables widened, and its plan.

ghost use Rattle.std.specs.Prelude.{◌≡◌, ◌<◌, ◌++◌, List, length, All, IfOk, OnOk};
ghost use Rattle.vs_instance.specs.Narrowed.{narrowed};
ghost use Rattle.vs_instance.specs.Restriction.{IsRestriction};
ghost use Rattle.vs_plan.specs.Blocks.{blocks_of};
ghost use Rattle.vs_tree.specs.Prices.{prices_of};
ghost use Rattle.vs_tree.specs.Search.{state};
ghost use Rattle.vs_resume.specs.Parts.{AreWidenedTables};

use crate::widening::widen;
use std::alloc::Global;
use vs_instance::Instance;
use vs_plan::{Block, Plan};
use vs_prices::Table;
use vs_tree::Tree;
use vs_types::{LayerSet, Memory};

/// The tables of these numbers of a search of the part that these sets leave, each widened to the instance.
pub(crate) fn widened_tables(
    alloc: Global,
    instance: &Instance,
    sets: &[LayerSet],
    tree: &Tree,
    numbers: &[u32],
) -> Result<Vec<Table>, Memory>
    requires sets { IsRestriction instance.now sets.now }
    requires part { tree.now.opening.problem ≡ narrowed instance.now sets.now }
    requires numbers { All (λ n. n < length (state tree.now).tables) numbers.now }
    ensures { IfOk result (λ tables.
        AreWidenedTables instance.now sets.now (state tree.now) numbers.now tables.items) }
{
    // for the proof: the steps of a search are a history from an opening.
    let _instance = tree.instance();
    let mut tables = Vec::with_capacity(alloc, numbers.len())?;
    for number in numbers {
        let mut table = copy_of_table(alloc, tree.table(*number))?;
        widen(instance, sets, &mut table);
        tables.push(table)?;
    }
    Ok(tables)
}

/// An equal table.
fn copy_of_table(alloc: Global, table: &Table) -> Result<Table, Memory>
    ensures { IfOk result (λ copy. prices_of copy ≡ prices_of table.now) }
{
    Ok(Table {
        into: Vec::from_slice(alloc, &table.into)?,
        from: Vec::from_slice(alloc, &table.from)?,
        fleet: Vec::from_slice(alloc, &table.fleet)?,
        ray: table.ray,
    })
}

/// An equal plan.
pub(crate) fn copy_of_plan(alloc: Global, plan: &Plan) -> Result<Plan, Memory>
    ensures { IfOk result (λ copy. blocks_of copy ≡ blocks_of plan.now) }
{
    let mut blocks = Vec::with_capacity(alloc, plan.blocks.len())?;
    for block in &plan.blocks {
        blocks.push(Block {
            layer: block.layer,
            trips: Vec::from_slice(alloc, &block.trips)?,
        })?;
    }
    Ok(Plan { blocks })
}
