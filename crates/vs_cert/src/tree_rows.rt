//! The rows of the tree of a search.

ghost use Rattle.std.specs.Prelude.{◌≡◌, ◌<◌, ◌^◌, length, IfOk};
ghost use Rattle.vs_tree.specs.History.{spot_at, table_of};
ghost use Rattle.vs_tree.specs.Search.{state};
ghost use Rattle.vs_cert.specs.TreeRows.{AreRowsOf, IsRowAt, IsTablePlaced};

use crate::numbering::Numbering;
use std::alloc::Global;
use vs_document::Shape;
use vs_tree::{Spot, Tree};
use vs_types::Memory;

/// The tree of cases of a search as it is written.
#[derive(Drop)]
pub struct TreeRows {
    /// The rows of the tree in preorder. A leaf names its table by the place at which that is written, from 0 on.
    pub rows: Vec<Shape>,
    /// The numbers that the tables have in the search, in the order in which they are written.
    pub tables: Vec<u32>,
}

/// The rows of a search's tree, and the tables that its leaves name in the order in which they first do.
pub fn tree_rows(alloc: Global, tree: &Tree) -> Result<TreeRows, Memory>
    ensures { IfOk result (λ all.
        AreRowsOf tree.now.opening (state tree.now) all.tables.items all.rows.items) }
{
    // for the proof: the steps of a search are a history from an opening.
    let _instance = tree.instance();
    let mut rows = Vec::with_capacity(alloc, tree.spots() as usize)?;
    let mut numbering = Numbering::new(alloc, tree.tables())?;
    let mut spots = vec![in alloc; 0; 1]?;
    while let Some(k) = spots.pop() {
        let row = row_at(tree, k, &mut spots, &mut numbering)?;
        rows.push(row)?;
    }
    Ok(TreeRows {
        rows,
        tables: numbering.into_numbers(),
    })
}

/// The row of a spot. The parts of a split wait, the left one in front of the right one; the table of a leaf gets its
/// place.
fn row_at(
    tree: &Tree,
    k: u32,
    spots: &mut Vec<u32>,
    numbering: &mut Numbering,
) -> Result<Shape, Memory>
    requires spot { k < length (state tree.now).places }
    requires table { table_of (spot_at (state tree.now) k) < numbering.old.limit }
    requires limit { numbering.old.limit < 2 ^ 32 }
    ensures limit { numbering.new.limit ≡ numbering.old.limit }
    ensures row { IfOk result (IsRowAt (spot_at (state tree.now) k) spots.old.items spots.new.items
        numbering.old.numbers numbering.new.numbers) }
{
    match tree.spot(k) {
        Spot::Inner {
            trip,
            left,
            lower,
            upper,
        } => {
            spots.push(upper)?;
            spots.push(lower)?;
            Ok(Shape::Split { trip, left })
        }
        Spot::Free { table } => leaf(table, numbering),
        Spot::Held { table, .. } => leaf(table, numbering),
        Spot::Closed { table } => leaf(table, numbering),
    }
}

/// The row of a leaf that has this table.
fn leaf(table: u32, numbering: &mut Numbering) -> Result<Shape, Memory>
    requires below { table < numbering.old.limit }
    requires limit { numbering.old.limit < 2 ^ 32 }
    ensures limit { numbering.new.limit ≡ numbering.old.limit }
    ensures row { IfOk result (λ row. IsTablePlaced table numbering.old.numbers numbering.new.numbers row) }
{
    let table = numbering.place(table)?;
    Ok(Shape::Leaf { table })
}
