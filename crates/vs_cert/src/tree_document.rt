//! The text of the document of a search.

ghost use Rattle.std.specs.Prelude.{◌≡◌, ◌<◌, [], ◌∷◌, length, All, IfOk, OnOk};
ghost use Rattle.vs_plan.specs.Blocks.{blocks_of};
ghost use Rattle.vs_reader.specs.Names.{HaveCounts};
ghost use Rattle.vs_tree.specs.History.{incumbent};
ghost use Rattle.vs_tree.specs.Search.{state};
ghost use Rattle.vs_cert.specs.StateDocument.{known_blocks};
ghost use Rattle.vs_cert.specs.TreeText.{IsTextOf, numbered_rows};
ghost use Rattle.vs_rows.specs.Writing.{AddsRows};

use crate::tree_rows::tree_rows;
use std::alloc::Global;
use vs_document::{Text, write_blocks, write_head, write_shapes, write_table};
use vs_plan::Plan;
use vs_reader::Names;
use vs_tree::Tree;
use vs_types::Memory;

/// The text of the document of a search, with the names of its instance. It has the report, the cheapest plan, the
/// tables that leaves name, and the tree of cases. The tables come in the order in which leaves first name them.
pub fn write(alloc: Global, tree: &Tree, names: &Names) -> Result<Vec<u8>, Memory>
    requires { HaveCounts tree.now.opening.problem names.now }
    ensures { IfOk result (λ bytes.
        IsTextOf tree.now.opening (state tree.now) names.now bytes.items) }
{
    // for the proof: the steps of a search are a history from an opening.
    let _instance = tree.instance();
    let all = tree_rows(alloc, tree)?;
    let no_plan = Plan {
        blocks: Vec::new(alloc),
    };
    let plan = known_plan(tree, &no_plan);
    let report = tree.report();
    let nodes = u64::from(report.finished);
    let mut text = Text::new(alloc);
    write_head(
        &mut text,
        names,
        report.claim,
        report.cost,
        report.bound,
        nodes,
    )?;
    write_blocks(&mut text, names, plan)?;
    write_numbered(&mut text, tree, names, &all.tables)?;
    write_shapes(&mut text, names, &all.rows)?;
    text.begin_row("end")?;
    text.end_row()?;
    Ok(text.into_bytes())
}

/// The cheapest plan of a search, or else this one.
fn known_plan<'a>(tree: &'a Tree, no_plan: &'a Plan) -> &'a Plan
    requires { blocks_of no_plan.now ≡ [] }
    ensures { blocks_of result.now ≡ known_blocks (incumbent (state tree.now)) }
{
    match tree.plan() {
        Some(checked) => checked.plan(),
        None => no_plan,
    }
}

/// Writes the tables of these numbers, numbered anew from 1 on.
fn write_numbered(
    text: &mut Text,
    tree: &Tree,
    names: &Names,
    numbers: &Vec<u32>,
) -> Result<(), Memory>
    requires tables { All (λ n. n < length (state tree.now).tables) numbers.now.items }
    requires names { HaveCounts tree.now.opening.problem names.now }
    ensures { OnOk result (AddsRows names.now
        (numbered_rows tree.now.opening.problem (state tree.now) numbers.now.items) text.old text.new) }
{
    let instance = tree.instance();
    for (k, number) in numbers.iter().enumerate() {
        let table = tree.table(*number);
        write_table(text, instance, names, k + 1, table)?;
    }
    Ok(())
}
