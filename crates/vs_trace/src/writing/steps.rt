//! The rows of steps.

ghost use Rattle.std.specs.Prelude.{◌≡◌, ◌+◌, ◌++◌, [], ◌∷◌, ◌<◌, length, flat_map, map, All, OnOk, codes, decimal, slice_index_or, slice_get};
ghost use Rattle.std.specs.Fmt.{signed_decimal};
ghost use Rattle.vs_reader.specs.Names.{HaveCounts};
ghost use Rattle.vs_reader.specs.Rows.{lines};
ghost use Rattle.vs_tree.specs.Log.{plan_of};
ghost use Rattle.vs_tree.specs.Prices.{no_prices};
ghost use Rattle.vs_tree.specs.Search.{state};
ghost use Rattle.vs_trace.specs.TraceRows.{IsSplitForm, offered_rows, priced_rows, spot_row, split_row, step_rows};
ghost use Rattle.vs_trace.specs.Writing.{AddsTraces, CanBeWritten, rows_of_step};
ghost use Rattle.vs_types.specs.LayerSet.{members};

use crate::writing::fields::begin_step;
use vs_document::{Text, write_blocks, write_table};
use vs_reader::Names;
use vs_rows::write_layer_names;
use vs_tree::{Step, Tree};
use vs_types::{LayerSet, Memory, TripNo};

/// Writes the steps of a search.
pub fn write_steps(text: &mut Text, tree: &Tree, names: &Names) -> Result<(), Memory>
    requires { HaveCounts tree.now.opening.problem names.now }
    ensures { OnOk result (AddsTraces names.now
        (flat_map (step_rows tree.now.opening.problem) tree.now.steps) text.old text.new) }
{
    // for the proof: the steps of a search are a history from an opening.
    let _instance = tree.instance();
    for step in tree.history() {
        write_step(text, tree, names, *step)?;
    }
    Ok(())
}

/// Writes a step, with the table or the plan that it adds.
fn write_step(text: &mut Text, tree: &Tree, names: &Names, step: Step) -> Result<(), Memory>
    requires names { HaveCounts tree.now.opening.problem names.now }
    requires step { CanBeWritten tree.now names.now step }
    ensures { OnOk result (AddsTraces names.now (rows_of_step tree.now step) text.old text.new) }
{
    match step {
        Step::Took { worker, leaf } => write_spot(text, "took", worker, leaf),
        Step::GaveBack { worker, leaf } => write_spot(text, "gaveback", worker, leaf),
        Step::Closed {
            worker,
            leaf,
            table,
        } => {
            write_spot(text, "closed", worker, leaf)?;
            write_added(text, tree, names, table)
        }
        Step::Split {
            worker,
            leaf,
            table,
            trip,
            left,
        } => {
            write_split(text, names, worker, leaf, trip, left)?;
            write_added(text, tree, names, table)
        }
        Step::Offered { plan: None, .. } => Ok(()),
        Step::Offered {
            worker,
            cost,
            plan: Some(plan),
        } => write_offer(text, tree, names, worker, cost, plan),
    }
}

/// Writes a step that has a worker and a spot alone.
fn write_spot(text: &mut Text, kind: &str, worker: u32, spot: u32) -> Result<(), Memory>
    ensures { OnOk result (text.new ≡ text.old ++ lines (spot_row kind.now worker spot ∷ [])) }
{
    begin_step(text, kind, worker, spot)?;
    text.end_row()?;
    Ok(())
}

/// Writes a split: its worker, its spot, its trip, and the layers on its left in number order.
fn write_split(
    text: &mut Text,
    names: &Names,
    worker: u32,
    spot: u32,
    trip: TripNo,
    left: LayerSet,
) -> Result<(), Memory>
    requires { IsSplitForm names.now trip left }
    ensures { OnOk result (text.new
        ≡ text.old ++ lines (split_row names.now worker spot trip (members left) ∷ [])) }
{
    begin_step(text, "split", worker, spot)?;
    text.field(names.trip(trip))?;
    write_layer_names(text, names, left)?;
    text.end_row()?;
    Ok(())
}

/// Writes the table of this number.
fn write_added(text: &mut Text, tree: &Tree, names: &Names, number: u32) -> Result<(), Memory>
    requires names { HaveCounts tree.now.opening.problem names.now }
    requires number { number < length (state tree.now).tables }
    ensures { OnOk result (AddsTraces names.now (priced_rows tree.now.opening.problem number
        (slice_index_or (state tree.now).tables number no_prices)) text.old text.new) }
{
    let instance = tree.instance();
    let table = tree.table(number);
    write_table(text, instance, names, number as usize, table)?;
    Ok(())
}

/// Writes the offer of the accepted plan of this number, at this cost, and its blocks.
fn write_offer(
    text: &mut Text,
    tree: &Tree,
    names: &Names,
    worker: u32,
    cost: i64,
    plan: u32,
) -> Result<(), Memory>
    requires names { HaveCounts tree.now.opening.problem names.now }
    requires plan { plan < length (state tree.now).accepted }
    ensures { OnOk result (AddsTraces names.now
        (offered_rows worker cost (slice_get (state tree.now).accepted plan)) text.old text.new) }
{
    // for the proof: the steps of a search are a history from an opening.
    let _instance = tree.instance();
    let checked = tree.accepted(plan);
    let plan = checked.plan();
    write_offer_row(text, worker, cost)?;
    write_blocks(text, names, plan)?;
    Ok(())
}

/// Writes who offered a plan, and what it costs.
fn write_offer_row(text: &mut Text, worker: u32, cost: i64) -> Result<(), Memory>
    ensures { OnOk result (text.new
        ≡ text.old ++ lines ((codes "offered" ∷ decimal (worker + 1) ∷ signed_decimal cost ∷ []) ∷ [])) }
{
    text.begin_row("offered")?;
    text.number(u64::from(worker) + 1)?;
    text.number(cost)?;
    text.end_row()?;
    Ok(())
}
