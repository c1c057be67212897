//! The rows of an opening and of a first plan.

ghost use Rattle.std.specs.Prelude.{◌≡◌, ◌++◌, [], ◌∷◌, All, IfSome, OnOk, codes, Some, decimal, option_copied};
ghost use Rattle.vs_reader.specs.Rows.{line, lines};
ghost use Rattle.vs_rows.specs.DocumentRows.{IsNamedBlock, number_field};
ghost use Rattle.vs_trace.specs.TraceRows.{first_rows, head_row};
ghost use Rattle.vs_trace.specs.Writing.{AddsTraces};

use vs_document::{Text, cost_field, write_blocks};
use vs_plan::CheckedPlan;
use vs_reader::Names;
use vs_types::Memory;

/// Writes the first row, and how many leaves may be worked on and how many workers there are.
pub fn write_opening(text: &mut Text, budget: u32, workers: u32) -> Result<(), Memory>
    ensures { OnOk result (text.new ≡ text.old ++ lines (head_row
        ∷ (codes "opening" ∷ decimal budget ∷ decimal workers ∷ []) ∷ [])) }
{
    write_head(text)?;
    write_counts(text, budget, workers)?;
    Ok(())
}

/// Writes the first row.
fn write_head(text: &mut Text) -> Result<(), Memory>
    ensures { OnOk result (text.new ≡ text.old ++ line head_row) }
{
    text.begin_row("result")?;
    text.field("1")?;
    text.field("trace")?;
    text.end_row()
}

/// Writes how many leaves may be worked on, and how many workers there are.
fn write_counts(text: &mut Text, budget: u32, workers: u32) -> Result<(), Memory>
    ensures { OnOk result (text.new
        ≡ text.old ++ line (codes "opening" ∷ decimal budget ∷ decimal workers ∷ [])) }
{
    text.begin_row("opening")?;
    text.number(budget)?;
    text.number(workers)?;
    text.end_row()
}

/// Writes what the first plan costs, and its blocks, or that there is none.
pub fn write_first(
    text: &mut Text,
    names: &Names,
    first: Option<&CheckedPlan>,
) -> Result<(), Memory>
    requires { IfSome (option_copied first) (λ plan. All (IsNamedBlock names.now) plan.blocks) }
    ensures { OnOk result (AddsTraces names.now (first_rows (option_copied first.entry)) text.old text.new) }
{
    match first {
        None => write_cost(text, None),
        Some(checked) => write_plan(text, names, checked),
    }
}

/// Writes what the first plan costs, and its blocks.
fn write_plan(text: &mut Text, names: &Names, checked: &CheckedPlan) -> Result<(), Memory>
    requires { All (IsNamedBlock names.now) checked.now.blocks }
    ensures { OnOk result (AddsTraces names.now (first_rows (Some checked.now)) text.old text.new) }
{
    let cost = checked.cost();
    let plan = checked.plan();
    write_cost(text, Some(cost))?;
    write_blocks(text, names, plan)?;
    Ok(())
}

/// Writes the row of the first plan's cost.
fn write_cost(text: &mut Text, cost: Option<i64>) -> Result<(), Memory>
    ensures { OnOk result (text.new ≡ text.old ++ lines ((codes "first" ∷ number_field cost ∷ []) ∷ [])) }
{
    text.begin_row("first")?;
    cost_field(text, cost)?;
    text.end_row()?;
    Ok(())
}
