//! The rows of a claim, a cost, a bound and the nodes.

ghost use Rattle.std.specs.Prelude.{◌≡◌, ◌++◌, [], ◌∷◌, codes, decimal, OnOk};
ghost use Rattle.vs_reader.specs.Rows.{line};
ghost use Rattle.vs_rows.specs.DocumentRows.{claim_field, head_of, number_field};
ghost use Rattle.vs_rows.specs.Writing.{AddsRows};

use crate::text::Text;
use crate::writing::amounts::{bound_field, claim_field, cost_field};
use vs_prices::Claim;
use vs_reader::Names;
use vs_types::Memory;

/// Writes what a document claims, its cost, its bound and its nodes.
pub fn write_head(
    text: &mut Text,
    names: &Names,
    claim: Claim,
    cost: Option<i64>,
    bound: Option<i128>,
    nodes: u64,
) -> Result<(), Memory>
    ensures { OnOk result (AddsRows names.now (head_of claim cost bound nodes) text.old text.new) }
{
    write_claim(text, claim)?;
    write_cost(text, cost)?;
    write_bound(text, bound)?;
    write_nodes(text, nodes)?;
    Ok(())
}

/// Writes the row of the claim.
fn write_claim(text: &mut Text, claim: Claim) -> Result<(), Memory>
    ensures { OnOk result (text.new ≡ text.old ++ line (codes "result" ∷ codes "1" ∷ claim_field claim ∷ [])) }
{
    text.begin_row("result")?;
    text.field("1")?;
    claim_field(text, claim)?;
    text.end_row()
}

/// Writes the row of the cost.
fn write_cost(text: &mut Text, cost: Option<i64>) -> Result<(), Memory>
    ensures { OnOk result (text.new ≡ text.old ++ line (codes "cost" ∷ number_field cost ∷ [])) }
{
    text.begin_row("cost")?;
    cost_field(text, cost)?;
    text.end_row()
}

/// Writes the row of the bound.
fn write_bound(text: &mut Text, bound: Option<i128>) -> Result<(), Memory>
    ensures { OnOk result (text.new ≡ text.old ++ line (codes "bound" ∷ number_field bound ∷ [])) }
{
    text.begin_row("bound")?;
    bound_field(text, bound)?;
    text.end_row()
}

/// Writes the row of the nodes.
fn write_nodes(text: &mut Text, nodes: u64) -> Result<(), Memory>
    ensures { OnOk result (text.new ≡ text.old ++ line (codes "nodes" ∷ decimal nodes ∷ [])) }
{
    text.begin_row("nodes")?;
    text.number(nodes)?;
    text.end_row()
}
