//! The fields of claims, costs and bounds.

ghost use Rattle.std.specs.Prelude.{◌≡◌, ◌∷◌, ◌++◌, OnOk};
ghost use Rattle.vs_rows.specs.DocumentRows.{claim_field, number_field};

use crate::text::Text;
use vs_prices::Claim;
use vs_types::Memory;

/// Adds what a document claims to a row.
pub fn claim_field(text: &mut Text, claim: Claim) -> Result<(), Memory>
    ensures { OnOk result (text.new ≡ text.old ++ 44 ∷ claim_field claim) }
{
    match claim {
        Claim::Optimal => text.field("optimal"),
        Claim::Infeasible => text.field("infeasible"),
        Claim::StillOpen => text.field("open"),
    }
}

/// Adds a cost to a row, or `none`.
pub fn cost_field(text: &mut Text, cost: Option<i64>) -> Result<(), Memory>
    ensures { OnOk result (text.new ≡ text.old ++ 44 ∷ number_field cost) }
{
    match cost {
        Some(cost) => text.number(cost),
        None => text.field("none"),
    }
}

/// Adds a bound to a row, or `none`.
pub fn bound_field(text: &mut Text, bound: Option<i128>) -> Result<(), Memory>
    ensures { OnOk result (text.new ≡ text.old ++ 44 ∷ number_field bound) }
{
    match bound {
        Some(bound) => text.number(bound),
        None => text.field("none"),
    }
}
