//! What can be wrong with a document.

use vs_plan::PlanFault;
use vs_prices::{BrokenAt, Claim};

/// Why a document doesn't hold. Tables and positions in the shape count from 0.
#[derive(Clone, Copy, Debug, PartialEq, Eq)]
pub enum Flaw {
    /// The blocks that are printed together with a cost are no plan of the instance.
    Plan(PlanFault),
    /// The printed cost, and what the plan costs, in cost units.
    CostDiffers(i64, i64),
    /// The table's prices break here.
    TableBroken(u32, BrokenAt),
    /// The row at this position of the shape doesn't share out a trip's layers between two parts.
    BadSplit(u32),
    /// The table of the leaf at this position is worth so many cost units, less than the printed
    /// bound. None is the bound that says that there is no plan.
    LeafTooWeak(u32, i128, Option<i128>),
    /// The claim, and the one that the cost and the bound make.
    ClaimDiffers(Claim, Claim),
}
