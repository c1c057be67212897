//! The reading of the first four rows.

ghost use Rattle.std.specs.Prelude.{◌≡◌, ◌≤◌, ℤ, pos, Option, None, length, IfOk, IfErr, IfSome, IfNone};
ghost use Rattle.vs_rows.specs.declared.limits.TheConstants.{MAX_COST, MAX_BOUND, MAX_FINISHED};
ghost use Rattle.vs_rows.specs.DocumentRows.{ClaimRow, CostRow, BoundRow, NodesRow, IsBetween, IsWithin};
ghost use Rattle.vs_document.specs.Places.{AtClaim, AtCost, AtBound, AtNodes, AtBlocks};
ghost use Rattle.vs_rows.specs.RowForms.{IsInput};
ghost use Rattle.vs_document.specs.Reading.{IsRefusedAt, ReadsRow, ReadsHead};

use crate::reading::said::{Said, said_at};
use crate::refused::{DocError, DocWhy, refusal};
use std::alloc::Global;
use vs_prices::Claim;
use vs_reader::Input;

/// The first four rows of a document.
#[derive(Clone, Copy)]
pub struct Head {
    pub claim: Claim,
    /// From 0 to `MAX_COST` cost units. None where there is no plan.
    pub cost: Option<i64>,
    /// Within `MAX_BOUND` cost units in either direction. None where no plan exists.
    pub bound: Option<i128>,
    /// From 0 to `MAX_FINISHED`.
    pub nodes: u64,
}

/// Reads the first four rows.
pub fn read_head(alloc: Global, input: &Input) -> Result<Head, DocError>
    requires { IsInput input.now }
    ensures found { IfOk result (ReadsHead input.now) }
    ensures refused { IfErr result (IsRefusedAt input.now 0 AtClaim) }
{
    let claim = read_claim(alloc, input)?;
    let cost = read_cost(alloc, input)?;
    let bound = read_bound(alloc, input, cost)?;
    let nodes = read_nodes(alloc, input)?;
    Ok(Head {
        claim,
        cost,
        bound,
        nodes,
    })
}

/// The claim of the first row.
fn read_claim(alloc: Global, input: &Input) -> Result<Claim, DocError>
    requires { IsInput input.now }
    ensures found { IfOk result (λ claim. ReadsRow input.now 0 AtClaim (ClaimRow claim) AtCost) }
    ensures refused { IfErr result (IsRefusedAt input.now 0 AtClaim) }
{
    let said = said_at(alloc, input, 0)?;
    match said {
        Said::Claim(claim) => Ok(claim),
        _ => Err(refusal(input, 0, DocWhy::OutOfOrder)),
    }
}

/// The cost of the second row.
fn read_cost(alloc: Global, input: &Input) -> Result<Option<i64>, DocError>
    requires input { IsInput input.now }
    requires row { 1 ≤ length input.now.rest }
    ensures found { IfOk result (λ cost. ReadsRow input.now 1 AtCost (CostRow cost) (AtBound cost)) }
    ensures range { IfOk result (λ cost. IfSome cost (IsBetween (pos 0) MAX_COST)) }
    ensures refused { IfErr result (IsRefusedAt input.now 1 AtCost) }
{
    let said = said_at(alloc, input, 1)?;
    match said {
        Said::Cost(cost) => Ok(cost),
        _ => Err(refusal(input, 1, DocWhy::OutOfOrder)),
    }
}

/// The bound of the third row. Where there is a cost, there has to be a bound.
fn read_bound(alloc: Global, input: &Input, cost: Option<i64>) -> Result<Option<i128>, DocError>
    requires input { IsInput input.now }
    requires row { 2 ≤ length input.now.rest }
    ensures found { IfOk result (λ bound. ReadsRow input.now 2 (AtBound cost) (BoundRow bound) (AtNodes cost)) }
    ensures range { IfOk result (λ bound. IfSome bound (IsWithin MAX_BOUND)) }
    ensures no_cost { IfOk result (λ bound. IfNone bound (cost ≡ None)) }
    ensures refused { IfErr result (IsRefusedAt input.now 2 (AtBound cost)) }
{
    let said = said_at(alloc, input, 2)?;
    match said {
        Said::Bound(bound) => {
            if bound.is_none() && cost.is_some() {
                return Err(refusal(input, 2, DocWhy::BadRow));
            }
            Ok(bound)
        }
        _ => Err(refusal(input, 2, DocWhy::OutOfOrder)),
    }
}

/// The count of nodes of the fourth row.
fn read_nodes(alloc: Global, input: &Input) -> Result<u64, DocError>
    requires input { IsInput input.now }
    requires row { 3 ≤ length input.now.rest }
    ensures found { IfOk result (λ n. (cost : Option ℤ)
        → ReadsRow input.now 3 (AtNodes cost) (NodesRow n) (AtBlocks cost)) }
    ensures range { IfOk result (λ n. n ≤ MAX_FINISHED) }
    ensures refused { IfErr result (λ e. (cost : Option ℤ) → IsRefusedAt input.now 3 (AtNodes cost) e) }
{
    let said = said_at(alloc, input, 3)?;
    match said {
        Said::Nodes(nodes) => Ok(nodes),
        _ => Err(refusal(input, 3, DocWhy::OutOfOrder)),
    }
}
