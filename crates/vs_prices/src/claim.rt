//! What a cost and a bound claim of all plans.

ghost use Rattle.std.specs.Prelude.{◌≡◌};
ghost use Rattle.vs_prices.specs.Claims.{claim_found};

/// What a document claims.
#[derive(Clone, Copy, Debug, PartialEq, Eq)]
pub enum Claim {
    /// No plan costs less than the one printed.
    Optimal,
    /// There is no plan.
    Infeasible,
    /// No plan costs less than the printed bound, and it may be that one costs less than the plan
    /// printed.
    StillOpen,
}

/// What a cost and a bound claim together, both in cost units.
pub fn claim_found(cost: Option<i64>, bound: Option<i128>) -> Claim
    ensures { result ≡ claim_found cost bound }
{
    match (cost, bound) {
        (Some(cost), Some(bound)) if i128::from(cost) == bound => Claim::Optimal,
        (None, None) => Claim::Infeasible,
        _ => Claim::StillOpen,
    }
}
