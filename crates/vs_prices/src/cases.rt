//! What holds of every tree of cases.

ghost use Rattle.vs_prices.specs.CaseLaws.{LeavesAreRestrictions, LeavesShareOutPlans};

/// The leaves of a good tree share out the plans of its root. Each plan within the root's restriction lies
/// within that of exactly one leaf.
pub fn leaves_share_out_plans()
    ensures { LeavesShareOutPlans }
{}

/// The leaves of a good tree have restrictions: some layer is left for each trip, and each that is left is
/// one of the root's.
pub fn leaves_are_restrictions()
    ensures { LeavesAreRestrictions }
{}
