//! What holds of every history of a search.

ghost use Rattle.vs_tree.specs.Entries.{EntriesDiffer};
ghost use Rattle.vs_tree.specs.Laws.{HistoriesAreSound, LeavesBoundPlans, ReportsAreTrue, StatesAreTrees};

/// Every state that a history of a search leads to is sound. Each plan of the instance lies in exactly one leaf. Every
/// table fits and holds, and no leaf is worth less than 0. Every accepted plan is one of the instance and cheaper than
/// the one before. No closed leaf leaves room for a cheaper plan, and no more leaves are worked on than the budget
/// allows.
pub fn histories_are_sound()
    ensures { HistoriesAreSound }
{}

/// In every such state a plan costs at least what the leaf is worth that it lies in.
pub fn leaves_bound_plans()
    ensures { LeavesBoundPlans }
{}

/// What the report of such a state claims is true of all plans of the instance. No plan costs less than the cheapest
/// one found, or there is none, or none costs less than the bound.
pub fn reports_are_true()
    ensures { ReportsAreTrue }
{}

/// The spots of every such state make a tree of cases, good in every split, in which each leaf stands once.
pub fn states_are_trees()
    ensures { StatesAreTrees }
{}

/// Written out as numbers, as workers that share a search see it, two different openings differ, and so do two
/// different steps.
pub fn entries_differ()
    ensures { EntriesDiffer }
{}
