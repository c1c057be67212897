//! What holds of the document of every search.

ghost use Rattle.vs_cert.specs.AnswerLaws.{BoundsReachTheStart, DocumentsOfStatesHold, EnoughBudgetsLeaveNothingOpen, FinishedSearchesAnswer, SearchesAnswerSoFar, StatesHaveDocuments};

/// The document of any state that a search comes to holds. It has the state's report, its cheapest plan, its tree of
/// cases, and the tables that leaves name.
pub fn documents_of_states_hold()
    ensures { DocumentsOfStatesHold }
{}

/// Each state that a search comes to has a document, which has a text, whether a leaf is held or not. So what is said
/// of every document of a state is said of one at least.
pub fn states_have_documents()
    ensures { StatesHaveDocuments }
{}

/// However far a search has come, the document of its state holds, and its bound is the lesser of the least worth of
/// its leaves and of its cost. Its nodes are within the budget, and no fewer than the splits of its tree.
pub fn searches_answer_so_far()
    ensures { SearchesAnswerSoFar }
{}

/// Where a search is over, the document of its state is what a search with its budget answers. It holds, and its bound
/// is the lesser of the least worth of its leaves and of its cost. Its tables are those that leaves name, in the order
/// in which they first name them. Its nodes are within the budget, and no fewer than the splits of its tree. They are
/// no more than these splits and the leaves that aren't below its cost, together. Where the claim is still open, they
/// are the whole budget.
pub fn finished_searches_answer()
    ensures { FinishedSearchesAnswer }
{}

/// Let every leaf of a state be worth no less than the value at the starting multipliers. Then so is the bound of its
/// document, unless the bound is the cost.
pub fn bounds_reach_the_start()
    ensures { BoundsReachTheStart }
{}

/// Each trip's layer can be chosen in so many ways, and all layers together in the product of these numbers. Take a
/// search that is over, with a budget of twice that product less one or more. It has an optimal plan, or has shown that
/// there is none.
pub fn enough_budgets_leave_nothing_open()
    ensures { EnoughBudgetsLeaveNothingOpen }
{}
