//! What holds of every answer of a search that is carried on.

ghost use Rattle.std.specs.Prelude.{◌≡◌};
ghost use Rattle.vs_resume.specs.Laws.{EnoughNodesLeaveNothingOpen};
ghost use Rattle.vs_resume.specs.declared.deepen.TheConstants.{MAX_PART_ENTRIES, MAX_TURN};
ghost use Rattle.vs_resume.specs.declared.resuming.TheConstants.{MAX_RESUMED_ENTRIES};

/// Each trip's layer can be chosen in so many ways, and all layers together in the product of these numbers. Carry a
/// search on from whatever document, with twice that product of nodes less one, or more. It ends with a plan that is
/// optimal, or with the claim that there is none: no leaf is left below the cost.
pub fn enough_nodes_leave_nothing_open()
    ensures { EnoughNodesLeaveNothingOpen }
{}

/// The numbers that the definitions take from the code. A turn finishes 20 nodes at most. The tables of a search of a
/// part have 3,000,000 entering prices at most, and those of a search that is carried on 6,000,000.
pub fn limits_are_fixed()
    ensures turn { MAX_TURN ≡ 20 }
    ensures part { MAX_PART_ENTRIES ≡ 3000000 }
    ensures entries { MAX_RESUMED_ENTRIES ≡ 6000000 }
{}
