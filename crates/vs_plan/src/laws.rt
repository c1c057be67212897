//! What holds of every instance.

ghost use Rattle.vs_instance.specs.Problem.{Problem};
ghost use Rattle.vs_instance.specs.BlockPieces.{BlocksCostTheirPieces};
ghost use Rattle.vs_plan.specs.Laws.{FaultlessBlocksArePlans, GreedyGivesOneAnswer};

/// The list of errors is empty exactly where the blocks are a plan, so that judging goes by nothing else.
pub fn faultless_blocks_are_plans()
    ensures { (p : Problem) → FaultlessBlocksArePlans p }
{}

/// The greedy rule gives one plan or gets stuck, and never both.
pub fn greedy_gives_one_answer()
    ensures { (p : Problem) → GreedyGivesOneAnswer p }
{}

/// What a block costs from clock minutes and metres is what its pieces cost together. They are the
/// pull-out, each trip, each link between two, and the pull-in.
pub fn blocks_cost_their_pieces()
    ensures { BlocksCostTheirPieces }
{}
