//! Laws of a layer's nets, each the contract of a function that does nothing.

ghost use Rattle.std.specs.Prelude.{ℕ, ◌<◌, List, length, ◌↔◌, Bool, Option, ℤ, option_map};
ghost use Rattle.vs_types.specs.declared.numbers.LayerNo.{LayerNo};
ghost use Rattle.vs_layer.specs.Graph.{IsNet};
ghost use Rattle.vs_layer.specs.Circulation.{IsCirculation};
ghost use Rattle.vs_instance.specs.Plan.{LayerBlock};
ghost use Rattle.vs_instance.specs.Problem.{Problem};
ghost use Rattle.vs_instance.specs.Instance.{IsInstance};
ghost use Rattle.vs_match.specs.declared.matching.Matching.{Matching};
ghost use Rattle.vs_match.specs.Decomposition.{Decompose};
ghost use Rattle.vs_match.specs.LayerGraph.{LayerGraph, IsNetOf};
ghost use Rattle.vs_match.specs.LawfulNets.{IsLawful};
ghost use Rattle.vs_match.specs.WalkLaw.{HasWalkLaw};
ghost use Rattle.vs_match.specs.declared.matching.Matching.TheVariants.{First, Latest};
ghost use Rattle.vs_match.specs.NetArcs.{at_scale};
ghost use Rattle.vs_match.specs.Aggregation.{AreLayerBlocks, Compose, IsLeastOfBlocks, IsLeastOfUnits};

/// The net of a layer of an instance has the walk law, by either matching.
pub fn nets_have_the_walk_law()
    ensures { (p : Problem) (l : ℕ) (matching : Matching) (n : LayerGraph)
        → IsInstance p → IsNetOf p l matching n → HasWalkLaw p l n }
{}

/// The net of a layer of an instance is lawful, by either matching.
pub fn nets_are_lawful()
    ensures { (p : Problem) (l : ℕ) (matching : Matching) (n : LayerGraph)
        → IsInstance p → l < length p.layers → IsNetOf p l matching n → IsNet n.graph
        → IsLawful p l n }
{}

/// A circulation of a lawful net has blocks that run the same trips with no more vehicles and cost no more.
pub fn circulations_decompose()
    ensures { (p : Problem) (l : LayerNo) (n : LayerGraph) (units : List ℕ)
        → IsInstance p → IsLawful p l.0 n → IsCirculation n.graph units
        → (blocks : List LayerBlock) × Decompose p l n units blocks }
{}

/// Blocks of a layer are a circulation of each of its lawful nets. It runs the same trips with as many vehicles
/// at the same cost.
pub fn blocks_compose()
    ensures { (p : Problem) (l : LayerNo) (n : LayerGraph) (blocks : List LayerBlock)
        → IsInstance p → IsLawful p l.0 n → AreLayerBlocks p l blocks
        → (units : List ℕ) × Compose p n blocks units }
{}

/// For each set of trips, the least cost of circulations of a lawful net is exactly that of blocks, in 1/1000 of a
/// cost unit. There are such circulations exactly where there are such blocks.
pub fn nets_cost_what_blocks_do()
    ensures { (p : Problem) (l : LayerNo) (n : LayerGraph) (chosen : ℕ → Bool) (cost : Option ℕ)
        → IsInstance p → IsLawful p l.0 n
        → IsLeastOfBlocks p l chosen cost ↔ IsLeastOfUnits n chosen (option_map at_scale cost) }
{}

/// Each set of trips costs the same over the first-match net of a layer and over its latest-first-match net.
pub fn both_nets_alike()
    ensures { (p : Problem) (l : LayerNo) (n m : LayerGraph) (chosen : ℕ → Bool) (cost : Option ℤ)
        → IsInstance p → l.0 < length p.layers
        → IsNetOf p l.0 First n → IsNet n.graph → IsNetOf p l.0 Latest m → IsNet m.graph
        → IsLeastOfUnits n chosen cost ↔ IsLeastOfUnits m chosen cost }
{}
