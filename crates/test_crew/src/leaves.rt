//! The search, from its text to its two leaves.

ghost use Rattle.std.specs.Prelude.{◌≡◌, ◌≤◌, [], ◌∷◌, length, true, IfOk, IfSome, None};
ghost use Rattle.vs_crew.specs.Sharing.{AreBy, NoneIsHeld};
ghost use Rattle.vs_tree.specs.History.{Split, Took};
ghost use Rattle.vs_tree.specs.Prices.{prices_of, zero_prices};
ghost use Rattle.vs_tree.specs.Search.{state};
ghost use Rattle.vs_tree.specs.Takes.{IsSized};
ghost use Rattle.vs_types.specs.Parts.{IsProperPart};

use std::alloc::{AllocError, Global};
use test_fixtures::joined;
use test_fixtures::texts::{STOPS, TWO_LAYERS};
use vs_instance::Instance;
use vs_prices::{Table, permitted_sets};
use vs_reader::{MAX_BYTES, ReadError, read_instance};
use vs_tree::{Next, Take, Tree};
use vs_types::{LayerNo, LayerSet, Memory, TripNo};

/// Why the search isn't made.
#[derive(Clone, Copy, Debug, PartialEq, Eq)]
pub enum NotMade {
    /// There was no memory.
    Memory,
    /// The text stands for another instance, or for none.
    Text,
    /// The root can't be taken, or can't be split so.
    Root,
}

impl From<Memory> for NotMade {
    fn from(_: Memory) -> Self {
        NotMade::Memory
    }
}

impl From<AllocError> for NotMade {
    fn from(_: AllocError) -> Self {
        NotMade::Memory
    }
}

impl From<ReadError> for NotMade {
    fn from(error: ReadError) -> Self {
        match error {
            ReadError::Memory => NotMade::Memory,
            ReadError::Refused(_) => NotMade::Text,
        }
    }
}

/// The instance of one trip and two layers, which both run it at a cost of 500.
pub fn one_trip(alloc: Global) -> Result<Instance, NotMade>
    ensures { IfOk result (λ i. (length i.layers ≡ 2) × (length i.trips ≡ 1)) }
{
    let text = joined(alloc, &[STOPS, TWO_LAYERS])?;
    if text.len() > MAX_BYTES {
        return Err(NotMade::Text);
    }
    let instance = read_instance(alloc, &text)?.instance;
    if instance.layers() != 2 || instance.trips() != 1 {
        return Err(NotMade::Text);
    }
    Ok(instance)
}

/// A search of so many leaves at most by two workers, as it starts.
pub fn started(alloc: Global, instance: &Instance, budget: u32) -> Result<Tree, Memory>
    requires { budget ≤ 5 }
    ensures { IfOk result (λ tree. tree ≡ record {
      opening = record { problem = instance.now; budget = budget; workers = 2; first = None };
      steps = [];
    }) }
{
    Tree::start(alloc, instance.copy(alloc)?, budget, 2, None)
}

/// Takes the root for worker 0. False where it gets another answer.
fn take_root(tree: &mut Tree, sets: &mut [LayerSet], table: &mut Table) -> bool
    requires starts { tree.old.steps ≡ [] }
    requires workers { tree.old.opening.workers ≡ 2 }
    requires sets { length sets.old ≡ length tree.old.opening.problem.trips }
    requires sized { IsSized tree.old.opening.problem table.old }
    ensures opening { tree.new.opening ≡ tree.old.opening }
    ensures by { AreBy 0 tree.new.steps }
    ensures took { result ≡ true → tree.new.steps ≡ Took 0 0 ∷ [] }
    ensures prices { result ≡ true → prices_of table.new ≡ zero_prices tree.old.opening.problem }
{
    match tree.take(0, sets, table) {
        Take::Node { leaf, known: _ } => leaf == 0,
        _ => false,
    }
}

/// The first layer alone, where a set has it and others.
fn first_alone(set: LayerSet) -> Option<LayerSet>
    ensures { IfSome result (λ left. IsProperPart left set) }
{
    let left = LayerSet::only(LayerNo(0));
    if !left.is_proper_part(set) {
        return None;
    }
    Some(left)
}

/// Takes the root for worker 0 and splits it with the table of zeros: on the left the trip is run in the first layer.
/// False where the root may not be taken or split so.
pub fn split_root(tree: &mut Tree, mut sets: Vec<LayerSet>, mut table: Table) -> bool
    requires starts { tree.old.steps ≡ [] }
    requires workers { tree.old.opening.workers ≡ 2 }
    requires trips { length tree.old.opening.problem.trips ≡ 1 }
    requires sets { length sets.items ≡ 1 }
    requires sized { IsSized tree.old.opening.problem table }
    ensures opening { tree.new.opening ≡ tree.old.opening }
    ensures by { AreBy 0 tree.new.steps }
    ensures split { result ≡ true → (left : LayerSet) × (tree.new.steps ≡ Took 0 0
        ∷ Split 0 0 1 (record { 0 = 0 }) left (zero_prices tree.old.opening.problem) ∷ []) }
{
    if !take_root(tree, &mut sets, &mut table) {
        return false;
    }
    let trip = TripNo(0);
    let Some(left) = first_alone(tree.instance().trip(trip).layers) else {
        return false;
    };
    tree.finish(0, 0, table, Next::Split { trip, left });
    true
}

/// A search in which worker 0 took the root and split it with the table of zeros. On the left the trip is run in the
/// first layer.
pub fn split(alloc: Global, instance: &Instance, budget: u32) -> Result<Tree, NotMade>
    requires budget { budget ≤ 5 }
    requires trips { length instance.now.trips ≡ 1 }
    ensures { IfOk result (λ tree. (left : LayerSet) × (tree ≡ record {
      opening = record { problem = instance.now; budget = budget; workers = 2; first = None };
      steps = Took 0 0 ∷ Split 0 0 1 (record { 0 = 0 }) left (zero_prices instance.now) ∷ [];
    })) }
{
    let mut tree = started(alloc, instance, budget)?;
    let sets = permitted_sets(alloc, instance)?;
    let table = Table::zero(alloc, instance)?;
    if !split_root(&mut tree, sets, table) {
        return Err(NotMade::Root);
    }
    Ok(tree)
}

/// The same with a budget of five leaves, as a crew of two workers may carry it on: the two leaves are free.
pub fn two_leaves(alloc: Global, instance: &Instance) -> Result<Tree, NotMade>
    requires trips { length instance.now.trips ≡ 1 }
    ensures problem { IfOk result (λ tree. tree.opening.problem ≡ instance.now) }
    ensures workers { IfOk result (λ tree. tree.opening.workers ≡ 2) }
    ensures none_held { IfOk result (λ tree. NoneIsHeld (state tree)) }
    ensures none_gone { IfOk result (λ tree. (state tree).gone ≡ []) }
{
    let tree = split(alloc, instance, 5)?;
    Ok(tree)
}
