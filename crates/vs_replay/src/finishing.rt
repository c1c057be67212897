//! The finishing of leaves.

ghost use Rattle.std.specs.Prelude.{◌≡◌, ◌↔◌, ◌<◌, IsTrue, MatchOption, length};
ghost use Rattle.vs_instance.specs.Restriction.{IsRestriction};
ghost use Rattle.vs_prices.specs.Table.{Fits, HoldingTable};
ghost use Rattle.vs_tree.specs.Calls.{finishing};
ghost use Rattle.vs_tree.specs.Finishes.{AreWorths, next_in};
ghost use Rattle.vs_tree.specs.History.{IsHeldBy, MayCome, sets_at};
ghost use Rattle.vs_tree.specs.Prices.{prices_of};
ghost use Rattle.vs_tree.specs.Search.{state};
ghost use Rattle.vs_replay.specs.Making.{IsMade, Suits, step_of};

use crate::ground::Ground;
use crate::hands::{holds, known_cost};
use vs_instance::Instance;
use vs_need::broken_for;
use vs_prices::{Table, worth};
use vs_tree::{Finish, Next, Tree};
use vs_types::LayerSet;

/// What a worker makes of its leaf.
#[derive(Drop)]
pub struct Done {
    pub worker: u32,
    pub leaf: u32,
    /// The leaf's new table.
    pub table: Table,
    pub next: Next,
}

/// Finishes a leaf. False where it may not be finished so.
pub fn finish(instance: &Instance, tree: &mut Tree, ground: &mut Ground, done: Done) -> bool
    requires same { tree.old.opening.problem ≡ instance.now }
    requires ground { Suits instance.now ground.old }
    requires fits { Fits instance.now done.table }
    ensures made { IsMade tree.old tree.new (step_of (state tree.old) done) result }
    ensures ground { Suits instance.now ground.new }
{
    // for the proof: the steps of a search are a history from an opening.
    let _instance = tree.instance();
    if !holds(tree, done.worker, done.leaf) {
        return false;
    }
    if !table_holds(instance, ground, &done.table) {
        return false;
    }
    tree.sets(done.leaf, &mut ground.sets);
    match finish_of(instance, tree, &mut ground.sets, &done) {
        None => false,
        Some(finish) => {
            tree.finish_as(done.worker, done.leaf, done.table, finish);
            true
        }
    }
}

/// Whether a table holds, by passes along the nets.
fn table_holds(instance: &Instance, ground: &mut Ground, table: &Table) -> bool
    requires ground { Suits instance.now ground.old }
    requires fits { Fits instance.now table.now }
    ensures holds { IsTrue result ↔ HoldingTable instance.now table.now }
    ensures ground { Suits instance.now ground.new }
{
    let found = broken_for(instance, &mut ground.nets, table, &mut ground.scratch);
    match found {
        None => true,
        _ => false,
    }
}

/// How a leaf is finished. None where its new table is worth less than the one that it has, or where the parts aren't
/// parts of the leaf. None too where the table closes the leaf though there is room for a cheaper plan.
fn finish_of(instance: &Instance, tree: &Tree, sets: &mut [LayerSet], done: &Done) -> Option<Finish>
    requires same { tree.now.opening.problem ≡ instance.now }
    requires holds { IsHeldBy (state tree.now) done.now.worker done.now.leaf }
    requires fits { Fits instance.now done.now.table }
    requires lawful { HoldingTable instance.now done.now.table }
    requires sets { sets.old ≡ sets_at (state tree.now) done.now.leaf }
    ensures size { length sets.new ≡ length sets.old }
    ensures finish { MatchOption result
        (¬ (MayCome tree.now.opening (state tree.now) (step_of (state tree.now) done.now)))
        (λ finish. (next_in finish ≡ done.now.next)
        × (AreWorths instance.now sets.old (prices_of done.now.table) finish
        × MayCome tree.now.opening (state tree.now) (step_of (state tree.now) done.now))) }
{
    // for the proof: the steps of a search are a history from an opening.
    let _instance = tree.instance();
    let worth = worth(instance, sets, &done.table);
    if !worth.is_no_less(tree.leaf_worth(done.leaf)) {
        return None;
    }
    match done.next {
        Next::Close => {
            if worth.is_below(known_cost(tree)) {
                return None;
            }
            Some(Finish::Close { worth })
        }
        Next::Split { trip, left } => {
            if trip.0 >= instance.trips() || !left.is_proper_part(sets[trip.0 as usize]) {
                return None;
            }
            Some(Finish::of(instance, sets, &done.table, done.next))
        }
    }
}
