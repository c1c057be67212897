//! A search of one trip as two workers carry it on: what each step leaves.

ghost use Rattle.std.specs.Prelude.{◌≡◌, ◌≤◌, ℕ, [], ◌∷◌, length, IfOk, OnOk, IsTrue, ◌↔◌, true, None};
ghost use Rattle.vs_plan.specs.CheckedPlan.{Checked};
ghost use Rattle.vs_prices.specs.Table.{Fits};
ghost use Rattle.vs_tree.specs.Calls.{offering, with_step};
ghost use Rattle.vs_tree.specs.History as full;
ghost use Rattle.vs_tree.specs.History.{IsAmong, IsHeldBy, prices_at, sets_at};
ghost use Rattle.vs_tree.specs.Prices.{Prices, prices_of, zero_prices};
ghost use Rattle.vs_tree.specs.Search.{state};
ghost use Rattle.vs_tree.specs.Takes.{IsTake, taking};
ghost use Rattle.vs_tree.specs.declared.spot.Spot.TheVariants.{Held};

use crate::leaves::split;
use crate::trees::prices::table;
use std::alloc::Global;
use std::test::Fail;
use vs_instance::Instance;
use vs_plan::{CheckedPlan, greedy};
use vs_prices::{Table, broken, permitted_sets, worth};
use vs_tree::{Next, Spot, Take, Tree};
use vs_types::LayerSet;

/// The table that shows that the trip costs 500 in both layers.
fn full_table(alloc: Global, instance: &Instance) -> Result<Table, Fail>
    requires { (length instance.now.layers ≡ 2) × (length instance.now.trips ≡ 1) }
    ensures { IfOk result (Fits instance.now) }
{
    table(alloc, instance, [460_000, 455_000], [-10_000, -15_000])
}

/// What a worker got that asked for a leaf, and its buffers then.
#[derive(Drop)]
struct Told {
    take: Take,
    sets: Vec<LayerSet>,
    table: Table,
}

/// Whether a worker holds the leaf at a spot.
fn is_held_by(spot: Spot, w: u32) -> bool
    ensures { IsTrue result ↔ ((table : ℕ) × (spot ≡ Held w table)) }
{
    match spot {
        Spot::Held { worker, table: _ } => worker == w,
        _ => false,
    }
}

/// Whether a worker holds no leaf.
fn is_idle(tree: &Tree, w: u32) -> bool
    ensures { IsTrue result → (k : ℕ) → ¬ (IsHeldBy (state tree.now) w k) }
{
    for k in 0..tree.spots() {
        if is_held_by(tree.spot(k), w) {
            return false;
        }
    }
    true
}

/// Asks for a leaf, for a worker that gave none back.
fn ask(alloc: Global, tree: &mut Tree, w: u32) -> Result<Told, Fail>
    requires worker { w ≤ 1 }
    requires workers { tree.old.opening.workers ≡ 2 }
    requires stays { ¬ (IsAmong w (state tree.old).gone) }
    ensures answer { IfOk result (λ told.
        IsTake tree.old.opening (state tree.old) told.sets.items told.table told.take) }
    ensures search { IfOk result (λ told.
        tree.new ≡ record tree.old { steps = taking w tree.old.steps told.take }) }
    ensures gone { OnOk result ((state tree.new).gone ≡ (state tree.old).gone) }
{
    if !is_idle(tree, w) {
        return Err(Fail::new("the worker holds a leaf"));
    }
    let mut sets = permitted_sets(alloc, tree.instance())?;
    let mut table = Table::zero(alloc, tree.instance())?;
    let take = tree.take(w, &mut sets, &mut table);
    Ok(Told { take, sets, table })
}

/// What a worker gets that asks for a leaf and gave none back.
pub fn answer(alloc: Global, tree: &mut Tree, w: u32) -> Result<Take, Fail>
    requires worker { w ≤ 1 }
    requires workers { tree.old.opening.workers ≡ 2 }
    requires stays { ¬ (IsAmong w (state tree.old).gone) }
    ensures opening { OnOk result (tree.new.opening ≡ tree.old.opening) }
    ensures gone { OnOk result ((state tree.new).gone ≡ (state tree.old).gone) }
{
    let told = ask(alloc, tree, w)?;
    Ok(told.take)
}

/// The search whose root is split, where worker 0 took the left leaf then; and what it got.
fn left_taken(alloc: Global, instance: &Instance) -> Result<(Tree, Told), Fail>
    requires trips { length instance.now.trips ≡ 1 }
    ensures tree { IfOk result (λ made. (left : LayerSet) × (made.0 ≡ record {
      opening = record { problem = instance.now; budget = 5; workers = 2; first = None };
      steps = full.Took 0 0 ∷ full.Split 0 0 1 (record { 0 = 0 }) left (zero_prices instance.now)
          ∷ full.Took 0 1 ∷ [];
    })) }
    ensures left { IfOk result (λ made. (made.1.sets.items ≡ sets_at (state made.0) 1)
        × (prices_of made.1.table ≡ prices_at (state made.0) 1)) }
{
    let mut tree = split(alloc, instance, 5)?;
    let lower = ask(alloc, &mut tree, 0)?;
    let Take::Node {
        leaf: 1,
        known: None,
    } = lower.take
    else {
        return Err(Fail::new("no left leaf"));
    };
    Ok((tree, lower))
}

/// The same, where worker 1 took the right leaf then; and what both got.
fn both_take(alloc: Global, instance: &Instance) -> Result<(Tree, Told, Told), Fail>
    requires trips { length instance.now.trips ≡ 1 }
    ensures tree { IfOk result (λ made. (left : LayerSet) × (made.0 ≡ record {
      opening = record { problem = instance.now; budget = 5; workers = 2; first = None };
      steps = full.Took 0 0 ∷ full.Split 0 0 1 (record { 0 = 0 }) left (zero_prices instance.now)
          ∷ full.Took 0 1 ∷ full.Took 1 2 ∷ [];
    })) }
    ensures left { IfOk result (λ made. (made.1.sets.items ≡ sets_at (state made.0) 1)
        × (prices_of made.1.table ≡ prices_at (state made.0) 1)) }
    ensures right { IfOk result (λ made. (made.2.sets.items ≡ sets_at (state made.0) 2)
        × (prices_of made.2.table ≡ prices_at (state made.0) 2)) }
{
    let (mut tree, lower) = left_taken(alloc, instance)?;
    let upper = ask(alloc, &mut tree, 1)?;
    let Take::Node {
        leaf: 2,
        known: None,
    } = upper.take
    else {
        return Err(Fail::new("no right leaf"));
    };
    Ok((tree, lower, upper))
}

/// The greedy rule's plan, in which the first layer runs the trip.
fn first_plan(alloc: Global, instance: &Instance) -> Result<CheckedPlan, Fail>
    ensures { IfOk result (λ plan. plan.problem ≡ instance.now) }
{
    match greedy(alloc, instance)? {
        Some(plan) => Ok(plan),
        None => Err(Fail::new("no plan")),
    }
}

/// Closes a leaf that a worker holds with a table that leaves no room there for a plan cheaper than the known one.
fn close(tree: &mut Tree, w: u32, leaf: u32, told: &Told, table: Table) -> Result<(), Fail>
    requires holds { IsHeldBy (state tree.old) w leaf }
    requires sets { told.now.sets.items ≡ sets_at (state tree.old) leaf }
    requires prices { prices_of told.now.table ≡ prices_at (state tree.old) leaf }
    requires fits { Fits tree.old.opening.problem table }
    ensures { OnOk result (tree.new ≡ with_step tree.old
        (full.Closed w leaf (length (state tree.old).tables) (prices_of table))) }
{
    let instance = tree.instance();
    let sets = told.sets.as_slice();
    let least = worth(instance, sets, &told.table);
    let found = worth(instance, sets, &table);
    let known = tree.report().cost;
    if broken(instance, &table).is_some() || !found.is_no_less(least) || found.is_below(known) {
        return Err(Fail::new("the table doesn't close the leaf"));
    }
    tree.finish(w, leaf, table, Next::Close);
    Ok(())
}

/// Offers that plan for worker 0, and closes the left leaf.
fn close_left(alloc: Global, tree: &mut Tree, instance: &Instance, told: &Told) -> Result<(), Fail>
    requires sizes { (length instance.now.layers ≡ 2) × (length instance.now.trips ≡ 1) }
    requires problem { tree.old.opening.problem ≡ instance.now }
    requires holds { IsHeldBy (state tree.old) 0 1 }
    requires fresh { ¬ (IsAmong 0 (state tree.old).offered) }
    requires sets { told.now.sets.items ≡ sets_at (state tree.old) 1 }
    requires prices { prices_of told.now.table ≡ prices_at (state tree.old) 1 }
    ensures search { OnOk result ((plan : Checked) × (prices : Prices) × (tree.new ≡ with_step
        (with_step tree.old (offering (state tree.old) 0 plan true))
        (full.Closed 0 1 (length (state tree.old).tables) prices))) }
    ensures opening { OnOk result (tree.new.opening ≡ tree.old.opening) }
    ensures gone { OnOk result ((state tree.new).gone ≡ (state tree.old).gone) }
{
    let plan = first_plan(alloc, instance)?;
    if !tree.offer(0, plan) {
        return Err(Fail::new("the plan isn't cheaper"));
    }
    let table = full_table(alloc, instance)?;
    close(tree, 0, 1, told, table)
}

/// A search whose two leaves were closed, each by the worker that had taken it.
pub fn finished(alloc: Global, instance: &Instance) -> Result<Tree, Fail>
    requires sizes { (length instance.now.layers ≡ 2) × (length instance.now.trips ≡ 1) }
    ensures problem { IfOk result (λ tree. tree.opening.problem ≡ instance.now) }
    ensures workers { IfOk result (λ tree. tree.opening.workers ≡ 2) }
    ensures stays { IfOk result (λ tree. ¬ (IsAmong 0 (state tree).gone)) }
{
    let (mut tree, lower, upper) = both_take(alloc, instance)?;
    close_left(alloc, &mut tree, instance, &lower)?;
    let table = full_table(alloc, instance)?;
    close(&mut tree, 1, 2, &upper, table)?;
    Ok(tree)
}

/// The search in which worker 1 gave the right leaf back, and what worker 0 got.
fn given_back(alloc: Global, instance: &Instance) -> Result<(Tree, Told), Fail>
    requires trips { length instance.now.trips ≡ 1 }
    ensures problem { IfOk result (λ made. made.0.opening.problem ≡ instance.now) }
    ensures workers { IfOk result (λ made. made.0.opening.workers ≡ 2) }
    ensures stays { IfOk result (λ made. ¬ (IsAmong 0 (state made.0).gone)) }
    ensures fresh { IfOk result (λ made. ¬ (IsAmong 0 (state made.0).offered)) }
    ensures holds { IfOk result (λ made. IsHeldBy (state made.0) 0 1) }
    ensures sets { IfOk result (λ made. made.1.sets.items ≡ sets_at (state made.0) 1) }
    ensures prices { IfOk result (λ made. prices_of made.1.table ≡ prices_at (state made.0) 1) }
{
    let (mut tree, lower, _upper) = both_take(alloc, instance)?;
    if tree.report().finished != 1 {
        return Err(Fail::new("another count before"));
    }
    tree.give_back(1);
    Ok((tree, lower))
}

/// How many leaves were finished when worker 1 had given its leaf back, and once worker 0 had closed its own. And what
/// worker 0 gets then.
pub fn taken_again(alloc: Global, instance: &Instance) -> Result<(u32, u32, Take), Fail>
    requires sizes { (length instance.now.layers ≡ 2) × (length instance.now.trips ≡ 1) }
{
    let (mut tree, lower) = given_back(alloc, instance)?;
    let before = tree.report().finished;
    close_left(alloc, &mut tree, instance, &lower)?;
    let after = tree.report().finished;
    let again = answer(alloc, &mut tree, 0)?;
    Ok((before, after, again))
}
