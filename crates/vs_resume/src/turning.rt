//! A turn: the next leaf gives place to a search of its part.

ghost use Rattle.std.specs.Prelude.{◌≡◌, ◌*◌, ◌<◌, ◌≤◌, false, length, IfOk, OnOk};
ghost use Rattle.vs_types.specs.declared.numbers.TheConstants.{MAX_LAYERS};
ghost use Rattle.vs_instance.specs.declared.limits.TheConstants.{MAX_TRIPS};
ghost use Rattle.vs_instance.specs.Narrowed.{narrowed};
ghost use Rattle.vs_instance.specs.Restriction.{IsRestriction};
ghost use Rattle.vs_resume.specs.declared.deepen.TheConstants.{MAX_PART_ENTRIES, MAX_TURN};
ghost use Rattle.vs_resume.specs.Courses.{AreNext, HasFewTables, HasNewTables, HasSetsAt, IsPartPut, IsPlanTaken, IsSomeCourse, TurnsFurther};
ghost use Rattle.vs_resume.specs.Deepened.{IsBegunOn, IsDeepened};

use crate::cases::{cases_of, settle};
use crate::course::Course;
use crate::deepen::{Deepen, MAX_PART_ENTRIES, MAX_TURN};
use crate::part::{copy_of_plan, widened_tables};
use crate::rows::{put_in_place, put_rows};
use std::alloc::Global;
use vs_cert::{TreeRows, rows_of_tree};
use vs_document::Shape;
use vs_instance::{Instance, MAX_LAYERS, MAX_TRIPS};
use vs_prices::Table;
use vs_tree::Tree;
use vs_types::{LayerSet, Memory};

/// How a turn ended.
#[derive(Clone, Copy, Debug, PartialEq, Eq)]
pub(crate) struct Ended {
    /// How many nodes it finished.
    pub finished: u32,
    /// Whether the solver ended it early.
    pub stopped: bool,
}

/// Takes a turn at leaf k, which is the next one, where so many nodes are left. A turn that finished no node changes
/// nothing.
pub(crate) fn turn<S: Deepen>(
    alloc: Global,
    instance: &Instance,
    course: &mut Course,
    k: usize,
    left: u32,
    solver: &mut S,
) -> Result<Ended, Memory>
    requires course { IsSomeCourse instance.now course.old }
    requires next { AreNext course.old k }
    requires left { 1 ≤ left }
    requires few { HasFewTables course.old }
    requires can { S.can_deepen solver.old }
    ensures stays { S.can_deepen solver.new }
    ensures may { S.may_stop solver.new → S.may_stop solver.old }
    ensures turn { IfOk result (TurnsFurther instance.now left course.old course.new) }
    ensures few { OnOk result (HasNewTables course.old course.new) }
    ensures goes_on { ¬ (S.may_stop solver.old) → IfOk result (λ ended. ended.stopped ≡ false) }
{
    // for the proof: the instance is within its limits
    prove!(instance.trips() <= MAX_TRIPS);
    let sets = Vec::from_slice(alloc, &course.cases[k].sets)?;
    let layers: &[LayerSet] = &sets;
    let tree = deepened(alloc, instance, layers, turn_nodes(instance, left), solver)?;
    // for the proof: the steps of a search are a history from an opening
    let _part = tree.instance();
    let finished = tree.report().finished;
    if finished == 0 {
        return Ok(Ended {
            finished: 0,
            stopped: true,
        });
    }
    put_part(alloc, instance, course, k, sets, &tree)?;
    take_plan(alloc, course, &tree)?;
    Ok(Ended {
        finished,
        stopped: !tree.is_over(),
    })
}

/// How many nodes a turn at a part of the instance may finish, where so many nodes are left: 20 at most, and no more
/// than its tables have room for.
fn turn_nodes(instance: &Instance, left: u32) -> u32
    requires left { 1 ≤ left }
    ensures some { 1 ≤ result }
    ensures few { result ≤ MAX_TURN }
    ensures within { result ≤ left }
    ensures room { length instance.now.trips * length instance.now.layers * result ≤ MAX_PART_ENTRIES }
{
    let entries = entries_of(instance).max(1);
    let most = left.min(MAX_TURN);
    most.min(MAX_PART_ENTRIES / entries)
}

/// How many entering prices a table of the instance has: one for each trip in each layer.
fn entries_of(instance: &Instance) -> u32
    ensures entries { result ≡ length instance.now.trips * length instance.now.layers }
    ensures few { result ≤ MAX_TRIPS * MAX_LAYERS }
{
    // for the proof: the instance is within its limits
    prove!(instance.trips() <= MAX_TRIPS);
    prove!(instance.layers() <= MAX_LAYERS);
    instance.trips() * instance.layers()
}

/// A search of the part that these sets leave, with this budget.
fn deepened<S: Deepen>(
    alloc: Global,
    instance: &Instance,
    sets: &[LayerSet],
    budget: u32,
    solver: &mut S,
) -> Result<Tree, Memory>
    requires sets { IsRestriction instance.now sets.now }
    requires some { 1 ≤ budget }
    requires few { budget ≤ MAX_TURN }
    requires room { length instance.now.trips * length instance.now.layers * budget ≤ MAX_PART_ENTRIES }
    requires can { S.can_deepen solver.old }
    ensures stays { S.can_deepen solver.new }
    ensures may { S.may_stop solver.new → S.may_stop solver.old }
    ensures begun { IfOk result (IsBegunOn (narrowed instance.now sets.now) budget) }
    ensures found { ¬ (S.may_stop solver.old)
        → IfOk result (IsDeepened (narrowed instance.now sets.now) budget) }
{
    let part = instance.narrow(alloc, sets)?;
    solver.deepen(alloc, part, budget)
}

/// Takes the plan of a search of a part where it is cheaper.
fn take_plan(alloc: Global, course: &mut Course, tree: &Tree) -> Result<(), Memory>
    ensures { OnOk result (IsPlanTaken tree.now course.old course.new) }
{
    let Some(found) = tree.plan() else {
        return Ok(());
    };
    let cost = found.cost();
    if let Some(known) = course.cost {
        if known <= cost {
            return Ok(());
        }
    }
    course.plan = copy_of_plan(alloc, found.plan())?;
    course.cost = Some(cost);
    Ok(())
}

/// Puts the tree of a search of a part in the place of leaf k, which has these layers. Each of its leaves has the
/// better of its own table, widened, and of the table that leaf k had.
fn put_part(
    alloc: Global,
    instance: &Instance,
    course: &mut Course,
    k: usize,
    sets: Vec<LayerSet>,
    tree: &Tree,
) -> Result<(), Memory>
    requires course { IsSomeCourse instance.now course.old }
    requires leaf { k < length course.old.cases.items }
    requires sets { HasSetsAt course.old k sets.items }
    requires part { tree.now.opening.problem ≡ narrowed instance.now sets.items }
    requires budget { tree.now.opening.budget ≤ MAX_TURN }
    requires few { HasFewTables course.old }
    ensures put { OnOk result (IsPartPut instance.now k tree.now course.old course.new) }
    ensures few { OnOk result (HasNewTables course.old course.new) }
{
    // for the proof: the instance is within its limits, and the steps of a search are a history from an opening
    prove!(instance.trips() <= MAX_TRIPS);
    let _part = tree.instance();
    let number = course.cases[k].table;
    let base = course.tables.len() as u32;
    let of_tree = rows_of_tree(alloc, tree)?;
    let TreeRows {
        rows,
        tables: numbers,
    } = of_tree;
    let layers: &[LayerSet] = &sets;
    let named: &[u32] = &numbers;
    let mut tables = widened_tables(alloc, instance, layers, tree, named)?;
    let shapes: &[Shape] = &rows;
    let widened: &[Table] = &tables;
    let mut cases = cases_of(alloc, instance, sets, shapes, widened)?;
    let old = &course.tables[number as usize];
    settle(instance, old, number, base, &mut cases);
    course.tables.append(&mut tables)?;
    put_rows(&mut course.rows, k, rows)?;
    put_in_place(&mut course.cases, k, cases)?;
    Ok(())
}
