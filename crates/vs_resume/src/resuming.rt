//! A search carried on.

ghost use Rattle.std.specs.Prelude.{◌≤◌, IfOk, OnOk};
ghost use Rattle.vs_check.specs.HoldingDocument.{HoldingDocument};
ghost use Rattle.vs_instance.specs.declared.limits.TheConstants.{MAX_BUDGET};
ghost use Rattle.vs_rows.specs.DocumentText.{HasText};
ghost use Rattle.vs_resume.specs.Answers.{HasRoom, ResumeAnswer, StoppedResume};
ghost use Rattle.vs_resume.specs.Order.{IsStandOf};
ghost use Rattle.vs_resume.specs.Courses.{EndsOnly, HasFewTables, HasNewTables, IsSomeCourse, TurnsFurther};

use crate::course::Course;
use crate::deepen::Deepen;
use crate::order::{bound_with, count_below, next_case};
use crate::turning::{Ended, turn};
use crate::writing::document_of;
use std::alloc::Global;
use vs_document::Document;
use vs_instance::{Instance, MAX_TRIPS};
use vs_tree::Stand;
use vs_types::Memory;

/// How many entering prices the tables of a search that is carried on may have together. There is one table for each
/// leaf of its document and for each node of its budget. The limit is twice that of a search, so that every document
/// that a search writes can be carried on.
pub const MAX_RESUMED_ENTRIES: u32 = 6_000_000;

/// Goes on with a search where a document that holds left it. It ends when the budget is spent, or every leaf shows
/// what the cheapest plan costs. Each turn goes to the weakest leaf, and of several as weak to the leftmost. The solver
/// searches its part of the instance, and that search's tree grows where the leaf stood. A new leaf has its own table,
/// or that of the leaf before where this shows more. A cheaper plan that was found is the plan from then on. What is
/// counted are the nodes of this call alone. It returns where the solver does. Whatever it answers, the solver may be
/// called again. The solver is asked before each turn whether the search is to end. Where it ends that or a turn early,
/// what was found so far is answered.
pub fn resume<S: Deepen>(
    alloc: Global,
    instance: &Instance,
    document: Document,
    budget: u32,
    solver: &mut S,
) -> Result<Document, Memory>
    requires text { HasText instance.now document }
    requires holds { HoldingDocument instance.now document }
    requires budget { budget ≤ MAX_BUDGET }
    requires room { HasRoom instance.now document budget }
    requires can { S.can_deepen solver.old }
    ensures stays { S.can_deepen solver.new }
    ensures stopped { IfOk result (StoppedResume instance.now budget document) }
    ensures answers { ¬ (S.may_stop solver.old)
        → IfOk result (ResumeAnswer instance.now budget document) }
{
    // for the proof: the instance is within its limits
    prove!(instance.trips() <= MAX_TRIPS);
    let mut course = Course::of(alloc, instance, document)?;
    let mut left = budget;
    let mut goes_on = true;
    while goes_on && left > 0 {
        let ended = next_turn(alloc, instance, &mut course, budget - left, left, solver)?;
        left -= ended.finished;
        goes_on = !ended.stopped;
    }
    document_of(alloc, course, budget - left)
}

/// A turn at the next leaf, of a search that finished so many nodes and has so many left. There is none where no leaf
/// is below the cost, or the solver ends the search.
fn next_turn<S: Deepen>(
    alloc: Global,
    instance: &Instance,
    course: &mut Course,
    finished: u32,
    left: u32,
    solver: &mut S,
) -> Result<Ended, Memory>
    requires course { IsSomeCourse instance.now course.old }
    requires left { 1 ≤ left }
    requires few { HasFewTables course.old }
    requires can { S.can_deepen solver.old }
    ensures stays { S.can_deepen solver.new }
    ensures may { S.may_stop solver.new → S.may_stop solver.old }
    ensures turn { IfOk result (TurnsFurther instance.now left course.old course.new) }
    ensures few { OnOk result (HasNewTables course.old course.new) }
    ensures ends { ¬ (S.may_stop solver.old) → IfOk result (EndsOnly course.new) }
{
    let Some(k) = next_case(&course.cases, course.cost) else {
        return Ok(STOPPED);
    };
    if solver.is_over(&stand_of(course, finished)) {
        return Ok(STOPPED);
    }
    turn(alloc, instance, course, k, left, solver)
}

/// No turn was taken, and none follows.
const STOPPED: Ended = Ended {
    finished: 0,
    stopped: true,
};

/// How far the search has come, of which this call finished so many nodes.
fn stand_of(course: &Course, finished: u32) -> Stand
    ensures { IsStandOf course.now finished result }
{
    Stand {
        finished,
        open: count_below(&course.cases, course.cost),
        cost: course.cost,
        bound: bound_with(&course.cases, course.cost),
    }
}
