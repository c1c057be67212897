//! What a search that is carried on knows between two turns.

ghost use Rattle.std.specs.Prelude.{◌≡◌, IfOk};
ghost use Rattle.vs_check.specs.HoldingDocument.{HoldingDocument};
ghost use Rattle.vs_rows.specs.DocumentText.{HasText};
ghost use Rattle.vs_resume.specs.Courses.{IsBegun};

use crate::cases::{Case, cases_of};
use std::alloc::Global;
use vs_document::{Document, Shape};
use vs_instance::Instance;
use vs_plan::Plan;
use vs_prices::{Table, permitted_sets};
use vs_types::Memory;

/// What is known between two turns.
#[derive(Drop)]
pub(crate) struct Course {
    /// What the cheapest plan costs, None where there is none.
    pub cost: Option<i64>,
    /// The cheapest plan, without blocks where there is none.
    pub plan: Plan,
    /// The tables, of which the leaves name some.
    pub tables: Vec<Table>,
    /// The tree of cases in preorder. Which tables its leaves name stands in the cases alone.
    pub rows: Vec<Shape>,
    /// Its leaves, from left to right.
    pub cases: Vec<Case>,
}

impl Course {
    /// What a document prints that holds.
    pub fn of(alloc: Global, instance: &Instance, document: Document) -> Result<Course, Memory>
        requires text { HasText instance.now document }
        requires holds { HoldingDocument instance.now document }
        ensures { IfOk result (IsBegun instance.now document) }
    {
        let Document {
            cost,
            plan,
            tables,
            shape,
            ..
        } = document;
        let sets = permitted_sets(alloc, instance)?;
        let shapes: &[Shape] = &shape;
        let listed: &[Table] = &tables;
        let cases = cases_of(alloc, instance, sets, shapes, listed)?;
        Ok(Course {
            cost,
            plan,
            tables,
            rows: shape,
            cases,
        })
    }
}
