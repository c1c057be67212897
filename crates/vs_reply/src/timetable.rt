//! `blocks`: the timetable of a document's blocks.

ghost use Rattle.std.specs.Prelude.{◌≡◌, ℕ, List, ◌≤◌, length, IfOk};
ghost use Rattle.vs_instance.specs.Plan.{IsPlan};
ghost use Rattle.vs_plan.specs.Blocks.{CanBeJudged, blocks_of, pairs_of};
ghost use Rattle.vs_reader.specs.Names.{HaveCounts};
ghost use Rattle.vs_reader.specs.Rows.{lines};
ghost use Rattle.vs_reply.specs.Timetable.{timetable};
ghost use Rattle.vs_reply.specs.Answered.{IsTextOf};
ghost use Rattle.vs_reply.specs.Cases.{CheckText, input_limit};
ghost use Rattle.vs_reply.specs.Owed.{BlocksOwes};

use crate::answer::Answer;
use crate::case::{Case, CaseError, read_case};
use crate::status::Status;
use crate::vehicle_rows::write_timetable;
use std::alloc::Global;
use vs_check::Flaw;
use vs_document::Text;
use vs_instance::Instance;
use vs_plan::{Block, PlanError, judge};
use vs_reader::Names;
use vs_types::Memory;

/// What `blocks` answers for the bytes of an instance and a document.
pub fn answer_blocks(alloc: Global, bytes: &[u8]) -> Result<Answer, Memory>
    requires { length bytes.now ≤ input_limit }
    ensures { IfOk result (IsTextOf (BlocksOwes bytes.now)) }
{
    match read_case(alloc, bytes) {
        Ok(case) => answer_for(alloc, &case),
        Err(CaseError::Refused(answer)) => Ok(answer),
        Err(CaseError::Memory) => Err(Memory),
    }
}

/// The timetable of the document's blocks, or the first reason why they are no plan.
fn answer_for(alloc: Global, case: &Case) -> Result<Answer, Memory>
    requires names { HaveCounts case.now.input.instance case.now.input.names }
    requires blocks { CanBeJudged case.now.input.instance (blocks_of case.now.document.plan) }
    ensures { (bytes : List ℕ)
        → CheckText bytes case.now.input.instance case.now.input.names case.now.document
        → IfOk result (IsTextOf (BlocksOwes bytes)) }
{
    if case.document.cost.is_none() {
        return Ok(Answer::of(Status::Done, Text::new(alloc)));
    }
    let (instance, names) = (&case.input.instance, &case.input.names);
    let plan = &case.document.plan;
    match judge(alloc, instance, plan) {
        Ok(_) => timetable_of(alloc, instance, names, &plan.blocks),
        Err(error) => match error {
            PlanError::Fault(fault) => Answer::no(alloc, names, Flaw::Plan(fault)),
            PlanError::Memory => Err(Memory),
        },
    }
}

/// The timetable of a plan's blocks.
fn timetable_of(
    alloc: Global,
    instance: &Instance,
    names: &Names,
    blocks: &[Block],
) -> Result<Answer, Memory>
    requires plan { IsPlan instance.now (pairs_of blocks.now) }
    requires names { HaveCounts instance.now names.now }
    ensures { IfOk result (λ a. (a.status ≡ Status.Done)
        × (a.text.items ≡ lines (timetable instance.now names.now (pairs_of blocks.now)))) }
{
    let mut text = Text::new(alloc);
    write_timetable(&mut text, instance, names, blocks)?;
    Ok(Answer::of(Status::Done, text))
}
