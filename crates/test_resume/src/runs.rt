//! How a search is carried on from a text.

ghost use Rattle.std.specs.Prelude.{◌≤◌, IfOk, IsTrue};
ghost use Rattle.vs_check.specs.HoldingDocument.{HoldingDocument};
ghost use Rattle.vs_instance.specs.declared.limits.TheConstants.{MAX_BUDGET};
ghost use Rattle.vs_reader.specs.Names.{HaveCounts};
ghost use Rattle.vs_resume.specs.Answers.{HasRoom};
ghost use Rattle.vs_rows.specs.DocumentText.{HasText};

use crate::one_worker::OneWorker;
use std::alloc::Global;
use std::test::Fail;
use test_fixtures::{input_of, joined};
use vs_check::{Verdict, check};
use vs_document::{Document, read};
use vs_instance::{Instance, MAX_LAYERS};
use vs_reader::Input;
use vs_resume::resume;

/// How many trips, rows of a tree and nodes there may be in a test.
const FEW: u32 = 200;

/// An instance, and a document that holds for it.
#[derive(Drop)]
pub struct Case {
    pub input: Input,
    pub document: Document,
}

/// The instance that these parts of a text stand for, and the document behind it.
pub fn case_of(alloc: Global, parts: &[&str]) -> Result<Case, Fail>
    ensures counts { IfOk result (λ case. HaveCounts case.input.instance case.input.names) }
    ensures text { IfOk result (λ case. HasText case.input.instance case.document) }
    ensures holds { IfOk result (λ case. HoldingDocument case.input.instance case.document) }
{
    let text = joined(alloc, parts)?;
    let input = input_of(alloc, &text)?;
    let document = read(alloc, &input)?;
    match check(alloc, &input.instance, &document)? {
        Verdict::Yes => Ok(Case { input, document }),
        Verdict::No(_) => Err(Fail::new("the document doesn't hold")),
    }
}

/// Whether instance, document and budget are small.
fn are_small(instance: &Instance, document: &Document, budget: u32) -> bool
    ensures room { IsTrue result → HasRoom instance.now document.now budget }
    ensures budget { IsTrue result → budget ≤ MAX_BUDGET }
{
    // for the proof: the instance is within its limits
    prove!(instance.layers() <= MAX_LAYERS);
    instance.trips() <= FEW && document.shape.len() <= FEW as usize && budget <= FEW
}

/// What a search is carried on to from a document within a budget.
pub fn carried_on(
    alloc: Global,
    instance: &Instance,
    document: Document,
    budget: u32,
    worker: &mut OneWorker,
) -> Result<Document, Fail>
    requires text { HasText instance.now document }
    requires holds { HoldingDocument instance.now document }
    ensures text { IfOk result (HasText instance.now) }
    ensures holds { IfOk result (HoldingDocument instance.now) }
{
    if !are_small(instance, &document, budget) {
        return Err(Fail::new("too large a case"));
    }
    Ok(resume(alloc, instance, document, budget, worker)?)
}
