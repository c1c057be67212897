//! `resume`: a search carried on from its document.

ghost use Rattle.std.specs.Prelude.{◌≡◌, ℕ, ◌≤◌, List, length, IfOk};
ghost use Rattle.vs_check.specs.HoldingDocument.{HoldingDocument};
ghost use Rattle.vs_document.specs.Form.{IsReadFor};
ghost use Rattle.vs_instance.specs.declared.limits.TheConstants.{MAX_BUDGET};
ghost use Rattle.vs_reader.specs.Names.{HaveCounts};
ghost use Rattle.vs_reply.specs.Answered.{IsTextOf};
ghost use Rattle.vs_reply.specs.Cases.{CheckText, input_limit};
ghost use Rattle.vs_resume.specs.Answers.{HasRoom};
ghost use Rattle.vs_resume.specs.Deepened.{IsBegunOn, IsDeepened};
ghost use Rattle.vs_rows.specs.DocumentText.{HasText};
ghost use Rattle.vs_words.specs.Words.{IsUnlimited, MayBeTaken};
ghost use Rattle.mdvsp.specs.Answered.{IsResumed};
ghost use Rattle.mdvsp.specs.Owed.{ResumeOwes};
ghost use Rattle.mdvsp.specs.Resuming.{BeginsResuming};

use crate::budget::resumed_budget;
use crate::crew::{ByCalls, Crew};
use crate::solving::claim_status;
use std::alloc::Global;
use std::sync::Wait;
use std::thread::Threads;
use vs_check::{Verdict, check};
use vs_crew::{Gate, Stand};
use vs_document::{Document, text_of};
use vs_instance::Instance;
use vs_reader::Input;
use vs_reply::{Answer, Case, CaseError, read_case};
use vs_resume::{Deepen, resume};
use vs_tree::Tree;
use vs_types::Memory;
use vs_words::Effort;

/// How far a search has come of which nothing is known.
const FIRST_STAND: Stand = Stand {
    finished: 0,
    open: 0,
    cost: None,
    bound: None,
};

/// Whether a search is carried on from a document.
#[derive(Drop)]
enum Start {
    /// It is, on so many nodes at most.
    With(u32),
    /// It isn't, and this answer says why.
    Not(Answer),
}

impl<'a, R: Threads + Wait + Sync, G: Gate + Sync> Crew<'a, R, G> {
    /// What `resume` answers for the bytes of an instance and a document, with this effort.
    pub fn resume(&self, alloc: Global, effort: Effort, bytes: &[u8]) -> Result<Answer, Memory>
        requires bytes { length bytes.now ≤ input_limit }
        requires effort { MayBeTaken effort }
        requires limits { self.now.gate.effort ≡ effort }
        ensures { IfOk result (IsTextOf (ResumeOwes effort bytes.now)) }
    {
        match read_case(alloc, bytes) {
            Ok(case) => self.resume_case(alloc, effort, case),
            Err(CaseError::Refused(answer)) => Ok(answer),
            Err(CaseError::Memory) => Err(Memory),
        }
    }

    /// The same for the instance and the document that were read.
    fn resume_case(&self, alloc: Global, effort: Effort, case: Case) -> Result<Answer, Memory>
        requires effort { MayBeTaken effort }
        requires limits { self.now.gate.effort ≡ effort }
        requires read_for { IsReadFor case.input.instance case.document }
        requires counts { HaveCounts case.input.instance case.input.names }
        requires text { HasText case.input.instance case.document }
        ensures { (bytes : List ℕ)
            → CheckText bytes case.input.instance case.input.names case.document
            → IfOk result (IsTextOf (ResumeOwes effort bytes)) }
    {
        match start_of(alloc, effort, &case)? {
            Start::With(budget) => {
                let Case { input, document } = case;
                self.carry_on(alloc, &input, document, budget)
            }
            Start::Not(answer) => Ok(answer),
        }
    }

    /// The answer for an instance and a document that holds: by turns of resume with this budget, in which the crew
    /// searches.
    fn carry_on(
        &self,
        alloc: Global,
        input: &Input,
        document: Document,
        budget: u32,
    ) -> Result<Answer, Memory>
        requires counts { HaveCounts input.now.instance input.now.names }
        requires text { HasText input.now.instance document }
        requires holds { HoldingDocument input.now.instance document }
        requires budget { budget ≤ MAX_BUDGET }
        requires room { HasRoom input.now.instance document budget }
        ensures { IfOk result (IsResumed (IsUnlimited self.now.gate.effort) input.now.instance
            input.now.names budget document) }
    {
        let search = |part: Instance, nodes: u32, before: Stand| -> Result<Tree, Memory>
            requires { nodes ≤ MAX_BUDGET }
            ensures begun { IfOk result (IsBegunOn part nodes) }
            ensures found { IsUnlimited self.entry.now.gate.effort → IfOk result (IsDeepened part nodes) }
        { self.within(before).search_part(alloc, &part, nodes) };
        let mut solver = ByCalls {
            gate: &self.gate,
            before: FIRST_STAND,
            search,
        };
        resumed(alloc, input, document, budget, &mut solver)
    }
}

/// Whether a search is carried on from the document, where so many nodes are given: leaves and nodes aren't too many,
/// and it holds.
fn start_of(alloc: Global, effort: Effort, case: &Case) -> Result<Start, Memory>
    requires effort { MayBeTaken effort }
    requires read_for { IsReadFor case.now.input.instance case.now.document }
    requires counts { HaveCounts case.now.input.instance case.now.input.names }
    ensures { IfOk result (BeginsResuming effort case.now) }
{
    let (instance, document) = (&case.input.instance, &case.document);
    let Some(budget) = resumed_budget(instance, document, effort.nodes) else {
        return Ok(Start::Not(Answer::too_large(alloc)?));
    };
    match check(alloc, instance, document)? {
        Verdict::Yes => Ok(Start::With(budget)),
        Verdict::No(flaw) => Ok(Start::Not(Answer::no(alloc, &case.input.names, flaw)?)),
    }
}

/// The same, where whoever is lent searches.
fn resumed<S: Deepen>(
    alloc: Global,
    input: &Input,
    document: Document,
    budget: u32,
    solver: &mut S,
) -> Result<Answer, Memory>
    requires counts { HaveCounts input.now.instance input.now.names }
    requires text { HasText input.now.instance document }
    requires holds { HoldingDocument input.now.instance document }
    requires budget { budget ≤ MAX_BUDGET }
    requires room { HasRoom input.now.instance document budget }
    requires can { S.can_deepen solver.old }
    ensures { IfOk result (IsResumed (¬ (S.may_stop solver.old)) input.now.instance input.now.names budget
        document) }
{
    let after = resume(alloc, &input.instance, document, budget, solver)?;
    let text = text_of(alloc, &input.instance, &input.names, &after)?;
    Ok(Answer {
        status: claim_status(after.claim),
        text,
    })
}
