//! `solve`: a search of the instance, and its document.

ghost use Rattle.std.specs.Prelude.{◌≡◌, ◌≤◌, length, IfOk};
ghost use Rattle.vs_reader.specs.Names.{HaveCounts};
ghost use Rattle.vs_tree.specs.Search.{state};
ghost use Rattle.vs_tree.specs.Takes.{IsOver, held_leaves};
ghost use Rattle.vs_instance.specs.declared.limits.TheConstants.{MAX_BUDGET};
ghost use Rattle.vs_node.specs.WorkedHistory.{AreWorked};
ghost use Rattle.mdvsp.specs.Answered.{AnswersDocument};
ghost use Rattle.mdvsp.specs.Owed.{SolveOwes};
ghost use Rattle.vs_reply.specs.Answered.{IsTextOf};
ghost use Rattle.vs_reply.specs.Cases.{input_limit};
ghost use Rattle.vs_reply.specs.Status.{status_of};
ghost use Rattle.mdvsp.specs.SolveAnswer.{BeginsFor};
ghost use Rattle.vs_words.specs.Words.{IsUnlimited, MayBeTaken};

use crate::crew::Crew;
use crate::searchable::{Searchable, read_to_search};
use std::alloc::Global;
use std::sync::Wait;
use std::thread::Threads;
use vs_cert::write;
use vs_crew::Gate;
use vs_instance::Instance;
use vs_plan::greedy;
use vs_reader::Timetable;
use vs_reply::{Answer, Status};
use vs_tree::{Claim, Tree};
use vs_types::Memory;
use vs_words::Effort;

impl<'a, R: Threads + Wait + Sync, G: Gate + Sync> Crew<'a, R, G> {
    /// What `solve` answers for the bytes of an instance, whatever follows its records, with this effort.
    pub fn solve(&self, alloc: Global, effort: Effort, bytes: &[u8]) -> Result<Answer, Memory>
        requires bytes { length bytes.now ≤ input_limit }
        requires effort { MayBeTaken effort }
        requires workers { self.now.workers ≡ effort.workers }
        requires limits { self.now.gate.effort ≡ effort }
        ensures { IfOk result (IsTextOf (SolveOwes effort bytes.now)) }
    {
        match read_to_search(alloc, effort, bytes)? {
            Searchable::With(timetable, budget) => self.plan(alloc, &timetable, budget),
            Searchable::Not(answer) => Ok(answer),
        }
    }

    /// The answer for an instance that was read, by a search with this budget.
    pub fn plan(&self, alloc: Global, timetable: &Timetable, budget: u32) -> Result<Answer, Memory>
        requires counts { HaveCounts timetable.now.instance timetable.now.names }
        requires budget { budget ≤ MAX_BUDGET }
        ensures { IfOk result
            (AnswersDocument (IsUnlimited self.now.gate.effort) timetable.now.instance timetable.now.names budget
            self.now.workers) }
    {
        let tree = self.search_anew(alloc, &timetable.instance, budget)?;
        let _instance = tree.instance();
        let text = write(alloc, &tree, &timetable.names)?;
        Ok(Answer {
            status: claim_status(tree.report().claim),
            text,
        })
    }

    /// A search of the instance that begins with the greedy rule's plan, once it is over, or a limit is reached.
    pub fn search_anew(
        &self,
        alloc: Global,
        instance: &Instance,
        budget: u32,
    ) -> Result<Tree, Memory>
        requires budget { budget ≤ MAX_BUDGET }
        ensures begins { IfOk result (λ tree.
            BeginsFor instance.now budget self.now.workers tree.opening) }
        ensures worked { IfOk result (λ tree. AreWorked tree.opening tree.steps) }
        ensures none_held { IfOk result (λ tree. held_leaves (state tree) ≡ 0) }
        ensures over { IsUnlimited self.now.gate.effort
            → IfOk result (λ tree. IsOver tree.opening (state tree)) }
    {
        let first = greedy(alloc, instance)?;
        self.search(alloc, instance, budget, first)
    }
}

/// The status that goes with a claim.
pub fn claim_status(claim: Claim) -> Status
    ensures { result ≡ status_of claim }
{
    match claim {
        Claim::Optimal => Status::Done,
        Claim::Infeasible => Status::Infeasible,
        Claim::StillOpen => Status::StillOpen,
    }
}
