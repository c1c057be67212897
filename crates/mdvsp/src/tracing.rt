//! `trace`: a search of the instance, and its trace.

ghost use Rattle.std.specs.Prelude.{◌≡◌, ◌<◌, ◌≤◌, ◌^◌, length, IfOk};
ghost use Rattle.vs_instance.specs.declared.limits.TheConstants.{MAX_BUDGET};
ghost use Rattle.vs_reader.specs.Names.{HaveCounts};
ghost use Rattle.vs_reply.specs.Cases.{input_limit};
ghost use Rattle.vs_words.specs.Words.{IsUnlimited, MayBeTaken};
ghost use Rattle.vs_reply.specs.Answered.{IsTextOf};
ghost use Rattle.mdvsp.specs.Answered.{AnswersTrace};
ghost use Rattle.mdvsp.specs.Owed.{TraceOwes};

use crate::crew::Crew;
use crate::searchable::{Searchable, read_to_search};
use crate::solving::claim_status;
use std::alloc::Global;
use std::sync::Wait;
use std::thread::Threads;
use vs_crew::Gate;
use vs_reader::Timetable;
use vs_reply::Answer;
use vs_trace::write;
use vs_tree::{Tree, reports_are_true};
use vs_types::Memory;
use vs_words::Effort;

impl<'a, R: Threads + Wait + Sync, G: Gate + Sync> Crew<'a, R, G> {
    /// What `trace` answers for the bytes of an instance, whatever follows its records, with this effort.
    pub fn trace(&self, alloc: Global, effort: Effort, bytes: &[u8]) -> Result<Answer, Memory>
        requires bytes { length bytes.now ≤ input_limit }
        requires effort { MayBeTaken effort }
        requires workers { self.now.workers ≡ effort.workers }
        requires limits { self.now.gate.effort ≡ effort }
        ensures { IfOk result (IsTextOf (TraceOwes effort bytes.now)) }
    {
        match read_to_search(alloc, effort, bytes)? {
            Searchable::With(timetable, budget) => self.tell(alloc, &timetable, budget),
            Searchable::Not(answer) => Ok(answer),
        }
    }

    /// The trace of a search of the instance that was read, with this budget.
    fn tell(&self, alloc: Global, timetable: &Timetable, budget: u32) -> Result<Answer, Memory>
        requires counts { HaveCounts timetable.now.instance timetable.now.names }
        requires budget { budget ≤ MAX_BUDGET }
        ensures { IfOk result
            (AnswersTrace (IsUnlimited self.now.gate.effort) timetable.now.instance timetable.now.names budget
            self.now.workers) }
    {
        // for the proof: what a report claims is true, and a list has fewer than 2^63 steps.
        reports_are_true();
        let tree = self.search_anew(alloc, &timetable.instance, budget)?;
        let _instance = tree.instance();
        let _count = count_steps(&tree);
        let text = write(alloc, &tree, &timetable.names)?;
        Ok(Answer {
            status: claim_status(tree.report().claim),
            text,
        })
    }
}

/// How many steps a search made.
fn count_steps(tree: &Tree) -> usize
    ensures count { result ≡ length tree.now.steps }
    ensures few { result < 2 ^ 63 }
{
    tree.history().len()
}
