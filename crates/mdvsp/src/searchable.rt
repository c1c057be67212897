//! What the bytes of an instance give to search.

ghost use Rattle.std.specs.Prelude.{◌≤◌, length, IfOk, IfSome};
ghost use Rattle.vs_instance.specs.declared.limits.TheConstants.{MAX_BUDGET};
ghost use Rattle.vs_reply.specs.Cases.{input_limit};
ghost use Rattle.mdvsp.specs.Searching.{IsSearchable};

use crate::budget::budget_of;
use std::alloc::Global;
use vs_reader::{Timetable, read_instance};
use vs_reply::Answer;
use vs_types::Memory;
use vs_words::Effort;

/// What the bytes of an instance give to search.
#[derive(Drop)]
pub enum Searchable {
    /// The instance with its names, and on how many nodes a search of it may work.
    With(Timetable, u32),
    /// Nothing, and this answer says why.
    Not(Answer),
}

/// What the bytes of an instance give to search with this effort, whatever follows the instance's records.
pub fn read_to_search(alloc: Global, effort: Effort, bytes: &[u8]) -> Result<Searchable, Memory>
    requires bytes { length bytes.now ≤ input_limit }
    requires nodes { IfSome effort.nodes (λ n. n ≤ MAX_BUDGET) }
    ensures { IfOk result (IsSearchable effort bytes.now) }
{
    match read_instance(alloc, bytes) {
        Ok(timetable) => match budget_of(&timetable.instance, effort.nodes) {
            Some(budget) => Ok(Searchable::With(timetable, budget)),
            None => {
                let too_large = Answer::too_large(alloc)?;
                Ok(Searchable::Not(too_large))
            }
        },
        Err(error) => {
            let refusal = Answer::no_instance(alloc, error)?;
            Ok(Searchable::Not(refusal))
        }
    }
}
