//! `make`: an instance of the generator.

ghost use Rattle.std.specs.Prelude.{◌≤◌, IfOk};
ghost use Rattle.vs_reply.specs.Answered.{IsTextOf};
ghost use Rattle.vs_reply.specs.Owed.{MakeOwes};

use crate::answer::Answer;
use crate::status::Status;
use std::alloc::Global;
use vs_instance::MAX_TRIPS;
use vs_make::make_text;
use vs_types::Memory;

/// What `make n` answers.
pub fn answer_make(alloc: Global, n: u32) -> Result<Answer, Memory>
    requires { n ≤ MAX_TRIPS }
    ensures { IfOk result (IsTextOf (MakeOwes n)) }
{
    let text = make_text(alloc, n)?;
    Ok(Answer {
        status: Status::Done,
        text,
    })
}
