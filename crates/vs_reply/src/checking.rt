//! `check`: whether a document holds.

ghost use Rattle.std.specs.Prelude.{◌≤◌, length, IfOk};
ghost use Rattle.vs_reply.specs.Answered.{IsTextOf};
ghost use Rattle.vs_reply.specs.Cases.{input_limit};
ghost use Rattle.vs_reply.specs.Owed.{CheckOwes};

use crate::answer::Answer;
use crate::case::{CaseError, read_case};
use std::alloc::Global;
use vs_check::{Verdict, check};
use vs_types::Memory;

/// What `check` answers for the bytes of an instance and a document.
pub fn answer_check(alloc: Global, bytes: &[u8]) -> Result<Answer, Memory>
    requires { length bytes.now ≤ input_limit }
    ensures { IfOk result (IsTextOf (CheckOwes bytes.now)) }
{
    let case = match read_case(alloc, bytes) {
        Ok(case) => case,
        Err(CaseError::Refused(answer)) => return Ok(answer),
        Err(CaseError::Memory) => return Err(Memory),
    };
    match check(alloc, &case.input.instance, &case.document)? {
        Verdict::Yes => Answer::yes(alloc, &case.document),
        Verdict::No(flaw) => Answer::no(alloc, &case.input.names, flaw),
    }
}
