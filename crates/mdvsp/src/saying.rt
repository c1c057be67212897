//! How an answer is written.

ghost use Rattle.std.specs.Prelude.{◌≤◌};
ghost use Rattle.mdvsp.specs.Answered.{IsSaid};

use vs_io::{Sink, emit};
use vs_reply::{Answer, Status};
use vs_types::Memory;

/// Writes the answer's text, and says how the run ends.
pub fn say<O: Sink>(answer: Result<Answer, Memory>, output: &mut O) -> Status
    ensures said { IsSaid answer result (O.taken output.old) (O.taken output.new)
        (O.faults output.old) (O.faults output.new) }
    ensures never_falls { O.faults output.old ≤ O.faults output.new }
{
    let answer = match answer {
        Ok(answer) => answer,
        Err(Memory) => return Status::NoMemory,
    };
    match emit(output, &answer.text) {
        Ok(()) => answer.status,
        Err(_) => Status::WriteFault,
    }
}
