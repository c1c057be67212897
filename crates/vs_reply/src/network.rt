//! `network`: how large the nets of each layer are.

ghost use Rattle.std.specs.Prelude.{◌≤◌, length, IfOk};
ghost use Rattle.vs_reader.specs.Names.{HaveCounts};
ghost use Rattle.vs_reply.specs.Answered.{HasSizes, IsTextOf};
ghost use Rattle.vs_reply.specs.Cases.{input_limit};
ghost use Rattle.vs_reply.specs.Owed.{NetworkOwes};

use crate::answer::Answer;
use crate::net_rows::write_nets;
use crate::status::Status;
use std::alloc::Global;
use vs_document::Text;
use vs_instance::Instance;
use vs_reader::{Names, read_instance};
use vs_types::Memory;

/// What `network` answers for the bytes of an instance, whatever follows its records.
pub fn answer_network(alloc: Global, bytes: &[u8]) -> Result<Answer, Memory>
    requires { length bytes.now ≤ input_limit }
    ensures { IfOk result (IsTextOf (NetworkOwes bytes.now)) }
{
    match read_instance(alloc, bytes) {
        Ok(timetable) => sizes_of(alloc, &timetable.instance, &timetable.names),
        Err(error) => Answer::no_instance(alloc, error),
    }
}

/// How large the nets of each layer are.
fn sizes_of(alloc: Global, instance: &Instance, names: &Names) -> Result<Answer, Memory>
    requires { HaveCounts instance.now names.now }
    ensures { IfOk result (HasSizes instance.now names.now) }
{
    let mut text = Text::new(alloc);
    write_nets(alloc, &mut text, instance, names)?;
    Ok(Answer::of(Status::Done, text))
}
