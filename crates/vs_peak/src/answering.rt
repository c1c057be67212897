//! `peak`: how few vehicles each layer needs, with what proves it.

ghost use Rattle.std.specs.Prelude.{◌≤◌, length, IfOk};
ghost use Rattle.vs_peak.specs.Answered.{HasPeaks};
ghost use Rattle.vs_peak.specs.Owed.{PeakOwes};
ghost use Rattle.vs_reader.specs.Names.{HaveCounts};
ghost use Rattle.vs_reply.specs.Answered.{IsTextOf};
ghost use Rattle.vs_reply.specs.Cases.{input_limit};

use crate::claiming::peaks;
use crate::writing::write;
use std::alloc::Global;
use vs_instance::Instance;
use vs_reader::{Names, read_instance};
use vs_reply::{Answer, Status};
use vs_types::Memory;

/// What `peak` answers for the bytes of an instance, whatever follows its records.
pub fn answer_peak(alloc: Global, bytes: &[u8]) -> Result<Answer, Memory>
    requires { length bytes.now ≤ input_limit }
    ensures { IfOk result (IsTextOf (PeakOwes bytes.now)) }
{
    match read_instance(alloc, bytes) {
        Ok(timetable) => peaks_of(alloc, &timetable.instance, &timetable.names),
        Err(error) => Answer::no_instance(alloc, error),
    }
}

/// The text of the peaks of all layers.
fn peaks_of(alloc: Global, instance: &Instance, names: &Names) -> Result<Answer, Memory>
    requires { HaveCounts instance.now names.now }
    ensures { IfOk result (HasPeaks instance.now names.now) }
{
    let claimed = peaks(alloc, instance)?;
    let text = write(alloc, instance, names, &claimed)?;
    Ok(Answer {
        status: Status::Done,
        text,
    })
}
