//! What is said when a run has ended, or waits.

use crate::joined::Joined;
use crate::kept::{Kept, KeptSource};
use crate::stop::{OUT_OF_MEMORY, unread_words};
use crate::voice::Voice;
use mdvsp::Status;
use std::alloc::Global;
use std::rt::Clock;
use vs_messages::{reason_text, refusal_text};
use vs_types::Memory;

/// What is said where standard output takes no more.
pub const UNWRITTEN: &str = "standard output can't be written";

/// What is said of an input that is too long.
const TOO_LONG: &str = "the input is longer than 536870912 bytes";

/// Says how a run ended, where it wasn't done: what was refused or doesn't hold, or why there is no plan, by what was
/// written, or how a stream failed.
pub fn say_end<R: Eprint + Clock>(
    alloc: Global,
    voice: &Voice<'_, R>,
    status: &Status,
    input: &KeptSource<'_, Joined, R>,
    written: &Kept,
) {
    match status {
        Status::BadInput | Status::SaysNo | Status::Infeasible => {
            voice.say_found(written_words(alloc, status, input.kept(), written));
        }
        Status::ReadFault => voice.say_found(fault_words(alloc, input.reader())),
        Status::WriteFault => voice.say(UNWRITTEN),
        Status::NoMemory => voice.say(OUT_OF_MEMORY),
        Status::TooLong => voice.say(TOO_LONG),
        _ => {}
    }
}

/// The words for what was written: for a document that claims that there is no plan why there is none, else for the row
/// of a refusal or of a document that doesn't hold. None where input and output weren't kept.
fn written_words(
    alloc: Global,
    status: &Status,
    read: &Kept,
    written: &Kept,
) -> Result<Option<String>, Memory> {
    let (Some(read), Some(written)) = (read.bytes(), written.bytes()) else {
        return Ok(None);
    };
    match status {
        Status::Infeasible => reason_text(alloc, read, written),
        _ => refusal_text(alloc, read, written),
    }
}

/// The words for an input that failed. None where it didn't.
fn fault_words(alloc: Global, input: &Joined) -> Result<Option<String>, Memory> {
    match input.fault() {
        Some(error) => Ok(Some(unread_words(alloc, input.name(), error)?)),
        None => Ok(None),
    }
}

/// What is said before so many streams, one or two, are read from a terminal.
pub fn waiting_words(streams: usize) -> &'static str {
    if streams > 1 {
        "reading a timetable and what stands behind it from the terminal, up to Ctrl-D; the command takes files too"
    } else {
        "reading a timetable from the terminal, up to Ctrl-D; the command takes a file too"
    }
}
