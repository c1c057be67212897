//! Why the program stops before it runs a command.

use mdvsp::Status;
use std::alloc::Global;
use std::io::Error;
use vs_messages::{Part, sentence_of};
use vs_types::Memory;

/// Why the program stops before it runs a command.
#[derive(Drop)]
pub enum Stop {
    Memory,
    /// The file of this name can't be opened or read.
    Unread(String, Error),
    /// The stream of this name stands behind a timetable, and begins with no `result` record.
    NoResult(String),
}

impl Stop {
    /// How the program ends.
    pub fn status(&self) -> Status {
        match self {
            Stop::Memory => Status::NoMemory,
            Stop::Unread(..) => Status::ReadFault,
            Stop::NoResult(_) => Status::BadInput,
        }
    }

    /// What is said of it.
    pub fn words(&self, alloc: Global) -> Result<String, Memory> {
        match self {
            Stop::Memory => sentence_of(alloc, OUT_OF_MEMORY, &[]),
            Stop::Unread(name, error) => unread_words(alloc, name.as_str(), error),
            Stop::NoResult(name) => sentence_of(
                alloc,
                "%: it doesn't begin with a result record, so nothing of it is read",
                &[Part::Bytes(name.as_bytes())],
            ),
        }
    }
}

impl From<Memory> for Stop {
    fn from(_: Memory) -> Stop {
        Stop::Memory
    }
}

/// What is said where there is no memory.
pub const OUT_OF_MEMORY: &str = "out of memory";

/// What is said of a stream that can't be opened or read.
pub fn unread_words(alloc: Global, name: &str, error: &Error) -> Result<String, Memory> {
    let why = format!(in alloc; "{error}")?;
    sentence_of(
        alloc,
        "%: it can't be read: %",
        &[Part::Bytes(name.as_bytes()), Part::Bytes(why.as_bytes())],
    )
}
