//! One stream, or two that are read one after the other.

ghost use Rattle.std.specs.Io.{ReadsAtMost};

use crate::stream::Stream;
use std::io::{Error, Read};
use std::{io, mem};

/// The bytes of a stream, or of two, one behind the other. Between them stands a line's end where the first has none at
/// its end.
#[derive(Drop)]
pub struct Joined {
    /// The stream that is read.
    current: Stream,
    /// The one that is read behind it.
    next: Option<Stream>,
    /// Whether the last byte that was given ends a line.
    ends_line: bool,
    /// How a call failed, where one did.
    fault: Option<Error>,
}

impl Joined {
    /// Of these streams. Takes no memory.
    pub fn new(first: Stream, second: Option<Stream>) -> Joined {
        Joined {
            current: first,
            next: second,
            ends_line: false,
            fault: None,
        }
    }

    /// The name of the stream that is read.
    pub fn name(&self) -> &str {
        self.current.name()
    }

    /// How a call failed. None where none did.
    pub fn fault(&self) -> Option<&Error> {
        self.fault.as_ref()
    }

    /// Gives the next bytes of the stream that is read, and 0 at its end.
    fn read_current(&mut self, buf: &mut [u8]) -> io::Result<usize>
        ensures { ReadsAtMost result buf.new }
    {
        match self.current.read(buf) {
            Ok(count) => {
                self.ends_line = count > 0 && buf[count - 1] == b'\n';
                Ok(count)
            }
            Err(error) => {
                let kind = error.kind();
                self.fault = Some(error);
                Err(Error::from(kind))
            }
        }
    }
}

impl Read for Joined {
    fn read(&mut self, buf: &mut [u8]) -> io::Result<usize> {
        let ended_line = self.ends_line;
        let count = self.read_current(buf)?;
        if count > 0 || buf.is_empty() {
            return Ok(count);
        }
        let Some(next) = mem::take(&mut self.next) else {
            return Ok(0);
        };
        self.current = next;
        if ended_line {
            return self.read_current(buf);
        }
        buf[0] = b'\n';
        Ok(1)
    }
}
