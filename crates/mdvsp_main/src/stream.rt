//! The streams that words name: standard input and files.

use crate::stop::Stop;
use std::alloc::Global;
use std::fs::File;
use std::io;
use std::io::{ErrorKind, Read, Stdin};
use vs_types::Memory;

/// How many bytes show whether a stream begins with a `result` record: those of `"result",`.
const HEAD: usize = 9;

/// Where the bytes of a stream come from.
#[derive(Drop)]
enum Origin {
    Standard(Stdin),
    File(File),
}

impl Read for Origin {
    fn read(&mut self, buf: &mut [u8]) -> io::Result<usize> {
        match self {
            Origin::Standard(stdin) => stdin.read(buf),
            Origin::File(file) => file.read(buf),
        }
    }
}

/// A stream of bytes, and what it is called.
#[derive(Drop)]
pub struct Stream {
    name: String,
    origin: Origin,
    /// The bytes that were read ahead, the last one first.
    ahead: Vec<u8>,
}

impl Stream {
    /// Standard input.
    pub fn standard(alloc: Global, stdin: Stdin) -> Result<Stream, Memory> {
        let name = String::from_str(alloc, "standard input")?;
        Ok(Stream {
            name,
            origin: Origin::Standard(stdin),
            ahead: Vec::new(alloc),
        })
    }

    /// A file that was opened by this name. Takes no memory.
    pub fn file(alloc: Global, name: String, file: File) -> Stream {
        Stream {
            name,
            origin: Origin::File(file),
            ahead: Vec::new(alloc),
        }
    }

    /// What it is called.
    pub fn name(&self) -> &str {
        self.name.as_str()
    }

    /// Whether it is standard input.
    pub fn is_standard(&self) -> bool {
        matches!(self.origin, Origin::Standard(_))
    }

    /// The stream, where it stands behind a timetable: it has to begin with a `result` record.
    pub fn behind(mut self, alloc: Global) -> Result<Stream, Stop> {
        match self.begins_with_result(alloc) {
            Ok(true) => Ok(self),
            Ok(false) => Err(Stop::NoResult(self.name)),
            Err(error) => Err(Stop::Unread(self.name, error)),
        }
    }

    /// Whether its bytes begin with a `result` record. Those that show it, nine at most, are read ahead.
    fn begins_with_result(&mut self, alloc: Global) -> io::Result<bool> {
        let mut head = Vec::new(alloc);
        let mut byte = [0; 1];
        for _ in 0..HEAD {
            if self.origin.read(&mut byte)? == 0 {
                break;
            }
            if head.push(byte[0]).is_err() {
                return Err(io::Error::from(ErrorKind::OutOfMemory));
            }
        }
        let begins = is_result(&head);
        head.reverse();
        self.ahead = head;
        Ok(begins)
    }
}

impl Read for Stream {
    fn read(&mut self, buf: &mut [u8]) -> io::Result<usize> {
        if !buf.is_empty() {
            if let Some(byte) = self.ahead.pop() {
                buf[0] = byte;
                return Ok(1);
            }
        }
        self.origin.read(buf)
    }
}

/// Whether the first bytes of a text are those of a record whose first field is `result`, in quotes or without.
fn is_result(head: &[u8]) -> bool {
    let behind = if head.starts_with(b"result") {
        head.get(6)
    } else if head.starts_with(b"\"result\"") {
        head.get(8)
    } else {
        return false;
    };
    match behind {
        Some(byte) => matches!(*byte, b',' | b'\n' | b'\r'),
        None => true,
    }
}
