//! A source and a sink that keep what goes through them, for the words that are printed behind a run.

ghost use Rattle.std.specs.Prelude.{None};

use crate::stopwatch::Stopwatch;
use std::alloc::Global;
use std::io::Read;
use std::rt::Clock;
use vs_io::{Failed, Sink, Source};

/// The bytes that went through a stream, where they are kept at all and there was memory for them.
#[derive(Drop)]
pub struct Kept {
    bytes: Option<Vec<u8>>,
}

impl Kept {
    /// None yet, and none ever where they aren't wanted. Takes no memory.
    pub fn new(alloc: Global, wanted: bool) -> Kept {
        Kept {
            bytes: if wanted { Some(Vec::new(alloc)) } else { None },
        }
    }

    /// All bytes so far. None where they weren't kept.
    pub fn bytes(&self) -> Option<&[u8]> {
        match &self.bytes {
            Some(bytes) => Some(bytes.as_slice()),
            None => None,
        }
    }

    /// Keeps further bytes. Where there is no memory for them, none are kept any more.
    fn keep(&mut self, piece: &[u8]) {
        let Some(bytes) = &mut self.bytes else {
            return;
        };
        if bytes.extend_from_slice(piece).is_err() {
            self.bytes = None;
        }
    }
}

/// A source over a reader, which keeps what it gives, and restarts a stopwatch at the reader's end. It gives no `left`.
#[derive(Drop)]
pub struct KeptSource<'a, I: Read + Drop, R: Clock> {
    reader: I,
    kept: Kept,
    watch: &'a Stopwatch<'a, R>,
    calls: u64,
    faults: u64,
}

impl<'a, I: Read + Drop, R: Clock> KeptSource<'a, I, R> {
    /// A source that gives what the reader gives.
    pub fn new(reader: I, kept: Kept, watch: &'a Stopwatch<'a, R>) -> KeptSource<'a, I, R> {
        KeptSource {
            reader,
            kept,
            watch,
            calls: 0,
            faults: 0,
        }
    }

    /// The reader.
    pub fn reader(&self) -> &I {
        &self.reader
    }

    /// What was kept.
    pub fn kept(&self) -> &Kept {
        &self.kept
    }

    /// Restarts the stopwatch where the reader, which gave so many bytes, is at its end.
    fn look_for_end(&self, count: usize) {
        if count == 0 {
            self.watch.restart();
        }
    }
}

impl<I: Read + Drop, R: Clock> Source for KeptSource<'_, I, R> {
    ghost left = { λ _. None };

    ghost calls = { λ s. s.calls };

    ghost faults = { λ s. s.faults };

    fn take(&mut self, buf: &mut [u8]) -> Result<usize, Failed> {
        self.calls = self.calls.saturating_add(1);
        match self.reader.read(buf) {
            Ok(count) => {
                self.kept.keep(&buf[..count]);
                self.look_for_end(count);
                Ok(count)
            }
            Err(_) => {
                self.faults = self.faults.saturating_add(1);
                Err(Failed)
            }
        }
    }
}

/// A sink that keeps what it takes. What clauses see of it is what they see of the sink that it hands it to.
#[derive(Drop)]
pub struct KeptSink<S: Sink + Drop> {
    sink: S,
    kept: Kept,
}

impl<S: Sink + Drop> KeptSink<S> {
    /// A sink that hands its bytes to this one.
    pub fn new(sink: S, kept: Kept) -> KeptSink<S> {
        KeptSink { sink, kept }
    }

    /// What was kept.
    pub fn kept(&self) -> &Kept {
        &self.kept
    }
}

impl<S: Sink + Drop> Sink for KeptSink<S> {
    ghost taken = { λ s. S.taken s.sink };

    ghost faults = { λ s. S.faults s.sink };

    fn put(&mut self, piece: &[u8]) -> Result<usize, Failed> {
        let count = self.sink.put(piece)?;
        self.kept.keep(&piece[..count]);
        Ok(count)
    }
}
