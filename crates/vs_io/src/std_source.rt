//! A source over a reader of the system.

ghost use Rattle.std.specs.Prelude.{◌≡◌, ◌<◌, ◌≤◌, length, None, IfOk, OnOk, OnErr};
ghost use Rattle.std.specs.Io.KnownBytes.{ReadConsumes};
ghost use Rattle.vs_io.specs.Faults.{Rose, one_more};

use crate::source::{Failed, Source};
use std::io::Read;
use std::marker::Model;

/// A source over a reader of the system, which gives no `left`. Clauses see the reader, the count of
/// calls and that of failures.
#[derive(Drop)]
pub struct StdSource<R: Read + Drop> {
    reader: R,
    calls: u64,
    faults: u64,
}

impl<R: Read + Drop> Model for StdSource<R> {
    ghost use Rattle.vs_io.specs.Edge.{ReadingEdge};

    ghost Value = { ReadingEdge R };

    ghost view = { λ s. record { device = s.reader; calls = s.calls; faults = s.faults } };
}

impl<R: Read + Drop> StdSource<R> {
    /// A source that gives what the reader gives. Takes no memory.
    pub fn new(reader: R) -> StdSource<R>
        ensures device { result.device ≡ reader }
        ensures no_calls { result.calls ≡ 0 }
        ensures no_faults { result.faults ≡ 0 }
    {
        StdSource {
            reader,
            calls: 0,
            faults: 0,
        }
    }
}

impl<R: Read + Drop> Source for StdSource<R> {
    ghost left = { λ _. None };

    ghost calls = { λ s. s.calls };

    ghost faults = { λ s. s.faults };

    fn take(&mut self, buf: &mut [u8]) -> Result<usize, Failed>
        requires { 0 < length buf.old }
        ensures within { IfOk result (λ n. n ≤ length buf.new) }
        ensures fault { OnErr result (Rose self.old.faults self.new.faults) }
        ensures never_falls { self.old.faults ≤ self.new.faults }
        ensures counted { self.new.calls ≡ one_more self.old.calls }

        // It gives what the reader gave, where the reader's remaining bytes are known.
        ensures read { ReadConsumes (R.remaining self.old.device) (R.remaining self.new.device) result buf.new }

        // Exactly how the count of failures moves.
        ensures risen { OnErr result (self.new.faults ≡ one_more self.old.faults) }
        ensures not_risen { OnOk result (self.new.faults ≡ self.old.faults) }
    {
        self.calls = self.calls.saturating_add(1);
        match self.reader.read(buf) {
            Ok(n) => Ok(n),
            Err(_) => {
                self.faults = self.faults.saturating_add(1);
                Err(Failed)
            }
        }
    }
}
