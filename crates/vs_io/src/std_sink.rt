//! A sink over a writer of the system.

ghost use Rattle.std.specs.Prelude.{◌≡◌, ◌<◌, ◌≤◌, length, take, None, IfOk, OnOk, OnErr};
ghost use Rattle.std.specs.Io.KnownBytes.{Appends, Keeps};
ghost use Rattle.vs_io.specs.Faults.{Rose, one_more};

use crate::sink::Sink;
use crate::source::Failed;
use std::io::Write;
use std::marker::Model;

/// A sink over a writer of the system, which gives no `taken`. Clauses see the writer and the count
/// of failures.
#[derive(Drop)]
pub struct StdSink<W: Write + Drop> {
    writer: W,
    faults: u64,
}

impl<W: Write + Drop> Model for StdSink<W> {
    ghost use Rattle.vs_io.specs.Edge.{Edge};

    ghost Value = { Edge W };

    ghost view = { λ s. record { device = s.writer; faults = s.faults } };
}

impl<W: Write + Drop> StdSink<W> {
    /// A sink that hands its bytes to the writer. Takes no memory.
    pub fn new(writer: W) -> StdSink<W>
        ensures device { result.device ≡ writer }
        ensures no_faults { result.faults ≡ 0 }
    {
        StdSink { writer, faults: 0 }
    }
}

impl<W: Write + Drop> Sink for StdSink<W> {
    ghost taken = { λ _. None };

    ghost faults = { λ s. s.faults };

    fn put(&mut self, piece: &[u8]) -> Result<usize, Failed>
        requires { 0 < length piece.now }
        ensures some { IfOk result (λ n. 0 < n) }
        ensures within { IfOk result (λ n. n ≤ length piece.now) }
        ensures fault { OnErr result (Rose self.old.faults self.new.faults) }
        ensures never_falls { self.old.faults ≤ self.new.faults }

        // The writer took what it says, where its contents are known.
        ensures written { IfOk result (λ n.
            Appends (W.contents self.old.device) (W.contents self.new.device) (take n piece.now)) }
        ensures unwritten { OnErr result
            (Keeps (W.contents self.old.device) (W.contents self.new.device)) }

        // Exactly how the count moves.
        ensures risen { OnErr result (self.new.faults ≡ one_more self.old.faults) }
        ensures not_risen { OnOk result (self.new.faults ≡ self.old.faults) }
    {
        match self.writer.write(piece) {
            Ok(n) if n > 0 => Ok(n),
            _ => {
                self.faults = self.faults.saturating_add(1);
                Err(Failed)
            }
        }
    }
}
