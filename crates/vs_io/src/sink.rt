//! What a sink is.

ghost use Rattle.std.specs.Prelude.{◌≡◌, ℕ, ◌<◌, ◌≤◌, Option, List, length, take, IfOk, OnErr};
ghost use Rattle.vs_io.specs.Bytes.{Appends};
ghost use Rattle.vs_io.specs.Faults.{Rose};

use crate::source::Failed;

/// Where bytes are written to.
///
/// `taken` is the bytes taken so far, where the sink gives them. `faults` is a count of failed
/// calls, a u64 that never falls and stays at its greatest value once it is there.
pub trait Sink {
    ghost taken: { Self → Option (List ℕ) };

    ghost faults: { Self → ℕ };

    /// Takes some first bytes of the piece, at least one, and says how many. A call that fails
    /// takes nothing.
    fn put(&mut self, piece: &[u8]) -> Result<usize, Failed>
        requires { 0 < length piece.now }
        ensures some { IfOk result (λ n. 0 < n) }
        ensures within { IfOk result (λ n. n ≤ length piece.now) }
        ensures appended { IfOk result (λ n.
            Appends (taken self.old) (taken self.new) (take n piece.now)) }
        ensures unmoved { OnErr result (taken self.new ≡ taken self.old) }
        ensures fault { OnErr result (Rose (faults self.old) (faults self.new)) }
        ensures never_falls { faults self.old ≤ faults self.new };
}
