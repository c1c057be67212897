//! What a source is, and how a call of a source or a sink fails.

ghost use Rattle.std.specs.Prelude.{◌≡◌, ℕ, ◌<◌, ◌≤◌, Option, List, length, take, IfOk, OnErr};
ghost use Rattle.std.specs.Io.KnownBytes.{IsAtEnd};
ghost use Rattle.vs_io.specs.Bytes.{Takes};
ghost use Rattle.vs_io.specs.Faults.{Rose, one_more};

/// One call of a source or a sink failed.
#[derive(Clone, Copy, Debug, PartialEq, Eq)]
pub struct Failed;

/// Where bytes are read from.
///
/// `left` is the bytes that are left, where the source gives them. `calls` is a count of all calls
/// and `faults` one of those that failed. Each is a u64 that never falls and stays at its greatest
/// value once it is there.
pub trait Source {
    ghost left: { Self → Option (List ℕ) };

    ghost calls: { Self → ℕ };

    ghost faults: { Self → ℕ };

    /// Moves the next bytes into the front of the buffer and says how many: 0 exactly at the end
    /// of the input. A call that fails takes nothing.
    fn take(&mut self, buf: &mut [u8]) -> Result<usize, Failed>
        requires { 0 < length buf.old }
        ensures within { IfOk result (λ n. n ≤ length buf.new) }
        ensures moved { IfOk result (λ n. Takes (left self.old) (left self.new) (take n buf.new)) }
        ensures end { IfOk result (λ n. n ≡ 0 → IsAtEnd (left self.old)) }
        ensures unmoved { OnErr result (left self.new ≡ left self.old) }
        ensures fault { OnErr result (Rose (faults self.old) (faults self.new)) }
        ensures never_falls { faults self.old ≤ faults self.new }
        ensures counted { calls self.new ≡ one_more (calls self.old) };
}
