//! A source in memory, with failures where they are wanted.

ghost use Rattle.std.specs.Prelude.{◌≡◌, ℕ, ◌<◌, ◌≤◌, ◌↔◌, ◌++◌, length, take, min, Contains, Some, IfOk, IsErr, OnOk, OnErr, []};
ghost use Rattle.vs_io.specs.Bytes.{Takes};
ghost use Rattle.vs_io.specs.Faults.{Rose, one_more};

use crate::source::{Failed, Source};
use std::marker::Model;

/// A source in memory, which gives its bytes in pieces and fails at the chosen calls.
#[derive(Drop)]
pub struct MemSource {
    bytes: Vec<u8>,
    next: usize,
    piece: usize,
    failing: Vec<u64>,
    calls: u64,
    faults: u64,
}

impl Model for MemSource {
    ghost use Rattle.std.specs.Prelude.{◌<◌, ◌≤◌, drop, vec_len};
    ghost use Rattle.vs_io.specs.Memory.{SourceState};

    ghost Value = { SourceState };

    ghost view = { λ s. record {
      left = drop s.next s.bytes.items;
      piece = s.piece;
      failing = s.failing.items;
      calls = s.calls;
      faults = s.faults;
    } };

    ghost invariant = { λ s. (0 < s.piece) × (s.next ≤ vec_len s.bytes) };
}

impl MemSource {
    /// A source that has these bytes left and gives at most `piece` of them at a time. The calls of
    /// `take` whose numbers stand in `failing` fail: they count from 1 and stay at the greatest
    /// u64. Takes no memory.
    pub fn new(bytes: Vec<u8>, piece: usize, failing: Vec<u64>) -> MemSource
        requires { 1 ≤ piece }
        ensures left { result.left ≡ bytes.items }
        ensures piece { result.piece ≡ piece }
        ensures failing { result.failing ≡ failing.items }
        ensures no_calls { result.calls ≡ 0 }
        ensures no_faults { result.faults ≡ 0 }
    {
        MemSource {
            bytes,
            next: 0,
            piece,
            failing,
            calls: 0,
            faults: 0,
        }
    }
}

impl Source for MemSource {
    ghost left = { λ s. Some s.left };

    ghost calls = { λ s. s.calls };

    ghost faults = { λ s. s.faults };

    fn take(&mut self, buf: &mut [u8]) -> Result<usize, Failed>
        requires { 0 < length buf.old }
        ensures within { IfOk result (λ n. n ≤ length buf.new) }
        ensures moved { IfOk result (λ n.
            Takes (Some self.old.left) (Some self.new.left) (take n buf.new)) }
        ensures end { IfOk result (λ n. n ≡ 0 → self.old.left ≡ []) }
        ensures unmoved { OnErr result (Some self.new.left ≡ Some self.old.left) }
        ensures fault { OnErr result (Rose self.old.faults self.new.faults) }
        ensures never_falls { self.old.faults ≤ self.new.faults }
        ensures counted { self.new.calls ≡ one_more self.old.calls }

        // Exactly which calls fail, and how many bytes the others give.
        ensures failing { IsErr result ↔ Contains self.old.failing self.new.calls }
        ensures risen { OnErr result (self.new.faults ≡ one_more self.old.faults) }
        ensures not_risen { OnOk result (self.new.faults ≡ self.old.faults) }
        ensures given { IfOk result (λ n.
            n ≡ min (min self.old.piece (length buf.new)) (length self.old.left)) }
        ensures same_piece { self.new.piece ≡ self.old.piece }
        ensures same_failing { self.new.failing ≡ self.old.failing }
    {
        self.calls = self.calls.saturating_add(1);
        if self.failing.contains(&self.calls) {
            self.faults = self.faults.saturating_add(1);
            return Err(Failed);
        }
        let n = self.piece.min(buf.len()).min(self.bytes.len() - self.next);
        let bytes = self.bytes.as_slice();
        buf[..n].copy_from_slice(&bytes[self.next..self.next + n]);
        self.next += n;
        Ok(n)
    }
}
