//! A sink in memory, with failures where they are wanted.

ghost use Rattle.std.specs.Prelude.{◌≡◌, ℕ, ◌+◌, ◌<◌, ◌≤◌, ◌↔◌, ◌⊎◌, ◌++◌, [], length, take, min, Contains, Some, IfOk, IsErr, OnOk, OnErr};
ghost use Rattle.vs_io.specs.Bytes.{Appends};
ghost use Rattle.vs_io.specs.Faults.{Rose, one_more};

use crate::sink::Sink;
use crate::source::Failed;
use std::alloc::Global;
use std::marker::Model;
use vs_types::Memory;

/// A sink in memory, which takes bytes in pieces while it has room and fails at the chosen calls.
#[derive(Drop)]
pub struct MemSink {
    bytes: Vec<u8>,
    room: usize,
    piece: usize,
    failing: Vec<u64>,
    calls: u64,
    faults: u64,
}

impl Model for MemSink {
    ghost use Rattle.std.specs.Prelude.{◌+◌, ◌-◌, ◌<◌, ◌≤◌, vec_len, vec_capacity};
    ghost use Rattle.vs_io.specs.Memory.{SinkState};

    ghost Value = { SinkState };

    ghost view = { λ s. record {
      taken = s.bytes.items;
      room = s.room;
      piece = s.piece;
      failing = s.failing.items;
      calls = s.calls;
      faults = s.faults;
    } };

    ghost invariant = { λ s. (0 < s.piece) × (vec_len s.bytes + s.room ≤ vec_capacity s.bytes) };
}

impl MemSink {
    /// A sink that has room for `room` bytes and takes at most `piece` of them at a time. The
    /// calls of `put` whose numbers stand in `failing` fail: they count from 1 and stay at the
    /// greatest u64. It takes all its memory here.
    pub fn new(
        alloc: Global,
        room: usize,
        piece: usize,
        failing: Vec<u64>,
    ) -> Result<MemSink, Memory>
        requires { 1 ≤ piece }
        ensures nothing { IfOk result (λ sink. sink.taken ≡ []) }
        ensures room { IfOk result (λ sink. sink.room ≡ room) }
        ensures piece { IfOk result (λ sink. sink.piece ≡ piece) }
        ensures failing { IfOk result (λ sink. sink.failing ≡ failing.items) }
        ensures no_calls { IfOk result (λ sink. sink.calls ≡ 0) }
        ensures no_faults { IfOk result (λ sink. sink.faults ≡ 0) }
    {
        let bytes = Vec::with_capacity(alloc, room)?;
        Ok(MemSink {
            bytes,
            room,
            piece,
            failing,
            calls: 0,
            faults: 0,
        })
    }

    /// The bytes taken so far.
    pub fn taken(&self) -> &[u8]
        ensures { result.now ≡ self.now.taken }
    {
        self.bytes.as_slice()
    }
}

impl Sink for MemSink {
    ghost taken = { λ s. Some s.taken };

    ghost faults = { λ s. s.faults };

    fn put(&mut self, piece: &[u8]) -> Result<usize, Failed>
        requires { 0 < length piece.now }
        ensures some { IfOk result (λ n. 0 < n) }
        ensures within { IfOk result (λ n. n ≤ length piece.now) }
        ensures appended { IfOk result (λ n.
            Appends (Some self.old.taken) (Some self.new.taken) (take n piece.now)) }
        ensures unmoved { OnErr result (Some self.new.taken ≡ Some self.old.taken) }
        ensures fault { OnErr result (Rose self.old.faults self.new.faults) }
        ensures never_falls { self.old.faults ≤ self.new.faults }

        // Exactly which calls fail, and how many bytes the others take.
        ensures counted { self.new.calls ≡ one_more self.old.calls }
        ensures failing { IsErr result
            ↔ (Contains self.old.failing self.new.calls ⊎ (self.old.room ≡ 0)) }
        ensures risen { OnErr result (self.new.faults ≡ one_more self.old.faults) }
        ensures not_risen { OnOk result (self.new.faults ≡ self.old.faults) }
        ensures given { IfOk result (λ n.
            n ≡ min (min self.old.piece (length piece.now)) self.old.room) }
        ensures room { IfOk result (λ n. self.new.room + n ≡ self.old.room) }
        ensures same_room { OnErr result (self.new.room ≡ self.old.room) }
        ensures same_piece { self.new.piece ≡ self.old.piece }
        ensures same_failing { self.new.failing ≡ self.old.failing }
    {
        self.calls = self.calls.saturating_add(1);
        if self.room == 0 || self.failing.contains(&self.calls) {
            self.faults = self.faults.saturating_add(1);
            return Err(Failed);
        }
        let n = self.piece.min(piece.len()).min(self.room);
        self.bytes.extend_from_slice(&piece[..n]).unwrap();
        self.room -= n;
        Ok(n)
    }
}
