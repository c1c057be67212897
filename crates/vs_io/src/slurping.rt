//! All bytes of a source, up to a limit.

ghost use Rattle.std.specs.Prelude.{◌≡◌, ℕ, ◌+◌, ◌<◌, ◌≤◌, ◌↔◌, List, length, vec_len, IfOk, IfErr, IsErrOf, IfSome};
ghost use Rattle.vs_io.specs.Bytes.{Takes, TakesAll};
ghost use Rattle.vs_io.specs.Faults.{Rose};
ghost use Rattle.vs_io.specs.declared.slurping.SlurpError.TheVariants.{ReadFault as Fault, Memory as NoMemory};

use crate::source::{Failed, Source};
use std::alloc::{AllocError, Global};

/// Why a source wasn't read to its end.
#[derive(Clone, Copy, Debug, PartialEq, Eq)]
pub enum SlurpError {
    /// The source failed.
    ReadFault,
    /// The source had more bytes than the limit.
    TooLong,
    /// There was no memory for the bytes.
    Memory,
}

impl From<Failed> for SlurpError {
    ghost from_gives = { λ _ e. e ≡ Fault };

    fn from(_: Failed) -> SlurpError {
        SlurpError::ReadFault
    }
}

impl From<AllocError> for SlurpError {
    ghost from_gives = { λ _ e. e ≡ NoMemory };

    fn from(_: AllocError) -> SlurpError {
        SlurpError::Memory
    }
}

/// How many bytes are asked for at once.
const PIECE: usize = 8192;

/// Reads all bytes that are left, of which there may be at most `limit`. It takes from the source
/// at most `limit + 1` times. What was taken before a refusal is gone from the source.
pub fn slurp<S: Source>(alloc: Global, src: &mut S, limit: u64) -> Result<Vec<u8>, SlurpError>
    ensures all { IfOk result (λ bytes. TakesAll (S.left src.old) (S.left src.new) bytes.items) }
    ensures within { IfOk result (λ bytes. vec_len bytes ≤ limit) }

    // What a refusal took is gone, and it took more than the limit exactly where it says so.
    ensures gone { IfErr result (λ e. (gone : List ℕ)
        × Takes (S.left src.old) (S.left src.new) gone
        × ((e ≡ SlurpError.TooLong) ↔ (limit < length gone))) }
    ensures too_long { IsErrOf result SlurpError.TooLong
        → IfSome (S.left src.old) (λ left. limit < length left) }

    ensures fault { IsErrOf result SlurpError.ReadFault
        → Rose (S.faults src.old) (S.faults src.new) }
    ensures never_falls { S.faults src.old ≤ S.faults src.new }

    // It takes at least once, and no more often than the limit has bytes and once more.
    ensures takes { Rose (S.calls src.old) (S.calls src.new) }
    ensures few_takes { S.calls src.new ≤ S.calls src.old + (limit + 1) }
{
    let mut bytes = Vec::new(alloc);
    let mut piece = [0; PIECE];
    'pieces: loop {
        let n = src.take(&mut piece)?;
        if n == 0 {
            return Ok(bytes);
        }
        if n as u64 > limit - bytes.len() as u64 {
            return Err(SlurpError::TooLong);
        }
        bytes.extend_from_slice(&piece[..n])?;
    }
}
