//! All bytes into a sink.

ghost use Rattle.std.specs.Prelude.{◌≡◌, ◌≤◌, OnOk, OnErr};
ghost use Rattle.vs_io.specs.Bytes.{Appends, AppendsPrefix};
ghost use Rattle.vs_io.specs.Faults.{Rose};

use crate::sink::Sink;
use crate::source::Failed;

/// The sink failed before it had all bytes.
#[derive(Clone, Copy, Debug, PartialEq, Eq)]
pub struct WriteFault;

impl From<Failed> for WriteFault {
    ghost from_gives = { λ _ e. e ≡ record {} };

    fn from(_: Failed) -> WriteFault {
        WriteFault
    }
}

/// Writes all the bytes, in order. It takes no memory. After a failure the sink has a first part of
/// them.
pub fn emit<O: Sink>(sink: &mut O, bytes: &[u8]) -> Result<(), WriteFault>
    ensures ok { OnOk result (Appends (O.taken sink.old) (O.taken sink.new) bytes.now) }
    ensures prefix { OnErr result (AppendsPrefix (O.taken sink.old) (O.taken sink.new) bytes.now) }
    ensures fault { OnErr result (Rose (O.faults sink.old) (O.faults sink.new)) }
    ensures never_falls { O.faults sink.old ≤ O.faults sink.new }
{
    let mut done = 0;
    while done < bytes.len() {
        let count = sink.put(&bytes[done..])?;
        done += count;
    }
    Ok(())
}
