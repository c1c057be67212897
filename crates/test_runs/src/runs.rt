//! How a run is made.

use mdvsp::{Status, run};
use std::alloc::Global;
use std::sync::Wait;
use std::test::Fail;
use std::thread::Threads;
use test_fixtures::{joined, owned};
use vs_crew::{Gate, NoGate};
use vs_io::{MemSink, MemSource, slurp};

/// How a run over these streams ends.
pub fn ran_over<R: Threads + Wait + Sync, G: Gate + Sync>(
    rt: &R,
    alloc: Global,
    words: &[&str],
    source: &mut MemSource,
    sink: &mut MemSink,
    gate: &G,
) -> Result<Status, Fail> {
    let words = owned(alloc, words)?;
    Ok(run(rt, alloc, &words, source, sink, gate))
}

/// How a run ends whose workers pass this gate, and what it writes.
pub fn ran_past<R: Threads + Wait + Sync, G: Gate + Sync>(
    rt: &R,
    alloc: Global,
    words: &[&str],
    input: Vec<u8>,
    gate: &G,
) -> Result<(Status, Vec<u8>), Fail> {
    let mut source = MemSource::new(input, 4096, Vec::new(alloc));
    let mut sink = MemSink::new(alloc, 1 << 21, 4096, Vec::new(alloc))?;
    let status = ran_over(rt, alloc, words, &mut source, &mut sink, gate)?;
    Ok((status, sink.taken().to_vec(alloc)?))
}

/// How a run ends, and what it writes.
pub fn ran<R: Threads + Wait + Sync>(
    rt: &R,
    alloc: Global,
    words: &[&str],
    input: Vec<u8>,
) -> Result<(Status, Vec<u8>), Fail> {
    ran_past(rt, alloc, words, input, &NoGate)
}

/// What a run writes that reads nothing and ends so. Where it reads or ends otherwise, that is the failure.
pub fn reads_nothing<R: Threads + Wait + Sync>(
    rt: &R,
    alloc: Global,
    words: &[&str],
    wanted: Status,
) -> Result<Vec<u8>, Fail> {
    let mut source = MemSource::new(joined(alloc, &["left"])?, 64, Vec::new(alloc));
    let mut sink = MemSink::new(alloc, 8192, 64, Vec::new(alloc))?;
    let status = ran_over(rt, alloc, words, &mut source, &mut sink, &NoGate)?;
    if status != wanted {
        return Err(Fail::new(format_args!("it ends in {status:?}")));
    }
    if slurp(alloc, &mut source, 9)?.as_slice() != b"left".as_slice() {
        return Err(Fail::new("it reads"));
    }
    Ok(sink.taken().to_vec(alloc)?)
}
