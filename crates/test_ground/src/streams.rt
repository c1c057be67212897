//! Sources that are read to their end, and sinks that bytes are written to.

use std::alloc::Global;
use std::test::Fail;
use vs_io::{MemSink, MemSource, SlurpError, StdSink, StdSource, WriteFault, emit, slurp};

/// How many bytes a source has, the number of the take that fails, and what comes of reading 16 bytes at most.
const READS: [(usize, u64, Result<usize, SlurpError>); 4] = [
    (0, 9, Ok(0)),
    (16, 9, Ok(16)),
    (17, 9, Err(SlurpError::TooLong)),
    (16, 2, Err(SlurpError::ReadFault)),
];

/// How many bytes are read by pieces of 5.
fn read(alloc: Global, len: usize, failing: u64) -> Result<Result<usize, SlurpError>, Fail> {
    let bytes = vec![in alloc; 7; len]?;
    let mut source = MemSource::new(bytes, 5, vec![in alloc; failing]?);
    Ok(slurp(alloc, &mut source, 16).map(|bytes| bytes.len()))
}

#[test]
fn are_read_up_to_the_limit(rt: HostRuntime) -> Result<(), Fail> {
    for (len, failing, expected) in READS {
        assert_eq!(rt;
            read(rt.alloc(), len, failing)?,
            expected,
            "{len}, {failing}"
        );
    }
    Ok(())
}

#[test]
fn are_written_until_a_put_fails(rt: HostRuntime) -> Result<(), Fail> {
    let mut sink = MemSink::new(rt.alloc(), 8, 3, vec![in rt.alloc(); 3]?)?;
    assert_eq!(rt; emit(&mut sink, b"abcdefgh"), Err(WriteFault));
    assert_eq!(rt; sink.taken(), b"abcdef".as_slice());
    assert_eq!(rt; emit(&mut sink, b"gh"), Ok(()));
    assert_eq!(rt; sink.taken(), b"abcdefgh".as_slice());
    assert_eq!(rt; emit(&mut sink, b""), Ok(()));
    assert_eq!(rt; emit(&mut sink, b"i"), Err(WriteFault));
    Ok(())
}

/// A reader and a writer of the standard library.
#[test]
fn are_of_the_standard_library(rt: HostRuntime) -> Result<(), Fail> {
    let mut source = StdSource::new(b"depot".as_slice());
    let read = slurp(rt.alloc(), &mut source, 16)?;
    assert_eq!(rt; read.as_slice(), b"depot".as_slice());
    let mut sink = StdSink::new(Vec::new(rt.alloc()));
    assert_eq!(rt; emit(&mut sink, &read), Ok(()));
    Ok(())
}
