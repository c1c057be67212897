//! Streams that fail.

ghost use Rattle.std.specs.Prelude.{◌≤◌};

use crate::runs::ran_over;
use mdvsp::Status;
use std::alloc::Global;
use std::process::Abort;
use std::sync::Wait;
use std::test::Fail;
use std::thread::Threads;
use test_fixtures::joined;
use test_fixtures::texts::{BLOCK, END, HEAD, LAYER, STOPS, TABLE, TRIPS};
use vs_crew::NoGate;
use vs_io::{MemSink, MemSource};

/// The words and the input of a run, and which of its takes and of its puts fail, counted from 1. Also how it ends, and
/// what it has written then.
struct Failing {
    words: &'static [&'static str],
    input: &'static [&'static str],
    takes: &'static [u64],
    puts: &'static [u64],
    status: Status,
    written: &'static str,
}

const FAILING: &[Failing] = &[
    Failing {
        words: &["solve", "--nodes", "0"],
        input: &[STOPS, LAYER, TRIPS],
        takes: &[3],
        puts: &[],
        status: Status::ReadFault,
        written: "",
    },
    Failing {
        words: &["solve", "--nodes", "0"],
        input: &[STOPS, LAYER, TRIPS],
        takes: &[],
        puts: &[2],
        status: Status::WriteFault,
        written: "result,1,open\nco",
    },
    Failing {
        words: &["check"],
        input: &[STOPS, LAYER, TRIPS, HEAD, BLOCK, TABLE, END],
        takes: &[5],
        puts: &[],
        status: Status::ReadFault,
        written: "",
    },
    Failing {
        words: &["check"],
        input: &[STOPS, LAYER, TRIPS, HEAD, BLOCK, TABLE, END],
        takes: &[],
        puts: &[2],
        status: Status::WriteFault,
        written: "yes,optimal,1080",
    },
];

/// A run over streams that give and take 16 bytes at a time ends and writes as the row says.
fn ends_at_a_fault<R: Abort + Threads + Wait + Sync>(
    rt: &R,
    alloc: Global,
    row: &Failing,
) -> Result<(), Fail> {
    let takes = row.takes.to_vec(alloc)?;
    let puts = row.puts.to_vec(alloc)?;
    let mut source = MemSource::new(joined(alloc, row.input)?, 16, takes);
    let mut sink = MemSink::new(alloc, 4096, 16, puts)?;
    let status = ran_over(rt, alloc, row.words, &mut source, &mut sink, &NoGate)?;
    assert_eq!(rt; status, row.status);
    assert_eq!(rt; sink.taken(), row.written.as_bytes());
    Ok(())
}

#[test]
fn ends_where_a_stream_fails(rt: HostRuntime) -> Result<(), Fail> {
    for row in FAILING {
        ends_at_a_fault(&rt, rt.alloc(), row)?;
    }
    Ok(())
}

/// The document that is written for two trips where the search may work on no leaf.
const DOCUMENT: &str = "\
result,1,open
cost,1080
bound,60
nodes,0
block,L1,t1,t2
table,1,cost
fleet,L1,0
price,L1,t1,0,0
price,L1,t2,0,0
leaf,1
end
";

/// How many bytes streams give and take at a time, and how many takes and puts a run over them has. The takes read the
/// 216 bytes of the two trips to their end, and the puts write the 123 bytes of the document.
struct Pieces {
    piece: usize,
    takes: u64,
    puts: u64,
}

const PIECES: &[Pieces] = &[
    Pieces {
        piece: 16,
        takes: 15,
        puts: 8,
    },
    Pieces {
        piece: 1,
        takes: 217,
        puts: 123,
    },
];

/// How a run over streams of such pieces ends, where this take and this put fail. Also how many bytes it has written
/// then, and whether the document begins with them.
fn ended<R: Threads + Wait + Sync>(
    rt: &R,
    alloc: Global,
    piece: usize,
    take: u64,
    put: u64,
) -> Result<(Status, usize, bool), Fail>
    requires { 1 ≤ piece }
{
    let input = joined(alloc, &[STOPS, LAYER, TRIPS])?;
    let mut source = MemSource::new(input, piece, vec![in alloc; take]?);
    let mut sink = MemSink::new(alloc, 4096, piece, vec![in alloc; put]?)?;
    let words = ["solve", "--nodes", "0"];
    let status = ran_over(rt, alloc, &words, &mut source, &mut sink, &NoGate)?;
    let written = sink.taken();
    Ok((
        status,
        written.len(),
        DOCUMENT.as_bytes().starts_with(written),
    ))
}

/// Whichever take fails, nothing is written.
fn ends_at_each_take<R: Abort + Threads + Wait + Sync>(
    rt: &R,
    alloc: Global,
    piece: usize,
    takes: u64,
) -> Result<(), Fail>
    requires { 1 ≤ piece }
{
    for take in 1..=takes {
        let told = ended(rt, alloc, piece, take, 0)?;
        assert_eq!(rt; told, (Status::ReadFault, 0, true), "{piece}, {take}");
    }
    Ok(())
}

/// Whichever put fails, what was put before it is written, and nothing else.
fn ends_at_each_put<R: Abort + Threads + Wait + Sync>(
    rt: &R,
    alloc: Global,
    piece: usize,
    puts: u64,
) -> Result<(), Fail>
    requires { 1 ≤ piece }
{
    for put in 1..=puts {
        let told = ended(rt, alloc, piece, 0, put)?;
        let written = piece.saturating_mul(put as usize - 1);
        assert_eq!(rt; told, (Status::WriteFault, written, true), "{piece}, {put}");
    }
    Ok(())
}

/// Each take and each put fails in turn, until a run makes no such call.
fn ends_at_each_call<R: Abort + Threads + Wait + Sync>(
    rt: &R,
    alloc: Global,
    row: &Pieces,
) -> Result<(), Fail> {
    let piece = row.piece.max(1);
    let (no_take, no_put) = (row.takes.saturating_add(1), row.puts.saturating_add(1));
    ends_at_each_take(rt, alloc, piece, row.takes)?;
    ends_at_each_put(rt, alloc, piece, row.puts)?;
    let told = ended(rt, alloc, piece, no_take, no_put)?;
    assert_eq!(rt; told, (Status::StillOpen, DOCUMENT.len(), true), "{piece}");
    Ok(())
}

#[test]
fn ends_whichever_call_fails(rt: HostRuntime) -> Result<(), Fail> {
    for row in PIECES {
        ends_at_each_call(&rt, rt.alloc(), row)?;
    }
    Ok(())
}
