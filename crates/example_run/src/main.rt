//! A caller of the whole program: it has a timetable planned into memory, and prints how the run ended and what each
//! vehicle runs.
#![tactic(auto)]

use mdvsp::run;
use std::alloc::{AllocError, Global};
use std::process::ExitCode;
use std::{io, str};
use vs_crew::NoGate;
use vs_io::{MemSink, StdSource};

/// What is asked for, as behind the program's name.
const WORDS: [&str; 5] = ["solve", "--workers", "1", "--nodes", "20"];

/// How many bytes of a document there is room for. A longer one ends as a full disk does, with status 5.
const ROOM: usize = 1 << 20;

fn main(rt: HostRuntime) -> io::Result<ExitCode> {
    let alloc = rt.alloc();
    let words = owned(alloc, &WORDS)?;
    let mut input = StdSource::new(rt.stdin());
    let Ok(mut output) = MemSink::new(alloc, ROOM, ROOM, Vec::new(alloc)) else {
        return Ok(ExitCode::FAILURE);
    };
    let status = run(&rt, alloc, &words, &mut input, &mut output, &NoGate);
    println!(rt; "status {}", status.code())?;
    if let Ok(document) = str::from_utf8(output.taken()) {
        for line in document.lines().filter(|line| line.starts_with("block,")) {
            println!(rt; "{line}")?;
        }
    }
    Ok(ExitCode::from(status.code()))
}

/// The words, each on its own.
fn owned(alloc: Global, words: &[&str]) -> Result<Vec<String>, AllocError> {
    let mut all = Vec::new(alloc);
    for word in words {
        all.push(String::from_str(alloc, word)?)?;
    }
    Ok(all)
}
