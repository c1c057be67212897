//! The program `mdvsp`: it plans the vehicles of a bus company for one timetable, and judges such plans.
#![tactic(auto)]

use call::Call;
use command::Command;
use ending::{UNWRITTEN, say_end, waiting_words};
use kept::{Kept, KeptSink, KeptSource};
use mdvsp::{Status, run};
use own::Own;
use progress::{Form, Progress};
use refused::refused_words;
use std::fs::File;
use std::io::{IsTerminal, Stdin, Stdout};
use std::process::ExitCode;
use std::rt::{Clock, Env, Files};
use std::sync::Wait;
use std::thread::Threads;
use std::{env, io};
use stop::Stop;
use stopwatch::Stopwatch;
use usage::{TOOLCHAIN, USAGE, USAGE_LINE, VERSION};
use voice::Voice;
use vs_crew::NoGate;
use vs_io::{StdSink, StdSource};
use vs_words::{BadWord, command_of};

mod call;
mod command;
mod ending;
mod joined;
mod kept;
mod nearest;
mod own;
mod progress;
mod refused;
mod standing;
mod stop;
mod stopwatch;
mod stream;
mod usage;
mod voice;

/// Runs the words after the program's name, and ends with the run's code. The words before the command are the
/// program's own. Files that words name are read one after the other, else standard input. On standard error it says
/// what was refused or found wrong, and why there is no plan. Where that is a terminal, or a log is asked for, it
/// prints there how far the run has come. What is asked about the program it answers itself.
fn main(rt: HostRuntime) -> ExitCode {
    let streams = Streams {
        stdin: rt.stdin(),
        stdout: rt.stdout(),
        on_screen: rt.stderr().is_terminal(),
    };
    let status = match given_words(&rt) {
        Ok(words) => answered(&rt, streams, words),
        Err(status) => status,
    };
    ExitCode::from(status.code())
}

/// The standard streams.
#[derive(Clone, Copy)]
struct Streams {
    stdin: Stdin,
    stdout: Stdout,
    /// Whether standard error is a terminal.
    on_screen: bool,
}

/// The words after the program's name. Words that aren't text are bad ones.
fn given_words<R: Env + AllocGlobal>(rt: &R) -> Result<Vec<String>, Status> {
    let args = match env::args(rt) {
        Ok(args) => args,
        Err(e) if e.kind() == io::ErrorKind::OutOfMemory => return Err(Status::NoMemory),
        Err(_) => return Err(Status::BadWords),
    };
    args.skip(1)
        .collect(rt.alloc())
        .map_err(|_| Status::NoMemory)
}

/// Answers the words, and says how that ended.
fn answered<R>(rt: &R, streams: Streams, words: Vec<String>) -> Status
where
    R: AllocGlobal + Files<File = File> + Print + Eprint + Clock + Threads + Wait + Sync,
{
    let Ok((own, words)) = Own::taken(rt.alloc(), words) else {
        return Status::NoMemory;
    };
    if let Some(status) = about_itself(rt, &words) {
        return status;
    }
    let voice = Voice::new(rt, own.quiet);
    let called = Call::new(rt, streams.stdin, words);
    match called.and_then(|call| carried_out(rt, streams, &voice, own, call)) {
        Ok(status) => status,
        Err(stop) => {
            voice.say_made(stop.words(rt.alloc()));
            stop.status()
        }
    }
}

/// Prints how the program or a command is called, or its version and the toolchain's, where the words ask for that. It
/// says how that ended. None where the words are for `run`.
fn about_itself<R: Print>(rt: &R, words: &[String]) -> Option<Status> {
    let first = words.first()?.as_str();
    let asks = words.iter().any(|word| is_help(word.as_str()));
    let printed = match Command::named(first) {
        Some(command) if asks => println!(rt; "{}\n\n{}", command.usage, command.about),
        None if words.len() == 1 && first == "--version" => {
            println!(rt; "mdvsp {VERSION}\ntoolchain {TOOLCHAIN}")
        }
        None if words.len() == 1 && asks => println!(rt; "{USAGE}"),
        _ => return None,
    };
    match printed {
        Ok(()) => Some(Status::Done),
        Err(_) => Some(Status::WriteFault),
    }
}

/// Whether a word asks how something is called.
fn is_help(word: &str) -> bool {
    word == "--help" || word == "-h"
}

/// Carries out what the words call for. It stops before where a file behind a timetable can't be read, or begins with
/// no `result` record.
fn carried_out<R>(
    rt: &R,
    streams: Streams,
    voice: &Voice<'_, R>,
    own: Own,
    call: Call,
) -> Result<Status, Stop>
where
    R: AllocGlobal + Eprint + Clock + Threads + Wait + Sync,
{
    if let Err(bad) = command_of(&call.words) {
        return Ok(refuse(rt, streams, voice, &call, bad));
    }
    if call.reads_standard() && streams.stdin.is_terminal() {
        voice.say(waiting_words(call.reads()));
    }
    let form = Form::of(own.log || call.log, own.quiet, streams.on_screen);
    let (words, input) = call.opened(rt.alloc())?;
    let watch = Stopwatch::new(rt);
    let mut input = KeptSource::new(input, Kept::new(rt.alloc(), !own.quiet), &watch);
    let mut output = KeptSink::new(
        StdSink::new(streams.stdout),
        Kept::new(rt.alloc(), !own.quiet),
    );
    let progress = Progress::new(rt, form, &watch);
    let status = run(rt, rt.alloc(), &words, &mut input, &mut output, &progress);
    progress.end();
    say_end(rt.alloc(), voice, &status, &input, output.kept());
    Ok(status)
}

/// Has `run` refuse bad words, for which it reads nothing, and says which is the first bad one.
fn refuse<R>(rt: &R, streams: Streams, voice: &Voice<'_, R>, call: &Call, bad: BadWord) -> Status
where
    R: AllocGlobal + Eprint + Threads + Wait + Sync,
{
    let mut input = StdSource::new(streams.stdin);
    let mut output = StdSink::new(streams.stdout);
    let alloc = rt.alloc();
    let status = run(rt, alloc, &call.words, &mut input, &mut output, &NoGate);
    match status {
        Status::BadWords => {
            voice.say(call.command.map_or(USAGE_LINE, |command| command.usage));
            voice.say_made(refused_words(alloc, call, bad.0));
        }
        _ => voice.say(UNWRITTEN),
    }
    status
}
