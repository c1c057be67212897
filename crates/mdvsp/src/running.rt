//! A whole run: from words and an input to an answer that is written.

ghost use Rattle.std.specs.Prelude.{◌≡◌, ◌≤◌, length, IfErr, IfOk};
ghost use Rattle.mdvsp.specs.Answered.{IsOwedFor};
ghost use Rattle.mdvsp.specs.Outcome.{CouldNotRead, Ends, HasRead, unread_status};
ghost use Rattle.mdvsp.specs.Owed.{PlainOwes, SearchOwes};
ghost use Rattle.vs_reply.specs.Answered.{IsTextOf};
ghost use Rattle.vs_reply.specs.Cases.{input_limit};
ghost use Rattle.vs_words.specs.Words.{AskToRead, IsPlainWithin, IsSearchWithin, IsWithinLimits, Reads, words_of};

use crate::crew::Crew;
use crate::saying::say;
use crate::trial::answer_trial;
use std::alloc::Global;
use std::sync::Wait;
use std::thread::Threads;
use vs_crew::Gate;
use vs_io::{Sink, SlurpError, Source, slurp};
use vs_peak::answer_peak;
use vs_reader::MAX_BYTES;
use vs_replay::answer_replay;
use vs_reply::{
    Answer, Status, answer_blocks, answer_check, answer_make, answer_network, answer_peakcheck,
};
use vs_types::Memory;
use vs_words::{Command, Plain, Search, command_of};

/// Does what the words ask for, and says how it ended. The input is read to its end, and nothing is
/// written before the whole output stands. Where the words are wrong, and by `make` and `trial`, nothing is read. The
/// workers of a search pass the gate before each leaf that they work on.
pub fn run<R: Threads + Wait + Sync, I: Source, O: Sink, G: Gate + Sync>(
    rt: &R,
    alloc: Global,
    words: &[String],
    input: &mut I,
    output: &mut O,
    gate: &G,
) -> Status
    ensures ends { Ends (record {
      words = words_of words.now;
      left = I.left input.old;
      left_after = I.left input.new;
      taken = O.taken output.old;
      taken_after = O.taken output.new;
      source_faults = I.faults input.old;
      source_faults_after = I.faults input.new;
      sink_faults = O.faults output.old;
      sink_faults_after = O.faults output.new;
    }) result }
    ensures untouched { ¬ (AskToRead (words_of words.now)) → input.new ≡ input.old }
    ensures never_falls { (I.faults input.old ≤ I.faults input.new)
        × (O.faults output.old ≤ O.faults output.new) }
{
    match command_of(words) {
        Ok(command) => match input_of(alloc, command, input) {
            Ok(bytes) => say(answer_to(rt, alloc, command, &bytes, gate), output),
            Err(error) => unread(error),
        },
        Err(bad) => say(Answer::bad_word(alloc, bad.0), output),
    }
}

/// How a run ends whose input couldn't be read.
fn unread(error: SlurpError) -> Status
    ensures { result ≡ unread_status error }
{
    match error {
        SlurpError::ReadFault => Status::ReadFault,
        SlurpError::TooLong => Status::TooLong,
        SlurpError::Memory => Status::NoMemory,
    }
}

/// What the command takes of the input: all that is left, and nothing for `make` and `trial`.
fn input_of<I: Source>(
    alloc: Global,
    command: Command,
    input: &mut I,
) -> Result<Vec<u8>, SlurpError>
    ensures read { IfOk result (λ bytes.
        HasRead command (I.left input.old) (I.left input.new) bytes.items) }
    ensures few { IfOk result (λ bytes. length bytes.items ≤ input_limit) }
    ensures failed { IfErr result
        (CouldNotRead command (I.left input.old) (I.left input.new) (I.faults input.old) (I.faults input.new)) }
    ensures untouched { ¬ (Reads command) → input.new ≡ input.old }
    ensures never_falls { I.faults input.old ≤ I.faults input.new }
{
    match command {
        Command::Search(search) => match search {
            Search::Trial(_) => Ok(Vec::new(alloc)),
            _ => slurp(alloc, input, MAX_BYTES as u64),
        },
        Command::Plain(plain) => match plain {
            Plain::Make(_) => Ok(Vec::new(alloc)),
            _ => slurp(alloc, input, MAX_BYTES as u64),
        },
    }
}

/// What the command answers for the bytes of its input.
fn answer_to<R: Threads + Wait + Sync, G: Gate + Sync>(
    rt: &R,
    alloc: Global,
    command: Command,
    bytes: &[u8],
    gate: &G,
) -> Result<Answer, Memory>
    requires few { length bytes.now ≤ input_limit }
    requires limits { IsWithinLimits command }
    ensures { IfOk result (IsOwedFor command bytes.now) }
{
    match command {
        Command::Search(search) => answer_search(rt, alloc, search, bytes, gate),
        Command::Plain(plain) => answer_plain(alloc, plain, bytes),
    }
}

/// What a command that searches answers for the bytes of its input.
fn answer_search<R: Threads + Wait + Sync, G: Gate + Sync>(
    rt: &R,
    alloc: Global,
    search: Search,
    bytes: &[u8],
    gate: &G,
) -> Result<Answer, Memory>
    requires few { length bytes.now ≤ input_limit }
    requires limits { IsSearchWithin search }
    ensures { IfOk result (IsTextOf (SearchOwes search bytes.now)) }
{
    match search {
        Search::Solve(effort) => Crew::new(rt, gate, effort).solve(alloc, effort, bytes),
        Search::Trial(n) => answer_trial(rt, alloc, n, gate),
        Search::Resume(effort) => Crew::new(rt, gate, effort).resume(alloc, effort, bytes),
        Search::Trace(effort) => Crew::new(rt, gate, effort).trace(alloc, effort, bytes),
    }
}

/// What any other command answers for the bytes of its input. It starts no thread and waits for none.
fn answer_plain(alloc: Global, plain: Plain, bytes: &[u8]) -> Result<Answer, Memory>
    requires few { length bytes.now ≤ input_limit }
    requires limits { IsPlainWithin plain }
    ensures { IfOk result (IsTextOf (PlainOwes plain bytes.now)) }
{
    match plain {
        Plain::Check => answer_check(alloc, bytes),
        Plain::Network => answer_network(alloc, bytes),
        Plain::Blocks => answer_blocks(alloc, bytes),
        Plain::Make(n) => answer_make(alloc, n),
        Plain::Peak => answer_peak(alloc, bytes),
        Plain::PeakCheck => answer_peakcheck(alloc, bytes),
        Plain::Replay => answer_replay(alloc, bytes),
    }
}
