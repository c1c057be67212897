//! `replay`: the document of the search that a trace records.

ghost use Rattle.std.specs.Prelude.{◌≡◌, ℕ, ◌≤◌, List, [], ◌∷◌, length, IfOk};
ghost use Rattle.vs_reader.specs.Names.{HaveCounts};
ghost use Rattle.vs_reader.specs.Texts.{StandsFor};
ghost use Rattle.vs_reply.specs.Answered.{IsTextOf, TellsRow};
ghost use Rattle.vs_reply.specs.Cases.{input_limit};
ghost use Rattle.vs_replay.specs.Answered.{HasDocument, IsReplayed};
ghost use Rattle.vs_replay.specs.Owed.{ReplayOwes};
ghost use Rattle.vs_replay.specs.ReplayRows.{not_a_step_row};
ghost use Rattle.vs_rows.specs.RowForms.{IsInput};
ghost use Rattle.vs_trace.specs.Traces.{IsReadFor};

use crate::refusing::refused_trace;
use crate::replaying::{Replayed, replay};
use crate::room::has_room;
use std::alloc::Global;
use vs_cert::{Text, documents_of_states_hold, write};
use vs_instance::Instance;
use vs_reader::{Input, Names, read};
use vs_reply::{Answer, Status};
use vs_trace::{Trace, TraceError};
use vs_tree::Tree;
use vs_types::Memory;

/// What `replay` answers for the bytes of an instance and a trace.
pub fn answer_replay(alloc: Global, bytes: &[u8]) -> Result<Answer, Memory>
    requires { length bytes.now ≤ input_limit }
    ensures { IfOk result (IsTextOf (ReplayOwes bytes.now)) }
{
    match read(alloc, bytes) {
        Ok(input) => answer_trace(alloc, &input),
        Err(error) => Answer::no_instance(alloc, error),
    }
}

/// What becomes of the trace that stands behind an instance.
fn answer_trace(alloc: Global, input: &Input) -> Result<Answer, Memory>
    requires { IsInput input.now }
    ensures { (bytes : List ℕ)
        → StandsFor bytes input.now.instance input.now.names input.now.before input.now.rest
        → IfOk result (IsTextOf (ReplayOwes bytes)) }
{
    match vs_trace::read(alloc, input) {
        Ok(trace) => replayed(alloc, &input.instance, &input.names, trace),
        Err(error) => match error {
            TraceError::Refused { row, why } => refused_trace(alloc, row, why),
            TraceError::Memory => Err(Memory),
        },
    }
}

/// The document to which a trace replays, or else the first step that may not come. Where its tables could have too
/// many entries it isn't replayed.
fn replayed(
    alloc: Global,
    instance: &Instance,
    names: &Names,
    trace: Trace,
) -> Result<Answer, Memory>
    requires read { IsReadFor instance.now trace }
    requires names { HaveCounts instance.now names.now }
    ensures { IfOk result (IsReplayed instance.now names.now trace) }
{
    if !has_room(instance, trace.budget) {
        return Answer::too_large(alloc);
    }
    match replay(alloc, instance, trace)? {
        Replayed::Tree(tree) => document_of(alloc, &tree, names),
        Replayed::NotAStep(step) => not_a_step(alloc, step),
    }
}

/// The document of a search.
fn document_of(alloc: Global, tree: &Tree, names: &Names) -> Result<Answer, Memory>
    requires { HaveCounts tree.now.opening.problem names.now }
    ensures { IfOk result (HasDocument tree.now names.now) }
{
    // for the proof: the steps of a search are a history from an opening, so its document holds.
    let _instance = tree.instance();
    documents_of_states_hold();
    let text = write(alloc, tree, names)?;
    Ok(Answer {
        status: Status::Done,
        text,
    })
}

/// A step may not come.
fn not_a_step(alloc: Global, step: u32) -> Result<Answer, Memory>
    ensures { IfOk result (TellsRow Status.SaysNo (not_a_step_row step)) }
{
    let mut text = Text::new(alloc);
    text.begin_row("no")?;
    text.field("7")?;
    text.field("NotAStep")?;
    text.number(step)?;
    text.end_row()?;
    Ok(Answer::of(Status::SaysNo, text))
}
