//! `trial`: the program tried on an instance that it makes.

ghost use Rattle.std.specs.Prelude.{◌≡◌, [], ◌∷◌, ◌++◌, ◌≤◌, length, IfOk, OnOk};
ghost use Rattle.vs_document.specs.Form.{IsReadFor};
ghost use Rattle.vs_make.specs.Generator.{make_rows};
ghost use Rattle.vs_make.specs.Made.{IsWholeText};
ghost use Rattle.vs_reader.specs.Rows.{lines};
ghost use Rattle.mdvsp.specs.Answered.{AreWritten, IsReadOf};
ghost use Rattle.vs_reply.specs.Answered.{IsTextOf};
ghost use Rattle.vs_reply.specs.Cases.{CheckText, input_limit};
ghost use Rattle.mdvsp.specs.Owed.{TrialOwes, trial_row};

use crate::crew::Crew;
use std::alloc::Global;
use std::sync::Wait;
use std::thread::Threads;
use vs_check::{Verdict, check};
use vs_crew::Gate;
use vs_document::{Document, Text, bound_field, claim_field, cost_field};
use vs_instance::USUAL_TRIPS;
use vs_make::make_text;
use vs_reader::{MAX_BYTES, ReadError, Timetable, read_instance};
use vs_reply::{Answer, Case, CaseError, read_case};
use vs_types::Memory;
use vs_words::Effort;

/// On how many nodes the search of a trial works at most.
pub const TRIAL_NODES: u32 = 20;

/// How many workers share it.
pub const TRIAL_WORKERS: u32 = 1;

/// The effort of that search.
const TRIAL_EFFORT: Effort = Effort {
    workers: TRIAL_WORKERS,
    nodes: Some(TRIAL_NODES),
    seconds: None,
    gap: None,
};

/// What `trial n` answers: the generator's instance of n trips is made, read and searched. The document that is written
/// for it is then read behind its instance and judged.
pub fn answer_trial<R: Threads + Wait + Sync, G: Gate + Sync>(
    rt: &R,
    alloc: Global,
    n: u32,
    gate: &G,
) -> Result<Answer, Memory>
    requires { n ≤ USUAL_TRIPS }
    ensures { IfOk result (IsTextOf (TrialOwes n)) }
{
    let made = make_text(alloc, n)?;
    trial_of(rt, alloc, n, &made, gate)
}

/// The same, of the text that was made for n trips.
fn trial_of<R: Threads + Wait + Sync, G: Gate + Sync>(
    rt: &R,
    alloc: Global,
    n: u32,
    made: &[u8],
    gate: &G,
) -> Result<Answer, Memory>
    requires trips { n ≤ USUAL_TRIPS }
    requires made { made.now ≡ lines (make_rows n) }
    ensures { IfOk result (IsTextOf (TrialOwes n)) }
{
    let timetable = read_made(alloc, n, made)?;
    let crew = Crew::new(rt, gate, TRIAL_EFFORT);
    let planned = crew.plan(alloc, &timetable, TRIAL_NODES)?;
    let document = read_back(alloc, made, &planned.text)?;
    let text = summary(alloc, n, &document)?;
    Ok(Answer {
        status: planned.status,
        text,
    })
}

/// The instance for which the text that was made for n trips stands. Such a text is never refused.
fn read_made(alloc: Global, n: u32, made: &[u8]) -> Result<Timetable, Memory>
    requires trips { n ≤ USUAL_TRIPS }
    requires made { made.now ≡ lines (make_rows n) }
    ensures { IfOk result (λ timetable. IsWholeText made.now timetable.instance timetable.names) }
{
    check_length(made)?;
    match read_instance(alloc, made) {
        Ok(timetable) => Ok(timetable),
        Err(error) => match error {
            ReadError::Refused(_) => unreachable!(),
            ReadError::Memory => Err(Memory),
        },
    }
}

/// The document that was written for an instance, as it is read behind the text of the instance. It is judged, and
/// never denied.
fn read_back(alloc: Global, made: &[u8], written: &[u8]) -> Result<Document, Memory>
    requires { AreWritten made.now written.now }
    ensures { IfOk result (IsReadOf made.now written.now) }
{
    let case = case_of(alloc, made, written)?;
    match check(alloc, &case.input.instance, &case.document)? {
        Verdict::Yes => Ok(case.document),
        Verdict::No(_) => unreachable!(),
    }
}

/// The instance and the document for which two texts stand together. They are never refused.
fn case_of(alloc: Global, made: &[u8], written: &[u8]) -> Result<Case, Memory>
    requires { AreWritten made.now written.now }
    ensures found { IfOk result (λ case.
        CheckText (made.now ++ written.now) case.input.instance case.input.names case.document) }
    ensures read_for { IfOk result (λ case. IsReadFor case.input.instance case.document) }
{
    let bytes = joined(alloc, made, written)?;
    let text = bytes.as_slice();
    check_length(text)?;
    match read_case(alloc, text) {
        Ok(case) => Ok(case),
        Err(error) => match error {
            CaseError::Refused(_answer) => unreachable!(),
            CaseError::Memory => Err(Memory),
        },
    }
}

/// One text and another one behind it.
fn joined(alloc: Global, first: &[u8], second: &[u8]) -> Result<Vec<u8>, Memory>
    ensures { IfOk result (λ bytes. bytes.items ≡ first.now ++ second.now) }
{
    let mut bytes = Vec::new(alloc);
    bytes.extend_from_slice(first)?;
    bytes.extend_from_slice(second)?;
    Ok(bytes)
}

/// Out of memory where a text is longer than an input may be.
fn check_length(text: &[u8]) -> Result<(), Memory>
    ensures { OnOk result (length text.now ≤ input_limit) }
{
    if text.len() <= MAX_BYTES {
        Ok(())
    } else {
        Err(Memory)
    }
}

/// The row of a document that was judged `yes`.
fn summary(alloc: Global, n: u32, document: &Document) -> Result<Vec<u8>, Memory>
    ensures { IfOk result (λ text. text.items ≡ lines (trial_row n document.now ∷ [])) }
{
    let mut text = Text::new(alloc);
    text.begin_row("trial")?;
    text.number(n)?;
    claim_field(&mut text, document.claim)?;
    cost_field(&mut text, document.cost)?;
    bound_field(&mut text, document.bound)?;
    text.number(document.nodes)?;
    text.field("yes")?;
    text.end_row()?;
    Ok(text.into_bytes())
}
