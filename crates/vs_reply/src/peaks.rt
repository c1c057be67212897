//! `peakcheck`: whether what a text claims of how few vehicles each layer needs holds.

ghost use Rattle.std.specs.Prelude.{◌≡◌, ℕ, ◌<◌, ◌≤◌, List, length, IfOk};
ghost use Rattle.vs_peakcheck.specs.Counting.{permitted_trips};
ghost use Rattle.vs_peakcheck.specs.Claims.{CanBeChecked};
ghost use Rattle.vs_reader.specs.Names.{HaveCounts};
ghost use Rattle.vs_reader.specs.Texts.{StandsFor};
ghost use Rattle.vs_reply.specs.PeakFlawRows.{IsPeakFlawWithin};
ghost use Rattle.vs_rows.specs.RowForms.{IsInput};
ghost use Rattle.vs_reply.specs.Answered.{HasVerdict, IsTextOf, TellsRow};
ghost use Rattle.vs_reply.specs.Cases.{input_limit};
ghost use Rattle.vs_reply.specs.Owed.{PeakCheckOwes, peaks_no_row, peaks_yes_row};
ghost use Rattle.vs_reply.specs.RefusalRows.{peak_refusal_row};

use crate::answer::Answer;
use crate::peak_flaws::peak_flaw_fields;
use crate::refusal::write_peak_why;
use crate::status::Status;
use std::alloc::Global;
use vs_instance::Instance;
use vs_peakcheck::{Claimed, PeakError, PeakFlaw, PeakVerdict, PeakWhy, check, trips_of};
use vs_reader::{Input, Names};
use vs_rows::Text;
use vs_types::{LayerNo, Memory};

/// What `peakcheck` answers for the bytes of an instance and a text of peaks.
pub fn answer_peakcheck(alloc: Global, bytes: &[u8]) -> Result<Answer, Memory>
    requires { length bytes.now ≤ input_limit }
    ensures { IfOk result (IsTextOf (PeakCheckOwes bytes.now)) }
{
    match vs_reader::read(alloc, bytes) {
        Ok(input) => answer_claims(alloc, &input),
        Err(error) => Answer::no_instance(alloc, error),
    }
}

/// Whether what follows the instance claims peaks, and what it claims holds.
fn answer_claims(alloc: Global, input: &Input) -> Result<Answer, Memory>
    requires { IsInput input.now }
    ensures { (bytes : List ℕ)
        → StandsFor bytes input.now.instance input.now.names input.now.before input.now.rest
        → IfOk result (IsTextOf (PeakCheckOwes bytes)) }
{
    match vs_peakcheck::read(alloc, input) {
        Ok(claimed) => verdict_on(alloc, &input.instance, &input.names, &claimed),
        Err(error) => match error {
            PeakError::Refused { row, why } => refused(alloc, row, why),
            PeakError::Memory => Err(Memory),
        },
    }
}

/// Whether what is claimed holds, and else the first flaw.
fn verdict_on(
    alloc: Global,
    instance: &Instance,
    names: &Names,
    claimed: &[Claimed],
) -> Result<Answer, Memory>
    requires claimed { CanBeChecked instance.now claimed.now }
    requires names { HaveCounts instance.now names.now }
    ensures { IfOk result (HasVerdict instance.now names.now claimed.now) }
{
    match check(alloc, instance, claimed)? {
        PeakVerdict::Yes => yes(alloc),
        PeakVerdict::No(l, flaw) => no(alloc, instance, names, l, flaw),
    }
}

/// All that is claimed holds.
fn yes(alloc: Global) -> Result<Answer, Memory>
    ensures { IfOk result (TellsRow Status.Done peaks_yes_row) }
{
    let mut text = Text::new(alloc);
    text.begin_row("yes")?;
    text.end_row()?;
    Ok(Answer::of(Status::Done, text))
}

/// What is claimed of layer l doesn't hold, first of all for this flaw.
fn no(
    alloc: Global,
    instance: &Instance,
    names: &Names,
    l: LayerNo,
    flaw: PeakFlaw,
) -> Result<Answer, Memory>
    requires layer { l.0 < length instance.now.layers }
    requires names { HaveCounts instance.now names.now }
    requires flaw { IsPeakFlawWithin (length (permitted_trips instance.now l.0)) flaw }
    ensures { IfOk result (TellsRow Status.SaysNo (peaks_no_row instance.now names.now l flaw)) }
{
    let trips = trips_of(alloc, instance, l)?;
    let mut text = Text::new(alloc);
    text.begin_row("no")?;
    peak_flaw_fields(&mut text, names, l, &trips, flaw)?;
    text.end_row()?;
    Ok(Answer::of(Status::SaysNo, text))
}

/// What follows the instance claims nothing, first of all at this record.
fn refused(alloc: Global, row: u64, why: PeakWhy) -> Result<Answer, Memory>
    ensures { IfOk result (TellsRow Status.BadInput (peak_refusal_row row why)) }
{
    let mut text = Text::new(alloc);
    text.begin_row("refused")?;
    text.number(row)?;
    write_peak_why(&mut text, why)?;
    text.end_row()?;
    Ok(Answer::of(Status::BadInput, text))
}
