//! What a run answers.

ghost use Rattle.std.specs.Prelude.{◌≡◌, ℕ, List, [], ◌∷◌, length, IfOk};
ghost use Rattle.vs_check.specs.Flaws.{IsFlawWithin};
ghost use Rattle.vs_reply.specs.Answered.{RefusesText};
ghost use Rattle.vs_reply.specs.FlawRows.{no_row};
ghost use Rattle.vs_reply.specs.Owed.{yes_row};
ghost use Rattle.vs_reply.specs.RefusalRows.{document_refusal_row, refusal_row, too_large_row, words_row};
ghost use Rattle.vs_reader.specs.ReadErrors.{RefusesAs};
ghost use Rattle.vs_reader.specs.Rows.{lines};
ghost use Rattle.vs_reader.specs.Texts.{IsRefused};

use crate::flaws::flaw_fields;
use crate::refusal::{write_document_why, write_why};
use crate::status::Status;
use std::alloc::Global;
use vs_check::Flaw;
use vs_document::{DocWhy, Document, Text, bound_field, claim_field, cost_field};
use vs_reader::{Names, ReadError, Refused};
use vs_types::Memory;

/// What a run answers, and what it writes before it ends.
#[derive(Debug, Drop)]
pub struct Answer {
    pub status: Status,
    pub text: Vec<u8>,
}

impl Answer {
    /// The word at this place, counted from 1, is the first bad one.
    pub fn bad_word(alloc: Global, place: usize) -> Result<Answer, Memory>
        ensures { IfOk result (λ a. (a.status ≡ Status.BadWords)
            × (a.text.items ≡ lines (words_row place ∷ []))) }
    {
        let mut text = Text::new(alloc);
        text.begin_row("words")?;
        text.number(place)?;
        text.end_row()?;
        Ok(Answer::of(Status::BadWords, text))
    }

    /// The input is no instance text.
    fn refused(alloc: Global, refused: Refused) -> Result<Answer, Memory>
        ensures { IfOk result (λ a. (a.status ≡ Status.BadInput)
            × (a.text.items ≡ lines (refusal_row refused ∷ []))) }
    {
        let mut text = Text::new(alloc);
        text.begin_row("refused")?;
        text.number(refused.row)?;
        write_why(&mut text, refused.why)?;
        text.end_row()?;
        Ok(Answer::of(Status::BadInput, text))
    }

    /// The input couldn't be read as an instance text.
    pub fn no_instance(alloc: Global, error: ReadError) -> Result<Answer, Memory>
        ensures { (bytes : List ℕ)
            → RefusesAs (IsRefused bytes) error → IfOk result (RefusesText bytes) }
    {
        match error {
            ReadError::Refused(refused) => Answer::refused(alloc, refused),
            ReadError::Memory => Err(Memory),
        }
    }

    /// So many nodes are too many for the instance.
    pub fn too_large(alloc: Global) -> Result<Answer, Memory>
        ensures { IfOk result (λ a. (a.status ≡ Status.BadInput)
            × (a.text.items ≡ lines (too_large_row ∷ []))) }
    {
        let mut text = Text::new(alloc);
        text.begin_row("refused")?;
        text.number(0_u32)?;
        text.number(40_u32)?;
        text.field("TooLarge")?;
        text.end_row()?;
        Ok(Answer::of(Status::BadInput, text))
    }

    /// What follows the instance is no document, first of all at this record.
    pub fn refused_document(alloc: Global, row: u64, why: DocWhy) -> Result<Answer, Memory>
        ensures { IfOk result (λ a. (a.status ≡ Status.BadInput)
            × (a.text.items ≡ lines (document_refusal_row row why ∷ []))) }
    {
        let mut text = Text::new(alloc);
        text.begin_row("refused")?;
        text.number(row)?;
        write_document_why(&mut text, why)?;
        text.end_row()?;
        Ok(Answer::of(Status::BadInput, text))
    }

    /// The document holds.
    pub fn yes(alloc: Global, document: &Document) -> Result<Answer, Memory>
        ensures { IfOk result (λ a. (a.status ≡ Status.Done)
            × (a.text.items ≡ lines (yes_row document.now ∷ []))) }
    {
        let mut text = Text::new(alloc);
        text.begin_row("yes")?;
        claim_field(&mut text, document.claim)?;
        cost_field(&mut text, document.cost)?;
        bound_field(&mut text, document.bound)?;
        text.end_row()?;
        Ok(Answer::of(Status::Done, text))
    }

    /// The document doesn't hold, first of all for this flaw.
    pub fn no(alloc: Global, names: &Names, flaw: Flaw) -> Result<Answer, Memory>
        requires { IsFlawWithin (length names.now.layers) (length names.now.trips) flaw }
        ensures { IfOk result (λ a. (a.status ≡ Status.SaysNo)
            × (a.text.items ≡ lines (no_row names.now flaw ∷ []))) }
    {
        let mut text = Text::new(alloc);
        text.begin_row("no")?;
        flaw_fields(&mut text, names, flaw)?;
        text.end_row()?;
        Ok(Answer::of(Status::SaysNo, text))
    }

    /// The rows of a text, with this status.
    pub fn of(status: Status, text: Text) -> Answer
        ensures status { result.status ≡ status }
        ensures text { result.text.items ≡ text }
    {
        Answer {
            status,
            text: text.into_bytes(),
        }
    }
}
