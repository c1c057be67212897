//! An instance and the document behind it, as a text gives them.

ghost use Rattle.std.specs.Prelude.{◌≡◌, ◌≤◌, length, IfErr, IfOk};
ghost use Rattle.vs_reader.specs.Texts.{StandsFor};
ghost use Rattle.vs_document.specs.Form.{IsReadFor};
ghost use Rattle.vs_rows.specs.RowForms.{IsInput};
ghost use Rattle.vs_reply.specs.Answered.{RefusesCase, case_error};
ghost use Rattle.vs_reply.specs.Cases.{CheckText, input_limit};

use crate::answer::Answer;
use std::alloc::Global;
use vs_document::{DocError, Document};
use vs_reader::Input;
use vs_types::Memory;

/// An instance with its names, and the document that stands behind it.
#[derive(Drop)]
pub struct Case {
    pub input: Input,
    pub document: Document,
}

/// Why a text gives no case.
#[derive(Debug, Drop)]
pub enum CaseError {
    /// It is no instance text, or no document stands behind it. This answer says so.
    Refused(Answer),
    /// There was no memory.
    Memory,
}

/// The instance that a text stands for, and the document behind it.
pub fn read_case(alloc: Global, bytes: &[u8]) -> Result<Case, CaseError>
    requires { length bytes.now ≤ input_limit }
    ensures found { IfOk result (λ case.
        CheckText bytes.now case.input.instance case.input.names case.document) }
    ensures read_for { IfOk result (λ case. IsReadFor case.input.instance case.document) }
    ensures refused { IfErr result (RefusesCase bytes.now) }
{
    let input = read_instance(alloc, bytes)?;
    match vs_document::read(alloc, &input) {
        Ok(document) => Ok(Case { input, document }),
        Err(error) => match error {
            DocError::Refused { row, why } => {
                Err(refusal(Answer::refused_document(alloc, row, why)))
            }
            DocError::Memory => Err(CaseError::Memory),
        },
    }
}

/// The instance that a text stands for, with what follows its records.
fn read_instance(alloc: Global, bytes: &[u8]) -> Result<Input, CaseError>
    requires { length bytes.now ≤ input_limit }
    ensures found { IfOk result (λ input.
        StandsFor bytes.now input.instance input.names input.before input.rest) }
    ensures input { IfOk result IsInput }
    ensures refused { IfErr result (RefusesCase bytes.now) }
{
    match vs_reader::read(alloc, bytes) {
        Ok(input) => Ok(input),
        Err(error) => Err(refusal(Answer::no_instance(alloc, error))),
    }
}

/// An answer that refuses a text, or the error that there is no memory for it.
fn refusal(answer: Result<Answer, Memory>) -> CaseError
    ensures { result ≡ case_error answer }
{
    match answer {
        Ok(answer) => CaseError::Refused(answer),
        Err(Memory) => CaseError::Memory,
    }
}
