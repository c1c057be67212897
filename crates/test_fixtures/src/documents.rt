//! The documents that stand behind instances.

ghost use Rattle.std.specs.Prelude.{IfOk};
ghost use Rattle.vs_document.specs.Form.{IsReadFor};
ghost use Rattle.vs_rows.specs.RowForms.{IsInput};

use crate::reading::{input_of, joined};
use std::alloc::Global;
use std::test::Fail;
use vs_document::{Document, read};
use vs_instance::Instance;
use vs_reader::Input;

/// The document that stands behind an instance.
pub fn document_of(alloc: Global, input: &Input) -> Result<Document, Fail>
    requires { IsInput input.now }
    ensures { IfOk result (IsReadFor input.now.instance) }
{
    Ok(read(alloc, input)?)
}

/// The instance that these parts of a text stand for, and the document behind it.
pub fn documented(alloc: Global, parts: &[&str]) -> Result<(Instance, Document), Fail>
    ensures { IfOk result (λ made. IsReadFor made.0 made.1) }
{
    let text = joined(alloc, parts)?;
    let input = input_of(alloc, &text)?;
    let document = document_of(alloc, &input)?;
    Ok((input.instance, document))
}
