//! The reading of a whole document.

ghost use Rattle.std.specs.Prelude.{All, IfOk, IfErr};
ghost use Rattle.vs_rows.specs.declared.document.Document.{Document as DocumentOf};
ghost use Rattle.vs_document.specs.Alike.{AreAlike};
ghost use Rattle.vs_document.specs.DocumentRefusals.{IsRefusedError};
ghost use Rattle.vs_rows.specs.DocumentText.{IsBlankElsewhere};
ghost use Rattle.vs_document.specs.Form.{IsReadFor};
ghost use Rattle.vs_rows.specs.RowForms.{IsInput};
ghost use Rattle.vs_document.specs.Reading.{IsDocumentOf, IsRefusalOf};

use crate::reading::blocks::blocks_beside;
use crate::reading::head::read_head;
use crate::reading::tables::read_tables;
use crate::reading::tree::{read_end, read_tree};
use crate::refused::{DocError, DocWhy, refusal};
use std::alloc::Global;
use vs_plan::Plan;
use vs_reader::Input;
use vs_rows::Document;

/// The document for which the rows of the input's rest stand; else the first row that is refused, and why.
/// Prices for trips that a layer may not run, which no row gives, are 0.
pub fn read(alloc: Global, input: &Input) -> Result<Document, DocError>
    requires { IsInput input.now }
    ensures found { IfOk result (IsDocumentOf input.now) }
    ensures blank { IfOk result (λ d. All (IsBlankElsewhere input.now.instance) d.tables.items) }
    ensures read_for { IfOk result (IsReadFor input.now.instance) }
    ensures only { IfOk result (λ d. (other : DocumentOf)
        → IsDocumentOf input.now other → AreAlike input.now.instance d other) }
    ensures refused { IfErr result (IsRefusalOf input.now) }
    ensures none { IfErr result (λ e. IsRefusedError e
        → (d : DocumentOf) → ¬ (IsDocumentOf input.now d)) }
{
    // Names are apart, and so a row says one thing.
    let _names = (input.names.layers(), input.names.trips());
    read_rows(alloc, input)
}

/// The document for which the rows stand; else the first row that is refused.
fn read_rows(alloc: Global, input: &Input) -> Result<Document, DocError>
    requires { IsInput input.now }
    ensures found { IfOk result (IsDocumentOf input.now) }
    ensures blank { IfOk result (λ d. All (IsBlankElsewhere input.now.instance) d.tables.items) }
    ensures read_for { IfOk result (IsReadFor input.now.instance) }
    ensures refused { IfErr result (IsRefusalOf input.now) }
{
    if input.rest.len() == 0 {
        return Err(refusal(input, 0, DocWhy::NoResult));
    }
    let head = read_head(alloc, input)?;
    let (blocks, tables_from) = blocks_beside(alloc, input, 4, head.cost)?;
    let (tables, tree_from) = read_tables(alloc, input, tables_from)?;
    let count = tables.len();
    let (shape, end) = read_tree(alloc, input, tree_from, count)?;
    read_end(alloc, input, end, count)?;
    Ok(Document {
        claim: head.claim,
        cost: head.cost,
        bound: head.bound,
        nodes: head.nodes,
        plan: Plan { blocks },
        tables,
        shape,
    })
}
