//! The text of a whole trace.

ghost use Rattle.std.specs.Prelude.{◌≡◌, IfOk};
ghost use Rattle.vs_reader.specs.Names.{HaveCounts};
ghost use Rattle.vs_reader.specs.Rows.{lines};
ghost use Rattle.vs_trace.specs.TraceRows.{trace_text};

use crate::writing::beginning::{write_first, write_opening};
use crate::writing::steps::write_steps;
use std::alloc::Global;
use vs_document::Text;
use vs_reader::Names;
use vs_tree::Tree;
use vs_types::Memory;

/// The text of the trace of a search, with the names of its instance. It says how the search began, and gives its steps
/// in order, each with the table or the plan that it adds. Offers that weren't accepted are left out.
pub fn write(alloc: Global, tree: &Tree, names: &Names) -> Result<Vec<u8>, Memory>
    requires { HaveCounts tree.now.opening.problem names.now }
    ensures { IfOk result (λ bytes.
        bytes.items ≡ lines (trace_text names.now tree.now.opening tree.now.steps)) }
{
    // for the proof: the steps of a search are a history from an opening.
    let _instance = tree.instance();
    let mut text = Text::new(alloc);
    write_opening(&mut text, tree.budget(), tree.workers())?;
    write_first(&mut text, names, tree.first())?;
    write_steps(&mut text, tree, names)?;
    text.begin_row("end")?;
    text.end_row()?;
    Ok(text.into_bytes())
}
