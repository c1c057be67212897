//! The text of a whole document.

ghost use Rattle.std.specs.Prelude.{◌≡◌, IfOk};
ghost use Rattle.vs_reader.specs.Names.{HaveCounts};
ghost use Rattle.vs_reader.specs.Rows.{lines};
ghost use Rattle.vs_rows.specs.DocumentRows.{document_rows};
ghost use Rattle.vs_rows.specs.DocumentText.{HasText};

use crate::document::Document;
use crate::text::Text;
use crate::writing::blocks::write_blocks;
use crate::writing::head::write_head;
use crate::writing::shapes::write_shapes;
use crate::writing::tables::write_tables;
use std::alloc::Global;
use vs_instance::Instance;
use vs_reader::Names;
use vs_types::Memory;

/// The text of a document, with the names of the instance that it is of. Its rows stand in order, and
/// the layers of each split in number order. Prices for trips that a layer may not run aren't written.
pub fn text_of(
    alloc: Global,
    instance: &Instance,
    names: &Names,
    document: &Document,
) -> Result<Vec<u8>, Memory>
    requires text { HasText instance.now document.now }
    requires names { HaveCounts instance.now names.now }
    ensures { IfOk result (λ bytes.
        bytes.items ≡ lines (document_rows instance.now names.now document.now)) }
{
    let mut text = Text::new(alloc);
    write_head(
        &mut text,
        names,
        document.claim,
        document.cost,
        document.bound,
        document.nodes,
    )?;
    write_blocks(&mut text, names, &document.plan)?;
    write_tables(&mut text, instance, names, &document.tables)?;
    write_shapes(&mut text, names, &document.shape)?;
    text.begin_row("end")?;
    text.end_row()?;
    Ok(text.into_bytes())
}
