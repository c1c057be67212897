//! The first fields of steps.

ghost use Rattle.std.specs.Prelude.{◌≡◌, ◌+◌, ◌++◌, ◌∷◌, [], OnOk, decimal};
ghost use Rattle.vs_reader.specs.Rows.{more_fields};

use vs_document::Text;
use vs_types::Memory;

/// Begins a row of this kind with a worker and a spot, which are counted from 1 there.
pub fn begin_step(text: &mut Text, kind: &str, worker: u32, spot: u32) -> Result<(), Memory>
    ensures { OnOk result (text.new
        ≡ text.old ++ kind.now ++ more_fields (decimal (worker + 1) ∷ decimal (spot + 1) ∷ [])) }
{
    text.begin_row(kind)?;
    text.number(u64::from(worker) + 1)?;
    text.number(u64::from(spot) + 1)?;
    Ok(())
}
