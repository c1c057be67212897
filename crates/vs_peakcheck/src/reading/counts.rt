//! The rows of counts.

ghost use Rattle.std.specs.Prelude.{◌≡◌, ℕ, ◌<◌, ◌≤◌, Option, length, decimal, IfSome, IfNone};
ghost use Rattle.vs_reader.specs.NameRules.{AreNames};
ghost use Rattle.vs_reader.specs.Rows.{row_of};
ghost use Rattle.vs_rows.specs.RowForms.{IsNameOf, IsNoName};
ghost use Rattle.vs_peakcheck.specs.PeakRows.{IsCount, IsCountRow, count_field};
ghost use Rattle.vs_peakcheck.specs.declared.claimed.TheConstants.{MAX_COUNT};

use crate::claimed::MAX_COUNT;
use itoa::Buffer;
use vs_reader::{Input, Names};
use vs_rows::is_of_kind;
use vs_types::LayerNo;

/// The layer and the count of a row `peak`, a layer and a count or `none`.
pub(crate) fn count(input: &Input, row: usize) -> Option<(LayerNo, Option<u32>)>
    requires { row < length input.now.rest }
    ensures found { IfSome result (λ r.
        IsCountRow input.now.names (row_of input.now.rest row) r.0.0 r.1) }
    ensures none { IfNone result ((l : ℕ) (n : Option ℕ)
        → ¬ (IsCountRow input.now.names (row_of input.now.rest row) l n)) }
{
    if !is_of_kind(&input.rest, row, "peak", 3) {
        return None;
    }
    let layer = layer_named(&input.names, input.rest.field(row, 1))?;
    let count = count_of(input.rest.field(row, 2))?;
    Some((layer, count))
}

/// The layer that a field names.
fn layer_named(names: &Names, field: &[u8]) -> Option<LayerNo>
    ensures found { IfSome result (λ l. IsNameOf names.now.layers field.now l.0) }
    ensures none { IfNone result (IsNoName names.now.layers field.now) }
{
    for l in 0..names.layers() as u32 {
        if field == names.layer(LayerNo(l)).as_bytes() {
            return Some(LayerNo(l));
        }
    }
    None
}

/// The count that a field writes, or `none`.
fn count_of(field: &[u8]) -> Option<Option<u32>>
    ensures found { IfSome result (λ n. (field.now ≡ count_field n) × IsCount n) }
    ensures none { IfNone result ((n : Option ℕ) → IsCount n → ¬ (field.now ≡ count_field n)) }
{
    if field == "none".as_bytes() {
        return Some(None);
    }
    match number_of(field) {
        Some(n) => Some(Some(n)),
        None => None,
    }
}

/// The number of at most `MAX_COUNT` that a field writes.
fn number_of(field: &[u8]) -> Option<u32>
    ensures found { IfSome result (λ n. (field.now ≡ decimal n) × (n ≤ MAX_COUNT)) }
    ensures none { IfNone result ((n : ℕ) → n ≤ MAX_COUNT → ¬ (field.now ≡ decimal n)) }
{
    let mut buffer = Buffer::new();
    for n in 0..MAX_COUNT + 1 {
        if field == buffer.format(n).as_bytes() {
            return Some(n);
        }
    }
    None
}
