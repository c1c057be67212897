//! What the first field of a row says, and texts in fields.

ghost use Rattle.std.specs.Prelude.{◌≡◌, ◌<◌, ◌↔◌, length, IsTrue};
ghost use Rattle.vs_reader.specs.Rows.{row_of};
ghost use Rattle.vs_rows.specs.RowForms.{BeginsAs, IsOfKind};

use vs_reader::Rows;

/// Whether a field is this text.
pub fn is_text(field: &[u8], text: &str) -> bool
    ensures { IsTrue result ↔ (field.now ≡ text.now) }
{
    field == text.as_bytes()
}

/// Whether a row has so many fields, of which the first says its kind.
pub fn is_of_kind(rows: &Rows, row: usize, kind: &str, fields: usize) -> bool
    requires fields { 0 < fields }
    requires row { row < length rows.now }
    ensures { IsTrue result ↔ IsOfKind kind.now fields (row_of rows.now row) }
{
    rows.fields(row) == fields && is_text(rows.field(row, 0), kind)
}

/// Whether a row has three fields or more, of which the first says its kind.
pub fn begins_as(rows: &Rows, row: usize, kind: &str) -> bool
    requires { row < length rows.now }
    ensures { IsTrue result ↔ BeginsAs kind.now (row_of rows.now row) }
{
    rows.fields(row) >= 3 && is_text(rows.field(row, 0), kind)
}
