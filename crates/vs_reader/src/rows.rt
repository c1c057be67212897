//! Rows of fields that are kept, and how they are put together.

ghost use Rattle.std.specs.Prelude.{◌≡◌, ◌+◌, ◌<◌, ◌≤◌, ◌^◌, [], ◌∷◌, ◌++◌, length, take, slice_index_or, IfOk, OnOk};
ghost use Rattle.csv.specs.Records.{fields_of};
ghost use Rattle.vs_reader.specs.RowEnds.{end_of, row_weight};

use crate::record::field;
use csv::ByteRecord;
use std::alloc::Global;
use std::marker::Model;
use vs_types::Memory;

/// Rows of fields, as records of a text have them. All bytes stand in one vector, with where each field
/// and each row ends.
#[derive(Drop)]
pub struct Rows {
    bytes: Vec<u8>,
    field_ends: Vec<u32>,
    row_ends: Vec<u32>,
}

impl Model for Rows {
    ghost use Rattle.vs_reader.specs.RowEnds.{rows_of, AreEnds};
    ghost use Rattle.vs_reader.specs.Rows.{Row};
    ghost use Rattle.std.specs.Prelude.{List};

    ghost Value = { List Row };

    ghost view = { λ r. rows_of r.bytes.items r.field_ends.items r.row_ends.items };

    ghost invariant = { λ r. AreEnds r.bytes.items r.field_ends.items r.row_ends.items };
}

impl Rows {
    /// How many rows there are.
    pub fn len(&self) -> usize
        ensures { result ≡ length self.now }
    {
        self.row_ends.len()
    }

    /// How many fields a row has.
    pub fn fields(&self, row: usize) -> usize
        requires { row < length self.now }
        ensures { result ≡ length (slice_index_or self.now row []) }
    {
        self.row_ends[row] as usize - start_of(&self.row_ends, row)
    }

    /// A field of a row.
    pub fn field(&self, row: usize, k: usize) -> &[u8]
        requires row { row < length self.now }
        requires field { k < length (slice_index_or self.now row []) }
        ensures { result.now ≡ slice_index_or (slice_index_or self.now row []) k [] }
    {
        let row_ends: &[u32] = &self.row_ends;
        let place = start_of(row_ends, row) + k;
        let field_ends: &[u32] = &self.field_ends;
        let start = start_of(field_ends, place);
        let end = self.field_ends[place] as usize;
        let bytes: &[u8] = &self.bytes;
        &bytes[start..end]
    }
}

/// Where part k begins, of parts that stand together from 0 on and end at these places. For k as many as
/// there are parts, it is where the last of them ends.
fn start_of(ends: &[u32], k: usize) -> usize
    requires { k ≤ length ends.now }
    ensures { result ≡ end_of 0 (take k ends.now) }
{
    if k == 0 { 0 } else { ends[k - 1] as usize }
}

/// Rows that are being put together, record by record. After an error they are of no more use.
#[derive(Drop)]
pub struct RowBuilder {
    pub bytes: Vec<u8>,
    pub field_ends: Vec<u32>,
    pub row_ends: Vec<u32>,
}

impl RowBuilder {
    ghost use Rattle.vs_reader.specs.RowBuilding.{built, size_of, IsWhole};

    /// No rows.
    pub fn new(alloc: Global) -> RowBuilder
        ensures rows { built result ≡ [] }
        ensures whole { IsWhole result }
        ensures size { size_of result ≡ 0 }
    {
        RowBuilder {
            bytes: Vec::new(alloc),
            field_ends: Vec::new(alloc),
            row_ends: Vec::new(alloc),
        }
    }

    /// One record as the only row.
    pub fn of(alloc: Global, row: &ByteRecord) -> Result<RowBuilder, Memory>
        requires { row_weight (fields_of row.now) < 2 ^ 32 }
        ensures rows { IfOk result (λ rows. built rows ≡ fields_of row.now ∷ []) }
        ensures whole { IfOk result (λ rows. IsWhole rows) }
        ensures size { IfOk result (λ rows. size_of rows ≡ row_weight (fields_of row.now)) }
    {
        let mut rows = RowBuilder::new(alloc);
        rows.push(row)?;
        Ok(rows)
    }

    /// Adds a record as the last row.
    pub fn push(&mut self, row: &ByteRecord) -> Result<(), Memory>
        requires whole { IsWhole self.old }
        requires room { size_of self.old + row_weight (fields_of row.now) < 2 ^ 32 }
        ensures rows { OnOk result (built self.new ≡ built self.old ++ fields_of row.now ∷ []) }
        ensures whole { OnOk result (IsWhole self.new) }
        ensures size { OnOk result (size_of self.new ≡ size_of self.old + row_weight (fields_of row.now)) }
    {
        for k in 0..row.len() {
            self.push_field(field(row, k))?;
        }
        self.row_ends.push(self.field_ends.len() as u32)?;
        Ok(())
    }

    /// Adds a field to the row that is not yet ended.
    fn push_field(&mut self, field: &[u8]) -> Result<(), Memory>
        requires { length self.old.bytes.items + length field.now < 2 ^ 32 }
        ensures bytes { OnOk result (self.new.bytes.items ≡ self.old.bytes.items ++ field.now) }
        ensures fields { OnOk result (self.new.field_ends.items
            ≡ self.old.field_ends.items ++ (length self.old.bytes.items + length field.now) ∷ []) }
        ensures rows { OnOk result (self.new.row_ends.items ≡ self.old.row_ends.items) }
    {
        self.bytes.extend_from_slice(field)?;
        self.field_ends.push(self.bytes.len() as u32)?;
        Ok(())
    }

    /// The rows that were added.
    pub fn into_rows(self) -> Rows
        requires { IsWhole self }
        ensures { result ≡ built self }
    {
        Rows {
            bytes: self.bytes,
            field_ends: self.field_ends,
            row_ends: self.row_ends,
        }
    }
}
