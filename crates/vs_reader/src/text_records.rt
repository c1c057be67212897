//! The records of a text, one after another.

ghost use Rattle.std.specs.Prelude.{◌≡◌, List, [], IfOk};
ghost use Rattle.csv.specs.Records.{fields_of};
ghost use Rattle.vs_reader.specs.Rows.{Row};
ghost use Rattle.vs_reader.specs.Texts.{HasRows};
ghost use Rattle.vs_reader.specs.Left.{AreLeft, GivesNext};

use csv::{ByteRecord, Reader, ReaderBuilder};
use std::alloc::Global;
use vs_types::Memory;

/// The records of a text, which come one after another.
#[derive(Drop)]
pub struct TextRecords<'t> {
    pub reader: Reader<&'t [u8]>,
    /// The record that came last, empty before the first.
    pub current: ByteRecord,
}

impl<'t> TextRecords<'t> {
    /// All records of a text.
    pub fn new(alloc: Global, bytes: &'t [u8]) -> TextRecords<'t>
        ensures left { (rows : List Row) → HasRows bytes.now rows → AreLeft result rows }
        ensures current { fields_of result.current ≡ [] }
    {
        let reader = ReaderBuilder::new()
            .has_headers(false)
            .flexible(true)
            .from_reader(alloc, bytes);
        TextRecords {
            reader,
            current: ByteRecord::new(alloc),
        }
    }

    /// Goes on to the next record, and answers whether there was one.
    pub fn next(&mut self) -> Result<bool, Memory>
        ensures { IfOk result (λ found. (rows : List Row) → AreLeft self.old rows
            → GivesNext self.new rows found) }
    {
        // Reading bytes in memory can't fail, so the only error is to be out of memory.
        let Ok(found) = self.reader.read_byte_record(&mut self.current) else {
            return Err(Memory);
        };
        Ok(found)
    }
}
