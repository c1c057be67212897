//! The text of rows, as it is written.

ghost use Rattle.std.specs.Prelude.{◌≡◌, ◌<◌, List, [], ◌∷◌, ◌++◌, OnOk};
ghost use Rattle.vs_rows.specs.Fields.{numbered, time_field, two_digits};

use itoa::{Buffer, Integer};
use std::alloc::Global;
use std::marker::Model;
use vs_types::Memory;

/// A text of rows, as it is written. Each row is begun with the field that says what it is, has further
/// fields, and is ended. After an error the text is of no more use.
#[derive(Drop)]
pub struct Text {
    bytes: Vec<u8>,
}

impl Model for Text {
    ghost use Rattle.std.specs.Prelude.{List, ℕ};

    ghost Value = { List ℕ };

    ghost view = { λ t. t.bytes.items };
}

impl Text {
    /// No rows yet.
    pub fn new(alloc: Global) -> Text
        ensures { result ≡ [] }
    {
        Text {
            bytes: Vec::new(alloc),
        }
    }

    /// Begins a row with its first field.
    pub fn begin_row(&mut self, kind: &str) -> Result<(), Memory>
        ensures { OnOk result (self.new ≡ self.old ++ kind.now) }
    {
        self.bytes.extend_from_slice(kind.as_bytes())?;
        Ok(())
    }

    /// Adds a field to the row.
    pub fn field(&mut self, field: &str) -> Result<(), Memory>
        ensures { OnOk result (self.new ≡ self.old ++ 44 ∷ field.now) }
    {
        self.bytes.push(b',')?;
        self.bytes.extend_from_slice(field.as_bytes())?;
        Ok(())
    }

    /// Adds a number to the row, in decimal.
    pub fn number<I: Integer>(&mut self, n: I) -> Result<(), Memory>
        ensures { OnOk result (self.new ≡ self.old ++ 44 ∷ I.text n) }
    {
        let mut buffer = Buffer::new();
        self.field(buffer.format(n))
    }

    /// Adds a name to the row: a letter and a number, counted from 1.
    pub fn numbered(&mut self, letter: &str, k: u32) -> Result<(), Memory>
        ensures { OnOk result (self.new ≡ self.old ++ 44 ∷ numbered letter.now k) }
    {
        let mut buffer = Buffer::new();
        self.field(letter)?;
        let number = buffer.format(u64::from(k) + 1);
        self.bytes.extend_from_slice(number.as_bytes())?;
        Ok(())
    }

    /// Adds a time to the row, in minutes from 0:00 of the first day: two digits, a colon, two digits.
    pub fn time(&mut self, minute: u32) -> Result<(), Memory>
        requires { minute < 6000 }
        ensures { OnOk result (self.new ≡ self.old ++ 44 ∷ time_field minute) }
    {
        self.bytes.push(b',')?;
        self.two_digits(minute / 60)?;
        self.bytes.push(b':')?;
        self.two_digits(minute % 60)
    }

    /// Adds a number to the text, as two digits.
    fn two_digits(&mut self, n: u32) -> Result<(), Memory>
        requires { n < 100 }
        ensures { OnOk result (self.new ≡ self.old ++ two_digits n) }
    {
        self.bytes.push(b'0' + (n / 10) as u8)?;
        self.bytes.push(b'0' + (n % 10) as u8)?;
        Ok(())
    }

    /// Ends the row.
    pub fn end_row(&mut self) -> Result<(), Memory>
        ensures { OnOk result (self.new ≡ self.old ++ 10 ∷ []) }
    {
        self.bytes.push(b'\n')?;
        Ok(())
    }

    /// The bytes of all rows.
    pub fn into_bytes(self) -> Vec<u8>
        ensures { result.items ≡ self }
    {
        self.bytes
    }
}
