//! What the records read so far declare.

ghost use Rattle.std.specs.Prelude.{◌≡◌, ◌≤◌, [], length, codes};
ghost use Rattle.csv.specs.Records.{fields_of};
ghost use Rattle.vs_types.specs.declared.numbers.TheConstants.{MAX_LAYERS};
ghost use Rattle.vs_reader.specs.Rows.{field_of};
ghost use Rattle.vs_reader.specs.InstanceText.{AddsStop, AddsDeadhead, AddsLayer, AddsTrip, nothing_yet};
ghost use Rattle.vs_reader.specs.Rules.{rules, stop_rules, deadhead_rules, layer_rules, trip_rules};
ghost use Rattle.vs_reader.specs.Judged.{JudgedOrMemory};
ghost use Rattle.vs_reader.specs.Drafts.{declared_of, AddsRecord};
ghost use Rattle.vs_reader.specs.RecordNumbers.{HasNumbers, NumbersDeadhead, NumbersLayer, NumbersTrip};

use crate::kind::Kind;
use crate::names::Names;
use crate::record::{RecordError, field};
use crate::record_numbers::RecordNumbers;
use crate::records::{self, Ends};
use crate::refused::Why;
use crate::salted::Salted;
use crate::version::Version;
use csv::ByteRecord;
use std::alloc::Global;
use vs_instance::{Deadhead, Layer, Trip};

/// What the records read so far declare, and the numbers of these records.
#[derive(Drop)]
pub struct Draft {
    pub names: Names,
    pub deadheads: Vec<Deadhead>,
    pub layers: Vec<Layer>,
    pub trips: Vec<Trip>,
    pub numbers: RecordNumbers,
}

impl Draft {
    /// Nothing yet. This hasher will find the names.
    pub fn new(alloc: Global, hasher: Salted) -> Draft
        ensures declared { declared_of result ≡ nothing_yet }
        ensures numbers { HasNumbers result.numbers [] }
    {
        Draft {
            names: Names::new(alloc, hasher),
            deadheads: Vec::new(alloc),
            layers: Vec::new(alloc),
            trips: Vec::new(alloc),
            numbers: RecordNumbers::new(alloc),
        }
    }

    /// Adds what a record of a text of this version declares, which has this number. After an error the draft is of no
    /// more use.
    pub fn add(
        &mut self,
        version: Version,
        number: u32,
        row: &ByteRecord,
    ) -> Result<(), RecordError>
        requires layers { length self.old.names.layers ≤ MAX_LAYERS }
        ensures { JudgedOrMemory (rules version self.old.names (fields_of row.now))
            (AddsRecord version number self.old (fields_of row.now) self.new) result }
    {
        match Kind::of(field(row, 0)) {
            Some(Kind::Stop) => self.add_stop(row),
            Some(Kind::Deadhead) => self.add_deadhead(number, row),
            Some(Kind::Layer) => self.add_layer(version, number, row),
            Some(Kind::Trip) => self.add_trip(version, number, row),
            None => Err(RecordError::Refused(Why::UnknownKind)),
        }
    }

    /// Adds the stop that a record declares.
    fn add_stop(&mut self, row: &ByteRecord) -> Result<(), RecordError>
        requires { field_of (fields_of row.now) 0 ≡ codes "stop" }
        ensures { JudgedOrMemory (stop_rules self.old.names (fields_of row.now))
            (AddsStop (declared_of self.old) (fields_of row.now) (declared_of self.new)
            × self.new.numbers ≡ self.old.numbers) result }
    {
        let name = records::stop(&self.names, row)?;
        self.names.add_stop(name)?;
        Ok(())
    }

    /// Adds the deadhead that a record declares, which has this number.
    fn add_deadhead(&mut self, number: u32, row: &ByteRecord) -> Result<(), RecordError>
        requires { field_of (fields_of row.now) 0 ≡ codes "deadhead" }
        ensures { JudgedOrMemory (deadhead_rules self.old.names (fields_of row.now))
            (AddsDeadhead (declared_of self.old) (fields_of row.now) (declared_of self.new)
            × NumbersDeadhead number self.old.numbers self.new.numbers) result }
    {
        let guess = Ends::after(self.deadheads.last());
        let deadhead = records::deadhead(&self.names, guess, row)?;
        self.deadheads.push(deadhead)?;
        self.numbers.deadheads.push(number)?;
        Ok(())
    }

    /// Adds the layer that a record of a text of this version declares, which has this number.
    fn add_layer(
        &mut self,
        version: Version,
        number: u32,
        row: &ByteRecord,
    ) -> Result<(), RecordError>
        requires { field_of (fields_of row.now) 0 ≡ codes "layer" }
        ensures { JudgedOrMemory (layer_rules version self.old.names (fields_of row.now))
            (AddsLayer version (declared_of self.old) (fields_of row.now) (declared_of self.new)
            × NumbersLayer number self.old.numbers self.new.numbers) result }
    {
        let layer = records::layer(version, &self.names, row)?;
        self.names.add_layer(field(row, 1))?;
        self.layers.push(layer)?;
        self.numbers.layers.push(number)?;
        Ok(())
    }

    /// Adds the trip that a record of a text of this version declares, which has this number.
    fn add_trip(
        &mut self,
        version: Version,
        number: u32,
        row: &ByteRecord,
    ) -> Result<(), RecordError>
        requires kind { field_of (fields_of row.now) 0 ≡ codes "trip" }
        requires layers { length self.old.names.layers ≤ MAX_LAYERS }
        ensures { JudgedOrMemory (trip_rules version self.old.names (fields_of row.now))
            (AddsTrip version (declared_of self.old) (fields_of row.now) (declared_of self.new)
            × NumbersTrip number self.old.numbers self.new.numbers) result }
    {
        let trip = records::trip(version, &self.names, row)?;
        self.names.add_trip(field(row, 1))?;
        self.trips.push(trip)?;
        self.numbers.trips.push(number)?;
        Ok(())
    }
}
