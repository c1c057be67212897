//! The records of each kind, judged in the order of their rules.

ghost use Rattle.std.specs.Prelude.{◌≡◌, ℕ, ◌<◌, ◌≤◌, [], ◌∷◌, length, drop, codes};
ghost use Rattle.csv.specs.Records.{fields_of};
ghost use Rattle.vs_types.specs.declared.numbers.TheConstants.{MAX_LAYERS};
ghost use Rattle.vs_reader.specs.Rows.{field_of};
ghost use Rattle.vs_reader.specs.Numbers.{IsNumber, IsTime};
ghost use Rattle.vs_reader.specs.Names.{Names as Numbered};
ghost use Rattle.vs_reader.specs.Versions.{writes_stay};
ghost use Rattle.vs_reader.specs.InstanceText.{DeadheadRow, LayerRow, StayOf, TripRow, NameLayers};
ghost use Rattle.vs_reader.specs.Rules.{WritesName, WritesNumber, WritesTime, new_name, known_name, layer_names, stop_rules, deadhead_rules, layer_rules, stay_rules, trip_rules};
ghost use Rattle.vs_reader.specs.Judged.{Judged};
ghost use Rattle.vs_reader.specs.Ends.{ends_rules, NamesEnds};
ghost use Rattle.vs_reader.specs.Calls.{call_rules, trip_name_rules, IsCall};

use crate::fields::{name, number, time};
use crate::names::Names;
use crate::record::field;
use crate::refused::Why;
use crate::version::Version;
use csv::ByteRecord;
use vs_instance::{Deadhead, Layer, MAX_LAYERS, MAX_STOPS, Trip};
use vs_types::{LayerNo, LayerSet, StopNo};

/// The stops that a deadhead leads from and to.
#[derive(Clone, Copy)]
pub struct Ends {
    pub from: StopNo,
    pub to: StopNo,
}

impl Ends {
    /// A guess of the next deadhead's from the last one, right in nearly all of a table written row by row.
    pub fn after(last: Option<&Deadhead>) -> Ends {
        match last {
            Some(last) => Ends {
                from: last.from,
                to: StopNo(last.to.0.saturating_add(1)),
            },
            None => Ends {
                from: StopNo(0),
                to: StopNo(0),
            },
        }
    }
}

/// Where and when a trip starts or ends.
#[derive(Clone, Copy)]
pub struct Call {
    pub stop: StopNo,
    /// The minute, from 0:00 of the first day.
    pub minute: u32,
}

/// The name of a stop that a record declares.
pub fn stop<'r>(names: &Names, row: &'r ByteRecord) -> Result<&'r [u8], Why>
    requires { field_of (fields_of row.now) 0 ≡ codes "stop" }
    ensures { Judged (stop_rules names.now (fields_of row.now))
        (λ name. name.now ≡ field_of (fields_of row.now) 1) result }
{
    if row.len() != 2 {
        return Err(Why::FieldCount);
    }
    let name = written_name(row, 1)?;
    if names.stop_of(name).is_some() {
        return Err(Why::NameTwice);
    }
    if names.stops() >= MAX_STOPS as usize {
        return Err(Why::TooMany);
    }
    Ok(name.as_bytes())
}

/// The deadhead that a record declares, which may well lead between the stops guessed.
pub fn deadhead(names: &Names, guess: Ends, row: &ByteRecord) -> Result<Deadhead, Why>
    requires kind { field_of (fields_of row.now) 0 ≡ codes "deadhead" }
    ensures { Judged (deadhead_rules names.now (fields_of row.now))
        (DeadheadRow names.now.stops (fields_of row.now)) result }
{
    if row.len() != 5 {
        return Err(Why::FieldCount);
    }
    let Ends { from, to } = known_ends(names, guess, row)?;
    let minutes = written_number(row, 3)?;
    let metres = written_number(row, 4)?;
    Ok(Deadhead {
        from,
        to,
        minutes,
        metres,
    })
}

/// The layer that a record of a text of this version declares.
pub fn layer(version: Version, names: &Names, row: &ByteRecord) -> Result<Layer, Why>
    requires kind { field_of (fields_of row.now) 0 ≡ codes "layer" }
    ensures { Judged (layer_rules version names.now (fields_of row.now))
        (LayerRow version names.now.stops (fields_of row.now) (field_of (fields_of row.now) 1)) result }
{
    let fields = row.len();
    if fields != version.layer_fields(fields) {
        return Err(Why::FieldCount);
    }
    let name = written_name(row, 1)?;
    if names.layer_of(name).is_some() {
        return Err(Why::NameTwice);
    }
    let depot = known_stop(names, row, 2)?;
    let fleet = written_number(row, 3)?;
    let fixed = written_number(row, 4)?;
    let per_minute = written_number(row, 5)?;
    let per_metre = written_number(row, 6)?;
    let stay = written_stay(version, row)?;
    if names.layers() >= MAX_LAYERS as usize {
        return Err(Why::TooMany);
    }
    Ok(Layer {
        depot,
        fleet,
        fixed,
        per_minute,
        per_metre,
        stay,
    })
}

/// The least rest that the record of a layer writes in a text of this version, in minutes. None where it writes none.
fn written_stay(version: Version, row: &ByteRecord) -> Result<Option<u64>, Why>
    ensures { Judged (stay_rules version (fields_of row.now))
        (StayOf (writes_stay version (length (fields_of row.now))) (field_of (fields_of row.now) 7)) result }
{
    if version.writes_stay(row.len()) {
        Ok(Some(written_number(row, 7)?))
    } else {
        Ok(None)
    }
}

/// The trip that a record of a text of this version declares.
pub fn trip(version: Version, names: &Names, row: &ByteRecord) -> Result<Trip, Why>
    requires kind { field_of (fields_of row.now) 0 ≡ codes "trip" }
    requires layers { length names.now.layers ≤ MAX_LAYERS }
    ensures { Judged (trip_rules version names.now (fields_of row.now))
        (TripRow names.now (fields_of row.now) (field_of (fields_of row.now) 1)) result }
{
    named_trip(names, row)?;
    let first = written_call(names, row, 2)?;
    let last = written_call(names, row, 4)?;
    let metres = written_number(row, 6)?;
    let layers = named_layers(names, row)?;
    if names.trips() >= version.most() as usize {
        return Err(Why::TooMany);
    }
    Ok(Trip {
        from: first.stop,
        start: first.minute,
        to: last.stop,
        end: last.minute,
        metres,
        layers,
    })
}

/// Whether a record has the fields of a trip and a name that no trip has.
fn named_trip(names: &Names, row: &ByteRecord) -> Result<(), Why>
    ensures { Judged (trip_name_rules names.now (fields_of row.now)) (λ _. Unit {0}) result }
{
    if row.len() < 8 {
        return Err(Why::FieldCount);
    }
    let name = written_name(row, 1)?;
    if names.trip_of(name).is_some() {
        return Err(Why::NameTwice);
    }
    Ok(())
}

/// The stop that field k of a record names, and the minute that the next one writes.
fn written_call(names: &Names, row: &ByteRecord, k: usize) -> Result<Call, Why>
    requires { k < 8 }
    ensures { Judged (call_rules names.now (fields_of row.now) k)
        (IsCall names.now (fields_of row.now) k) result }
{
    let stop = known_stop(names, row, k)?;
    let minute = written_time(row, k + 1)?;
    Ok(Call { stop, minute })
}

/// The layers that the fields of a record name from the eighth on.
fn named_layers(names: &Names, row: &ByteRecord) -> Result<LayerSet, Why>
    requires fields { 7 ≤ length (fields_of row.now) }
    requires layers { length names.now.layers ≤ MAX_LAYERS }
    ensures { Judged (layer_names names.now.layers [] (drop 7 (fields_of row.now)))
        (NameLayers names.now.layers (drop 7 (fields_of row.now))) result }
{
    let mut set = LayerSet(0);
    for k in 7..row.len() {
        let l = known_layer(names, row, k)?;
        if set.has(l) {
            return Err(Why::NameTwice);
        }
        set = set.with(l);
    }
    Ok(set)
}

/// The name that field k of a record writes.
fn written_name(row: &ByteRecord, k: usize) -> Result<&str, Why>
    ensures { let field = field_of (fields_of row.now) k in
        Judged (WritesName field ∷ []) (λ name. name.now ≡ field) result }
{
    name(field(row, k)).ok_or(Why::BadName)
}

/// The stop that field k of a record names.
fn known_stop(names: &Names, row: &ByteRecord, k: usize) -> Result<StopNo, Why>
    ensures { let field = field_of (fields_of row.now) k in
        Judged (known_name names.now.stops field) (λ s. Numbered names.now.stops field s.0) result }
{
    let name = written_name(row, k)?;
    names.stop_of(name).ok_or(Why::UnknownName)
}

/// The stops that the two fields of a record after its kind name, which may well be those guessed.
fn known_ends(names: &Names, guess: Ends, row: &ByteRecord) -> Result<Ends, Why>
    ensures { Judged (ends_rules names.now (fields_of row.now))
        (NamesEnds names.now (fields_of row.now)) result }
{
    let from = known_stop_near(names, guess.from, row, 1)?;
    let to = known_stop_near(names, guess.to, row, 2)?;
    Ok(Ends { from, to })
}

/// The stop that field k of a record names, which may well be the one guessed.
fn known_stop_near(names: &Names, guess: StopNo, row: &ByteRecord, k: usize) -> Result<StopNo, Why>
    ensures { let field = field_of (fields_of row.now) k in
        Judged (known_name names.now.stops field) (λ s. Numbered names.now.stops field s.0) result }
{
    let name = written_name(row, k)?;
    names.stop_near(guess, name).ok_or(Why::UnknownName)
}

/// The one layer that field k of a record names.
fn known_layer(names: &Names, row: &ByteRecord, k: usize) -> Result<LayerNo, Why>
    ensures { let field = field_of (fields_of row.now) k in
        Judged (known_name names.now.layers field) (λ l. Numbered names.now.layers field l.0
        × ((j : ℕ) → Numbered names.now.layers field j → j ≡ l.0)) result }
{
    let name = written_name(row, k)?;
    names.layer_of(name).ok_or(Why::UnknownName)
}

/// The number that field k of a record writes.
fn written_number(row: &ByteRecord, k: usize) -> Result<u64, Why>
    ensures { let field = field_of (fields_of row.now) k in
        Judged (WritesNumber field ∷ []) (IsNumber field) result }
{
    number(field(row, k)).ok_or(Why::BadNumber)
}

/// The minute of a time that field k of a record writes, from 0:00 of the first day.
fn written_time(row: &ByteRecord, k: usize) -> Result<u32, Why>
    ensures { let field = field_of (fields_of row.now) k in
        Judged (WritesTime field ∷ []) (λ t. IsTime field t) result }
{
    time(field(row, k)).ok_or(Why::BadTime)
}
