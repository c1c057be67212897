//! The timetable of a plan's blocks.

ghost use Rattle.std.specs.Prelude.{◌≡◌, ◌+◌, ◌-◌, ◌<◌, ◌≤◌, [], ◌∷◌, ◌++◌, codes, decimal, length, IfSome, OnOk};
ghost use Rattle.vs_instance.specs.Blocks.{IsBlock};
ghost use Rattle.vs_instance.specs.Plan.{IsPlan};
ghost use Rattle.vs_plan.specs.Blocks.{pair_of, pairs_of};
ghost use Rattle.vs_reader.specs.Names.{HaveCounts, name_of};
ghost use Rattle.vs_reader.specs.Rows.{fields, line, lines};
ghost use Rattle.vs_rows.specs.Fields.{time_field};
ghost use Rattle.vs_reply.specs.Timetable.{next_rows, rest_rows, run_row, run_rows, timetable, trip_at, vehicle_row, vehicle_rows};

use vs_connect::rest_times;
use vs_instance::Instance;
use vs_plan::{Block, block_cost, block_times};
use vs_reader::Names;
use vs_rows::Text;
use vs_types::{LayerNo, Memory, TripNo};

/// Writes the timetable of a plan's blocks: the rows of each block, in their order.
pub fn write_timetable(
    text: &mut Text,
    instance: &Instance,
    names: &Names,
    blocks: &[Block],
) -> Result<(), Memory>
    requires plan { IsPlan instance.now (pairs_of blocks.now) }
    requires names { HaveCounts instance.now names.now }
    ensures { OnOk result (text.new ≡ text.old
        ++ lines (timetable instance.now names.now (pairs_of blocks.now))) }
{
    for (k, block) in blocks.iter().enumerate() {
        write_block(text, instance, names, k, block)?;
    }
    Ok(())
}

/// Writes the rows of a block, which counts from 0.
fn write_block(
    text: &mut Text,
    instance: &Instance,
    names: &Names,
    k: usize,
    block: &Block,
) -> Result<(), Memory>
    requires number { k < usize.MAX }
    requires block { IsBlock instance.now block.now.layer block.now.trips.items }
    requires names { HaveCounts instance.now names.now }
    ensures { OnOk result (text.new ≡ text.old
        ++ lines (vehicle_rows instance.now names.now k (pair_of block.now))) }
{
    write_vehicle(text, instance, names, k, block)?;
    write_runs(text, instance, names, k, block)
}

/// Writes the row of a block's vehicle.
fn write_vehicle(
    text: &mut Text,
    instance: &Instance,
    names: &Names,
    k: usize,
    block: &Block,
) -> Result<(), Memory>
    requires number { k < usize.MAX }
    requires block { IsBlock instance.now block.now.layer block.now.trips.items }
    requires names { HaveCounts instance.now names.now }
    ensures { OnOk result (text.new ≡ text.old
        ++ line (vehicle_row instance.now names.now k (pair_of block.now))) }
{
    let (out, back) = block_times(instance, block);
    begin_vehicle(text, names, k, block.layer, out)?;
    text.time(back)?;
    text.number(block_cost(instance, block))?;
    text.end_row()
}

/// Begins the row of a vehicle with its number, its layer, and when it leaves its depot.
fn begin_vehicle(
    text: &mut Text,
    names: &Names,
    k: usize,
    l: LayerNo,
    out: u32,
) -> Result<(), Memory>
    requires number { k < usize.MAX }
    requires layer { l.0 < length names.now.layers }
    requires minute { out < 6000 }
    ensures { OnOk result (text.new ≡ text.old
        ++ fields (codes "vehicle" ∷ decimal (k + 1) ∷ name_of names.now.layers l.0 ∷ time_field out ∷ [])) }
{
    text.begin_row("vehicle")?;
    vehicle_number(text, k)?;
    text.field(names.layer(l))?;
    text.time(out)
}

/// Adds the number of a block's vehicle to a row. It counts from 0, and is written from 1 on.
fn vehicle_number(text: &mut Text, k: usize) -> Result<(), Memory>
    requires { k < usize.MAX }
    ensures { OnOk result (text.new ≡ text.old ++ 44 ∷ decimal (k + 1)) }
{
    text.number(k + 1)
}

/// Writes a row for each trip of a block, which counts from 0, and one for each rest between two of them.
fn write_runs(
    text: &mut Text,
    instance: &Instance,
    names: &Names,
    k: usize,
    block: &Block,
) -> Result<(), Memory>
    requires number { k < usize.MAX }
    requires block { IsBlock instance.now block.now.layer block.now.trips.items }
    requires names { HaveCounts instance.now names.now }
    ensures { OnOk result (text.new ≡ text.old
        ++ lines (run_rows instance.now names.now k block.now.layer block.now.trips.items)) }
{
    let first = block.trips[0];
    write_run(text, instance, names, k, first)?;
    for place in 1..block.trips.len() {
        write_next(text, instance, names, k, block, place)?;
    }
    Ok(())
}

/// Writes the row of the trip at a place of a block, which counts from 0. Where the vehicle rests between the trip
/// before and this one, the row of that rest comes first.
fn write_next(
    text: &mut Text,
    instance: &Instance,
    names: &Names,
    k: usize,
    block: &Block,
    place: usize,
) -> Result<(), Memory>
    requires number { k < usize.MAX }
    requires block { IsBlock instance.now block.now.layer block.now.trips.items }
    requires place { (1 ≤ place) × (place < length block.now.trips.items) }
    requires names { HaveCounts instance.now names.now }
    ensures { let trips = block.now.trips.items in OnOk result (text.new ≡ text.old
        ++ lines (next_rows instance.now names.now k block.now.layer
        (trip_at trips (place - 1)) (trip_at trips place))) }
{
    let ended = block.trips[place - 1];
    let next = block.trips[place];
    // for the proof: trips of an instance are within its limits
    prove!(next.0 < instance.trips());
    let times = rest_times(instance, block.layer, ended, next);
    write_rest(text, k, times)?;
    write_run(text, instance, names, k, next)
}

/// Writes the row of a rest, with when the vehicle is back in its depot and when it leaves again; nothing where it
/// doesn't rest.
fn write_rest(text: &mut Text, k: usize, times: Option<(u32, u32)>) -> Result<(), Memory>
    requires number { k < usize.MAX }
    requires minutes { IfSome times (λ t. (t.0 < 6000) × (t.1 < 6000)) }
    ensures { OnOk result (text.new ≡ text.old ++ lines (rest_rows k times)) }
{
    let Some((back, out)) = times else {
        return Ok(());
    };
    text.begin_row("rest")?;
    vehicle_number(text, k)?;
    text.time(back)?;
    text.time(out)?;
    text.end_row()
}

/// Writes the row of a trip.
fn write_run(
    text: &mut Text,
    instance: &Instance,
    names: &Names,
    k: usize,
    i: TripNo,
) -> Result<(), Memory>
    requires number { k < usize.MAX }
    requires trip { i.0 < length instance.now.trips }
    requires names { HaveCounts instance.now names.now }
    ensures { OnOk result (text.new ≡ text.old ++ line (run_row instance.now names.now k i)) }
{
    // for the proof: trips of an instance are within its limits
    prove!(i.0 < instance.trips());
    let trip = instance.trip(i);
    text.begin_row("run")?;
    vehicle_number(text, k)?;
    text.field(names.trip(i))?;
    text.field(names.stop(trip.from))?;
    text.time(trip.start)?;
    text.field(names.stop(trip.to))?;
    text.time(trip.end)?;
    text.end_row()
}
