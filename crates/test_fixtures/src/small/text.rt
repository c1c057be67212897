//! The text of a small timetable.

use crate::small::{Layer, Small, Trip};
use std::alloc::Global;
use std::test::Fail;

fn name(stop: u64) -> &'static str {
    match stop {
        0 => "D",
        1 => "P",
        _ => "Q",
    }
}

/// The names of a set of layers.
fn set_name(layers: u64) -> &'static str {
    match layers {
        1 => "L1",
        2 => "L2",
        _ => "L1,L2",
    }
}

fn add_ways(alloc: Global, small: &Small, text: &mut Vec<u8>) -> Result<(), Fail> {
    for k in [1, 2, 3, 5, 6, 7] {
        let (from, to) = (k / 3, k % 3);
        if let Some(way) = small.way(from, to) {
            let (from, to, minutes, metres) = (name(from), name(to), way.minutes, way.metres);
            let row = format!(in alloc; "deadhead,{from},{to},{minutes},{metres}\n")?;
            text.extend_from_slice(row.as_bytes())?;
        }
    }
    Ok(())
}

fn add_layer(alloc: Global, layer: &Layer, text: &mut Vec<u8>) -> Result<(), Fail> {
    let (bit, depot, fleet, fixed) = (layer.bit, name(layer.depot), layer.fleet, layer.fixed);
    let (minute, metre, stay) = (layer.per_minute, layer.per_metre, layer.stay);
    let row = format!(in alloc; "layer,L{bit},{depot},{fleet},{fixed},{minute},{metre},{stay}\n")?;
    text.extend_from_slice(row.as_bytes())?;
    Ok(())
}

fn add_trip(alloc: Global, n: usize, trip: &Trip, text: &mut Vec<u8>) -> Result<(), Fail> {
    let (from, to, metres, layers) = (
        name(trip.from),
        name(trip.to),
        trip.metres,
        set_name(trip.layers),
    );
    let (hour, minute) = (trip.start / 60, trip.start % 60);
    let (last, past) = (trip.end / 60, trip.end % 60);
    let row = format!(in alloc;
        "trip,T{n},{from},{hour}:{minute:02},{to},{last}:{past:02},{metres},{layers}\n"
    )?;
    text.extend_from_slice(row.as_bytes())?;
    Ok(())
}

/// The trips, from the last one on.
fn add_trips(alloc: Global, trips: &[Trip], text: &mut Vec<u8>) -> Result<(), Fail> {
    for (n, trip) in trips.iter().enumerate().rev() {
        add_trip(alloc, n, trip, text)?;
    }
    Ok(())
}

/// The text of the timetable. Its trips stand in turned order, so that their numbers aren't in the order of time.
pub fn text_of(alloc: Global, small: &Small) -> Result<Vec<u8>, Fail> {
    let mut text = Vec::from_slice(alloc, b"instance,2\nstop,D\nstop,P\nstop,Q\n")?;
    add_ways(alloc, small, &mut text)?;
    for layer in &small.layers {
        add_layer(alloc, layer, &mut text)?;
    }
    add_trips(alloc, &small.trips, &mut text)?;
    Ok(text)
}
