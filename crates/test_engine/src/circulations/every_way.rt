//! What every way to give four trips to two vehicles costs, by the clock.

ghost use Rattle.std.specs.Prelude.{◌≤ℤ◌, pos};

use super::offers::Row;

/// How many ways there are: each trip is run by vehicle 0, by vehicle 1, or not at all.
const WAYS: u32 = 81;

/// By trip the vehicle that runs it, 2 where none does.
type Way = [u32; 4];

fn way(number: u32) -> Way {
    [number % 3, number / 3 % 3, number / 9 % 3, number / 27 % 3]
}

/// How many minutes it takes from a stop to a stop, of which the depot is 0.
fn minutes(from: u32, to: u32) -> i64
    ensures few { (pos 0 ≤ℤ result) × (result ≤ℤ pos 15) }
{
    if from == to {
        0
    } else if from == 0 || to == 0 {
        10
    } else {
        15
    }
}

/// Whether a vehicle that ran one trip can run another one next.
fn can_follow(one: Row, next: Row) -> bool {
    i64::from(one.3) + minutes(one.2, next.0) <= i64::from(next.1)
}

/// What a vehicle costs that begins with one trip and ends with another one, in 1/1000 of a cost unit.
fn cost_between(first: Row, last: Row) -> i64 {
    let begins = i64::from(first.1);
    let ends = i64::from(last.3);
    let out = minutes(0, first.0);
    let back = minutes(last.2, 0);
    1_000 * (1_000 + (ends + back) - (begins - out))
}

/// What a vehicle costs that runs its trips of a way, None where it can't run them all.
fn cost_of_vehicle(rows: &[Row; 4], way: Way, vehicle: u32) -> Option<i64> {
    let mut run: Option<(Row, Row)> = None;
    for (row, by) in rows.iter().zip(&way) {
        if *by != vehicle {
            continue;
        }
        run = match run {
            None => Some((*row, *row)),
            Some((first, last)) if can_follow(last, *row) => Some((first, *row)),
            Some(_) => return None,
        };
    }
    match run {
        None => Some(0),
        Some((first, last)) => Some(cost_between(first, last)),
    }
}

/// What both vehicles cost, None where they can't run their trips.
fn cost_of_way(rows: &[Row; 4], way: Way) -> Option<i64> {
    cost_of_vehicle(rows, way, 0)?.checked_add(cost_of_vehicle(rows, way, 1)?)
}

/// Which trips are run.
fn run_by(way: Way) -> [bool; 4] {
    way.map(|by| by < 2)
}

/// The multipliers of the trips marked.
fn paid_for(multipliers: &[i64; 4], marks: &[bool]) -> Option<i64> {
    let mut paid: i64 = 0;
    for (multiplier, mark) in multipliers.iter().zip(marks) {
        if *mark {
            paid = paid.checked_add(*multiplier)?;
        }
    }
    Some(paid)
}

/// What a way costs less the multipliers of its trips, None where it can't be gone.
fn value_of_way(rows: &[Row; 4], multipliers: &[i64; 4], way: Way) -> Option<i64> {
    cost_of_way(rows, way)?.checked_sub(paid_for(multipliers, &run_by(way))?)
}

/// The least value of all ways.
pub fn least_value(rows: &[Row; 4], multipliers: &[i64; 4]) -> i64 {
    let mut least = 0;
    for number in 0..WAYS {
        if let Some(value) = value_of_way(rows, multipliers, way(number)) {
            least = least.min(value);
        }
    }
    least
}

/// The least cost of the ways that run exactly the trips marked, None where there is none.
pub fn least_that_runs(rows: &[Row; 4], marks: &[bool]) -> Option<i64> {
    let mut least: Option<i64> = None;
    for number in 0..WAYS {
        let way = way(number);
        if run_by(way).as_slice() != marks {
            continue;
        }
        if let Some(cost) = cost_of_way(rows, way) {
            least = Some(least.map_or(cost, |known| known.min(cost)));
        }
    }
    least
}

/// That cost less the multipliers of the trips.
pub fn value_of_marked(rows: &[Row; 4], multipliers: &[i64; 4], marks: &[bool]) -> Option<i64> {
    least_that_runs(rows, marks)?.checked_sub(paid_for(multipliers, marks)?)
}
