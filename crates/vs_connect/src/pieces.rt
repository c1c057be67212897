//! What each move of a vehicle and each trip costs, in cost units.

ghost use Rattle.std.specs.Prelude.{◌≡◌, ℕ, ◌+◌, ◌*◌, ◌<◌, ◌≤◌, length, option_map, IfSome, ℤ, pos, ◌≤ℤ◌};
ghost use Rattle.vs_connect.specs.Cost.{IsCost, lesser_of};
ghost use Rattle.vs_connect.specs.Laws.{PiecesExistWhereMovesDo};
ghost use Rattle.vs_connect.specs.declared.pieces.TheConstants.{MAX_RATED};
ghost use Rattle.vs_instance.specs.HoldingTable.{scaled};
ghost use Rattle.vs_instance.specs.Problem.{Problem};
ghost use Rattle.vs_instance.specs.Blocks.{rest_times as times_of_rest};
ghost use Rattle.vs_instance.specs.Pieces.{out_piece, trip_piece, direct_piece, rest_piece, link_piece, in_piece};

use vs_instance::{Instance, Layer, MAX_METRES, MAX_PER_METRE, MAX_PER_MINUTE, TWO_DAYS};
use vs_types::{LayerNo, SCALE, TripNo};

/// No move and no trip costs more cost units than this, within the limits of an instance.
pub const MAX_PIECE: i64 = 20_000_000_000;

/// No rest, with the ways into the depot and out of it, costs more cost units than this.
pub const MAX_REST: i64 = 30_000_000_000;

/// The minutes and metres of a way or of a trip cost no more cost units than this.
const MAX_RATED: u64 = 15_000_000_000;

/// So many minutes and metres at the rates of a layer, in cost units.
fn rated(layer: &Layer, minutes: u32, metres: u64) -> u64
    requires per_minute { layer.now.per_minute ≤ MAX_PER_MINUTE }
    requires per_metre { layer.now.per_metre ≤ MAX_PER_METRE }
    requires minutes { minutes < TWO_DAYS }
    requires metres { metres ≤ MAX_METRES }
    ensures value { result ≡ layer.now.per_minute * minutes + layer.now.per_metre * metres }
    ensures limit { result ≤ MAX_RATED }
{
    layer.per_minute * u64::from(minutes) + layer.per_metre * metres
}

/// What it costs to take a vehicle of layer l from its depot to trip i, its fixed cost included, in cost
/// units. None exactly where there is no such pull-out.
pub fn out_cost(instance: &Instance, l: LayerNo, i: TripNo) -> Option<i64>
    requires layer { l.0 < length instance.now.layers }
    requires trip { i.0 < length instance.now.trips }
    ensures value { result ≡ option_map pos (out_piece instance.now l.0 i.0) }
    ensures limit { IfSome result IsCost }
{
    // for the proof: layers and trips of an instance are within its limits
    prove!(l.0 < instance.layers() && i.0 < instance.trips());
    let layer = instance.layer(l);
    let trip = instance.trip(i);
    let way = instance.way(layer.depot, trip.from)?;
    if way.minutes > trip.start {
        return None;
    }
    let cost = layer.fixed + rated(layer, way.minutes, u64::from(way.metres));
    Some(cost as i64)
}

/// What trip i itself costs in layer l, in cost units.
pub fn trip_cost(instance: &Instance, l: LayerNo, i: TripNo) -> i64
    requires layer { l.0 < length instance.now.layers }
    requires trip { i.0 < length instance.now.trips }
    ensures value { result ≡ pos (trip_piece instance.now l.0 i.0) }
    ensures limit { IsCost result }
{
    // for the proof: layers and trips of an instance are within its limits
    prove!(l.0 < instance.layers() && i.0 < instance.trips());
    let trip = instance.trip(i);
    rated(instance.layer(l), trip.end - trip.start, trip.metres) as i64
}

/// What a vehicle of layer l costs that goes straight from the end of trip i to the start of trip j, in cost units.
/// None exactly where i doesn't connect to j.
pub fn direct_cost(instance: &Instance, l: LayerNo, i: TripNo, j: TripNo) -> Option<i64>
    requires layer { l.0 < length instance.now.layers }
    requires trip { i.0 < length instance.now.trips }
    requires next { j.0 < length instance.now.trips }
    ensures value { result ≡ option_map pos (direct_piece instance.now l.0 i.0 j.0) }
    ensures limit { IfSome result IsCost }
{
    // for the proof: layers and trips of an instance are within its limits
    prove!(i.0 < instance.trips() && j.0 < instance.trips());
    let ended = instance.trip(i);
    let next = instance.trip(j);
    let way = instance.way(ended.to, next.from)?;
    if ended.end + way.minutes > next.start {
        return None;
    }
    let layer = instance.layer(l);
    Some(rated(layer, next.start - ended.end, u64::from(way.metres)) as i64)
}

/// What it costs that a vehicle of layer l pulls in after trip i, rests, and pulls out again to trip j, in cost units.
/// Its rest costs nothing. None exactly where i doesn't rest before j in l.
pub fn rest_cost(instance: &Instance, l: LayerNo, i: TripNo, j: TripNo) -> Option<i64>
    requires layer { l.0 < length instance.now.layers }
    requires trip { i.0 < length instance.now.trips }
    requires next { j.0 < length instance.now.trips }
    ensures value { result ≡ option_map pos (rest_piece instance.now l.0 i.0 j.0) }
    ensures limit { IfSome result (λ cost. (pos 0 ≤ℤ cost) × (cost ≤ℤ MAX_REST)) }
{
    // for the proof: layers and trips of an instance are within its limits
    prove!(l.0 < instance.layers() && i.0 < instance.trips() && j.0 < instance.trips());
    let layer = instance.layer(l);
    let ended = instance.trip(i);
    let next = instance.trip(j);
    let stay = layer.stay?;
    let back = instance.way(ended.to, layer.depot)?;
    let out = instance.way(layer.depot, next.from)?;
    if u64::from(ended.end + back.minutes) + stay + u64::from(out.minutes) > u64::from(next.start) {
        return None;
    }
    let cost = rated(layer, back.minutes, u64::from(back.metres))
        + rated(layer, out.minutes, u64::from(out.metres));
    Some(cost as i64)
}

/// What a vehicle of layer l costs from the end of trip i to the start of trip j, in cost units. It goes straight
/// or by the depot, as is cheaper. None exactly where i doesn't connect to j.
pub fn link_cost(instance: &Instance, l: LayerNo, i: TripNo, j: TripNo) -> Option<i64>
    requires layer { l.0 < length instance.now.layers }
    requires trip { i.0 < length instance.now.trips }
    requires next { j.0 < length instance.now.trips }
    ensures value { result ≡ option_map pos (link_piece instance.now l.0 i.0 j.0) }
    ensures limit { IfSome result IsCost }
{
    let direct = direct_cost(instance, l, i, j)?;
    match rest_cost(instance, l, i, j) {
        Some(rest) if rest < direct => Some(rest),
        _ => Some(direct),
    }
}

/// When a vehicle of layer l is back in its depot between trips i and j, and when it leaves it again. Both are in
/// minutes from 0:00 of the first day. None exactly where it goes straight: where i doesn't rest before j in l, or a
/// rest isn't cheaper.
pub fn rest_times(instance: &Instance, l: LayerNo, i: TripNo, j: TripNo) -> Option<(u32, u32)>
    requires layer { l.0 < length instance.now.layers }
    requires trip { i.0 < length instance.now.trips }
    requires next { j.0 < length instance.now.trips }
    ensures { result ≡ times_of_rest instance.now l i j }
{
    // for the proof: layers and trips of an instance are within its limits
    prove!(l.0 < instance.layers() && i.0 < instance.trips() && j.0 < instance.trips());
    let rest = rest_cost(instance, l, i, j)?;
    let direct = direct_cost(instance, l, i, j)?;
    if rest >= direct {
        return None;
    }
    let depot = instance.layer(l).depot;
    let ended = instance.trip(i);
    let next = instance.trip(j);
    let back = instance.minutes(ended.to, depot)?;
    let out = instance.minutes(depot, next.from)?;
    Some((ended.end + back, next.start - out))
}

/// What it costs to take a vehicle of layer l from trip i back to its depot, in cost units. None exactly
/// where there is no such pull-in.
pub fn in_cost(instance: &Instance, l: LayerNo, i: TripNo) -> Option<i64>
    requires layer { l.0 < length instance.now.layers }
    requires trip { i.0 < length instance.now.trips }
    ensures value { result ≡ option_map pos (in_piece instance.now l.0 i.0) }
    ensures limit { IfSome result IsCost }
{
    // for the proof: layers and trips of an instance are within its limits
    prove!(l.0 < instance.layers() && i.0 < instance.trips());
    let layer = instance.layer(l);
    let way = instance.way(instance.trip(i).to, layer.depot)?;
    Some(rated(layer, way.minutes, u64::from(way.metres)) as i64)
}

/// A cost in 1/1000 of a cost unit, or nothing in a ray, where no piece counts.
pub fn scaled(ray: bool, cost: i64) -> i64
    requires { IsCost cost }
    ensures { (piece : ℕ) → cost ≡ pos piece → result ≡ scaled ray piece }
{
    if ray { 0 } else { SCALE * cost }
}

/// The lesser of two costs, where there are both, else the one that there is.
pub fn lesser(one: Option<i64>, other: Option<i64>) -> Option<i64>
    ensures { result ≡ lesser_of one other }
{
    match (one, other) {
        (Some(one), Some(other)) => Some(one.min(other)),
        (None, other) => other,
        (one, None) => one,
    }
}

/// A move has a cost exactly where a vehicle can make it.
pub fn pieces_exist_where_moves_do()
    ensures { (p : Problem) → PiecesExistWhereMovesDo p }
{}
