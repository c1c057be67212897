//! What blocks cost, as the pieces that their vehicles pay, and when their vehicles leave and are back.

ghost use Rattle.std.specs.Prelude.{◌≡◌, ℕ, ◌*◌, ◌<◌, ◌≤◌, length, All, sum_by, pos, ◌≤ℤ◌};
ghost use Rattle.vs_plan.specs.Blocks.{pairs_of};
ghost use Rattle.vs_instance.specs.BlockPieces.{cost_of, links_between};
ghost use Rattle.vs_instance.specs.Blocks.{IsBlock, block_cost, minutes_of, pull_in_minute, pull_out_minute};
ghost use Rattle.vs_instance.specs.Instance.{IsInstance};
ghost use Rattle.vs_instance.specs.Pieces.{trip_piece};
ghost use Rattle.vs_instance.specs.Plan.{IsPlan, plan_cost};
ghost use Rattle.vs_instance.specs.Ways.{way};

use crate::block::Block;
use vs_connect::{in_cost, link_cost, out_cost, trip_cost};
use vs_instance::{Instance, MAX_MINUTES, MAX_TRIPS, TWO_DAYS};
use vs_types::{LayerNo, StopNo, TripNo};

/// No vehicle is back in its depot later than at this minute: the last of two days, and the longest way.
pub const MAX_PULL_IN: u32 = 4_319;

/// No block costs more cost units than this for each of its trips.
pub const MAX_COST_PER_TRIP: u64 = 50_000_000_000;

/// No plan costs more cost units than this, since it has at most 10,000 trips.
pub const MAX_PLAN_COST: i64 = 500_000_000_000_000;

/// The minutes of the way from stop k to stop s, 0 where there is none.
fn minutes_or_none(instance: &Instance, k: StopNo, s: StopNo) -> u32
    requires instance { IsInstance instance.now }
    requires from { k.0 < instance.now.stops }
    requires to { s.0 < instance.now.stops }
    ensures minutes { result ≡ minutes_of (way instance.now k.0 s.0) }
    ensures few { result ≤ MAX_MINUTES }
{
    match instance.way(k, s) {
        Some(way) => way.minutes,
        None => 0,
    }
}

/// The minutes at which a vehicle of layer l that runs the trips leaves its depot and is back.
fn run_times(instance: &Instance, l: LayerNo, trips: &[TripNo]) -> (u32, u32)
    requires instance { IsInstance instance.now }
    requires block { IsBlock instance.now l trips.now }
    ensures out { result.0 ≡ pull_out_minute instance.now l trips.now }
    ensures back { result.1 ≡ pull_in_minute instance.now l trips.now }
    ensures in_order { result.0 ≤ result.1 }
    ensures limit { result.1 ≤ MAX_PULL_IN }
{
    let depot = instance.layer(l).depot;
    let first = instance.trip(trips[0]);
    let last = instance.trip(trips[trips.len() - 1]);
    let out = minutes_or_none(instance, depot, first.from);
    let back = minutes_or_none(instance, last.to, depot);
    (first.start - out, last.end + back)
}

/// What the trips themselves cost in layer l, in cost units.
fn trips_cost(instance: &Instance, l: LayerNo, trips: &[TripNo]) -> i64
    requires layer { l.0 < length instance.now.layers }
    requires trips { All (λ i. i.0 < length instance.now.trips) trips.now }
    requires few { length trips.now ≤ TWO_DAYS }
    ensures { result ≡ pos (sum_by (λ i. trip_piece instance.now l.0 i.0) trips.now) }
{
    let mut cost = 0;
    for i in trips {
        cost += trip_cost(instance, l, *i);
    }
    cost
}

/// What it costs in layer l to get from each of the trips to the next, in cost units.
fn links_cost(instance: &Instance, l: LayerNo, trips: &[TripNo]) -> i64
    requires layer { l.0 < length instance.now.layers }
    requires trips { All (λ i. i.0 < length instance.now.trips) trips.now }
    requires few { length trips.now ≤ TWO_DAYS }
    ensures { result ≡ pos (sum_by cost_of (links_between instance.now l trips.now)) }
{
    let mut cost = 0;
    for place in 1..trips.len() {
        let ended = trips[place - 1];
        let next = trips[place];
        cost += link_cost(instance, l, ended, next).unwrap_or(0);
    }
    cost
}

/// What a vehicle of layer l costs that runs the trips, in cost units. This is for its pull-out, its trips, the ways
/// between them, straight or by the depot, and its pull-in. A block has each of these.
fn run_cost(instance: &Instance, l: LayerNo, trips: &[TripNo]) -> i64
    requires instance { IsInstance instance.now }
    requires block { IsBlock instance.now l trips.now }
    ensures value { result ≡ pos (block_cost instance.now l trips.now) }
    ensures limit { result ≤ℤ pos (MAX_COST_PER_TRIP * length trips.now) }
{
    let first = trips[0];
    let last = trips[trips.len() - 1];
    let out = out_cost(instance, l, first).unwrap_or(0);
    let served = trips_cost(instance, l, trips);
    let between = links_cost(instance, l, trips);
    let back = in_cost(instance, l, last).unwrap_or(0);
    let there = out + served;
    let driven = there + between;
    driven + back
}

/// The minute at which the vehicle of a block leaves its depot, and the one at which it is back. Both are
/// counted from 0:00 of the first day.
pub fn block_times(instance: &Instance, block: &Block) -> (u32, u32)
    requires { IsBlock instance.now block.now.layer block.now.trips.items }
    ensures out { result.0 ≡ pull_out_minute instance.now block.now.layer block.now.trips.items }
    ensures back { result.1 ≡ pull_in_minute instance.now block.now.layer block.now.trips.items }
    ensures in_order { result.0 ≤ result.1 }
    ensures limit { result.1 ≤ MAX_PULL_IN }
{
    // for the proof: the instance is within its limits
    prove!(block.layer.0 < instance.layers());
    run_times(instance, block.layer, &block.trips)
}

/// What a block costs, in cost units: for the vehicle, for each minute that counts, and for each metre. The minutes
/// from leaving its depot to being back count, save those that it rests there in between.
pub fn block_cost(instance: &Instance, block: &Block) -> i64
    requires { IsBlock instance.now block.now.layer block.now.trips.items }
    ensures value { result ≡ pos (block_cost instance.now block.now.layer block.now.trips.items) }
    ensures limit { result ≤ℤ pos (MAX_COST_PER_TRIP * length block.now.trips.items) }
{
    // for the proof: the instance is within its limits
    prove!(block.layer.0 < instance.layers());
    run_cost(instance, block.layer, &block.trips)
}

/// What the blocks of a plan cost together, in cost units.
pub fn blocks_cost(instance: &Instance, blocks: &[Block]) -> i64
    requires { IsPlan instance.now (pairs_of blocks.now) }
    ensures value { result ≡ pos (plan_cost instance.now (pairs_of blocks.now)) }
    ensures limit { result ≤ℤ MAX_PLAN_COST }
{
    // for the proof: the instance is within its limits
    prove!(instance.trips() <= MAX_TRIPS);
    let mut cost = 0;
    for block in blocks {
        cost += run_cost(instance, block.layer, &block.trips);
    }
    cost
}
