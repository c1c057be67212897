//! Circulations of a layer, taken apart into blocks.

ghost use Rattle.std.specs.Prelude.{◌≡◌, ℕ, ◌<◌, ◌≤◌, true, length, slice_index, IfOk};
ghost use Rattle.std.specs.List.{sum_by};
ghost use Rattle.vs_layer.specs.Circulation.{IsCirculation, units_in, units_out};
ghost use Rattle.vs_layer.specs.Graph.{arc_of};
ghost use Rattle.vs_match.specs.LawfulNets.{IsLawful};

use std::alloc::Global;
use std::test::Fail;
use test_fixtures::instance_of;
use test_fixtures::texts::{LAYER, STOPS, TRIPS};
use vs_decomp::blocks_of;
use vs_instance::Instance;
use vs_layer::{Flow, Net};
use vs_match::{LayerNet, first_match, latest_first_match};
use vs_types::{LayerNo, Memory, TripNo};

/// What an arc carries.
fn units_on(flow: &Flow, k: u32) -> u32
    ensures { result ≡ slice_index flow.now.units.items k }
{
    match flow.units.get(k as usize) {
        Some(units) => *units,
        None => 0,
    }
}

/// What these arcs carry together.
fn carried(flow: &Flow, arcs: &[u32]) -> u128
    ensures { result ≡ sum_by (λ k. slice_index flow.now.units.items k) arcs.now }
{
    let mut sum = 0;
    for k in arcs {
        sum += u128::from(units_on(flow, *k));
    }
    sum
}

fn has_room(net: &Net, flow: &Flow) -> bool
    requires { length flow.now.units.items ≡ length net.now.arcs }
    ensures { result ≡ true → (k : ℕ) → k < length net.now.arcs
        → slice_index flow.now.units.items k ≤ (arc_of net.now k).room }
{
    for k in 0..net.arcs() {
        if flow.units[k as usize] > net.arc(k).room {
            return false;
        }
    }
    true
}

fn conserves(net: &Net, flow: &Flow) -> bool
    ensures { result ≡ true → (v : ℕ) → v < net.now.nodes
        → units_in net.now flow.now.units.items v ≡ units_out net.now flow.now.units.items v }
{
    for v in 0..net.nodes() {
        if carried(flow, net.reaching(v)) != carried(flow, net.leaving(v)) {
            return false;
        }
    }
    true
}

fn circulates(net: &Net, flow: &Flow) -> bool
    ensures { result ≡ true → IsCirculation net.now flow.now.units.items }
{
    flow.units.len() == net.arcs() as usize && has_room(net, flow) && conserves(net, flow)
}

/// Whether the net is by latest first match, units on its arcs, and the trips of the blocks. The arcs of either net are
/// two pull-outs, the first trip, the wait at its stop, the second trip, two pull-ins and the return.
const UNITS: [(bool, [u32; 8], &[&[TripNo]]); 3] = [
    // A pull-out to the first trip, both trips, the pull-in after the second, and the return.
    (false, [1, 0, 1, 0, 1, 0, 1, 1], &[&[TripNo(0), TripNo(1)]]),
    (true, [1, 0, 1, 0, 1, 0, 1, 1], &[&[TripNo(0), TripNo(1)]]),
    // A round without a trip.
    (false, [1, 0, 0, 1, 0, 0, 1, 1], &[]),
];

/// The net of the first layer, by first match or by latest first match.
fn net_of(alloc: Global, instance: &Instance, latest: bool) -> Result<LayerNet, Memory>
    requires { 0 < length instance.now.layers }
    ensures { IfOk result (IsLawful instance.now 0) }
{
    if latest {
        latest_first_match(alloc, instance, LayerNo(0))
    } else {
        first_match(alloc, instance, LayerNo(0))
    }
}

/// The trips of the blocks of these units, which have to be a circulation.
fn blocks(alloc: Global, latest: bool, units: &[u32]) -> Result<Vec<Vec<TripNo>>, Fail> {
    let instance = instance_of(alloc, &[STOPS, LAYER, TRIPS])?;
    if instance.layers() == 0 {
        return Err(Fail::new("no layer"));
    }
    let net = net_of(alloc, &instance, latest)?;
    let flow = Flow {
        units: units.to_vec(alloc)?,
    };
    if !circulates(net.net(), &flow) {
        return Err(Fail::new("no circulation"));
    }
    let mut trips = Vec::new(alloc);
    for block in blocks_of(alloc, &instance, LayerNo(0), &net, &flow)? {
        trips.push(block.trips)?;
    }
    Ok(trips)
}

#[test]
fn are_blocks_of_trips(rt: HostRuntime) -> Result<(), Fail> {
    for (latest, units, wanted) in UNITS {
        let found = blocks(rt.alloc(), latest, &units)?;
        assert_eq!(rt; found.len(), wanted.len());
        for (trips, expected) in found.iter().zip(wanted) {
            assert_eq!(rt; trips.as_slice(), *expected);
        }
    }
    Ok(())
}
