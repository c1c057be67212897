//! The trips that a least circulation of offered trips runs, without prices.

ghost use Rattle.std.specs.Prelude.{◌≡◌, ℕ, ◌<◌, ◌≤◌, ◌↔◌, IsTrue, OnOk, length, slice_index_or, true, false};
ghost use Rattle.vs_types.specs.declared.numbers.LayerNo.{LayerNo};
ghost use Rattle.vs_instance.specs.Problem.{Problem};
ghost use Rattle.vs_instance.specs.Instance.{IsInstance};
ghost use Rattle.vs_instance.specs.declared.limits.TheConstants.{MAX_TRIPS};
ghost use Rattle.vs_match.specs.LawfulNets.{IsLawful};
ghost use Rattle.vs_match.specs.LayerNets.{net_at};
ghost use Rattle.vs_circ.specs.Circulations.{RunLeast, RunTrip};
ghost use Rattle.vs_circ.specs.Offers.{AreOffers};
ghost use Rattle.vs_circ.specs.shipping.Ready.{CanRun, IsReadyToRun};
ghost use Rattle.vs_circ.specs.shipping.Settled.{IsSettled};

use crate::costing::settled_cost;
use crate::misfits::recall;
use crate::settling::settle_again;
use std::alloc::Global;
use vs_layer::Net;
use vs_match::LayerNet;
use vs_path::Search;
use vs_ship::{Kept, Work};
use vs_types::{LayerNo, Memory, TripNo};

/// To scan so many arcs takes as long as to settle a node without its arcs.
const ARCS_A_NODE: u64 = 16;

/// So does a look at so many trips.
const TRIPS_A_NODE: u64 = 2;

/// Makes what is kept ready for `runs` in these nets, which finds it by their numbers. It asks nothing of what is kept;
/// any other call made with it ends that.
pub fn begin_runs(alloc: Global, nets: &[LayerNet], work: &mut Work) -> Result<(), Memory>
    ensures { OnOk result (IsReadyToRun nets.now work.new) }
{
    for (place, net) in nets.iter().enumerate() {
        work.renew(alloc, place, net.net())?;
    }
    Ok(())
}

/// Marks the trips that a least circulation of offered trips runs in the net of this number. `relaxed` also finds
/// one, with prices that show that it is least. Every entry is set. Gives what that circulation costs, in 1/1000 of a
/// cost unit, with no multipliers taken off.
pub fn runs(
    nets: &[LayerNet],
    l: LayerNo,
    offers: &[Option<i64>],
    work: &mut Work,
    answer: &mut [bool],
) -> i128
    requires layer { l.0 < length nets.now }
    requires of_layer { (p : Problem) × IsInstance p × IsLawful p l.0 (net_at nets.now l.0)
        × AreOffers p l.0 offers.now }
    requires ready { IsReadyToRun nets.now work.old }
    requires each_trip { length answer.old ≡ length offers.now }
    ensures ready { IsReadyToRun nets.now work.new }
    ensures least { (p : Problem) → IsInstance p → IsLawful p l.0 (net_at nets.now l.0)
        → AreOffers p l.0 offers.now → RunLeast p l (net_at nets.now l.0) offers.now answer.new result }
{
    let place = l.0 as usize;
    run(&nets[place], offers, &mut work.kept[place], answer)
}

/// Marks the trips of a least circulation, from what is kept for the net. Gives what it costs.
fn run(net: &LayerNet, offers: &[Option<i64>], kept: &mut Kept, answer: &mut [bool]) -> i128
    requires of_layer { (p : Problem) × (l : LayerNo) × IsInstance p × IsLawful p l.0 net.now
        × AreOffers p l.0 offers.now }
    requires kept { CanRun net.now kept.old }
    requires each_trip { length answer.old ≡ length offers.now }
    ensures kept { CanRun net.now kept.new }
    ensures least { (p : Problem) (l : LayerNo) → IsInstance p → IsLawful p l.0 net.now
        → AreOffers p l.0 offers.now → RunLeast p l net.now offers.now answer.new result }
{
    run_from(net, offers, kept);
    read_run(net, offers, kept, answer)
}

/// Finds a least circulation of offered trips, from what is kept for the net, where it stands afterwards. `read_run`
/// tells which it is. Nets may be run side by side, each with what is kept for it.
pub fn run_from(net: &LayerNet, offers: &[Option<i64>], kept: &mut Kept)
    requires of_layer { (p : Problem) × (l : LayerNo) × IsInstance p × IsLawful p l.0 net.now
        × AreOffers p l.0 offers.now }
    requires kept { CanRun net.now kept.old }
    ensures kept { CanRun net.now kept.new }
    ensures settled { IsSettled net.now offers.now kept.new.shipment }
{
    let searched = kept.search.effort();
    // for the proof: its contract says how many nodes there are at most
    let _ = net.net();
    recall(net, offers, kept);
    settle_again(net, offers, kept);
    count_effort(net.net(), offers.len(), searched, &mut kept.search);
}

/// Marks the trips of the circulation that `run_from` found with these offers. Every entry is set. Gives what it
/// costs, in 1/1000 of a cost unit, with no multipliers taken off.
pub fn read_run(net: &LayerNet, offers: &[Option<i64>], kept: &Kept, answer: &mut [bool]) -> i128
    requires of_layer { (p : Problem) × (l : LayerNo) × IsInstance p × IsLawful p l.0 net.now
        × AreOffers p l.0 offers.now }
    requires settled { IsSettled net.now offers.now kept.now.shipment }
    requires each_trip { length answer.old ≡ length offers.now }
    ensures least { (p : Problem) (l : LayerNo) → IsInstance p → IsLawful p l.0 net.now
        → AreOffers p l.0 offers.now → RunLeast p l net.now offers.now answer.new result }
{
    mark(net, &kept.shipment.flow.units, answer);
    settled_cost(net, offers, &kept.shipment)
}

/// Counts what a circulation takes besides the nodes that its searches settle: the arcs of these nodes, and a look at
/// each trip. `before` is the effort that the search had when the circulation began.
fn count_effort(net: &Net, trips: usize, before: u64, search: &mut Search)
    ensures { search.new ≡ search.old }
{
    let settled = search.effort().saturating_sub(before);
    let arcs_a_node = u64::from(net.arcs() / net.nodes().max(1));
    let scans = settled.saturating_mul(arcs_a_node) / ARCS_A_NODE;
    search.add_effort(scans.saturating_add(trips as u64 / TRIPS_A_NODE));
}

/// Marks exactly the trips that units run.
fn mark(net: &LayerNet, units: &[u32], answer: &mut [bool])
    requires of_layer { (p : Problem) × (l : ℕ) × IsLawful p l net.now }
    requires units { length units.now ≡ length net.now.graph.arcs }
    requires few { length answer.old ≤ MAX_TRIPS }
    ensures { (i : ℕ) → i < length answer.old
        → (slice_index_or answer.new i false ≡ true) ↔ RunTrip net.now units.now i }
{
    for i in 0..answer.len() {
        answer[i] = is_run(net, units, TripNo(i as u32));
    }
}

/// Whether units run a trip.
fn is_run(net: &LayerNet, units: &[u32], trip: TripNo) -> bool
    requires of_layer { (p : Problem) × (l : ℕ) × IsLawful p l net.now }
    requires units { length units.now ≡ length net.now.graph.arcs }
    ensures { IsTrue result ↔ RunTrip net.now units.now trip.0 }
{
    match net.trip_arc(trip) {
        None => false,
        Some(k) => 0 < units[k as usize],
    }
}
