//! How many layers run each trip.
ghost use Rattle.std.specs.Prelude.{◌≡◌, ◌≤◌, ◌↔◌, ℕ, IsTrue, length, slice_index};
ghost use Rattle.vs_circ.specs.Circulations.{RunTrip};
ghost use Rattle.vs_layer.specs.Circulation.{IsCirculation};
ghost use Rattle.vs_instance.specs.Problem.{Problem};
ghost use Rattle.vs_types.specs.declared.numbers.TheConstants.{MAX_LAYERS};
ghost use Rattle.vs_instance.specs.declared.limits.TheConstants.{MAX_TRIPS};
ghost use Rattle.vs_match.specs.LawfulNets.{IsLawful};
ghost use Rattle.vs_multi.specs.Rounds.{AreCounted};

use vs_match::LayerNet;
use vs_types::TripNo;

/// Whether the units of a circulation run trip i.
fn runs(net: &LayerNet, units: &[u32], i: TripNo) -> bool
    requires of_layer { (p : Problem) × (l : ℕ) × IsLawful p l net.now }
    requires units { IsCirculation net.now.graph units.now }
    ensures { IsTrue result ↔ RunTrip net.now units.now i.0 }
{
    match net.trip_arc(i) {
        Some(k) => units[k as usize] > 0,
        None => false,
    }
}

/// Counts each trip that the units of a circulation run.
pub(crate) fn count_runs(net: &LayerNet, units: &[u32], covers: &mut [u32])
    requires of_layer { (p : Problem) × (l : ℕ) × IsLawful p l net.now }
    requires units { IsCirculation net.now.graph units.now }
    requires few_trips { length covers.old ≤ MAX_TRIPS }
    requires few { (i : ℕ) → slice_index covers.old i ≤ MAX_LAYERS }
    ensures { AreCounted net.now units.now covers.old covers.new }
{
    for i in 0..covers.len() {
        if runs(net, units, TripNo(i as u32)) {
            covers[i] += 1;
        }
    }
}

/// Sets each count to 0.
pub(crate) fn clear(covers: &mut [u32])
    ensures { (i : ℕ) → slice_index covers.new i ≡ 0 }
{
    for count in covers.iter_mut() {
        *count = 0;
    }
}
