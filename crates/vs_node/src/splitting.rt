//! By which trip a leaf is split, and how.
ghost use Rattle.std.specs.Prelude.{◌≤◌, ◌≡◌, ◌⊎◌, ◌<◌, length, IfSome, MatchOption, Some};
ghost use Rattle.vs_instance.specs.declared.limits.TheConstants.{MAX_TRIPS};
ghost use Rattle.vs_types.specs.LayerSet.{Has, members};
ghost use Rattle.vs_types.specs.Parts.{IsProperPart};
ghost use Rattle.vs_types.specs.declared.numbers.TheConstants.{MAX_LAYERS};
ghost use Rattle.vs_node.specs.SplitRule.{AreLeadsFor, HasChoice, HoldsOfNone, IsLowest, MaySplit};

use crate::leads::{Candidate, Leads};
use crate::promise::promise_of;
use vs_bundle::KeptCuts;
use vs_types::{LayerNo, LayerSet, TripNo};

/// For how many trips it is looked at what their splits promise. Others are shared out less, or are paid for less.
const TRIED: u32 = 8;

/// The lowest-numbered trip that may be run in two layers or more. None exactly where there is none.
pub(crate) fn first_with_choice(sets: &[LayerSet]) -> Option<TripNo>
    requires { length sets.now ≤ MAX_TRIPS }
    ensures { MatchOption result (HoldsOfNone (HasChoice sets.now) (length sets.now))
        (λ i. IsLowest (HasChoice sets.now) (length sets.now) i.0) }
{
    for i in 0..sets.len() {
        if sets[i].count() > 1 {
            return Some(TripNo(i as u32));
        }
    }
    None
}

/// The better one to split a leaf by, the earlier one of two that are alike.
fn better_of(best: Option<Candidate>, next: Candidate) -> Candidate
    ensures { (result ≡ next) ⊎ (best ≡ Some result) }
{
    match best {
        Some(best) if !next.is_before(&best) => best,
        _ => next,
    }
}

/// The first one to split a leaf by, among the trips that may be run in two layers or more: a trip that is shared out,
/// and of several the one that is paid for most. None exactly where no trip may be run in two layers.
fn first_candidate(sets: &[LayerSet], leads: &Leads) -> Option<Candidate>
    requires few { length sets.now ≤ MAX_TRIPS }
    requires leads { AreLeadsFor sets.now leads.now }
    ensures { MatchOption result (HoldsOfNone (HasChoice sets.now) (length sets.now))
        (MaySplit sets.now (length sets.now)) }
{
    let mut best: Option<Candidate> = None;
    for i in 0..sets.len() {
        if sets[i].count() > 1 {
            let next = leads.candidate(sets[i], TripNo(i as u32));
            best = Some(better_of(best, next));
        }
    }
    best
}

/// The next one after another, among those that are shared out.
fn next_candidate(sets: &[LayerSet], leads: &Leads, last: &Candidate) -> Option<Candidate>
    requires few { length sets.now ≤ MAX_TRIPS }
    requires leads { AreLeadsFor sets.now leads.now }
    ensures { IfSome result (MaySplit sets.now (length sets.now)) }
{
    let mut best: Option<Candidate> = None;
    for i in 0..sets.len() {
        if sets[i].count() > 1 {
            let next = leads.candidate(sets[i], TripNo(i as u32));
            if next.is_shared() && next.follows(last) {
                best = Some(better_of(best, next));
            }
        }
    }
    best
}

/// By what a leaf is split: of the first trips that are shared out, the one whose two parts promise most. None exactly
/// where no trip may be run in two layers.
pub(crate) fn split_trip(
    sets: &[LayerSet],
    leads: &Leads,
    gap: i64,
    cuts: &mut KeptCuts,
) -> Option<Candidate>
    requires few { length sets.now ≤ MAX_TRIPS }
    requires leads { AreLeadsFor sets.now leads.now }
    ensures { MatchOption result (HoldsOfNone (HasChoice sets.now) (length sets.now))
        (MaySplit sets.now (length sets.now)) }
{
    let mut best = first_candidate(sets, leads)?;
    let mut most = promise_of(sets, &best, gap, cuts);
    let mut last = best;
    for _ in 1..TRIED {
        let Some(next) = next_candidate(sets, leads, &last) else {
            break;
        };
        let promise = promise_of(sets, &next, gap, cuts);
        if promise > most {
            best = next;
            most = promise;
        }
        last = next;
    }
    Some(best)
}

/// One layer of a set alone.
pub(crate) fn alone(set: LayerSet, l: LayerNo) -> LayerSet
    requires choice { 1 < length (members set) }
    requires among { Has set l.0 }
    requires few { l.0 < MAX_LAYERS }
    ensures { IsProperPart result set }
{
    LayerSet::only(l)
}
