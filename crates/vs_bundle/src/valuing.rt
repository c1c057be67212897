//! The Lagrangian value at given multipliers.

ghost use Rattle.std.specs.Prelude.{◌≡◌, ◌<◌, ◌≤◌, IfOk, IsTrue, length};
ghost use Rattle.vs_instance.specs.Problem.{Problem};
ghost use Rattle.vs_match.specs.LayerNets.{net_at};
ghost use Rattle.vs_circ.specs.shipping.Ready.{IsReadyToRun};
ghost use Rattle.vs_multi.specs.Multipliers.{AreMultipliers};
ghost use Rattle.vs_multi.specs.Rounds.{IsCase};
ghost use Rattle.vs_cuts.specs.declared.whole.TheConstants.{MOST_TRIPS};
ghost use Rattle.vs_bundle.specs.Climbs.{IsTrialFor};
ghost use Rattle.vs_bundle.specs.Runs.{HasRun, HaveRun, MayRunAll};

use crate::lanes::Lanes;
use crate::order::Order;
use crate::round::Round;
use std::alloc::Global;
use vs_circ::{Kept, Work, read_run};
use vs_cuts::Found;
use vs_match::LayerNet;
use vs_multi::{Case, LONG, offer};
use vs_types::{LayerNo, Memory};

/// A round is short up to so much effort, which is a millisecond. Further threads would save less than they take.
const SHORT: u64 = 5_000;

/// What the layers found last, and space to find it in.
#[derive(Drop)]
pub(crate) struct Trial {
    /// By layer: what it is offered for each trip.
    offers: Vec<Vec<Option<i64>>>,
    /// In which order the layers run side by side.
    order: Order,
    /// Which trips a layer runs.
    marks: Vec<bool>,
    /// By layer.
    pub found: Vec<Found>,
    /// How much effort the circulations took.
    pub effort: u64,
    /// How much those of the last round took. The first one is taken to be long.
    of_round: u64,
}

impl Trial {
    /// Nothing found yet.
    pub fn new(alloc: Global, trips: usize, layers: u32) -> Result<Trial, Memory>
        requires { trips ≤ MOST_TRIPS }
        ensures { IfOk result (λ trial.
            (p : Problem) → length p.trips ≡ trips → length p.layers ≡ layers → IsTrialFor p trial) }
    {
        let mut offers = Vec::with_capacity(alloc, layers as usize)?;
        let mut found = Vec::with_capacity(alloc, layers as usize)?;
        for _ in 0..layers {
            let none = vec![in alloc; None; trips]?;
            offers.push(none)?;
            found.push(Found::new(alloc, trips)?)?;
        }
        Ok(Trial {
            offers,
            order: Order::new(alloc, layers as usize)?,
            marks: vec![in alloc; false; trips]?,
            found,
            effort: 0,
            of_round: LONG,
        })
    }

    /// Finds a least circulation in every layer. Gives the Lagrangian value, or None where the round has taken long,
    /// and the watch ends it.
    pub fn value<W: Lanes>(
        &mut self,
        case: &Case<'_>,
        multipliers: &[i64],
        work: &mut Work,
        watch: &W,
    ) -> Option<i64>
        requires works { W.works watch.now }
        requires case { IsCase case.now.instance.now case.now.nets.now case.now.sets.now }
        requires multipliers { AreMultipliers case.now.instance.now multipliers.now }
        requires trial { IsTrialFor case.now.instance.now self.old }
        requires ready { IsReadyToRun case.now.nets.now work.old }
        ensures trial { IsTrialFor case.now.instance.now self.new }
        ensures ready { IsReadyToRun case.now.nets.now work.new }
    {
        let before = work.effort();
        self.offer_all(case, multipliers);
        if !self.run_all(case, work, watch) {
            return None;
        }
        let value = self.read_all(case, multipliers, work);
        self.of_round = work.effort().saturating_sub(before);
        self.effort = self.effort.saturating_add(self.of_round);
        Some(value)
    }

    /// Offers each layer the trips whose sets have it, for their multipliers.
    fn offer_all(&mut self, case: &Case<'_>, multipliers: &[i64])
        requires case { IsCase case.now.instance.now case.now.nets.now case.now.sets.now }
        requires multipliers { AreMultipliers case.now.instance.now multipliers.now }
        requires trial { IsTrialFor case.now.instance.now self.old }
        ensures trial { IsTrialFor case.now.instance.now self.new }
        ensures offered { MayRunAll case.now.nets.now self.new.offers.items }
    {
        for l in 0..case.instance.layers() {
            let offers: &mut [Option<i64>] = &mut self.offers[l as usize];
            offer(case.instance, case.sets, multipliers, LayerNo(l), offers);
        }
    }

    /// Runs the layers, side by side where the watch has threads and it takes long enough. False where it takes long,
    /// and the watch ends it.
    fn run_all<W: Lanes>(&mut self, case: &Case<'_>, work: &mut Work, watch: &W) -> bool
        requires works { W.works watch.now }
        requires case { IsCase case.now.instance.now case.now.nets.now case.now.sets.now }
        requires trial { IsTrialFor case.now.instance.now self.old }
        requires offered { MayRunAll case.now.nets.now self.old.offers.items }
        requires ready { IsReadyToRun case.now.nets.now work.old }
        ensures trial { IsTrialFor case.now.instance.now self.new }
        ensures offers { self.new.offers ≡ self.old.offers }
        ensures ready { IsReadyToRun case.now.nets.now work.new }
        ensures run { IsTrue result → HaveRun case.now.nets.now self.new.offers.items work.new.kept.items
            (length case.now.nets.now) }
    {
        let at_once = self.at_once(watch.threads());
        self.order.deal(&work.kept, at_once);
        let round = Round {
            nets: case.nets,
            offers: &self.offers,
            wished: &self.order.wished,
            at_once,
            watch,
        };
        round.run(&mut self.order.places, work)
    }

    /// How many layers run at once, where there are so many threads.
    fn at_once(&self, threads: usize) -> usize
        requires { 0 < threads }
        ensures { 0 < result }
    {
        if self.of_round <= SHORT { 1 } else { threads }
    }

    /// Reads what the layers run. Gives the Lagrangian value.
    fn read_all(&mut self, case: &Case<'_>, multipliers: &[i64], work: &Work) -> i64
        requires case { IsCase case.now.instance.now case.now.nets.now case.now.sets.now }
        requires multipliers { AreMultipliers case.now.instance.now multipliers.now }
        requires trial { IsTrialFor case.now.instance.now self.old }
        requires offered { MayRunAll case.now.nets.now self.old.offers.items }
        requires ready { IsReadyToRun case.now.nets.now work.now }
        requires run { HaveRun case.now.nets.now self.old.offers.items work.now.kept.items
            (length case.now.nets.now) }
        ensures { IsTrialFor case.now.instance.now self.new }
    {
        let mut value = total(multipliers);
        for l in 0..case.nets.len() {
            let part = self.read(case, multipliers, l, &work.kept[l]);
            value = value.saturating_add(part);
        }
        value
    }

    /// Reads what layer l runs. Gives its cost less the multipliers of its trips.
    fn read(&mut self, case: &Case<'_>, multipliers: &[i64], l: usize, kept: &Kept) -> i64
        requires case { IsCase case.now.instance.now case.now.nets.now case.now.sets.now }
        requires multipliers { AreMultipliers case.now.instance.now multipliers.now }
        requires trial { IsTrialFor case.now.instance.now self.old }
        requires offered { MayRunAll case.now.nets.now self.old.offers.items }
        requires layer { l < length case.now.nets.now }
        requires run { HasRun (net_at case.now.nets.now l) self.old.offers.items l kept.now }
        ensures trial { IsTrialFor case.now.instance.now self.new }
        ensures offers { self.new.offers ≡ self.old.offers }
    {
        let cost = read_run(&case.nets[l], &self.offers[l], kept, &mut self.marks);
        self.found[l].set(&self.marks, cost, multipliers)
    }
}

/// The sum of all multipliers.
fn total(multipliers: &[i64]) -> i64 {
    let mut total: i64 = 0;
    for multiplier in multipliers {
        total = total.saturating_add(*multiplier);
    }
    total
}
