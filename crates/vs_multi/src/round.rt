//! A case of a search, and what one round after the other finds in it.
ghost use Rattle.std.specs.Prelude.{◌≡◌, ◌<◌, ◌≤◌, ◌≤ℤ◌, ℕ, true, false, pos, IfOk, OnOk, slice_index};
ghost use Rattle.vs_circ.specs.declared.circ.Circ.{Circ};
ghost use Rattle.vs_types.specs.declared.numbers.TheConstants.{MAX_LAYERS};
ghost use Rattle.vs_instance.specs.declared.limits.TheConstants.{MAX_MULTIPLIER};
ghost use Rattle.vs_match.specs.LawfulNets.{IsLawful};
ghost use Rattle.vs_prices.specs.Bounds.{ReachesLagrangian};
ghost use Rattle.vs_prices.specs.Worth.{IsWorth};
ghost use Rattle.vs_multi.specs.Multipliers.{AreMultipliers};
ghost use Rattle.vs_multi.specs.Rounds.{IsCase, IsRound, IsRoundFor, IsRunIn};
ghost use Rattle.vs_multi.specs.Steps.{AreMoved};

use crate::exchanging::exchange;
use crate::offering::circulation;
use crate::running::{clear, count_runs};
use crate::steps::move_all;
use crate::watch::{NoWatch, Watch};
use std::alloc::Global;
use vs_circ::Work;
use vs_instance::Instance;
use vs_match::LayerNet;
use vs_prices::{Bound, Table, worth};
use vs_types::{LayerNo, LayerSet, Memory};

/// One case of a search: the instance, a net for each of its layers, and the layers in which each trip may be run. Its
/// allocator gives the memory that what is found is written into.
#[derive(Clone, Copy)]
pub struct Case<'a> {
    pub alloc: Global,
    pub instance: &'a Instance,
    pub nets: &'a [LayerNet],
    pub sets: &'a [LayerSet],
}

/// What one round after the other is made in.
#[derive(Drop)]
pub(crate) struct Round {
    /// What the layer that comes next is offered.
    offers: Vec<Option<i64>>,
    /// The prices that the layers have by the round.
    pub table: Table,
    /// How many layers run each trip.
    pub covers: Vec<u32>,
}

impl Round {
    /// No round yet.
    pub(crate) fn new(alloc: Global, instance: &Instance) -> Result<Round, Memory>
        ensures { IfOk result (IsRoundFor instance.now) }
    {
        let trips = instance.trips() as usize;
        Ok(Round {
            offers: vec![in alloc; None; trips]?,
            table: Table::zero(alloc, instance)?,
            covers: vec![in alloc; 0; trips]?,
        })
    }

    /// Finds a least circulation of layer l, takes its prices into the table, and counts the trips that it runs.
    fn run_layer(
        &mut self,
        case: &Case<'_>,
        net: &LayerNet,
        multipliers: &[i64],
        l: LayerNo,
        work: &mut Work,
    ) -> Result<(), Memory>
        requires case { IsCase case.now.instance.now case.now.nets.now case.now.sets.now }
        requires lawful { IsLawful case.now.instance.now l.0 net.now }
        requires multipliers { AreMultipliers case.now.instance.now multipliers.now }
        requires round { IsRoundFor case.now.instance.now self.old }
        requires few { (i : ℕ) → slice_index self.old.covers.items i ≤ l.0 }
        ensures ran { OnOk result ((c : Circ) × IsRunIn case.now.instance.now net.now case.now.sets.now
            multipliers.now l self.old self.new c) }
        ensures round { IsRoundFor case.now.instance.now self.new }
    {
        let found = circulation(case, net, multipliers, l, &mut self.offers, work);
        let mut circ = found?;
        let covers = self.covers.as_mut_slice();
        count_runs(net, &circ.flow.units, covers);
        exchange(case.instance, &mut self.table, l, &mut circ.prices);
        Ok(())
    }

    /// Finds a least circulation in every layer, at these multipliers, unless the watch ends it between two layers.
    /// Gives whether the round was made.
    pub(crate) fn run_unless_over<W: Watch>(
        &mut self,
        case: &Case<'_>,
        multipliers: &[i64],
        work: &mut Work,
        watch: &W,
    ) -> Result<bool, Memory>
        requires case { IsCase case.now.instance.now case.now.nets.now case.now.sets.now }
        requires multipliers { AreMultipliers case.now.instance.now multipliers.now }
        requires round { IsRoundFor case.now.instance.now self.old }
        ensures lagrangian { IfOk result (λ made. made ≡ true
            → ReachesLagrangian case.now.instance.now case.now.sets.now multipliers.now self.new.table) }
        ensures ran { IfOk result (λ made. made ≡ true → IsRound case.now.instance.now case.now.nets.now
            case.now.sets.now multipliers.now self.new.table self.new.covers.items) }
        ensures ended { IfOk result (λ made. made ≡ false → W.may_end watch.now) }
        ensures round { IsRoundFor case.now.instance.now self.new }
        ensures few { IfOk result (λ made. made ≡ true
            → (i : ℕ) → slice_index self.new.covers.items i ≤ MAX_LAYERS) }
    {
        clear(&mut self.covers);
        for l in 0..case.instance.layers() {
            if watch.is_over() {
                return Ok(false);
            }
            let net = &case.nets[l as usize];
            self.run_layer(case, net, multipliers, LayerNo(l), work)?;
        }
        Ok(true)
    }

    /// The same, which no watch ends.
    fn run(&mut self, case: &Case<'_>, multipliers: &[i64], work: &mut Work) -> Result<(), Memory>
        requires case { IsCase case.now.instance.now case.now.nets.now case.now.sets.now }
        requires multipliers { AreMultipliers case.now.instance.now multipliers.now }
        requires round { IsRoundFor case.now.instance.now self.old }
        ensures lagrangian { OnOk result
            (ReachesLagrangian case.now.instance.now case.now.sets.now multipliers.now self.new.table) }
        ensures ran { OnOk result (IsRound case.now.instance.now case.now.nets.now case.now.sets.now
            multipliers.now self.new.table self.new.covers.items) }
        ensures round { IsRoundFor case.now.instance.now self.new }
        ensures few { OnOk result ((i : ℕ) → slice_index self.new.covers.items i ≤ MAX_LAYERS) }
    {
        self.run_unless_over(case, multipliers, work, &NoWatch)?;
        Ok(())
    }

    /// A round at these multipliers, each of which then moves by the step. Gives what the round's table is worth.
    pub(crate) fn run_on(
        &mut self,
        case: &Case<'_>,
        step: u64,
        multipliers: &mut [i64],
        work: &mut Work,
    ) -> Result<Bound, Memory>
        requires case { IsCase case.now.instance.now case.now.nets.now case.now.sets.now }
        requires step { pos step ≤ℤ MAX_MULTIPLIER }
        requires multipliers { AreMultipliers case.now.instance.now multipliers.old }
        requires round { IsRoundFor case.now.instance.now self.old }
        ensures worth { IfOk result (IsWorth case.now.instance.now case.now.sets.now self.new.table) }
        ensures lagrangian { OnOk result
            (ReachesLagrangian case.now.instance.now case.now.sets.now multipliers.old self.new.table) }
        ensures ran { OnOk result (IsRound case.now.instance.now case.now.nets.now case.now.sets.now
            multipliers.old self.new.table self.new.covers.items) }
        ensures moved { OnOk result
            (AreMoved step self.new.covers.items multipliers.old multipliers.new) }
        ensures within { AreMultipliers case.now.instance.now multipliers.new }
        ensures round { IsRoundFor case.now.instance.now self.new }
    {
        self.run(case, multipliers, work)?;
        let covers = self.covers.as_slice();
        move_all(step, covers, multipliers);
        Ok(worth(case.instance, case.sets, &self.table))
    }
}
