//! Plans sought pass by pass.

ghost use Rattle.std.specs.Prelude.{◌≡◌, IfOk, OnOk};
ghost use Rattle.vs_circ.specs.shipping.Ready.{IsReadyToRun};
ghost use Rattle.vs_multi.specs.Multipliers.{AreMultipliers};
ghost use Rattle.vs_multi.specs.Rounds.{IsCase};
ghost use Rattle.vs_penalty.specs.Seekers.{IsSeekerFor};
ghost use Rattle.vs_penalty.specs.Slow.{IsSlow};

use crate::choices::Choices;
use crate::effort::{effort_for, first_part, is_slow, margin, turn_margin};
use crate::mean::Mean;
use vs_circ::{Work, begin_runs};
use vs_instance::Instance;
use vs_multi::{Case, Watch, greatest_step};
use vs_types::Memory;
use vs_walk::{ALL, FEW, Penalties, Rate};

/// By so small a part of it the rate of quick passes rises.
const GROWTH: u64 = 8;

/// After how many agreements quick passes end. The first climb needs no more than a plan that is nearly as cheap as the
/// best, and what later ones gain walks find sooner.
const AGREEMENTS: u32 = 10;

/// How much effort quick passes take at most where a plan is known, as far as that is usual.
const EFFORT: u64 = 60_000_000;

/// So many times their passes and their effort they may take where no plan is known.
const MORE: u32 = 3;

/// What plans are sought with: what the layers are offered, and what was found so far.
#[derive(Drop)]
pub(crate) struct Seeker {
    pub penalties: Penalties,
    pub choices: Choices,
    /// Of the multipliers after each quick pass, where the climb from there is slow.
    pub mean: Mean,
    /// No plan costs less than this, in 1/1000 of a cost unit, as far as multipliers show that.
    pub value: i64,
    /// How much effort a quick pass took.
    pub of_pass: u64,
}

impl Seeker {
    /// Nothing is found yet, and the multipliers are these.
    pub fn new(case: &Case<'_>, multipliers: &[i64]) -> Result<Seeker, Memory>
        requires { AreMultipliers case.now.instance.now multipliers.now }
        ensures { IfOk result (IsSeekerFor case.now.instance.now) }
    {
        let most = greatest_step(case.alloc, case.instance)?;
        let rate = Rate::new(most / first_part(case.instance), most, GROWTH);
        Ok(Seeker {
            penalties: Penalties::new(case, multipliers, rate)?,
            choices: Choices::new(case.alloc, case.instance.trips() as usize)?,
            mean: Mean::new(case.alloc, multipliers)?,
            value: i64::MIN,
            of_pass: 0,
        })
    }

    /// Whether no plan costs less than the cheapest one that was found, or on a small instance hardly less.
    pub fn is_done(&self, instance: &Instance) -> bool {
        self.choices
            .is_within(self.value, margin(instance, self.value))
    }

    /// Whether no plan costs much less than the cheapest one that was found.
    pub fn is_near(&self) -> bool {
        self.choices.is_within(self.value, turn_margin(self.value))
    }

    /// So many quick passes, or more while no plan is known, unless the watch ends them. Each time the layers nearly
    /// agree, the plan of that is found, and the rate falls.
    pub fn seek<W: Watch>(
        &mut self,
        case: &Case<'_>,
        passes: u32,
        work: &mut Work,
        watch: &W,
    ) -> Result<(), Memory>
        requires case { IsCase case.now.instance.now case.now.nets.now case.now.sets.now }
        requires seeker { IsSeekerFor case.now.instance.now self.old }
        ensures { IsSeekerFor case.now.instance.now self.new }
    {
        let mut left = AGREEMENTS;
        begin_runs(case.alloc, case.nets, work)?;
        let start = work.effort();
        for k in 0..passes.saturating_mul(MORE) {
            let effort = work.effort().saturating_sub(start);
            if left == 0 || self.is_sought(case.instance, k >= passes, effort) || watch.is_over() {
                break;
            }
            if !self.penalties.pass(case, ALL, work, watch) {
                break;
            }
            self.note_pass(case.instance);
            if self
                .penalties
                .is_agreed(case.instance, case.instance.trips() / FEW)
            {
                left -= 1;
                self.penalties.rate.ease();
                self.draw(case, work)?;
                watch.tell(self.choices.cost(), i64::MIN);
            }
            self.of_pass = work.effort().saturating_sub(start) / (u64::from(k) + 1);
        }
        Ok(())
    }

    /// Takes the multipliers after a pass into the mean, where that is used.
    fn note_pass(&mut self, instance: &Instance)
        requires { IsSeekerFor instance.now self.old }
        ensures { IsSeekerFor instance.now self.new }
    {
        if is_slow(instance) {
            self.mean.take(&self.penalties.multipliers);
        }
    }

    /// What the climb begins with: the multipliers that quick passes came to, or their mean where the climb is slow.
    pub fn reached(&self, instance: &Instance) -> &[i64]
        requires { IsSeekerFor instance.now self.now }
        ensures multipliers { AreMultipliers instance.now result.now }
        ensures mean { IsSlow instance.now → result.now ≡ self.now.mean.multipliers.items }
        ensures last { ¬ (IsSlow instance.now) → result.now ≡ self.now.penalties.multipliers.items }
    {
        if is_slow(instance) {
            &self.mean.multipliers
        } else {
            &self.penalties.multipliers
        }
    }

    /// Whether quick passes end that took so much effort, and of which there were enough, or not yet.
    fn is_sought(&self, instance: &Instance, are_enough: bool, effort: u64) -> bool {
        let has_plan = self.choices.best.is_some();
        let most = effort_for(instance, self.of_pass, EFFORT);
        effort > most.saturating_mul(u64::from(MORE)) || has_plan && (are_enough || effort > most)
    }

    /// Finds the plan on which the layers nearly agree, and makes passes ready to go on.
    pub fn draw(&mut self, case: &Case<'_>, work: &mut Work) -> Result<(), Memory>
        requires case { IsCase case.now.instance.now case.now.nets.now case.now.sets.now }
        requires seeker { IsSeekerFor case.now.instance.now self.old }
        ensures seeker { IsSeekerFor case.now.instance.now self.new }
        ensures ready { OnOk result (IsReadyToRun case.now.nets.now work.new) }
    {
        self.choices.draw(case, &self.penalties.runs, work)?;
        begin_runs(case.alloc, case.nets, work)
    }
}
