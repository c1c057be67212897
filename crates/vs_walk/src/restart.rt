//! Passes that begin from kept choices.

ghost use Rattle.vs_circ.specs.shipping.Ready.{IsReadyToRun};
ghost use Rattle.vs_multi.specs.Rounds.{IsCase};
ghost use Rattle.vs_walk.specs.Walkers.{IsWalkerFor};
ghost use Rattle.std.specs.Prelude.{◌<◌};

use crate::passes::Course;
use crate::rate::Rate;
use crate::scope::free_among;
use crate::walker::Walker;
use vs_circ::Work;
use vs_multi::{Case, Watch};
use vs_types::{LayerSet, Memory};

/// Passes begin alternately from so many of the cheapest choices.
const BASES: usize = 3;

/// The rate rises by one part in so many.
const GROWTH: u64 = 10;

/// How many passes there are at most from a choice: by then the layers have agreed, or the rate was too small.
const PASSES: u32 = 60;

/// A choice is mended where it costs no more than one part in so many above the one that it was found from.
const WORTH_MENDING: i64 = 200;

/// How many of 16 parts of a turn go to passes from kept choices. Mending takes the rest, since it gains more for its
/// effort.
const SHARE: u64 = 4;

/// How many times at most passes begin from a kept choice in a turn. The effort of the turn ends them sooner.
const MOST_TRIES: u32 = 10_000;

impl Walker {
    /// Passes from kept choices, until they have taken their share of the turn, or the watch ends it.
    pub(crate) fn restart_all<W: Watch>(
        &mut self,
        case: &Case<'_>,
        work: &mut Work,
        watch: &W,
    ) -> Result<(), Memory>
        requires case { IsCase case.now.instance.now case.now.nets.now case.now.sets.now }
        requires walker { IsWalkerFor case.now.instance.now self.old }
        requires ready { IsReadyToRun case.now.nets.now work.old }
        ensures walker { IsWalkerFor case.now.instance.now self.new }
        ensures ready { IsReadyToRun case.now.nets.now work.new }
    {
        let end = work.effort().saturating_add(self.budget / 16 * SHARE);
        for _ in 0..MOST_TRIES {
            let is_over = work.effort() >= end || watch.is_over();
            if is_over || self.pool.count() == 0 {
                break;
            }
            self.restart(case, work, watch)?;
        }
        Ok(())
    }

    /// Passes from a kept choice to the next agreement. The choice of that is mended where it is nearly as cheap, and
    /// kept.
    fn restart<W: Watch>(
        &mut self,
        case: &Case<'_>,
        work: &mut Work,
        watch: &W,
    ) -> Result<(), Memory>
        requires case { IsCase case.now.instance.now case.now.nets.now case.now.sets.now }
        requires walker { IsWalkerFor case.now.instance.now self.old }
        requires ready { IsReadyToRun case.now.nets.now work.old }
        ensures walker { IsWalkerFor case.now.instance.now self.new }
        ensures ready { IsReadyToRun case.now.nets.now work.new }
    {
        let bases = self.pool.count().min(BASES).max(1);
        let place = self.tries.saturating_add(self.number) as usize % bases;
        let kind = self.tries as usize / bases % 2;
        let worth = self.take_base(case, place);
        if !self.agree_again(case, kind, work, watch) {
            self.restarts[kind].lower();
            return Ok(());
        }
        self.choose(case);
        if self.next.is_like(&self.draft) {
            self.restarts[kind].raise();
            return Ok(());
        }
        let end = work.effort().saturating_add(self.budget / 16);
        self.adopt(case, worth, end, work, watch)
    }

    /// Works on with the kept choice that so many are cheaper than. Gives below which cost one that comes of it is
    /// worth mending.
    fn take_base(&mut self, case: &Case<'_>, place: usize) -> i64
        requires { IsWalkerFor case.now.instance.now self.old }
        ensures { IsWalkerFor case.now.instance.now self.new }
    {
        match self.pool.get(place) {
            Some(choice) => {
                self.draft.layers.copy_from_slice(&choice.layers);
                choice.cost.saturating_add(choice.cost / WORTH_MENDING)
            }
            None => 0,
        }
    }

    /// Passes from the choice that is worked on: in all layers, or in those of the cheapest choices alone. Gives
    /// whether they agree.
    fn agree_again<W: Watch>(
        &mut self,
        case: &Case<'_>,
        kind: usize,
        work: &mut Work,
        watch: &W,
    ) -> bool
        requires case { IsCase case.now.instance.now case.now.nets.now case.now.sets.now }
        requires kind { kind < 2 }
        requires walker { IsWalkerFor case.now.instance.now self.old }
        requires ready { IsReadyToRun case.now.nets.now work.old }
        ensures walker { IsWalkerFor case.now.instance.now self.new }
        ensures ready { IsReadyToRun case.now.nets.now work.new }
    {
        let end = work.effort().saturating_add(self.budget);
        let course = Course::in_all(case.instance, PASSES, end);
        let rate = self.restarts[kind].part_of(self.agreed);
        self.penalties.rate = Rate::up_to(rate, self.penalties.rate.most, GROWTH);
        self.penalties.begin_from(&self.best, &self.draft.layers);
        let first = self.tries.saturating_mul(4).saturating_add(self.number);
        self.penalties.set_first(first);
        self.tries = self.tries.saturating_add(1);
        if kind == 0 {
            return self.penalties.agree(case, course, work, watch);
        }
        free_among(
            case.instance,
            &self.pool,
            &self.draft.layers,
            &mut self.sets,
        );
        let sets: &[LayerSet] = &self.sets;
        self.penalties
            .agree(&Case { sets, ..*case }, course, work, watch)
    }
}
