//! Passes until the layers nearly agree.

ghost use Rattle.std.specs.Prelude.{◌≡◌, ◌↔◌, ◌<◌, IsTrue};
ghost use Rattle.vs_circ.specs.shipping.Ready.{IsReadyToRun};
ghost use Rattle.vs_multi.specs.Rounds.{IsCase};
ghost use Rattle.vs_walk.specs.Penalties.{ArePenalties};
ghost use Rattle.vs_walk.specs.Rises.{HasRisen};
ghost use Rattle.vs_walk.specs.Tallies.{AreAgreed, none_in};

use crate::penalties::Penalties;
use crate::scope::ALL;
use crate::tally::Tally;
use crate::walker::FEW;
use vs_circ::Work;
use vs_instance::{Instance, MAX_TRIPS};
use vs_multi::{Case, Watch};
use vs_types::LayerSet;

/// What passes are made by, and where they end.
#[derive(Clone, Copy, Debug)]
pub(crate) struct Course {
    /// The layers that run trips anew.
    pub layers: LayerSet,
    /// The layers nearly agree where every trip is run, and no more than so many are by several.
    pub few: u32,
    /// How many passes there are at most.
    pub passes: u32,
    /// None is made once the effort of the circulations is past this.
    pub end: u64,
}

impl Course {
    /// So many passes at most, in all layers, up to this effort.
    pub fn in_all(instance: &Instance, passes: u32, end: u64) -> Course {
        Course {
            layers: ALL,
            few: instance.trips() / FEW,
            passes,
            end,
        }
    }
}

impl Penalties {
    /// Passes until the layers nearly agree. The rate rises while trips are left out. False where they don't agree
    /// within the course, or before the watch ends it.
    pub(crate) fn agree<W: Watch>(
        &mut self,
        case: &Case<'_>,
        course: Course,
        work: &mut Work,
        watch: &W,
    ) -> bool
        requires case { IsCase case.now.instance.now case.now.nets.now case.now.sets.now }
        requires penalties { ArePenalties case.now.instance.now self.old }
        requires ready { IsReadyToRun case.now.nets.now work.old }
        ensures penalties { ArePenalties case.now.instance.now self.new }
        ensures ready { IsReadyToRun case.now.nets.now work.new }
    {
        for _ in 0..course.passes {
            if work.effort() > course.end || watch.is_over() {
                return false;
            }
            if !self.pass(case, course.layers, work, watch) {
                return false;
            }
            if self.is_agreed(case.instance, course.few) {
                return true;
            }
        }
        false
    }

    /// Whether the layers nearly agree: every trip is run, and no more than so many by several layers. The rate rises
    /// where trips are left out.
    pub fn is_agreed(&mut self, instance: &Instance, few: u32) -> bool
        requires { ArePenalties instance.now self.old }
        ensures agreed { IsTrue result ↔ AreAgreed few self.old.runs.items }
        ensures raised { 0 < none_in self.old.runs.items → HasRisen self.old.rate self.new.rate }
        ensures same { none_in self.old.runs.items ≡ 0 → self.new.rate ≡ self.old.rate }
        ensures multipliers { self.new.multipliers ≡ self.old.multipliers }
        ensures runs { self.new.runs ≡ self.old.runs }
        ensures penalties { ArePenalties instance.now self.new }
    {
        prove!(instance.trips() <= MAX_TRIPS);
        let tally = Tally::of(&self.runs);
        if tally.none > 0 {
            self.rate.raise();
            return false;
        }
        tally.many <= few
    }
}
