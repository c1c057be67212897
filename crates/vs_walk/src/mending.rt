//! Choices made cheaper: some layers share out their trips anew, or all of them those of some hours or some vehicles.

ghost use Rattle.std.specs.Prelude.{◌<◌, ◌≤◌, length};
ghost use Rattle.vs_circ.specs.shipping.Ready.{IsReadyToRun};
ghost use Rattle.vs_instance.specs.Restriction.{IsRestriction};
ghost use Rattle.vs_types.specs.declared.numbers.TheConstants.{MAX_LAYERS};
ghost use Rattle.vs_multi.specs.Rounds.{IsCase};
ghost use Rattle.vs_walk.specs.Walkers.{IsWalkerFor};
ghost use Rattle.vs_walk.specs.declared.savings.TheConstants.{KINDS};

use crate::draws::Draws;
use crate::large::is_large_with_few_layers;
use crate::passes::Course;
use crate::penalties::high_for;
use crate::rate::Rate;
use crate::savings::KINDS;
use crate::scope::{ALL, Scope, count_free, free_within, offer_free};
use crate::walker::{FEW, FEW_LAYERS, Walker};
use vs_circ::Work;
use vs_instance::Instance;
use vs_multi::{Case, Watch};
use vs_types::{LayerNo, LayerSet, Memory, TripNo};

/// How passes go: the rate rises by one part in so many, and there are so many passes at most.
#[derive(Clone, Copy, Debug)]
struct Passes {
    growth: u64,
    most: u32,
}

/// Where some layers share out their trips anew, or all of them those of some hours.
const PASSES: Passes = Passes {
    growth: 8,
    most: 40,
};

/// Where all layers share out the trips of some vehicles. With a rate that rises more slowly they find cheaper choices.
const PASSES_FOR_VEHICLES: Passes = Passes {
    growth: 12,
    most: 100,
};

/// The trips of how many vehicles are shared out anew, by the two kinds of mending that do so.
const VEHICLES: [u32; 2] = [15, 60];

/// How many times at most a choice is mended. The effort ends it sooner.
const MOST_TRIES: u32 = 10_000;

/// Mending ends too after so many draws in a row of layers with no two trips to share out.
const MOST_VAIN: u32 = 10;

impl Walker {
    /// Mends the cheapest choice that is kept, up to this effort.
    pub(crate) fn mend_cheapest<W: Watch>(
        &mut self,
        case: &Case<'_>,
        end: u64,
        work: &mut Work,
        watch: &W,
    ) -> Result<(), Memory>
        requires case { IsCase case.now.instance.now case.now.nets.now case.now.sets.now }
        requires walker { IsWalkerFor case.now.instance.now self.old }
        requires ready { IsReadyToRun case.now.nets.now work.old }
        ensures walker { IsWalkerFor case.now.instance.now self.new }
        ensures ready { IsReadyToRun case.now.nets.now work.new }
    {
        let Some(choice) = self.pool.get(0) else {
            return Ok(());
        };
        self.next.layers.copy_from_slice(&choice.layers);
        self.adopt(case, i64::MAX, end, work, watch)
    }

    /// Mends the choice that is worked on, up to this effort, or until the watch ends it.
    pub(crate) fn mend<W: Watch>(&mut self, case: &Case<'_>, end: u64, work: &mut Work, watch: &W)
        requires case { IsCase case.now.instance.now case.now.nets.now case.now.sets.now }
        requires walker { IsWalkerFor case.now.instance.now self.old }
        requires ready { IsReadyToRun case.now.nets.now work.old }
        ensures walker { IsWalkerFor case.now.instance.now self.new }
        ensures ready { IsReadyToRun case.now.nets.now work.new }
    {
        let (trips, layers) = (case.instance.trips(), case.instance.layers());
        let mut vain: u32 = 0;
        for k in 0..MOST_TRIES {
            let is_over = work.effort() >= end || watch.is_over();
            if is_over || vain == MOST_VAIN || trips == 0 || layers == 0 {
                break;
            }
            let kind = self.kind_at(case.instance, k);
            let is_tried = self.mend_and_note(case, kind, work, watch);
            vain = if is_tried { 0 } else { vain.saturating_add(1) };
        }
    }

    /// Which kind of mending a try is. On a large instance with few layers every second try is of the kind that has
    /// saved most for its effort, and the other tries are of all kinds in turn. Else there are two kinds in turn.
    fn kind_at(&self, instance: &Instance, k: u32) -> usize
        ensures { result < KINDS }
    {
        if !is_large_with_few_layers(instance) {
            (k % 2) as usize
        } else if k % 2 == 0 {
            (k / 2 % 4) as usize
        } else {
            self.savings.best()
        }
    }

    /// Mends once, and notes what that saves. False where there are no two trips to share out.
    fn mend_and_note<W: Watch>(
        &mut self,
        case: &Case<'_>,
        kind: usize,
        work: &mut Work,
        watch: &W,
    ) -> bool
        requires case { IsCase case.now.instance.now case.now.nets.now case.now.sets.now }
        requires trips { 0 < length case.now.instance.now.trips }
        requires layers { 0 < length case.now.instance.now.layers }
        requires kind { kind < KINDS }
        requires walker { IsWalkerFor case.now.instance.now self.old }
        requires ready { IsReadyToRun case.now.nets.now work.old }
        ensures walker { IsWalkerFor case.now.instance.now self.new }
        ensures ready { IsReadyToRun case.now.nets.now work.new }
    {
        let (cost, before) = (self.draft.cost(), work.effort());
        let is_tried = self.mend_once(case, kind, work, watch);
        let saved = cost.saturating_sub(self.draft.cost()).max(0) as u64;
        let effort = work.effort().saturating_sub(before);
        self.savings.note(kind, saved, effort);
        is_tried
    }

    /// Lets layers share out some trips anew, and takes what they agree on where it costs no more. There are four kinds
    /// of it. False where there are no two trips to share out.
    fn mend_once<W: Watch>(
        &mut self,
        case: &Case<'_>,
        kind: usize,
        work: &mut Work,
        watch: &W,
    ) -> bool
        requires case { IsCase case.now.instance.now case.now.nets.now case.now.sets.now }
        requires trips { 0 < length case.now.instance.now.trips }
        requires layers { 0 < length case.now.instance.now.layers }
        requires kind { kind < KINDS }
        requires walker { IsWalkerFor case.now.instance.now self.old }
        requires ready { IsReadyToRun case.now.nets.now work.old }
        ensures walker { IsWalkerFor case.now.instance.now self.new }
        ensures ready { IsReadyToRun case.now.nets.now work.new }
    {
        let layers = self.free_some(case, kind);
        let free = count_free(&self.sets);
        if free < 2 {
            return false;
        }
        if !self.agree_in(case, layers, kind, free / FEW, work, watch) {
            self.mends[kind].lower();
            return true;
        }
        self.choose(case);
        if self.next.is_like(&self.draft) {
            self.mends[kind].raise();
        } else if self.reckon(case, layers, work) && self.next.cost() <= self.draft.cost() {
            self.take_next();
        }
        true
    }

    /// Frees the trips that are shared out anew by this kind of mending. Gives the layers that do so.
    fn free_some(&mut self, case: &Case<'_>, kind: usize) -> LayerSet
        requires case { IsCase case.now.instance.now case.now.nets.now case.now.sets.now }
        requires trips { 0 < length case.now.instance.now.trips }
        requires layers { 0 < length case.now.instance.now.layers }
        requires kind { kind < KINDS }
        requires walker { IsWalkerFor case.now.instance.now self.old }
        ensures walker { IsWalkerFor case.now.instance.now self.new }
        ensures sets { IsRestriction case.now.instance.now self.new.sets.items }
    {
        if kind < 2 {
            let scope = draw_scope(&mut self.draws, case.instance, kind);
            free_within(case.instance, scope, &self.draft.layers, &mut self.sets);
            scope.layers
        } else {
            self.nearby
                .draw(&mut self.draws, case.instance, VEHICLES[kind - 2]);
            self.nearby
                .free(case.instance, &self.draft.layers, &mut self.sets);
            ALL
        }
    }

    /// Passes of these layers from the choice that is worked on. Gives whether they agree: no more than a few trips are
    /// run by several.
    fn agree_in<W: Watch>(
        &mut self,
        case: &Case<'_>,
        layers: LayerSet,
        kind: usize,
        few: u32,
        work: &mut Work,
        watch: &W,
    ) -> bool
        requires case { IsCase case.now.instance.now case.now.nets.now case.now.sets.now }
        requires layers { 0 < length case.now.instance.now.layers }
        requires kind { kind < KINDS }
        requires walker { IsWalkerFor case.now.instance.now self.old }
        requires sets { IsCase case.now.instance.now case.now.nets.now self.old.sets.items }
        requires ready { IsReadyToRun case.now.nets.now work.old }
        ensures walker { IsWalkerFor case.now.instance.now self.new }
        ensures ready { IsReadyToRun case.now.nets.now work.new }
    {
        let most = self.penalties.rate.most;
        let passes = if kind < 2 {
            PASSES
        } else {
            PASSES_FOR_VEHICLES
        };
        let course = Course {
            layers,
            few,
            passes: passes.most,
            end: u64::MAX,
        };
        let high = high_for(case.instance.trips(), most);
        offer_free(&self.sets, &self.best, high, &mut self.offered);
        self.penalties.rate = Rate::up_to(
            self.mends[kind].part_of(self.agreed),
            most,
            passes.growth,
        );
        let offered: &[i64] = &self.offered;
        self.penalties.begin_from(offered, &self.draft.layers);
        let first = self.draws.below(case.instance.layers());
        self.penalties.set_first(first);
        let sets: &[LayerSet] = &self.sets;
        self.penalties
            .agree(&Case { sets, ..*case }, course, work, watch)
    }
}

/// Two layers or three, by the kind. Where there are few layers: two of them, or all with the trips of some hours.
fn draw_scope(draws: &mut Draws, instance: &Instance, kind: usize) -> Scope
    requires trips { 0 < length instance.now.trips }
    requires layers { 0 < length instance.now.layers }
    requires kind { kind < 2 }
{
    let layers = instance.layers();
    if layers > FEW_LAYERS {
        return Scope::of_layers(draw_layers(draws, layers, 2 + kind as u32));
    }
    if kind == 0 && layers > 2 {
        return Scope::of_layers(draw_layers(draws, layers, 2));
    }
    let trip = TripNo(draws.below(instance.trips()));
    Scope::about(instance.trip(trip).start)
}

/// So many layers, or one less.
fn draw_layers(draws: &mut Draws, layers: u32, count: u32) -> LayerSet
    requires some { 0 < layers }
    requires few { layers ≤ MAX_LAYERS }
{
    let mut drawn = LayerSet(0);
    for _ in 0..count {
        let l = draws.below(layers);
        let is_new = !drawn.has(LayerNo(l));
        let l = if is_new { l } else { (l + 1) % layers };
        drawn = drawn.with(LayerNo(l));
    }
    drawn
}
