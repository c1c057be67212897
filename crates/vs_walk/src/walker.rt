//! A walk for plans, turn by turn.

ghost use Rattle.std.specs.Prelude.{◌≡◌, ◌<◌, ◌≤ℤ◌, pos, IfOk, length};
ghost use Rattle.vs_circ.specs.shipping.Ready.{IsReadyToRun};
ghost use Rattle.vs_instance.specs.Problem.{Problem};
ghost use Rattle.vs_instance.specs.declared.limits.TheConstants.{MAX_MULTIPLIER};
ghost use Rattle.vs_multi.specs.Multipliers.{AreMultipliers};
ghost use Rattle.vs_multi.specs.Rounds.{IsCase};
ghost use Rattle.vs_walk.specs.Walkers.{IsWalkerFor};

use crate::choice::Draft;
use crate::choosing::lowest_layers;
use crate::draws::{Divisor, Draws};
use crate::large::{is_large, is_large_with_few_layers};
use crate::nearby::Nearby;
use crate::passes::Course;
use crate::penalties::Penalties;
use crate::pool::Pool;
use crate::rate::Rate;
use crate::savings::{KINDS, Savings};
use crate::scope::ALL;
use std::mem::swap;
use vs_circ::{Work, begin_runs};
use vs_instance::Instance;
use vs_multi::{Case, Watch};
use vs_types::{LayerNo, LayerSet, MAX_LAYERS, Memory};

/// A choice is made where no more than one trip in so many is run by several layers. Where more are, giving each to one
/// layer leaves vehicles of the others to run empty, and the plan is dear.
pub const FEW: u32 = 8;

/// Up to so many layers are few: they agree sooner, and mending gains more than passes in all of them.
pub(crate) const FEW_LAYERS: u32 = 4;

/// How many passes there are at most from where no layer runs a trip. Their effort ends them sooner.
const MOST_PASSES: u32 = 10_000;

/// With how small a part of the greatest rate passes begin anew, and by how small a part of itself it rises.
#[derive(Clone, Copy, Debug)]
struct Pace {
    part: u64,
    growth: u64,
}

/// A walk for plans. It begins from the best multipliers, which its turns are given.
#[derive(Drop)]
pub struct Walker {
    /// Which of the walkers it is: each begins at another rate, and draws other numbers.
    pub(crate) number: u32,
    /// How much effort a turn takes.
    pub(crate) budget: u64,
    /// The best multipliers.
    pub(crate) best: Vec<i64>,
    pub(crate) penalties: Penalties,
    /// The choices that it knows.
    pub pool: Pool,
    /// What the cheapest of them cost when the turn before began.
    known: Option<i64>,
    /// The rate at which layers agreed that began where none runs a trip.
    pub(crate) agreed: u64,
    /// How passes from kept choices begin: in all layers, and in those of the cheapest choices.
    pub(crate) restarts: [Divisor; 2],
    /// How the four kinds of mending begin.
    pub(crate) mends: [Divisor; KINDS],
    pub(crate) savings: Savings,
    pub(crate) draws: Draws,
    /// How many times it began from a kept choice.
    pub(crate) tries: u32,
    /// The choice that is worked on, and the one that may take its place.
    pub(crate) draft: Draft,
    pub(crate) next: Draft,
    /// By trip: the layers in which it may be run, and the multiplier to begin with.
    pub(crate) sets: Vec<LayerSet>,
    /// The vehicles of the cheapest plan.
    pub(crate) nearby: Nearby,
    pub(crate) offered: Vec<i64>,
    /// What it did so far, as `Work::effort` counts it.
    pub effort: u64,
}

impl Walker {
    /// Nothing is known yet. `most` is the greatest rate, and `budget` the effort of a turn.
    pub fn new(
        case: &Case<'_>,
        number: u32,
        multipliers: &[i64],
        most: u64,
        budget: u64,
    ) -> Result<Walker, Memory>
        requires multipliers { AreMultipliers case.now.instance.now multipliers.now }
        requires most { pos most ≤ℤ MAX_MULTIPLIER }
        ensures { IfOk result (IsWalkerFor case.now.instance.now) }
    {
        let trips = case.instance.trips() as usize;
        let layers = case.instance.layers();
        Ok(Walker {
            number,
            budget,
            best: Vec::from_slice(case.alloc, multipliers)?,
            penalties: Penalties::new(case, multipliers, Rate::new(most, most, 1))?,
            pool: Pool::new(case.alloc, trips),
            known: None,
            agreed: 0,
            restarts: [Divisor::new(8); 2],
            mends: first_mends(),
            savings: Savings::new(),
            draws: Draws::new(number),
            tries: 0,
            draft: Draft::new(case.alloc, trips, layers)?,
            next: Draft::new(case.alloc, trips, layers)?,
            sets: vec![in case.alloc; LayerSet(0); trips]?,
            nearby: Nearby::new(case.alloc, trips)?,
            offered: Vec::from_slice(case.alloc, multipliers)?,
            effort: 0,
        })
    }

    /// Takes the number of the vehicle that runs each trip in the cheapest plan.
    pub fn take_vehicles(&mut self, vehicles: &[u32])
        requires { length vehicles.now ≡ length self.old.nearby.vehicles.items }
        ensures { (p : Problem) → IsWalkerFor p self.old → IsWalkerFor p self.new }
    {
        self.nearby.vehicles.copy_from_slice(vehicles);
    }

    /// Takes the choices of another pool in place of its own.
    pub fn take_over(&mut self, case: &Case<'_>, pool: &Pool) -> Result<(), Memory>
        requires walker { IsWalkerFor case.now.instance.now self.old }
        requires pool { pool.now.trips ≡ length case.now.instance.now.trips }
        ensures { IsWalkerFor case.now.instance.now self.new }
    {
        self.pool.clear();
        self.pool.merge(case.alloc, pool)
    }

    /// A turn, from these multipliers on. Where it is the first turn, no choice is known, or the turn before came to no
    /// cheaper one, it begins with passes to a first agreement. Passes from kept choices follow. What is left of the
    /// budget mends the cheapest choice. Each of these ends where the watch says so.
    pub fn walk<W: Watch>(
        &mut self,
        case: &Case<'_>,
        turn: u32,
        multipliers: &[i64],
        work: &mut Work,
        watch: &W,
    ) -> Result<(), Memory>
        requires case { IsCase case.now.instance.now case.now.nets.now case.now.sets.now }
        requires multipliers { AreMultipliers case.now.instance.now multipliers.now }
        requires walker { IsWalkerFor case.now.instance.now self.old }
        ensures { IsWalkerFor case.now.instance.now self.new }
    {
        self.best.copy_from_slice(multipliers);
        begin_runs(case.alloc, case.nets, work)?;
        let before = work.effort();
        self.savings.fade();
        self.forget_where_stuck(case.instance);
        if turn == 0 || self.pool.count() == 0 {
            self.begin_anew(case, turn, work, watch)?;
        }
        let end = work.effort().saturating_add(self.budget);
        self.restart_all(case, work, watch)?;
        self.mend_cheapest(case, end, work, watch)?;
        let effort = work.effort().saturating_sub(before);
        self.effort = self.effort.saturating_add(effort);
        Ok(())
    }

    /// Passes from where no layer runs a trip, to the first agreement. The choice is mended and kept.
    fn begin_anew<W: Watch>(
        &mut self,
        case: &Case<'_>,
        turn: u32,
        work: &mut Work,
        watch: &W,
    ) -> Result<(), Memory>
        requires case { IsCase case.now.instance.now case.now.nets.now case.now.sets.now }
        requires walker { IsWalkerFor case.now.instance.now self.old }
        requires ready { IsReadyToRun case.now.nets.now work.old }
        ensures walker { IsWalkerFor case.now.instance.now self.new }
        ensures ready { IsReadyToRun case.now.nets.now work.new }
    {
        if !self.agree_anew(case, turn, work, watch) {
            self.agreed = self.penalties.rate.most / 16;
            return Ok(());
        }
        self.agreed = self.penalties.rate.now;
        self.choose(case);
        let end = work.effort().saturating_add(self.budget / 8);
        self.adopt(case, i64::MAX, end, work, watch)
    }

    /// Passes from where no layer runs a trip. Gives whether the layers agree.
    fn agree_anew<W: Watch>(
        &mut self,
        case: &Case<'_>,
        turn: u32,
        work: &mut Work,
        watch: &W,
    ) -> bool
        requires case { IsCase case.now.instance.now case.now.nets.now case.now.sets.now }
        requires walker { IsWalkerFor case.now.instance.now self.old }
        requires ready { IsReadyToRun case.now.nets.now work.old }
        ensures walker { IsWalkerFor case.now.instance.now self.new }
        ensures ready { IsReadyToRun case.now.nets.now work.new }
    {
        let end = work.effort().saturating_add(self.budget.saturating_mul(4));
        let course = Course::in_all(case.instance, MOST_PASSES, end);
        self.penalties.rate = self.first_rate(case.instance, turn);
        self.penalties.begin(&self.best);
        let first = self.number.saturating_add(turn.saturating_mul(3));
        self.penalties.set_first(first);
        self.penalties.agree(case, course, work, watch)
    }

    /// Forgets its choices where the turn before came to no cheaper one on a large instance with few layers. One that
    /// is found anew may be mended further.
    fn forget_where_stuck(&mut self, instance: &Instance)
        ensures { (p : Problem) → IsWalkerFor p self.old → IsWalkerFor p self.new }
    {
        let known = self.pool.cost();
        if is_large_with_few_layers(instance) && known == self.known {
            self.pool.clear();
        }
        self.known = known;
    }

    /// The rate with which passes begin that begin anew: a small part of the greatest, the greater the later the walker
    /// and the turn.
    fn first_rate(&self, instance: &Instance, turn: u32) -> Rate {
        let most = self.penalties.rate.most;
        let pace = pace_for(instance);
        let later = turn.saturating_mul(4).saturating_add(self.number);
        let thirds = u64::from(later) + 3;
        let part = (pace.part.saturating_mul(3) / thirds).max(1);
        Rate::up_to(most / part, most, pace.growth)
    }

    /// Gives each trip to the lowest of the layers that run it, as the choice that comes next.
    pub(crate) fn choose(&mut self, case: &Case<'_>)
        requires { IsWalkerFor case.now.instance.now self.old }
        ensures { IsWalkerFor case.now.instance.now self.new }
    {
        lowest_layers(case.instance, &self.penalties.runs, &mut self.next.layers);
    }

    /// Works on with the choice that comes next: mends it up to this effort, where it costs less than so much, and
    /// keeps it. Nothing of that where a layer can't run its trips.
    pub(crate) fn adopt<W: Watch>(
        &mut self,
        case: &Case<'_>,
        worth: i64,
        end: u64,
        work: &mut Work,
        watch: &W,
    ) -> Result<(), Memory>
        requires case { IsCase case.now.instance.now case.now.nets.now case.now.sets.now }
        requires walker { IsWalkerFor case.now.instance.now self.old }
        requires ready { IsReadyToRun case.now.nets.now work.old }
        ensures walker { IsWalkerFor case.now.instance.now self.new }
        ensures ready { IsReadyToRun case.now.nets.now work.new }
    {
        if !self.reckon(case, ALL, work) {
            return Ok(());
        }
        self.take_next();
        if self.draft.cost() < worth {
            self.mend(case, end, work, watch);
        }
        self.keep(case)
    }

    /// Finds what these layers cost by the choice that comes next, and leaves what the others cost. False where one of
    /// them can't run its trips.
    pub(crate) fn reckon(&mut self, case: &Case<'_>, layers: LayerSet, work: &mut Work) -> bool
        requires case { IsCase case.now.instance.now case.now.nets.now case.now.sets.now }
        requires walker { IsWalkerFor case.now.instance.now self.old }
        requires ready { IsReadyToRun case.now.nets.now work.old }
        ensures walker { IsWalkerFor case.now.instance.now self.new }
        ensures ready { IsReadyToRun case.now.nets.now work.new }
    {
        self.next.costs.copy_from_slice(&self.draft.costs);
        let count = case.instance.layers();
        prove!(count <= MAX_LAYERS);
        for l in 0..count {
            let l = LayerNo(l);
            if layers.has(l) && !self.reckon_layer(case, l, work) {
                return false;
            }
        }
        true
    }

    /// Finds what a layer costs by the choice that comes next. False where it can't run its trips.
    fn reckon_layer(&mut self, case: &Case<'_>, l: LayerNo, work: &mut Work) -> bool
        requires case { IsCase case.now.instance.now case.now.nets.now case.now.sets.now }
        requires layer { l.0 < length case.now.instance.now.layers }
        requires walker { IsWalkerFor case.now.instance.now self.old }
        requires ready { IsReadyToRun case.now.nets.now work.old }
        ensures walker { IsWalkerFor case.now.instance.now self.new }
        ensures ready { IsReadyToRun case.now.nets.now work.new }
    {
        let found = self.penalties.cost_of(case, l, &self.next.layers, work);
        match found {
            Some(cost) => {
                self.next.costs[l.0 as usize] = cost;
                true
            }
            None => false,
        }
    }

    /// Works on with the choice that comes next.
    pub(crate) fn take_next(&mut self)
        ensures { (p : Problem) → IsWalkerFor p self.old → IsWalkerFor p self.new }
    {
        swap(&mut self.draft, &mut self.next);
    }

    /// Keeps the choice that is worked on.
    fn keep(&mut self, case: &Case<'_>) -> Result<(), Memory>
        requires { IsWalkerFor case.now.instance.now self.old }
        ensures { IsWalkerFor case.now.instance.now self.new }
    {
        let cost = self.draft.cost();
        self.pool.keep(case.alloc, cost, &self.draft.layers)
    }
}

/// How each kind of mending begins. All layers agree on the trips of some vehicles at a far smaller rate than on all of
/// them.
fn first_mends() -> [Divisor; KINDS] {
    let usual = Divisor::new(4);
    let small = Divisor::new(32);
    [usual, usual, small, small]
}

/// The slower a rate rises, the less the best multipliers are left behind. With few layers it may rise faster, but not
/// on a large instance.
fn pace_for(instance: &Instance) -> Pace
    ensures { 0 < result.growth }
{
    if instance.layers() > FEW_LAYERS || is_large(instance) {
        Pace {
            part: 2_000,
            growth: 20,
        }
    } else {
        Pace {
            part: 500,
            growth: 10,
        }
    }
}
