//! The steps by which plans and multipliers are sought at the root.

ghost use Rattle.vs_bundle.specs.Climbs.{IsAscentFor};
ghost use Rattle.vs_multi.specs.Multipliers.{AreMultipliers};
ghost use Rattle.vs_multi.specs.Rounds.{IsCase};
ghost use Rattle.vs_penalty.specs.Seekers.{AreWalkers, CanSeek, IsSeekerFor};

use crate::effort::{effort_for, is_slow, is_small, quick_passes, turn_effort};
use crate::seeking::Seeker;
use crate::walkers::{Hands, Walkers};
use vs_bundle::{Aim, Ascent, Lanes};
use vs_circ::{Work, begin_runs};
use vs_instance::Instance;
use vs_multi::{Case, Watch};
use vs_types::Memory;
use vs_walk::is_large;

/// The first step of a climb, in per cent of the greatest. The multipliers are known to within some per cent of it.
const FIRST_STEP: u32 = 2;

/// How many circulations a layer keeps in a climb: it is kept from one part of it to the next.
const CUTS: u32 = 100;

/// When the turns of the walkers end: after so many, after so many in a row that find no cheaper plan, or after so much
/// effort of all walkers, as far as that is usual.
#[derive(Clone, Copy, Debug)]
struct Turns {
    most: u32,
    vain: u32,
    effort: u64,
}

const TURNS: Turns = Turns {
    most: 6,
    vain: 2,
    effort: 120_000_000,
};

/// On a large instance later turns find much cheaper plans too, also where several before them were in vain.
const TURNS_LARGE: Turns = Turns {
    most: 16,
    vain: 6,
    effort: 320_000_000,
};

/// A part of the climb: how many rounds it has at most, and how much effort they usually take.
#[derive(Clone, Copy, Debug)]
struct Stage {
    rounds: u32,
    effort: u64,
}

/// From the multipliers of the quick passes: on a large instance, where the climb is slow, and where it isn't.
const FIRST_LARGE: Stage = Stage {
    rounds: 400,
    effort: 150_000_000,
};

const FIRST_SLOW: Stage = Stage {
    rounds: 400,
    effort: 60_000_000,
};

const FIRST: Stage = Stage {
    rounds: 120,
    effort: 40_000_000,
};

/// Once a cheaper plan is known.
const FURTHER: Stage = Stage {
    rounds: 30,
    effort: 13_000_000,
};

/// After all turns: on a large instance, where the climb is slow and has had more rounds before, and where it isn't.
const LAST_LARGE: Stage = Stage {
    rounds: 1_200,
    effort: 170_000_000,
};

const LAST_SLOW: Stage = Stage {
    rounds: 100,
    effort: 20_000_000,
};

const LAST: Stage = Stage {
    rounds: 240,
    effort: 21_000_000,
};

/// On a small instance climbs on leaves gain what more rounds would.
const LAST_ON_SMALL: Stage = Stage {
    rounds: 30,
    effort: 20_000_000,
};

impl Seeker {
    /// Seeks plans by passes from the first multipliers.
    pub fn begin<W: Watch>(
        &mut self,
        case: &Case<'_>,
        work: &mut Work,
        watch: &W,
    ) -> Result<(), Memory>
        requires case { IsCase case.now.instance.now case.now.nets.now case.now.sets.now }
        requires seeker { IsSeekerFor case.now.instance.now self.old }
        ensures { IsSeekerFor case.now.instance.now self.new }
    {
        self.seek(case, quick_passes(case.instance), work, watch)
    }

    /// Seeks plans and ever better multipliers from where the first passes end. There is a climb, turns of walkers, and
    /// more of the climb, which a cheaper plan guides better. All of that ends early where the watch says so.
    pub fn go_on<W: Hands>(
        &mut self,
        case: &Case<'_>,
        multipliers: &mut [i64],
        work: &mut Work,
        watch: &W,
    ) -> Result<(), Memory>
        requires works { W.works watch.now }
        requires can { CanSeek case.now.instance.now case.now.nets.now case.now.sets.now multipliers.old self.old }
        ensures multipliers { AreMultipliers case.now.instance.now multipliers.new }
        ensures seeker { IsSeekerFor case.now.instance.now self.new }
    {
        let (first, last) = stages(case.instance);
        multipliers.copy_from_slice(self.reached(case.instance));
        if watch.is_over() {
            return Ok(());
        }
        let aim = self.aim(case.instance, first);
        let mut ascent = Ascent::begin(case, &aim, multipliers, work, watch)?;
        self.climb(case, &mut ascent, first, multipliers, work, watch)?;
        self.take_turns(case, &mut ascent, multipliers, work, watch)?;
        if self.is_done(case.instance) || watch.is_over() {
            return Ok(());
        }
        self.climb(case, &mut ascent, last, multipliers, work, watch)
    }

    /// Turns of walkers, until several find no cheaper plan or none can cost much less. Before a turn the climb goes on
    /// where a cheaper plan is known than it had.
    fn take_turns<W: Hands>(
        &mut self,
        case: &Case<'_>,
        ascent: &mut Ascent,
        multipliers: &mut [i64],
        work: &mut Work,
        watch: &W,
    ) -> Result<(), Memory>
        requires works { W.works watch.now }
        requires can { CanSeek case.now.instance.now case.now.nets.now case.now.sets.now multipliers.old self.old }
        requires ascent { IsAscentFor case.now.instance.now ascent.old }
        ensures multipliers { AreMultipliers case.now.instance.now multipliers.new }
        ensures seeker { IsSeekerFor case.now.instance.now self.new }
        ensures ascent { IsAscentFor case.now.instance.now ascent.new }
    {
        if self.is_over(case.instance, watch) {
            return Ok(());
        }
        let most = self.penalties.rate.most;
        let budget = turn_effort(case.instance, self.of_pass);
        let turns = turns_for(case.instance);
        let most_walks = effort_for(case.instance, self.of_pass, turns.effort);
        let mut walkers = Walkers::new(case, multipliers, most, budget)?;
        let mut vain = 0;
        let mut climbed_for = self.choices.cost();
        for turn in 0..turns.most {
            climbed_for = self.climb_further(case, ascent, climbed_for, multipliers, work, watch)?;
            let is_spent = vain == turns.vain || walkers.effort() > most_walks;
            if is_spent || self.is_over(case.instance, watch) {
                break;
            }
            let is_vain = self.take_turn(case, &mut walkers, turn, multipliers, work, watch)?;
            vain = if is_vain { vain.saturating_add(1) } else { 0 };
        }
        Ok(())
    }

    /// A part of the climb, where a cheaper plan is known than one of this cost. Gives what the cheapest one costs.
    fn climb_further<W: Lanes>(
        &mut self,
        case: &Case<'_>,
        ascent: &mut Ascent,
        climbed_for: Option<i64>,
        multipliers: &mut [i64],
        work: &mut Work,
        watch: &W,
    ) -> Result<Option<i64>, Memory>
        requires works { W.works watch.now }
        requires can { CanSeek case.now.instance.now case.now.nets.now case.now.sets.now multipliers.old self.old }
        requires ascent { IsAscentFor case.now.instance.now ascent.old }
        ensures multipliers { AreMultipliers case.now.instance.now multipliers.new }
        ensures seeker { IsSeekerFor case.now.instance.now self.new }
        ensures ascent { IsAscentFor case.now.instance.now ascent.new }
    {
        let cost = self.choices.cost();
        if cost != climbed_for {
            self.climb(case, ascent, FURTHER, multipliers, work, watch)?;
        }
        Ok(cost)
    }

    /// A turn of the walkers. Gives whether a plan is known and no cheaper one was found.
    fn take_turn<W: Hands>(
        &mut self,
        case: &Case<'_>,
        walkers: &mut Walkers,
        turn: u32,
        multipliers: &[i64],
        work: &mut Work,
        watch: &W,
    ) -> Result<bool, Memory>
        requires works { W.works watch.now }
        requires can { CanSeek case.now.instance.now case.now.nets.now case.now.sets.now multipliers.now self.old }
        requires walkers { AreWalkers case.now.instance.now walkers.old }
        ensures seeker { IsSeekerFor case.now.instance.now self.new }
        ensures walkers { AreWalkers case.now.instance.now walkers.new }
    {
        let before = self.choices.cost();
        walkers.take_vehicles(case, &self.choices.vehicles(case)?);
        let pool = &mut self.choices.pool;
        walkers.take_turn(case, turn, multipliers, pool, work, watch)?;
        self.choices.draw_cheapest(case, work)?;
        watch.tell(self.choices.cost(), i64::MIN);
        Ok(before.is_some() && self.choices.cost() == before)
    }

    /// Whether there is little left to gain for turns, or the watch ends them.
    fn is_over<W: Watch>(&self, instance: &Instance, watch: &W) -> bool {
        self.is_done(instance) || self.is_near() || watch.is_over()
    }

    /// A part of the climb, from these multipliers, which it came to.
    fn climb<W: Lanes>(
        &mut self,
        case: &Case<'_>,
        ascent: &mut Ascent,
        stage: Stage,
        multipliers: &mut [i64],
        work: &mut Work,
        watch: &W,
    ) -> Result<(), Memory>
        requires works { W.works watch.now }
        requires can { CanSeek case.now.instance.now case.now.nets.now case.now.sets.now multipliers.old self.old }
        requires ascent { IsAscentFor case.now.instance.now ascent.old }
        ensures multipliers { AreMultipliers case.now.instance.now multipliers.new }
        ensures seeker { IsSeekerFor case.now.instance.now self.new }
        ensures ascent { IsAscentFor case.now.instance.now ascent.new }
    {
        begin_runs(case.alloc, case.nets, work)?;
        let aim = self.aim(case.instance, stage);
        ascent.go_on(case, &aim, multipliers, work, watch);
        self.value = ascent.value();
        Ok(())
    }

    /// What a part of the climb is to come to.
    fn aim(&self, instance: &Instance, stage: Stage) -> Aim {
        Aim {
            known: self.choices.known(),
            most: self.penalties.rate.most,
            hundredths: FIRST_STEP,
            cuts: CUTS,
            rounds: stage.rounds,
            trial_rounds: stage.rounds,
            paced: false,
            effort: effort_for(instance, self.of_pass, stage.effort),
        }
    }
}

/// When the turns of the walkers end.
fn turns_for(instance: &Instance) -> Turns {
    if is_large(instance) {
        TURNS_LARGE
    } else {
        TURNS
    }
}

/// The first and the last part of the climb.
fn stages(instance: &Instance) -> (Stage, Stage) {
    if is_large(instance) {
        (FIRST_LARGE, LAST_LARGE)
    } else if is_slow(instance) {
        (FIRST_SLOW, LAST_SLOW)
    } else if is_small(instance) {
        (FIRST, LAST_ON_SMALL)
    } else {
        (FIRST, LAST)
    }
}
