//! The walkers at the root, and their turns.

ghost use Rattle.std.specs.Prelude.{◌≡◌, ◌≤◌, ◌≤ℤ◌, pos, IfOk, length};
ghost use Rattle.vs_instance.specs.declared.limits.TheConstants.{MAX_MULTIPLIER};
ghost use Rattle.vs_multi.specs.Multipliers.{AreMultipliers};
ghost use Rattle.vs_multi.specs.Rounds.{IsCase};
ghost use Rattle.vs_walk.specs.Walkers.{IsWalkerFor};
ghost use Rattle.vs_penalty.specs.Seekers.{AreWalks, AreWalkers, IsTurnIn};

use crate::effort::is_small;
use vs_bundle::Lanes;
use vs_circ::Work;
use vs_match::LayerNet;
use vs_multi::{Case, NoWatch, Watch, in_turn};
use vs_types::Memory;
use vs_walk::{Pool, Walker};

/// How many walkers there are.
const WALKERS: u32 = 4;

/// How many of them walk in the first turn on a small instance, where they mostly find a plan that is cheap enough.
const FIRST_WALKERS: usize = 2;

/// How many arcs the nets have at most where each walker keeps something for them, some 54 bytes an arc. With more it
/// would be over 200 MB, and the walkers share what is kept.
const MOST_ARCS: u64 = 900_000;

/// Who has the walkers take their turns, and runs layers.
pub trait Hands: Lanes {
    /// A turn of each of these, some of them side by side. Each keeps something for the nets. How many walk at once
    /// decides nothing but how long it takes.
    fn walk_all(&self, walks: &mut [Walk], case: &Case<'_>, turn: &Turn<'_>)
        requires works { Self.works self.now }
        requires turn { IsTurnIn case.now.instance.now case.now.nets.now case.now.sets.now turn.now }
        requires walkers { AreWalks case.now.instance.now walks.old }
        ensures { AreWalks case.now.instance.now walks.new };
}

impl Hands for NoWatch {
    fn walk_all(&self, walks: &mut [Walk], case: &Case<'_>, turn: &Turn<'_>) {
        walk_in_turn(walks, case, turn);
    }
}

/// A walk: who walks, and what is kept for the nets on the way.
#[derive(Drop)]
pub struct Walk {
    walker: Walker,
    /// None where the walkers share what is kept.
    own: Option<Work>,
    /// Whether its last turn ended for want of memory.
    failed: bool,
}

/// The walkers at the root.
#[derive(Drop)]
pub(crate) struct Walkers {
    walks: Vec<Walk>,
}

/// What a turn begins with.
#[derive(Clone, Copy)]
pub struct Turn<'a> {
    /// Which turn it is, from 0 on.
    number: u32,
    /// The best multipliers.
    multipliers: &'a [i64],
    /// The cheapest choices of all walkers.
    pool: &'a Pool,
}

impl Walkers {
    /// Walkers that know nothing yet. `most` is the greatest rate, and `budget` the effort of a turn of each.
    pub fn new(
        case: &Case<'_>,
        multipliers: &[i64],
        most: u64,
        budget: u64,
    ) -> Result<Walkers, Memory>
        requires multipliers { AreMultipliers case.now.instance.now multipliers.now }
        requires most { pos most ≤ℤ MAX_MULTIPLIER }
        ensures { IfOk result (AreWalkers case.now.instance.now) }
    {
        let mut walks = Vec::new(case.alloc);
        for number in 0..WALKERS {
            let walker = Walker::new(case, number, multipliers, most, budget)?;
            let own = work_for(case)?;
            walks.push(Walk {
                walker,
                own,
                failed: false,
            })?;
        }
        Ok(Walkers { walks })
    }

    /// Tells each the number of the vehicle that runs each trip in the cheapest plan.
    pub fn take_vehicles(&mut self, case: &Case<'_>, vehicles: &[u32])
        requires walkers { AreWalkers case.now.instance.now self.old }
        requires vehicles { length vehicles.now ≡ length case.now.instance.now.trips }
        ensures { AreWalkers case.now.instance.now self.new }
    {
        tell_vehicles(&mut self.walks, case, vehicles);
    }

    /// A turn of each. In even turns they begin with the choices of the pool, in odd ones each with its own. What they
    /// know in the end goes into the pool, in their order.
    pub fn take_turn<W: Hands>(
        &mut self,
        case: &Case<'_>,
        number: u32,
        multipliers: &[i64],
        pool: &mut Pool,
        work: &mut Work,
        watch: &W,
    ) -> Result<(), Memory>
        requires works { W.works watch.now }
        requires case { IsCase case.now.instance.now case.now.nets.now case.now.sets.now }
        requires multipliers { AreMultipliers case.now.instance.now multipliers.now }
        requires walkers { AreWalkers case.now.instance.now self.old }
        requires pool { pool.old.trips ≡ length case.now.instance.now.trips }
        ensures walkers { AreWalkers case.now.instance.now self.new }
        ensures pool { pool.new.trips ≡ length case.now.instance.now.trips }
    {
        let count = self.count_in(case, number);
        let turn = Turn {
            number,
            multipliers,
            pool,
        };
        walk_first(&mut self.walks, count, case, &turn, work, watch);
        self.share(case, pool)
    }

    /// How many of them walk in a turn.
    fn count_in(&self, case: &Case<'_>, turn: u32) -> usize
        ensures { result ≤ length self.now.walks.items }
    {
        let count = self.walks.len();
        if turn == 0 && is_small(case.instance) {
            count.min(FIRST_WALKERS)
        } else {
            count
        }
    }

    /// Keeps in the pool what the walkers know. Memory, where a turn ended for want of it.
    fn share(&self, case: &Case<'_>, pool: &mut Pool) -> Result<(), Memory>
        requires walkers { AreWalkers case.now.instance.now self.now }
        requires pool { pool.old.trips ≡ length case.now.instance.now.trips }
        ensures { pool.new.trips ≡ length case.now.instance.now.trips }
    {
        for walk in &self.walks {
            if walk.failed {
                return Err(Memory);
            }
            pool.merge(case.alloc, &walk.walker.pool)?;
        }
        Ok(())
    }

    /// What all of them did so far, as `Work::effort` counts it.
    pub fn effort(&self) -> u64 {
        let mut effort: u64 = 0;
        for walk in &self.walks {
            effort = effort.saturating_add(walk.walker.effort);
        }
        effort
    }
}

/// Tells each of these walkers the number of the vehicle that runs each trip in the cheapest plan.
fn tell_vehicles(walks: &mut [Walk], case: &Case<'_>, vehicles: &[u32])
    requires walkers { AreWalks case.now.instance.now walks.old }
    requires vehicles { length vehicles.now ≡ length case.now.instance.now.trips }
    ensures { AreWalks case.now.instance.now walks.new }
{
    for k in 0..walks.len() {
        walks[k].take_vehicles(case, vehicles);
    }
}

/// A turn of each of the first of these, up to this number.
fn walk_first<W: Hands>(
    walks: &mut [Walk],
    count: usize,
    case: &Case<'_>,
    turn: &Turn<'_>,
    work: &mut Work,
    watch: &W,
)
    requires works { W.works watch.now }
    requires turn { IsTurnIn case.now.instance.now case.now.nets.now case.now.sets.now turn.now }
    requires walkers { AreWalks case.now.instance.now walks.old }
    requires count { count ≤ length walks.old }
    ensures { AreWalks case.now.instance.now walks.new }
{
    let walking = &mut walks[..count];
    if are_small(case.nets) {
        watch.walk_all(walking, case, turn);
    } else {
        walk_sharing(walking, case, turn, work, watch);
    }
}

/// A turn of each of these, one after the other. Each keeps something for the nets.
fn walk_in_turn(walks: &mut [Walk], case: &Case<'_>, turn: &Turn<'_>)
    requires turn { IsTurnIn case.now.instance.now case.now.nets.now case.now.sets.now turn.now }
    requires walkers { AreWalks case.now.instance.now walks.old }
    ensures { AreWalks case.now.instance.now walks.new }
{
    let job = |_place: usize, one: &mut Walk|
        requires { IsTurnIn case.now.instance.now case.now.nets.now case.now.sets.now turn.now
            × IsWalkerFor case.now.instance.now one.now.walker }
        ensures { IsWalkerFor case.entry.now.instance.now one.exit.now.walker }
    { one.go(case, turn, &NoWatch) };
    in_turn(walks, &job);
}

/// A turn of each of these, one after the other. They share what is kept for the nets.
fn walk_sharing<W: Watch>(
    walks: &mut [Walk],
    case: &Case<'_>,
    turn: &Turn<'_>,
    work: &mut Work,
    watch: &W,
)
    requires turn { IsTurnIn case.now.instance.now case.now.nets.now case.now.sets.now turn.now }
    requires walkers { AreWalks case.now.instance.now walks.old }
    ensures { AreWalks case.now.instance.now walks.new }
{
    for k in 0..walks.len() {
        walks[k].go_with(case, turn, work, watch);
    }
}

impl Walk {
    /// Tells the walker the number of the vehicle that runs each trip in the cheapest plan.
    fn take_vehicles(&mut self, case: &Case<'_>, vehicles: &[u32])
        requires walker { IsWalkerFor case.now.instance.now self.old.walker }
        requires vehicles { length vehicles.now ≡ length case.now.instance.now.trips }
        ensures { IsWalkerFor case.now.instance.now self.new.walker }
    {
        let _ = case;
        self.walker.take_vehicles(vehicles);
    }

    /// A turn with what is kept here for the nets.
    fn go_with<W: Watch>(&mut self, case: &Case<'_>, turn: &Turn<'_>, work: &mut Work, watch: &W)
        requires turn { IsTurnIn case.now.instance.now case.now.nets.now case.now.sets.now turn.now }
        requires walker { IsWalkerFor case.now.instance.now self.old.walker }
        ensures { IsWalkerFor case.now.instance.now self.new.walker }
    {
        self.failed = turn_of(&mut self.walker, case, turn, work, watch).is_err();
    }

    /// A turn with what it keeps for the nets itself.
    pub fn go<W: Watch>(&mut self, case: &Case<'_>, turn: &Turn<'_>, watch: &W)
        requires turn { IsTurnIn case.now.instance.now case.now.nets.now case.now.sets.now turn.now }
        requires walker { IsWalkerFor case.now.instance.now self.old.walker }
        ensures { IsWalkerFor case.now.instance.now self.new.walker }
    {
        if let Some(own) = &mut self.own {
            self.failed = turn_of(&mut self.walker, case, turn, own, watch).is_err();
        }
    }
}

/// A turn of a walker. In even turns it begins with the choices of the pool, in odd ones with its own.
fn turn_of<W: Watch>(
    walker: &mut Walker,
    case: &Case<'_>,
    turn: &Turn<'_>,
    work: &mut Work,
    watch: &W,
) -> Result<(), Memory>
    requires turn { IsTurnIn case.now.instance.now case.now.nets.now case.now.sets.now turn.now }
    requires walker { IsWalkerFor case.now.instance.now walker.old }
    ensures { IsWalkerFor case.now.instance.now walker.new }
{
    if turn.number % 2 == 0 {
        walker.take_over(case, turn.pool)?;
    }
    walker.walk(case, turn.number, turn.multipliers, work, watch)
}

/// What a walk keeps for the nets, or nothing where the walkers share it.
fn work_for(case: &Case<'_>) -> Result<Option<Work>, Memory> {
    if are_small(case.nets) {
        Ok(Some(Work::new(case.alloc, case.nets)?))
    } else {
        Ok(None)
    }
}

/// Whether the nets are small enough that each walker may keep something for them.
fn are_small(nets: &[LayerNet]) -> bool {
    let mut arcs: u64 = 0;
    for net in nets {
        arcs = arcs.saturating_add(u64::from(net.net().arcs()));
    }
    arcs <= MOST_ARCS
}
