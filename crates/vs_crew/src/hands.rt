//! Threads for the work at the root: layers are run and walkers take their turns side by side.

ghost use Rattle.std.specs.Prelude.{◌≡◌, ◌<◌, length, IfOk, IfSome, None};
ghost use Rattle.vs_bundle.specs.Runs.{AreLayers, CanRunIn, HaveRunIn, MayRunAll};
ghost use Rattle.vs_walk.specs.Walkers.{IsWalkerFor};
ghost use Rattle.vs_penalty.specs.Seekers.{AreWalks, IsTurnIn};
ghost use Rattle.vs_prices.specs.Table.{Fits};
ghost use Rattle.vs_crew.specs.Calls.{RunsLayers, TakesTurns};
ghost use Rattle.vs_crew.specs.Found.{IsFinding, IsLawfulTask};
ghost use Rattle.vs_crew.specs.Workers.{IsSite};

use crate::finding::{Finding, found};
use crate::rows::Rows;
use crate::site::{Gate, Site};
use crate::watching::RootWatch;
use std::alloc::Global;
use std::marker::Sync;
use std::thread::{Threads, for_each_mut};
use vs_bundle::Lanes;
use vs_circ::Kept;
use vs_match::LayerNet;
use vs_multi::{Case, Watch};
use vs_node::{Room, Task};
use vs_penalty::{Hands, Turn, Walk};
use vs_types::Memory;

/// The watch at the root, with two calls that use threads: one runs layers, one has walkers take their turns.
#[derive(Drop)]
struct RootHands<'a, G: Gate, L, K> {
    watch: &'a RootWatch<'a, G>,
    threads: usize,
    run: L,
    walk: K,
    ghost some: { 0 < threads },
}

impl<G: Gate + Sync, L, K> Watch for RootHands<'_, G, L, K> {
    ghost may_end = { λ hands. G.may_stop hands.watch.now.gate.now };

    fn tell(&self, cost: Option<i64>, value: i64) {
        self.watch.tell(cost, value);
    }

    fn is_over(&self) -> bool {
        self.watch.is_over()
    }
}

impl<
    G: Gate + Sync,
    L: Fn(&[LayerNet], &[Vec<Option<i64>>], &[usize], &mut [Kept]),
    K: Fn(&mut [Walk], &Case<'_>, &Turn<'_>),
> Lanes for RootHands<'_, G, L, K> {
    ghost works = { λ hands. RunsLayers L.Fn hands.run × TakesTurns K.Fn hands.walk };

    fn threads(&self) -> usize {
        self.threads
    }

    fn run_layers(
        &self,
        nets: &[LayerNet],
        offers: &[Vec<Option<i64>>],
        places: &[usize],
        kept: &mut [Kept],
    ) {
        (self.run)(nets, offers, places, kept);
    }
}

impl<
    G: Gate + Sync,
    L: Fn(&[LayerNet], &[Vec<Option<i64>>], &[usize], &mut [Kept]),
    K: Fn(&mut [Walk], &Case<'_>, &Turn<'_>),
> Hands for RootHands<'_, G, L, K> {
    fn walk_all(&self, walks: &mut [Walk], case: &Case<'_>, turn: &Turn<'_>) {
        (self.walk)(walks, case, turn);
    }
}

/// What the work on a leaf finds. What can be done side by side at the root is done in as many threads as there are
/// workers: while one works on the root, the others have no leaf, and wait.
pub(crate) fn found_in_threads<R: Threads + Sync, G: Gate + Sync>(
    rt: &R,
    alloc: Global,
    site: &Site<'_, G>,
    task: &mut Task,
    passes: bool,
    room: &mut Room,
) -> Result<Option<Finding>, Memory>
    requires site { IsSite site.now.instance.now site.now.nets.now site.now.start.now.value }
    requires lawful { IsLawfulTask site.now.instance.now task.old }
    ensures found { IfOk result (λ found. IfSome found (IsFinding site.now.instance.now task.old)) }
    ensures ended { IfOk result (λ found. found ≡ None → G.may_stop site.now.gate.now) }
    ensures sets { length task.new.sets.items ≡ length task.old.sets.items }
    ensures fits { Fits site.now.instance.now task.new.table }
{
    let threads = site.workers.max(1) as usize;
    let watch = RootWatch::new(site.gate);
    let run = |nets: &[LayerNet], offers: &[Vec<Option<i64>>], places: &[usize], kept: &mut [Kept]|
        requires { (0 < threads) × (length places.now ≡ length kept.now) × AreLayers nets.now places.now
            × MayRunAll nets.now offers.now × CanRunIn nets.now places.now kept.now }
        ensures { (length kept.exit.now ≡ length kept.entry.now)
            × HaveRunIn nets.entry.now offers.entry.now places.entry.now kept.exit.now }
    { run_side_by_side(rt, threads, nets, offers, places, kept) };
    let walk = |walks: &mut [Walk], case: &Case<'_>, turn: &Turn<'_>|
        requires { (0 < threads) × IsTurnIn case.now.instance.now case.now.nets.now case.now.sets.now turn.now
            × AreWalks case.now.instance.now walks.now }
        ensures { AreWalks case.entry.now.instance.now walks.exit.now }
    { walk_side_by_side(rt, threads, walks, case, turn, &watch) };
    let hands = RootHands {
        watch: &watch,
        threads,
        run,
        walk,
    };
    found(alloc, site.instance, site.nets, task, passes, room, &hands)
}

/// Runs the layers in this order, some of them side by side, each with what is kept at its place.
fn run_side_by_side<R: Threads + Sync>(
    rt: &R,
    threads: usize,
    nets: &[LayerNet],
    offers: &[Vec<Option<i64>>],
    places: &[usize],
    kept: &mut [Kept],
)
    requires some { 0 < threads }
    requires each { length places.now ≡ length kept.old }
    requires layers { AreLayers nets.now places.now }
    requires offers { MayRunAll nets.now offers.now }
    requires ready { CanRunIn nets.now places.now kept.old }
    ensures each { length kept.new ≡ length kept.old }
    ensures run { HaveRunIn nets.now offers.now places.now kept.new }
{
    let rows = Rows {
        nets,
        offers,
        in_a_row: kept.len().div_ceil(threads).max(1),
    };
    rows.run(rt, places, kept);
}

/// A turn of each of these walks, side by side.
fn walk_side_by_side<R: Threads + Sync, G: Gate + Sync>(
    rt: &R,
    threads: usize,
    walks: &mut [Walk],
    case: &Case<'_>,
    turn: &Turn<'_>,
    watch: &RootWatch<'_, G>,
)
    requires some { 0 < threads }
    requires turn { IsTurnIn case.now.instance.now case.now.nets.now case.now.sets.now turn.now }
    requires walkers { AreWalks case.now.instance.now walks.old }
    ensures { AreWalks case.now.instance.now walks.new }
{
    let job = |_place: usize, walk: &mut Walk|
        requires { IsTurnIn case.now.instance.now case.now.nets.now case.now.sets.now turn.now
            × IsWalkerFor case.now.instance.now walk.now.walker }
        ensures { IsWalkerFor case.entry.now.instance.now walk.exit.now.walker }
    { walk.go(case, turn, watch) };
    for_each_mut(rt, walks, threads, &job);
}
