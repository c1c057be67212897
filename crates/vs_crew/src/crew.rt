//! A crew of workers: how they are enlisted, seated, let work together, and joined.
ghost use Rattle.std.specs.Prelude.{◌≡◌, ◌<◌, [], length, IfErr, IfOk, Some};
ghost use Rattle.vs_match.specs.LayerNets.{AreLayerNets};
ghost use Rattle.vs_turn.specs.Seats.{SeatModel};
ghost use Rattle.vs_tree.specs.Search.{state};
ghost use Rattle.vs_tree.specs.Takes.{IsOver};
ghost use Rattle.vs_crew.specs.Crew.{HasGoneOn};
ghost use Rattle.vs_crew.specs.Sharing.{KnowsEnds, NoneIsHeld};
ghost use Rattle.vs_crew.specs.Workers.{AreDone, AreEnlisted, AreSeated, IsDone, IsEnlisted, IsFirstSeat, IsFresh, IsReady, IsSite};

use crate::changes::Changes;
use crate::shared_tree::SharedTree;
use crate::site::{Gate, Site};
use crate::worker::{Worker, take_part};
use std::alloc::Global;
use std::snapshot::Snapshot;
use std::sync::Wait;
use std::thread::{Threads, for_each_mut};
use vs_instance::Instance;
use vs_match::LayerNet;
use vs_node::{Room, Task};
use vs_prices::{Table, permitted_sets};
use vs_tree::Tree;
use vs_turn::{Seat, Turn};
use vs_types::Memory;

/// Has so many workers take the leaves of a search and work on them, each in a thread of its own where one can be made.
/// They end where no leaf leaves room for a plan cheaper than the cheapest so far, the budget is spent, or the gate
/// ends the search. A worker that finds no memory gives its leaf back and takes no more. Where no other is left, the
/// search comes back as it has become. Before each leaf is worked on, the worker passes the gate.
pub fn run<R: Threads + Wait + Sync, G: Gate + Sync>(
    rt: &R,
    alloc: Global,
    instance: &Instance,
    nets: &[LayerNet],
    tree: Tree,
    workers: u32,
    gate: &G,
) -> Result<Tree, (Tree, Memory)>
    requires nets { AreLayerNets instance.now nets.now }
    requires problem { tree.opening.problem ≡ instance.now }
    requires some_workers { 0 < workers }
    requires workers { tree.opening.workers ≡ workers }
    requires none_held { NoneIsHeld (state tree) }
    requires none_gone { (state tree).gone ≡ [] }
    ensures goes_on { IfOk result (HasGoneOn tree) }
    ensures over { ¬ (G.may_stop gate.now) → IfOk result (λ after. IsOver after.opening (state after)) }
    ensures memory { IfErr result (λ e. HasGoneOn tree e.0) }
{
    let Ok(crew) = enlisted(alloc, instance, workers) else {
        return Err((tree, Memory));
    };
    let start = Snapshot::of(&tree);
    let (turn, seat) = match Turn::new(alloc, SharedTree::new(tree), workers) {
        Ok(made) => made,
        Err((shared, Memory)) => return Err((shared.into_tree(), Memory)),
    };
    let changes = Changes::new();
    let site = Site {
        instance,
        nets,
        start: &start,
        turn: &turn,
        changes: &changes,
        gate,
        workers,
    };
    let (seat, over) = work_to_end(rt, alloc, &site, seat, crew);
    drop(site);
    let tree = turn.close(seat).into_tree();
    if over { Ok(tree) } else { Err((tree, Memory)) }
}

/// So many workers, which have no seats yet.
fn enlisted(alloc: Global, instance: &Instance, workers: u32) -> Result<Vec<Worker>, Memory>
    ensures count { IfOk result (λ crew. length crew.items ≡ workers) }
    ensures each { IfOk result (λ crew. AreEnlisted instance.now crew.items) }
{
    let mut crew = Vec::with_capacity(alloc, workers as usize)?;
    for number in 0..workers {
        let worker = enlist(alloc, instance, workers, number)?;
        crew.push(worker)?;
    }
    Ok(crew)
}

/// A worker of this number among so many. It keeps nothing for the nets before it works on a leaf.
fn enlist(alloc: Global, instance: &Instance, workers: u32, number: u32) -> Result<Worker, Memory>
    ensures { IfOk result (IsEnlisted instance.now number) }
{
    Ok(Worker {
        number,
        seat: None,
        task: Task {
            sets: permitted_sets(alloc, instance)?,
            table: Table::zero(alloc, instance)?,
            known: None,
            root: false,
        },
        room: Room::new(alloc, &[], workers)?,
        taken: 0,
        over: false,
    })
}

/// Gives each worker a seat, with its number as the ticket.
fn give_seats<G: Gate>(site: &Site<'_, G>, mut seat: Seat, crew: &mut [Worker])
    requires problem { site.now.start.now.value.opening.problem ≡ site.now.instance.now }
    requires fresh { IsFresh (length crew.old) site.now.start.now.value }
    requires some { 0 < length crew.old }
    requires crew { AreEnlisted site.now.instance.now crew.old }
    requires seat { IsFirstSeat site.now.turn.now.name site.now.start.now.value (length crew.old) seat }
    ensures count { length crew.new ≡ length crew.old }
    ensures each { AreSeated site.now.turn.now.name site.now.start.now.value crew.new }
{
    for k in (1..crew.len()).rev() {
        let (first, last) = site.turn.split(seat);
        seat = first;
        crew[k].seat = Some(last);
    }
    let foremost = 0;
    crew[foremost].seat = Some(seat);
}

/// Gives the workers their seats and has them work. Gives the seat of all of them once each has ended, and whether one
/// of them knows that the search is over, or the gate ended it.
fn work_to_end<R: Threads + Wait + Sync, G: Gate + Sync>(
    rt: &R,
    alloc: Global,
    site: &Site<'_, G>,
    seat: Seat,
    mut crew: Vec<Worker>,
) -> (Seat, bool)
    requires site { IsSite site.now.instance.now site.now.nets.now site.now.start.now.value }
    requires fresh { IsFresh (length crew.items) site.now.start.now.value }
    requires some { 0 < length crew.items }
    requires crew { AreEnlisted site.now.instance.now crew.items }
    requires seat { IsFirstSeat site.now.turn.now.name site.now.start.now.value (length crew.items) seat }
    ensures { KnowsEnds (G.may_stop site.now.gate.now) site.now.turn.now.name site.now.start.now.value 0
        (length crew.items) result.1 result.0 }
{
    give_seats(site, seat, &mut crew);
    let together = crew.as_mut_slice();
    work_together(rt, alloc, site, together);
    joined(site, crew)
}

/// Has all workers work, each in a thread of its own where one can be made, until each has ended.
fn work_together<R: Threads + Wait + Sync, G: Gate + Sync>(
    rt: &R,
    alloc: Global,
    site: &Site<'_, G>,
    crew: &mut [Worker],
)
    requires site { IsSite site.now.instance.now site.now.nets.now site.now.start.now.value }
    requires some { 0 < length crew.old }
    requires seated { AreSeated site.now.turn.now.name site.now.start.now.value crew.old }
    ensures count { length crew.new ≡ length crew.old }
    ensures done { AreDone (G.may_stop site.now.gate.now) site.now.turn.now.name site.now.start.now.value crew.new }
{
    let threads = crew.len();
    // Threads share the parts of the site one by one.
    let Site {
        instance,
        nets,
        start,
        turn,
        changes,
        gate,
        workers,
    } = *site;
    let work = |_place: usize, worker: &mut Worker|
        requires { IsSite instance.now nets.now start.now.value × IsReady turn.now.name start.now.value worker.now }
        ensures { IsDone (G.may_stop gate.entry.now) turn.entry.now.name start.entry.now.value
            worker.entry.now.number worker.exit.now }
    {
        let site = Site {
            instance,
            nets,
            start,
            turn,
            changes,
            gate,
            workers,
        };
        take_part(rt, alloc, &site, worker)
    };
    for_each_mut(rt, crew, threads, &work);
}

/// The seat of all workers once each has ended, and whether one of them knows that the search is over, or the gate
/// ended it.
fn joined<G: Gate>(site: &Site<'_, G>, mut crew: Vec<Worker>) -> (Seat, bool)
    requires some { 0 < length crew.items }
    requires done { AreDone (G.may_stop site.now.gate.now) site.now.turn.now.name site.now.start.now.value
        crew.items }
    ensures { KnowsEnds (G.may_stop site.now.gate.now) site.now.turn.now.name site.now.start.now.value 0
        (length crew.items) result.1 result.0 }
{
    let (mut seat, mut over) = match crew.pop() {
        Some(worker) => end_of(worker),
        None => unreachable!(),
    };
    while let Some(worker) = crew.pop() {
        let (own, told) = end_of(worker);
        seat = site.turn.join(own, seat);
        over = told | over;
    }
    (seat, over)
}

/// The seat of a worker that has ended, and whether it knows that the search is over, or the gate ended it.
fn end_of(worker: Worker) -> (Seat, bool)
    requires { (seat : SeatModel) × (worker.seat ≡ Some seat) }
    ensures { (worker.seat ≡ Some result.0) × (result.1 ≡ worker.over) }
{
    let Worker { seat, over, .. } = worker;
    match seat {
        Some(seat) => (seat, over),
        None => unreachable!(),
    }
}
