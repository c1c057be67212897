//! One worker: it takes leaves one after another and works on them.
ghost use Rattle.std.specs.Prelude.{◌≡◌};
ghost use Rattle.vs_crew.specs.Leaves.{HoldsLeaf};
ghost use Rattle.vs_crew.specs.Sharing.{IsEnd, IsIdle, Knows};
ghost use Rattle.vs_crew.specs.Workers.{HasRoom, IsAfter, IsDone, IsReady, IsSite};

use crate::hands::found_in_threads;
use crate::site::{Gate, Site};
use crate::turns::{ask, give_up, hand_in};
use std::alloc::Global;
use std::marker::Sync;
use std::sync::Wait;
use std::thread::Threads;
use vs_node::{Room, Task};
use vs_tree::Take;
use vs_turn::Seat;
use vs_types::Memory;

/// Of so many leaves that a worker takes, plans are sought by passes on one: a cheaper plan closes more than the work
/// on a leaf does.
const TURNS: u32 = 2;

/// The same where leaves are in vain: passes take several times as long there as the rest.
const TURNS_IN_VAIN: u32 = 16;

/// One worker of a crew: its number, its seat at the turn, and the room that it works in.
#[derive(Drop)]
pub(crate) struct Worker {
    pub number: u32,
    pub seat: Option<Seat>,
    pub task: Task,
    pub room: Room,
    /// How many leaves it has taken since it sought plans by passes.
    pub taken: u32,
    /// Whether it knows that the search is over, or the gate ended it.
    pub over: bool,
}

/// How a worker stands after it has asked for a leaf.
#[derive(Clone, Copy)]
pub(crate) enum After {
    /// It may ask again.
    Idle,
    /// The search is over.
    Over,
    /// The gate ends the search. The worker holds no leaf.
    Stopped,
    /// It found no memory, gave its leaf back, and takes no more.
    Left,
}

/// Takes leaves one after another and works on them, until the search is over, the gate ends it, or memory is wanting.
pub(crate) fn take_part<R: Threads + Wait + Sync, G: Gate + Sync>(
    rt: &R,
    alloc: Global,
    site: &Site<'_, G>,
    worker: &mut Worker,
)
    requires site { IsSite site.now.instance.now site.now.nets.now site.now.start.now.value }
    requires ready { IsReady site.now.turn.now.name site.now.start.now.value worker.old }
    ensures done { IsDone (G.may_stop site.now.gate.now) site.now.turn.now.name site.now.start.now.value
        worker.old.number worker.new }
{
    match worker.seat.take() {
        Some(seat) => {
            let (seat, over) = go_on(rt, alloc, site, worker, seat);
            worker.seat = Some(seat);
            worker.over = over;
        }
        None => unreachable!(),
    }
}

/// The same with the seat in hand, and whether the worker knows that the search is over, or the gate ended it.
fn go_on<R: Threads + Wait + Sync, G: Gate + Sync>(
    rt: &R,
    alloc: Global,
    site: &Site<'_, G>,
    worker: &mut Worker,
    mut seat: Seat,
) -> (Seat, bool)
    requires site { IsSite site.now.instance.now site.now.nets.now site.now.start.now.value }
    requires room { HasRoom site.now.instance.now worker.old }
    requires idle { Knows site.now.turn.now.name site.now.start.now.value worker.old.number
        (IsIdle worker.old.number) seat }
    ensures number { worker.new.number ≡ worker.old.number }
    ensures ended { Knows site.now.turn.now.name site.now.start.now.value worker.old.number
        (IsEnd (G.may_stop site.now.gate.now) result.1 worker.old.number) result.0 }
{
    for _ in rt.forever() {
        let (next, after) = ask_once(rt, alloc, site, worker, seat);
        match after {
            After::Idle => seat = next,
            After::Over => return (next, true),
            After::Stopped => return (next, true),
            After::Left => return (next, false),
        }
    }
    unreachable!()
}

/// Asks for a leaf once, and works on it, or waits where others hold what there is. It takes none where the gate ends
/// the search.
fn ask_once<R: Threads + Wait + Sync, G: Gate + Sync>(
    rt: &R,
    alloc: Global,
    site: &Site<'_, G>,
    worker: &mut Worker,
    seat: Seat,
) -> (Seat, After)
    requires site { IsSite site.now.instance.now site.now.nets.now site.now.start.now.value }
    requires room { HasRoom site.now.instance.now worker.old }
    requires idle { Knows site.now.turn.now.name site.now.start.now.value worker.old.number
        (IsIdle worker.old.number) seat }
    ensures number { worker.new.number ≡ worker.old.number }
    ensures room { HasRoom site.now.instance.now worker.new }
    ensures after { Knows site.now.turn.now.name site.now.start.now.value worker.old.number
        (IsAfter (G.may_stop site.now.gate.now) worker.old.number result.1) result.0 }
{
    let changes = site.changes.count(rt);
    let (seat, take) = ask(rt, site, seat, worker.number, &mut worker.task);
    match take {
        Some(Take::Node { leaf, .. }) => {
            site.gate.before(worker.number, leaf);
            work_on(rt, alloc, site, worker, seat, leaf)
        }
        Some(Take::Wait) => {
            site.changes.wait(rt, changes);
            (seat, After::Idle)
        }
        Some(Take::Done | Take::Spent) => (seat, After::Over),
        None => (seat, After::Stopped),
    }
}

/// Works on the leaf that the worker holds, and hands in what is found. The leaf is given back where memory is wanting,
/// and where the gate ends the first round at the root.
fn work_on<R: Threads + Wait + Sync, G: Gate + Sync>(
    rt: &R,
    alloc: Global,
    site: &Site<'_, G>,
    worker: &mut Worker,
    seat: Seat,
    leaf: u32,
) -> (Seat, After)
    requires site { IsSite site.now.instance.now site.now.nets.now site.now.start.now.value }
    requires room { HasRoom site.now.instance.now worker.old }
    requires holds { Knows site.now.turn.now.name site.now.start.now.value worker.old.number
        (HoldsLeaf worker.old.number leaf worker.old.task) seat }
    ensures number { worker.new.number ≡ worker.old.number }
    ensures room { HasRoom site.now.instance.now worker.new }
    ensures after { Knows site.now.turn.now.name site.now.start.now.value worker.old.number
        (IsAfter (G.may_stop site.now.gate.now) worker.old.number result.1) result.0 }
{
    let number = worker.number;
    let turns = if worker.room.progress.is_vain() {
        TURNS_IN_VAIN
    } else {
        TURNS
    };
    let passes = worker.taken >= turns - 1;
    worker.taken = if passes { 0 } else { worker.taken + 1 };
    let (task, room) = (&mut worker.task, &mut worker.room);
    match found_in_threads(rt, alloc, site, task, passes, room) {
        Ok(Some(finding)) => (hand_in(rt, site, seat, number, leaf, finding), After::Idle),
        Ok(None) => (give_up(rt, site, seat, number), After::Stopped),
        Err(Memory) => (give_up(rt, site, seat, number), After::Left),
    }
}
