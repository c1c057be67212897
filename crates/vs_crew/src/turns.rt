//! What a worker does in its turn. Between two turns it knows what held when it let the search go.

ghost use Rattle.std.specs.Prelude.{◌≡◌, length};
ghost use Rattle.vs_tree.specs.Takes.{IsSized};
ghost use Rattle.vs_crew.specs.Leaves.{HasFound, IsAsked};
ghost use Rattle.vs_crew.specs.Sharing.{HasLeft, IsHolding, IsIdle, Knows};

use crate::finding::Finding;
use crate::site::{Gate, Site};
use std::sync::Wait;
use vs_node::Task;
use vs_tree::Take;
use vs_turn::Seat;

/// Asks for a leaf, for a worker that has none. None where the gate ends the search, which it is asked first.
pub(crate) fn ask<R: Wait, G: Gate>(
    rt: &R,
    site: &Site<'_, G>,
    seat: Seat,
    w: u32,
    task: &mut Task,
) -> (Seat, Option<Take>)
    requires idle { Knows site.now.turn.now.name site.now.start.now.value w (IsIdle w) seat }
    requires sets { length task.old.sets.items ≡ length site.now.start.now.value.opening.problem.trips }
    requires table { IsSized site.now.start.now.value.opening.problem task.old.table }
    ensures told { Knows site.now.turn.now.name site.now.start.now.value w
        (IsAsked (G.may_stop site.now.gate.now) w task.new result.1) result.0 }
    ensures sets { length task.new.sets.items ≡ length task.old.sets.items }
    ensures table { IsSized site.now.start.now.value.opening.problem task.new.table }
{
    let mut held = site.turn.hold(rt, seat);
    let stand = held.value().stand();
    if site.gate.is_over(&stand) {
        return (held.release(), None);
    }
    let tree = held.value();
    let take = tree.take(w, task);
    let seat = held.release();
    (seat, Some(take))
}

/// Hands in what the work on a worker's leaf found.
pub(crate) fn hand_in<R: Wait, G: Gate>(
    rt: &R,
    site: &Site<'_, G>,
    seat: Seat,
    w: u32,
    leaf: u32,
    finding: Finding,
) -> Seat
    requires found { Knows site.now.turn.now.name site.now.start.now.value w (HasFound w leaf finding) seat }
    ensures idle { Knows site.now.turn.now.name site.now.start.now.value w (IsIdle w) result }
{
    let mut held = site.turn.hold(rt, seat);
    held.value().finish(w, leaf, finding);
    let seat = held.release();
    site.changes.tell(rt);
    seat
}

/// Gives back the leaf that a worker holds.
pub(crate) fn give_up<R: Wait, G: Gate>(rt: &R, site: &Site<'_, G>, seat: Seat, w: u32) -> Seat
    requires holds { Knows site.now.turn.now.name site.now.start.now.value w (IsHolding w) seat }
    ensures left { Knows site.now.turn.now.name site.now.start.now.value w (HasLeft w) result }
{
    let mut held = site.turn.hold(rt, seat);
    held.value().give_back(w);
    let seat = held.release();
    site.changes.tell(rt);
    seat
}
