//! A search that two seats share by a turn.

ghost use Rattle.std.specs.Prelude.{◌≡◌, [], ◌∷◌, length, true, None};
ghost use Rattle.vs_tree.specs.Entries.{opening_entry};

use crate::leaves::{one_trip, split_root, started};
use std::alloc::Global;
use std::sync::Wait;
use std::test::Fail;
use vs_instance::Instance;
use vs_prices::{Table, permitted_sets};
use vs_tree::{Step, Tree};
use vs_turn::{Seat, Turn};
use vs_types::{LayerNo, LayerSet, TripNo};

/// Worker 0's turn: it takes the root and splits it. Whether it did.
fn split_in_turn<R: Wait>(
    rt: &R,
    alloc: Global,
    instance: &Instance,
    turn: &Turn<Tree>,
    seat: Seat,
) -> (Seat, bool)
    requires trips { length instance.now.trips ≡ 1 }
    requires turn { seat.turn ≡ turn.now.name }
    requires ticket { seat.tickets ≡ 0 ∷ [] }
    requires none_made { seat.mine ≡ [] }
    requires opening { seat.opening ≡ opening_entry (record {
      problem = instance.now;
      budget = 5;
      workers = 2;
      first = None;
    }) }
    ensures seat { (result.0.turn ≡ seat.turn) × (result.0.tickets ≡ seat.tickets) }
    ensures mine { result.1 ≡ true → length result.0.mine ≡ 2 }
    ensures seen { result.1 ≡ true → length result.0.seen ≡ 2 }
{
    let (Ok(sets), Ok(table)) = (
        permitted_sets(alloc, instance),
        Table::zero(alloc, instance),
    ) else {
        return (seat, false);
    };
    let mut held = turn.hold(rt, seat);
    let tree = held.value();
    let split = tree.history().is_empty() && split_root(tree, sets, table);
    (held.release(), split)
}

/// Another worker's turn: it changes nothing. How many steps it finds.
fn look<R: Wait>(rt: &R, turn: &Turn<Tree>, seat: Seat) -> (Seat, usize)
    requires turn { seat.turn ≡ turn.now.name }
    requires none_made { seat.mine ≡ [] }
    ensures seat { (result.0.turn ≡ seat.turn) × (result.0.tickets ≡ seat.tickets) }
    ensures mine { result.0.mine ≡ [] }
    ensures seen { length result.0.seen ≡ result.1 }
{
    let mut held = turn.hold(rt, seat);
    let steps = held.value().history().len();
    (held.release(), steps)
}

/// The search once the first seat has split the root and the second has looked, and how many steps that found.
fn shared_by_two<R: Wait>(rt: &R, alloc: Global, instance: &Instance) -> Result<(Tree, usize), Fail>
    requires { length instance.now.trips ≡ 1 }
{
    let tree = started(alloc, instance, 5)?;
    let Ok((turn, seat)) = Turn::new(alloc, tree, 2) else {
        return Err(Fail::new("memory"));
    };
    let (first, second) = turn.split(seat);
    let (first, split) = split_in_turn(rt, alloc, instance, &turn, first);
    let (second, found) = look(rt, &turn, second);
    let seat = turn.join(first, second);
    let tree = turn.close(seat);
    if !split {
        return Err(Fail::new("the root isn't split"));
    }
    Ok((tree, found))
}

/// The steps of that search, and how many of them the second seat found.
fn steps_of<R: Wait>(rt: &R, alloc: Global, instance: &Instance) -> Result<(Vec<Step>, usize), Fail>
    requires { length instance.now.trips ≡ 1 }
{
    let (tree, found) = shared_by_two(rt, alloc, instance)?;
    Ok((tree.history().to_vec(alloc)?, found))
}

fn steps<R: Wait>(rt: &R, alloc: Global) -> Result<(Vec<Step>, usize), Fail> {
    let instance = one_trip(alloc)?;
    steps_of(rt, alloc, &instance)
}

#[test]
fn a_seat_finds_the_steps_of_another(rt: HostRuntime) -> Result<(), Fail> {
    let (steps, found) = steps(&rt, rt.alloc())?;
    assert_eq!(rt; found, 2);
    let took = Step::Took { worker: 0, leaf: 0 };
    let split = Step::Split {
        worker: 0,
        leaf: 0,
        table: 1,
        trip: TripNo(0),
        left: LayerSet::only(LayerNo(0)),
    };
    assert_eq!(rt; steps.as_slice(), [took, split].as_slice());
    Ok(())
}
