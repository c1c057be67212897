//! A value that threads share by a turn.

ghost use Rattle.std.specs.Prelude.{◌≡◌, ◌+◌, ◌≤◌, true, [], ◌∷◌, length, if◌then◌else◌};
ghost use Rattle.std.specs.Thread.{IsSync};
ghost use Rattle.vs_turn.specs.Calls.{has_ticket};
ghost use Rattle.vs_turn.specs.Seats.{IsNew};
ghost use Rattle.test_turn.specs.Tallies.{HasMade};
ghost use Rattle.vs_turn.specs.Tickets.{all_tickets};

mod tally;

use std::alloc::Global;
use std::rt::Clock;
use std::sync::Wait;
use std::test::Fail;
use std::thread::{Threads, join};
use std::time::{CpuClock, Duration};
use std::{io, thread};
use tally::Tally;
use vs_turn::{Kept, Seat, Turn};
use vs_types::Memory;

/// How often each seat holds the turn.
const TIMES: u32 = 1000;

/// The seat holds the turn and adds 1, unless there is no memory.
fn add_once<R: Wait>(rt: &R, turn: &Turn<Tally>, seat: Seat, maker: u32) -> (Seat, bool)
    requires turn { seat.turn ≡ turn.now.name }
    requires maker { has_ticket seat.tickets maker ≡ true }
    ensures seat { (result.0.turn ≡ seat.turn) × (result.0.tickets ≡ seat.tickets) }
    ensures made { length result.0.mine ≡ length seat.mine + (if result.1 then 1 else 0) }
{
    let mut held = turn.hold(rt, seat);
    let added = held.value().add(maker, 1).is_ok();
    (held.release(), added)
}

/// The seat adds 1 many times. The number says how often it did.
fn add_often<R: Wait>(rt: &R, turn: &Turn<Tally>, mut seat: Seat, maker: u32) -> (Seat, u64)
    requires turn { seat.turn ≡ turn.now.name }
    requires maker { has_ticket seat.tickets maker ≡ true }
    ensures seat { (result.0.turn ≡ seat.turn) × (result.0.tickets ≡ seat.tickets) }
    ensures made { (length result.0.mine ≡ length seat.mine + result.1) × (result.1 ≤ TIMES) }
{
    let mut made = 0;
    for time in 0..TIMES {
        let (next, added) = add_once(rt, turn, seat, maker);
        seat = next;
        made += u64::from(added);
    }
    (seat, made)
}

/// Splits off the highest ticket of all.
fn split_off(turn: &Turn<Tally>, seat: Seat, maker: u32) -> (Seat, Seat)
    requires turn { seat.turn ≡ turn.now.name }
    requires some { 1 ≤ maker }
    requires tickets { seat.tickets ≡ all_tickets (maker + 1) }
    requires none_made { seat.mine ≡ [] }
    ensures first { IsNew turn.now.name (all_tickets maker) result.0 }
    ensures second { IsNew turn.now.name (maker ∷ []) result.1 }
{
    turn.split(seat)
}

/// Each seat but the first is split off, and all of them add at once, each in a thread of its own.
fn add_at_once<R: Threads + Wait + Sync>(
    rt: &R,
    turn: &Turn<Tally>,
    seat: Seat,
    seats: u32,
) -> (Seat, u64)
    requires some { 1 ≤ seats }
    requires seat { IsNew turn.now.name (all_tickets seats) seat }
    ensures { HasMade turn.now.name TIMES seats result }
{
    let maker = seats - 1;
    if maker == 0 {
        return add_often(rt, turn, seat, maker);
    }
    let (others, last) = split_off(turn, seat, maker);
    let (below, above) = join(
        rt,
        move || -> (Seat, u64)
            requires { IsSync R.row × IsNew turn.now.name (all_tickets maker) others × (1 ≤ maker) }
            ensures { HasMade turn.entry.now.name TIMES maker result }
        { add_at_once(rt, turn, others, maker) },
        move || -> (Seat, u64)
            requires { IsNew turn.now.name (maker ∷ []) last }
            ensures { HasMade turn.entry.now.name TIMES 1 result }
        { add_often(rt, turn, last, maker) },
    );
    (turn.join(above.0, below.0), below.1 + above.1)
}

/// A tally to which so many seats add at once, and how many entries the last seat made.
fn shared_by<R: Threads + Wait + Sync>(
    rt: &R,
    alloc: Global,
    seats: u32,
) -> Result<(Tally, u64), Memory>
    requires { 1 ≤ seats }
{
    let (turn, seat) = match Turn::new(alloc, Tally::new(alloc, 7), seats) {
        Ok(made) => made,
        Err((_, memory)) => return Err(memory),
    };
    let (seat, mine) = add_at_once(rt, &turn, seat, seats);
    Ok((turn.close(seat), mine))
}

/// Holds the turn and changes nothing.
fn look<R: Wait>(rt: &R, turn: &Turn<Tally>, seat: Seat) -> (Seat, usize)
    requires { seat.turn ≡ turn.now.name }
    ensures seat { (result.0.turn ≡ seat.turn) × (result.0.tickets ≡ seat.tickets) }
    ensures mine { result.0.mine ≡ seat.mine }
{
    let mut held = turn.hold(rt, seat);
    let entries = held.value().amounts.len();
    (held.release(), entries)
}

#[test]
fn two_seats_at_once(rt: HostRuntime) -> Result<(), Fail> {
    let (tally, mine) = shared_by(&rt, rt.alloc(), 2)?;
    assert_eq!(rt; mine, 2000);
    assert_eq!(rt; (tally.count(0), tally.count(1)), (1000, 1000));
    assert_eq!(rt; (tally.start, tally.amounts.len()), (7, 2000));
    Ok(())
}

#[test]
fn eight_seats_at_once(rt: HostRuntime) -> Result<(), Fail> {
    let (tally, mine) = shared_by(&rt, rt.alloc(), 8)?;
    assert_eq!(rt; mine, 8000);
    for maker in 0..8 {
        assert_eq!(rt; tally.count(maker), 1000, "of seat {maker}");
    }
    Ok(())
}

#[test]
fn finds_its_own_entry(rt: HostRuntime) -> Result<(), Fail> {
    let Ok((turn, seat)) = Turn::new(rt.alloc(), Tally::new(rt.alloc(), 7), 3) else {
        panic!(rt; "memory");
    };
    let (seat, added) = add_once(&rt, &turn, seat, 2);
    let (seat, entries) = look(&rt, &turn, seat);
    let tally = turn.close(seat);
    assert_eq!(rt; (added, entries), (true, 1));
    assert_eq!(rt; tally.amounts.as_slice(), [(2, 1)].as_slice());
    assert_eq!(rt; tally.start, 7);
    Ok(())
}

#[test]
fn finds_what_another_released(rt: HostRuntime) -> Result<(), Fail> {
    let Ok((turn, seat)) = Turn::new(rt.alloc(), Tally::new(rt.alloc(), 7), 2) else {
        panic!(rt; "memory");
    };
    let (first, second) = split_off(&turn, seat, 1);
    let (first, added) = add_once(&rt, &turn, first, 0);
    let (second, entries) = look(&rt, &turn, second);
    assert_eq!(rt; (added, entries), (true, 1));
    let seat = turn.join(second, first);
    let tally = turn.close(seat);
    assert_eq!(rt; tally.amounts.as_slice(), [(0, 1)].as_slice());
    Ok(())
}

/// Holds the turn for a fifth of a second.
fn hold_a_while<R: Wait + Clock>(rt: &R, turn: &Turn<Tally>, seat: Seat) -> Seat
    requires { seat.turn ≡ turn.now.name }
    ensures { (result.turn ≡ seat.turn) × (result.tickets ≡ seat.tickets) }
{
    let held = turn.hold(rt, seat);
    thread::sleep(rt, Duration::from_millis(200));
    held.release()
}

/// Asks for the turn once another seat has it, and gives how long this thread has computed.
fn ask_later<R: Wait + Clock + CpuClock>(
    rt: &R,
    turn: &Turn<Tally>,
    seat: Seat,
) -> (Seat, io::Result<Duration>)
    requires { seat.turn ≡ turn.now.name }
    ensures { (result.0.turn ≡ seat.turn) × (result.0.tickets ≡ seat.tickets) }
{
    thread::sleep(rt, Duration::from_millis(50));
    let (seat, _entries) = look(rt, turn, seat);
    (seat, rt.thread_cpu_time())
}

#[test]
fn a_seat_that_waits_sleeps(rt: HostRuntime) -> Result<(), Fail> {
    let Ok((turn, seat)) = Turn::new(rt.alloc(), Tally::new(rt.alloc(), 7), 2) else {
        panic!(rt; "memory");
    };
    let (first, second) = turn.split(seat);
    let (waits, holds) = join(
        &rt,
        || ask_later(&rt, &turn, second),
        || hold_a_while(&rt, &turn, first),
    );
    let seat = turn.join(waits.0, holds);
    let tally = turn.close(seat);
    assert_eq!(rt; tally.start, 7);
    assert!(rt; waits.1? < Duration::from_millis(100));
    Ok(())
}

fn crosses<T: Send + Sync>(_shared: &T) {}

fn moves<T: Send>(_moved: &T) {}

/// A turn over what may cross threads may be shared by them, and a seat may always cross.
fn are_for_threads<S: Kept + Send>(turn: &Turn<S>, seat: &Seat) {
    crosses(turn);
    moves(seat);
}

#[test]
fn turns_and_seats_cross_threads(rt: HostRuntime) -> Result<(), Fail> {
    let Ok((turn, seat)) = Turn::new(rt.alloc(), Tally::new(rt.alloc(), 7), 1) else {
        panic!(rt; "memory");
    };
    are_for_threads(&turn, &seat);
    let tally = turn.close(seat);
    assert_eq!(rt; tally.amounts.len(), 0);
    Ok(())
}
