//! What a holder does: it takes the turn, takes the value out, puts it back, and gives up the turn.
ghost use Rattle.std.specs.Prelude.{◌≡◌, ◌+◌, ◌<◌, true, false, [], ◌∷◌, Some, None, length};
ghost use Rattle.vs_turn.specs.Steps.{Takes, HasPutBack, IsFreed};
ghost use Rattle.vs_turn.specs.Tickets.{lowest};

use crate::rule::{Free, Take};
use crate::seat::View;
use crate::turn::{Kept, Turn};
use std::sync::Wait;

/// A seat as the table has it.
pub type Place<S> = atomic_table::Seat<Option<S>, View>;

impl<S: Kept> Turn<S> {
    // Takes the turn, and the slot with it. It sleeps for as long as another seat has the turn.
    pub(crate) fn take<R: Wait>(&self, rt: &R, place: &mut Place<S>, mark: u64)
        requires table { place.old.table_id ≡ self.now.name }
        requires rests { (place.old.me.0.has_turn ≡ false) × (0 < length place.old.me.0.tickets) }
        requires mark { mark ≡ 1 + lowest place.old.me.0.tickets }
        ensures table { place.new.table_id ≡ place.old.table_id }
        ensures taken { Takes S.opening S.entries place.old.me place.new.me }
    {
        let shared = &self.table.shared;
        for _ in rt.forever() {
            let found = shared.compare_exchange::<Take>(place, 0, 0, mark);
            if found == 0 {
                return;
            }
            shared.park(rt, 0, found as u32);
        }
        unreachable!()
    }

    // Takes the value out of the slot that the seat has.
    pub(crate) fn take_out(&self, place: &mut Place<S>) -> S
        requires table { place.old.table_id ≡ self.now.name }
        requires slot { (x : S) × (place.old.me.1 ≡ (0, Some x) ∷ []) }
        ensures table { place.new.table_id ≡ place.old.table_id }
        ensures value { place.old.me.1 ≡ (0, Some result) ∷ [] }
        ensures slot { place.new.me ≡ (place.old.me.0, (0, None) ∷ []) }
    {
        match self.table.shared.exchange(place, 0, None) {
            Some(value) => value,
            None => unreachable!(),
        }
    }

    // Puts the value into the slot that the seat has.
    pub(crate) fn put_in(&self, place: &mut Place<S>, value: S)
        requires table { place.old.table_id ≡ self.now.name }
        requires slot { place.old.me.1 ≡ (0, None) ∷ [] }
        ensures table { place.new.table_id ≡ place.old.table_id }
        ensures slot { place.new.me ≡ (place.old.me.0, (0, Some value) ∷ []) }
    {
        match self.table.shared.exchange(place, 0, Some(value)) {
            None => {}
            Some(_value) => unreachable!(),
        }
    }

    // Gives up the turn, and the slot with it, and wakes one that sleeps.
    pub(crate) fn free(&self, place: &mut Place<S>)
        requires table { place.old.table_id ≡ self.now.name }
        requires held { (place.old.me.0.has_turn ≡ true) × (0 < length place.old.me.0.tickets) }
        requires back { HasPutBack S.opening S.entries place.old.me }
        ensures table { place.new.table_id ≡ place.old.table_id }
        ensures freed { IsFreed S.entries place.old.me place.new.me }
    {
        self.table.shared.store::<Free>(place, 0, 0);
        self.table.shared.wake_one(0);
    }
}
