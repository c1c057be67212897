//! The rule between any two atomic steps of a turn, and the steps by their names.
use crate::seat::View;
use crate::turn::Kept;
use atomic_table::{Join, Play, Split, TableRule};
use std::snapshot::Snapshot;

/// What a turn was made with.
#[derive(Drop)]
pub struct Start<S> {
    pub value: Snapshot<S>,
    pub seats: u32,
}

pub struct Law;

impl<S: Kept> TableRule<Option<S>, View, Start<S>> for Law {
    ghost use Rattle.vs_turn.specs.Rule.{IsRuled, origin};
    ghost use Rattle.vs_turn.specs.Steps.{first_view};

    ghost holds = { λ s. IsRuled S.opening S.entries
        (origin S.opening S.entries s.value.value s.seats) };

    ghost first = { λ s. first_view (S.opening s.value.value) (S.entries s.value.value) s.seats };
}

/// Takes the turn where it is free.
pub struct Take;

impl<S: Kept> Play<Option<S>, View> for Take {
    ghost use Rattle.vs_turn.specs.Steps.{Took};

    ghost then = { Took S.opening S.entries };
}

/// Gives up the turn.
pub struct Free;

impl<S: Kept> Play<Option<S>, View> for Free {
    ghost use Rattle.vs_turn.specs.Steps.{Freed};

    ghost then = { Freed S.entries };
}

/// Looks at the word, and so learns how what was seen hangs together.
pub struct Look;

impl<S: Kept> Play<Option<S>, View> for Look {
    ghost use Rattle.vs_turn.specs.Steps.{Looked};

    ghost then = { Looked };
}

/// Hands the highest ticket to a new seat.
pub struct HandOn;

impl Split<View> for HandOn {
    ghost use Rattle.vs_turn.specs.Steps.{keeping, handed};

    ghost left = { keeping };

    ghost right = { handed };
}

/// Adds up two seats.
pub struct AddUp;

impl Join<View> for AddUp {
    ghost use Rattle.vs_turn.specs.Steps.{joined, spent};

    ghost both = { joined };

    ghost spent = { spent };
}
