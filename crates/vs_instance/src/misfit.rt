//! What can be wrong with the parts of an instance.

ghost use Rattle.std.specs.Prelude.{◌≡◌};

use vs_types::{LayerNo, Memory, StopNo, TripNo};

/// A number of the parts that has a range.
#[derive(Clone, Copy, Debug, PartialEq, Eq)]
pub enum Field {
    Fleet,
    Fixed,
    PerMinute,
    PerMetre,
    Stay,
    Minutes,
    Metres,
}

/// Which of the parts a number stands in. Deadheads count from 0 in the order given.
#[derive(Clone, Copy, Debug, PartialEq, Eq)]
pub enum Place {
    Layer(LayerNo),
    Deadhead(u32),
    Trip(TripNo),
}

/// Why parts are no instance.
#[derive(Clone, Copy, Debug, PartialEq, Eq)]
pub enum Misfit {
    /// The number there is out of its range.
    Range(Field, Place),
    /// As many pieces of the layer as there are trips cost too much, each as dear as the dearest can be.
    TooDear(LayerNo),
    /// The deadhead leads from a stop to itself.
    SelfDeadhead(u32),
    /// An earlier deadhead leads from the same stop to the same stop.
    DeadheadTwice(u32),
    /// The trip doesn't end later than it starts.
    EndNotAfterStart(TripNo),
    /// Deadheads lead from the first stop to the second and from there to the third, and none leads
    /// from the first to the third.
    NotClosed(StopNo, StopNo, StopNo),
    /// The deadhead from the first stop to the third takes more minutes than those by the second.
    LongerMinutes(StopNo, StopNo, StopNo),
    /// The deadhead from the first stop to the third is longer than those by the second.
    LongerMetres(StopNo, StopNo, StopNo),
}

/// Why no instance was made.
#[derive(Clone, Copy, Debug, PartialEq, Eq)]
pub enum NewError {
    /// The parts are none: this is the first error of all, in the order of layers, deadheads, trips
    /// and closure.
    Misfit(Misfit),
    /// There was no memory.
    Memory,
}

impl From<Memory> for NewError {
    ghost use Rattle.vs_instance.specs.declared.misfit.NewError.TheVariants as error;

    ghost from_gives = { λ _ e. e ≡ error.Memory };

    fn from(_memory: Memory) -> NewError {
        NewError::Memory
    }
}
