//! How a leaf is finished: what its new table is worth there, or in the two parts that take its place. The search is
//! given this, so that a worker can sum over all trips while others have their turns.
ghost use Rattle.std.specs.Prelude.{◌≡◌, ◌<◌, length};
ghost use Rattle.vs_types.specs.Parts.{IsProperPart};
ghost use Rattle.vs_instance.specs.Restriction.{IsRestriction, set_of};
ghost use Rattle.vs_prices.specs.Table.{Fits};
ghost use Rattle.vs_prices.specs.Worth.{IsWorth};
ghost use Rattle.vs_prices.specs.Tree.{right_of, with_set};
ghost use Rattle.vs_tree.specs.Finishes.{AreWorths, IsNextIn, next_in, sets_after};
ghost use Rattle.vs_tree.specs.Prices.{prices_of};

use crate::calls::Next;
use vs_instance::Instance;
use vs_prices::{Bound, Table, worth};
use vs_types::{LayerSet, TripNo};

/// How a leaf is finished by a new table.
#[derive(Clone, Copy)]
pub enum Finish {
    /// It is closed; the table is worth so much there.
    Close { worth: Bound },
    /// Two leaves take its place.
    Split { parting: Parting },
}

/// The two parts of a leaf, and what its new table is worth in each.
#[derive(Clone, Copy)]
pub struct Parting {
    /// Its layers are shared out between the parts.
    pub trip: TripNo,
    /// Its layers in the lower part.
    pub left: LayerSet,
    /// Its layers in the upper part.
    pub right: LayerSet,
    pub lower: Bound,
    pub upper: Bound,
}

impl Finish {
    /// How a leaf with these layers is finished by a table that fits. That takes one sum over all trips where it is
    /// closed, and two where it is split. The layers are in the end those of the upper part; where it is closed they
    /// stay.
    pub fn of(instance: &Instance, sets: &mut [LayerSet], table: &Table, next: Next) -> Finish
        requires fits { Fits instance.now table.now }
        requires restriction { IsRestriction instance.now sets.old }
        requires next { IsNextIn instance.now sets.old next }
        ensures next { next_in result ≡ next }
        ensures worths { AreWorths instance.now sets.old (prices_of table.now) result }
        ensures sets { sets.new ≡ sets_after sets.old result }
        ensures size { length sets.new ≡ length sets.old }
    {
        match next {
            Next::Close => Finish::Close {
                worth: worth(instance, sets, table),
            },
            Next::Split { trip, left } => Finish::Split {
                parting: parted(instance, sets, table, trip, left),
            },
        }
    }
}

/// The parts of a leaf with these layers, and what a table is worth in each. One part runs the trip in the layers on
/// the left. The layers are in the end those of the upper part.
fn parted(
    instance: &Instance,
    sets: &mut [LayerSet],
    table: &Table,
    trip: TripNo,
    left: LayerSet,
) -> Parting
    requires fits { Fits instance.now table.now }
    requires restriction { IsRestriction instance.now sets.old }
    requires trip { trip.0 < length sets.old }
    requires part { IsProperPart left (set_of sets.old trip.0) }
    ensures trip { result.trip ≡ trip }
    ensures left { result.left ≡ left }
    ensures right { result.right ≡ right_of sets.old trip left }
    ensures lower { IsWorth instance.now (with_set sets.old trip left) table.now result.lower }
    ensures upper { IsWorth instance.now (with_set sets.old trip (right_of sets.old trip left)) table.now
        result.upper }
    ensures sets { sets.new ≡ with_set sets.old trip result.right }
    ensures size { length sets.new ≡ length sets.old }
{
    let i = trip.0 as usize;
    let right = sets[i].minus(left);
    sets[i] = left;
    let lower = worth(instance, sets, table);
    sets[i] = right;
    let upper = worth(instance, sets, table);
    Parting {
        trip,
        left,
        right,
        lower,
        upper,
    }
}
