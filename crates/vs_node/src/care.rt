//! How much care is taken over a leaf.

ghost use Rattle.std.specs.Prelude.{◌≤◌};
ghost use Rattle.vs_node.specs.declared.care.TheConstants.{CUTS};

use vs_instance::{Instance, MAX_LAYERS, MAX_TRIPS};

/// How many rounds a climb has at most. It ends before where it gets on slowly.
const MOST_ROUNDS: u32 = 150;

/// How many rounds a climb has where more take too long: one shows by which trip the leaf is split.
const FEW_ROUNDS: u32 = 1;

/// How many trips a round offers to layers at most, all layers together, for a climb of several rounds at the root and
/// on other leaves. On larger timetables further leaves hardly raise the bound, and climbs took two thirds of their
/// time.
const MOST_OFFERS_AT_ROOT: u32 = 6_000;

const MOST_OFFERS: u32 = 3_600;

/// How many circulations a layer keeps in a climb, and for the next one. With 60 a timetable of 200 trips in eight
/// layers takes half as many rounds more.
const CUTS: u32 = 100;

/// How many it keeps where climbs have one round.
const FEW_CUTS: u32 = 4;

/// After how many leaves it is judged whether further ones are in vain, where climbs have several rounds, and where
/// they have one.
const TRIAL_LEAVES: u32 = 32;

const FEW_TRIAL_LEAVES: u32 = 8;

/// How much care is taken over a leaf.
#[derive(Clone, Copy, Debug)]
pub(crate) enum Care {
    /// None: the search is told to stop.
    None,
    /// Little: leaves are in vain, and one round shows by what this one is split.
    Little,
    /// As much as over a leaf that may be closed.
    Leaf,
    /// As much as over the root.
    Root,
}

impl Care {
    /// Whether none is taken.
    pub fn is_none(self) -> bool {
        match self {
            Care::None => true,
            _ => false,
        }
    }

    /// Whether little is taken.
    pub fn is_little(self) -> bool {
        match self {
            Care::Little => true,
            _ => false,
        }
    }

    /// Whether a climb has all its rounds.
    pub fn is_full(self) -> bool {
        match self {
            Care::Root => true,
            _ => false,
        }
    }
}

/// How many trips a round offers to layers, all layers together.
fn offers_of(instance: &Instance) -> u32 {
    prove!(instance.trips() <= MAX_TRIPS && instance.layers() <= MAX_LAYERS);
    instance.trips() * instance.layers()
}

/// How many rounds a climb has at most.
pub(crate) fn most_rounds(instance: &Instance, care: Care) -> u32 {
    let most = match care {
        Care::None | Care::Little => 0,
        Care::Leaf => MOST_OFFERS,
        Care::Root => MOST_OFFERS_AT_ROOT,
    };
    if offers_of(instance) > most {
        FEW_ROUNDS
    } else {
        MOST_ROUNDS
    }
}

/// How many circulations a layer keeps in a climb, at most.
pub(crate) fn most_cuts(instance: &Instance) -> u32
    ensures { result ≤ CUTS }
{
    if offers_of(instance) > MOST_OFFERS_AT_ROOT {
        FEW_CUTS
    } else {
        CUTS
    }
}

/// After how many leaves it is judged whether further ones are in vain.
pub(crate) fn trial_leaves(instance: &Instance) -> u32 {
    if offers_of(instance) > MOST_OFFERS {
        FEW_TRIAL_LEAVES
    } else {
        TRIAL_LEAVES
    }
}
