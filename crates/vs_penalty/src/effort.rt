//! How much each step of the search at the root may take. Effort is counted as `Work::effort` does: a unit of it takes
//! about a fifth of a microsecond.

ghost use Rattle.std.specs.Prelude.{◌≡◌, ◌*◌, ◌<◌, ◌≤◌, ◌↔◌, IsTrue, length};
ghost use Rattle.vs_penalty.specs.Slow.{IsSlow};

use vs_instance::{Instance, MAX_LAYERS, MAX_TRIPS};
use vs_types::SCALE;
use vs_walk::is_large;

/// How many offers of trips to layers there are in all, where the quick passes for them lie between the two limits. A
/// pass takes the longer the more it offers.
const OFFERS: u32 = 800_000;

/// How many quick passes there are at least: with fewer, the layers of a large instance would hardly begin to agree.
const LEAST_PASSES: u32 = 200;

/// How many there are at least where a climb is slow: the cheaper the plan that it begins with, the further it comes.
/// Mostly the layers have agreed often enough before, and with 300 gaps grow.
const LEAST_PASSES_WHERE_SLOW: u32 = 400;

/// How many quick passes there are at most: the layers of a small instance agree long before.
const MOST_PASSES: u32 = 1_000;

/// So small a part of the greatest rate is that of the first quick pass, when multipliers are known roughly.
const FIRST_PART: u64 = 100;

/// The same where a climb is slow. It begins at a mean of multipliers, for which those after single passes may be
/// farther off; and a greater rate has the layers agree sooner.
const FIRST_PART_WHERE_SLOW: u64 = 30;

/// How many trips an instance offers to layers at most, all layers together, where quick passes end by their number.
/// With more they end by their effort, after some tens: a greater rate would leave them too far off.
const NOT_LARGE: u32 = 24_000;

/// How many trips an instance offers to layers at most, all layers together, to be a small one. Climbs on its leaves
/// have nearly all their rounds, so they close what its root leaves open.
const SMALL: u32 = 1_600;

/// How many layers an instance has at most that are few.
const FEW_LAYERS: u32 = 4;

/// How much effort a quick pass takes at most on a large instance for the limits of effort to be the usual ones.
const USUAL_PASS: u64 = 150_000;

/// On a small instance the search at the root ends where the cheapest plan costs no more than one part in so many above
/// the value. That is 0.04 per cent. What more of the search finds then leaves find sooner.
const DONE_ON_SMALL: i64 = 2_500;

/// Turns end where it costs no more than one part in so many above it: there is little left to gain.
const NEAR: i64 = 50_000;

/// A walker's turn takes as much as so many quick passes.
const PASSES_A_TURN: u64 = 75;

/// As many on a small instance, whose leaves find plans too.
const PASSES_A_TURN_ON_SMALL: u64 = 32;

/// It takes no more than this.
const MOST_A_TURN: u64 = 2_500_000;

/// No more than this where a climb is slow: an agreement takes the more passes the more layers there are.
const MOST_A_TURN_WHERE_SLOW: u64 = 4_000_000;

/// How little the cheapest plan has to cost above this value for the search at the root to end, in 1/1000 of a cost
/// unit.
pub(crate) fn margin(instance: &Instance, value: i64) -> i64 {
    if is_small(instance) {
        SCALE.max(value / DONE_ON_SMALL)
    } else {
        SCALE
    }
}

/// How many trips an instance offers to layers, all layers together.
fn offers(instance: &Instance) -> u32
    ensures { result ≡ length instance.now.trips * length instance.now.layers }
{
    prove!(instance.trips() <= MAX_TRIPS && instance.layers() <= MAX_LAYERS);
    instance.trips() * instance.layers()
}

/// Whether an instance is small: climbs on its leaves have nearly all their rounds.
pub(crate) fn is_small(instance: &Instance) -> bool
    ensures { IsTrue result ↔ length instance.now.trips * length instance.now.layers ≤ SMALL }
{
    offers(instance) <= SMALL
}

/// Whether a climb takes many rounds to multipliers near which cheap plans are found.
pub(crate) fn is_slow(instance: &Instance) -> bool
    ensures { IsTrue result ↔ IsSlow instance.now }
{
    is_large(instance) || instance.layers() > FEW_LAYERS && !is_small(instance)
}

/// How much effort there may be where the usual limit is so much and a quick pass takes so much. On a large instance
/// the limit is as many times the usual one as the pass is longer than usual: rounds and turns are longer then too.
pub(crate) fn effort_for(instance: &Instance, of_pass: u64, usual: u64) -> u64 {
    if is_large(instance) {
        usual.saturating_mul(of_pass.max(USUAL_PASS)) / USUAL_PASS
    } else {
        usual
    }
}

/// How little for turns to end.
pub(crate) fn turn_margin(value: i64) -> i64 {
    value / NEAR
}

/// How many quick passes there are, the fewer the more each of them offers.
pub(crate) fn quick_passes(instance: &Instance) -> u32 {
    let least = if is_slow(instance) {
        LEAST_PASSES_WHERE_SLOW
    } else {
        LEAST_PASSES
    };
    OFFERS
        .checked_div(offers(instance))
        .unwrap_or(0)
        .max(least)
        .min(MOST_PASSES)
}

/// So small a part of the greatest rate is that of the first quick pass.
pub(crate) fn first_part(instance: &Instance) -> u64
    ensures { 0 < result }
{
    if is_slow(instance) && offers(instance) <= NOT_LARGE {
        FIRST_PART_WHERE_SLOW
    } else {
        FIRST_PART
    }
}

/// The effort of a walker's turn, where a quick pass takes so much.
pub(crate) fn turn_effort(instance: &Instance, of_pass: u64) -> u64 {
    let passes = if is_small(instance) {
        PASSES_A_TURN_ON_SMALL
    } else {
        PASSES_A_TURN
    };
    let most = if is_slow(instance) {
        MOST_A_TURN_WHERE_SLOW
    } else {
        MOST_A_TURN
    };
    of_pass
        .saturating_mul(passes)
        .min(effort_for(instance, of_pass, most))
}
