//! The search of prices for a leaf some trip of which may be run in two layers or more.
ghost use Rattle.std.specs.Prelude.{ℕ, ◌<◌, IfOk, length};
ghost use Rattle.vs_multi.specs.Rounds.{IsCase};
ghost use Rattle.vs_prices.specs.Table.{Fits, HoldingTable};
ghost use Rattle.vs_prices.specs.Worth.{IsWorth};
ghost use Rattle.vs_node.specs.Outcomes.{IsAtHand, IsFollowedBy, IsOutcome};
ghost use Rattle.vs_node.specs.SplitRule.{HasChoice};
ghost use Rattle.vs_node.specs.WorkedStep.{IsWorked};

use crate::care::{Care, trial_leaves};
use crate::climbing::refine;
use crate::keeping::better;
use crate::outcome::{Outcome, Task, outcome_of};
use crate::progress::Progress;
use crate::room::Room;
use vs_bundle::Lanes;
use vs_circ::Work;
use vs_instance::Instance;
use vs_multi::{Best, Case, NoWatch, few_rounds, of_table, start};
use vs_prices::{Bound, Table};
use vs_types::Memory;

/// How many rounds a leaf begins with: one shows what its first multipliers are worth.
const FIRST_ROUNDS: u32 = 1;

/// What comes of a leaf some trip of which may be run in two layers or more. Its table is the best of the leaf's own,
/// that of the first round and that of a climb, raised. Its plan is that of the layers that this table chooses.
pub(crate) fn search(case: &Case<'_>, task: &Task, room: &mut Room) -> Result<Outcome, Memory>
    requires leaf { IsAtHand case.now.instance.now case.now.nets.now case.now.sets.now task.now }
    requires choice { (i : ℕ) × (i < length case.now.sets.now) × HasChoice case.now.sets.now i }
    ensures found { IfOk result (IsOutcome case.now.instance.now task.now) }
    ensures next { IfOk result (λ outcome.
        IsFollowedBy case.now.instance.now task.now outcome) }
{
    let first = first_round(case, task.root, &task.table, &mut room.work)?;
    search_from(case, task, first, room, &NoWatch)
}

/// The same where the first round was made. Where the watch says that the work is over there is no climb, and nothing
/// is raised. Where it says so later the climb ends.
pub(crate) fn search_from<W: Lanes>(
    case: &Case<'_>,
    task: &Task,
    first: Best,
    room: &mut Room,
    watch: &W,
) -> Result<Outcome, Memory>
    requires works { W.works watch.now }
    requires leaf { IsAtHand case.now.instance.now case.now.nets.now case.now.sets.now task.now }
    requires choice { (i : ℕ) × (i < length case.now.sets.now) × HasChoice case.now.sets.now i }
    requires fits { Fits case.now.instance.now first.table }
    requires holds { HoldingTable case.now.instance.now first.table }
    requires worth { IsWorth case.now.instance.now case.now.sets.now first.table first.worth }
    requires worked { IsWorked case.now.instance.now task.now.root case.now.sets.now task.now.table first.table }
    ensures found { IfOk result (IsOutcome case.now.instance.now task.now) }
    ensures next { IfOk result (λ outcome.
        IsFollowedBy case.now.instance.now task.now outcome) }
{
    let (mut table, worth) = better(case, &task.table, first.table, first.worth)?;
    let care = care_for(
        case.instance,
        task,
        watch.is_over(),
        worth,
        &mut room.progress,
    );
    let climbed = refine(case, task.known, care, &mut table, worth, room, watch)?;
    let outcome = outcome_of(case, task.known, table, climbed.worth, &climbed.leads, room)?;
    Ok(outcome)
}

/// How much care is taken over a leaf whose table is worth so much.
fn care_for(
    instance: &Instance,
    task: &Task,
    brief: bool,
    worth: Bound,
    progress: &mut Progress,
) -> Care {
    if brief {
        return Care::None;
    }
    if task.root {
        return Care::Root;
    }
    progress.note(trial_leaves(instance), worth, task.known);
    if progress.is_vain() {
        Care::Little
    } else {
        Care::Leaf
    }
}

/// The first round for a leaf: at the root from the starting multipliers, and else from those that the leaf's table
/// stands for.
fn first_round(case: &Case<'_>, root: bool, own: &Table, work: &mut Work) -> Result<Best, Memory>
    requires case { IsCase case.now.instance.now case.now.nets.now case.now.sets.now }
    requires fits { Fits case.now.instance.now own.now }
    ensures fits { IfOk result (λ best. Fits case.now.instance.now best.table) }
    ensures holds { IfOk result (λ best. HoldingTable case.now.instance.now best.table) }
    ensures worth { IfOk result (λ best.
        IsWorth case.now.instance.now case.now.sets.now best.table best.worth) }
    ensures worked { IfOk result (λ best.
        IsWorked case.now.instance.now root case.now.sets.now own.now best.table) }
{
    let mut room = vec![in case.alloc; 0; case.instance.trips() as usize]?;
    let multipliers = room.as_mut_slice();
    if root {
        start(case.instance, multipliers);
        let best = few_rounds(case, FIRST_ROUNDS, multipliers, work)?;
        return Ok(best);
    }
    of_table(case.instance, case.sets, own, multipliers);
    let first = few_rounds(case, FIRST_ROUNDS, multipliers, work)?;
    Ok(first)
}
