//! What the work on a leaf finds.

ghost use Rattle.std.specs.Prelude.{◌≡◌, true, length, IfOk, IfSome, None};
ghost use Rattle.vs_match.specs.LayerNets.{AreLayerNets};
ghost use Rattle.vs_prices.specs.Table.{Fits};
ghost use Rattle.vs_crew.specs.Found.{IsFinding, IsFound, IsLawfulTask};

use std::alloc::Global;
use vs_connect::lesser;
use vs_instance::Instance;
use vs_match::LayerNet;
use vs_multi::NoWatch;
use vs_node::{Outcome, Room, Task, begin, has_choice, work, work_from};
use vs_penalty::{Hands, agree, seek_plan, seek_ray};
use vs_plan::{cheaper, cost_of};
use vs_prices::{Bound, worth};
use vs_tree::{Finish, Next};
use vs_types::{Memory, SCALE};

/// How many rounds prices are sought by on a leaf other than the root that show that there is no plan within its
/// sets.
const RAY_ROUNDS: u32 = 30;

/// What the work on a leaf finds, and how the leaf is finished by that. What its new table is worth there, or in the
/// two parts, is reckoned before the worker has the turn.
#[derive(Drop)]
pub(crate) struct Finding {
    pub outcome: Outcome,
    pub finish: Finish,
}

/// What the work on a leaf finds; on one that is split also by some passes, where these are asked for. The sets of the
/// task serve as space in the end. At the root the watch may end the search for plans and prices. None where it ends
/// the first round there.
pub(crate) fn found<W: Hands>(
    alloc: Global,
    instance: &Instance,
    nets: &[LayerNet],
    task: &mut Task,
    passes: bool,
    room: &mut Room,
    watch: &W,
) -> Result<Option<Finding>, Memory>
    requires works { W.works watch.now }
    requires nets { AreLayerNets instance.now nets.now }
    requires lawful { IsLawfulTask instance.now task.old }
    ensures found { IfOk result (λ found. IfSome found (IsFinding instance.now task.old)) }
    ensures ended { IfOk result (λ found. found ≡ None → W.may_end watch.now) }
    ensures sets { length task.new.sets.items ≡ length task.old.sets.items }
    ensures fits { Fits instance.now task.new.table }
{
    let found = outcome_of(alloc, instance, nets, task, passes, room, watch)?;
    let Some(outcome) = found else {
        return Ok(None);
    };
    let sets = task.sets.as_mut_slice();
    let finish = Finish::of(instance, sets, &outcome.table, outcome.next);
    Ok(Some(Finding { outcome, finish }))
}

/// What comes of a leaf. At the root the layers come to agree first, unless the watch ends the first round.
fn outcome_of<W: Hands>(
    alloc: Global,
    instance: &Instance,
    nets: &[LayerNet],
    task: &mut Task,
    passes: bool,
    room: &mut Room,
    watch: &W,
) -> Result<Option<Outcome>, Memory>
    requires works { W.works watch.now }
    requires nets { AreLayerNets instance.now nets.now }
    requires lawful { IsLawfulTask instance.now task.old }
    ensures found { IfOk result (λ found. IfSome found (IsFound instance.now task.old)) }
    ensures ended { IfOk result (λ found. found ≡ None → W.may_end watch.now) }
    ensures sets { task.new.sets.items ≡ task.old.sets.items }
    ensures fits { Fits instance.now task.new.table }
{
    if task.root {
        return found_at_root(alloc, instance, nets, task, room, watch);
    }
    let outcome = found_on_leaf(alloc, instance, nets, task, passes, room)?;
    let closed = closed_by_ray(alloc, instance, task, outcome)?;
    Ok(Some(closed))
}

/// What is found on a leaf other than the root.
fn found_on_leaf(
    alloc: Global,
    instance: &Instance,
    nets: &[LayerNet],
    task: &Task,
    passes: bool,
    room: &mut Room,
) -> Result<Outcome, Memory>
    requires nets { AreLayerNets instance.now nets.now }
    requires lawful { IsLawfulTask instance.now task.now }
    ensures { IfOk result (IsFound instance.now task.now) }
{
    if passes {
        found_with_passes(alloc, instance, nets, task, room)
    } else {
        work(alloc, instance, nets, task, room)
    }
}

/// What was found on a leaf. Where it is split and no plan is known yet, prices that show that there is none within its
/// sets close it, if such are found.
fn closed_by_ray(
    alloc: Global,
    instance: &Instance,
    task: &Task,
    outcome: Outcome,
) -> Result<Outcome, Memory>
    requires lawful { IsLawfulTask instance.now task.now }
    requires found { IsFound instance.now task.now outcome }
    ensures { IfOk result (IsFound instance.now task.now) }
{
    if task.known.is_some() || outcome.plan.is_some() || is_closed(&outcome) {
        return Ok(outcome);
    }
    let sets = task.sets.as_slice();
    let found = seek_ray(alloc, instance, sets, RAY_ROUNDS, &NoWatch)?;
    match found {
        Some(table) => Ok(Outcome {
            table,
            plan: None,
            next: Next::Close,
        }),
        None => Ok(outcome),
    }
}

/// Whether the leaf is closed.
fn is_closed(outcome: &Outcome) -> bool {
    match outcome.next {
        Next::Close => true,
        Next::Split { .. } => false,
    }
}

/// What is found on a leaf, and where it is split, the plan of some passes where that is cheaper.
fn found_with_passes(
    alloc: Global,
    instance: &Instance,
    nets: &[LayerNet],
    task: &Task,
    room: &mut Room,
) -> Result<Outcome, Memory>
    requires nets { AreLayerNets instance.now nets.now }
    requires lawful { IsLawfulTask instance.now task.now }
    ensures found { IfOk result (IsFound instance.now task.now) }
{
    let outcome = work(alloc, instance, nets, task, room)?;
    match outcome.next {
        Next::Close => Ok(outcome),
        Next::Split { .. } => {
            let sought = seek_plan(
                alloc,
                instance,
                nets,
                &task.sets,
                &outcome.table,
                &mut room.work,
            )?;
            let plan = cheaper(outcome.plan, sought);
            Ok(Outcome {
                table: outcome.table,
                plan,
                next: outcome.next,
            })
        }
    }
}

/// What is found at the root. The layers come to agree between the first round and the rest of the work on it, which is
/// brief where the watch ends the search. None where it ends the first round.
fn found_at_root<W: Hands>(
    alloc: Global,
    instance: &Instance,
    nets: &[LayerNet],
    task: &mut Task,
    room: &mut Room,
    watch: &W,
) -> Result<Option<Outcome>, Memory>
    requires works { W.works watch.now }
    requires nets { AreLayerNets instance.now nets.now }
    requires lawful { IsLawfulTask instance.now task.old }
    requires root { task.old.root ≡ true }
    ensures found { IfOk result (λ found. IfSome found (IsFound instance.now task.old)) }
    ensures ended { IfOk result (λ found. found ≡ None → W.may_end watch.now) }
    ensures sets { task.new.sets.items ≡ task.old.sets.items }
    ensures fits { Fits instance.now task.new.table }
{
    if !has_choice(&task.sets) {
        let alone = work(alloc, instance, nets, task, room)?;
        return Ok(Some(alone));
    }
    watch.tell(
        task.known,
        value_of(worth(instance, &task.sets, &task.table)),
    );
    let first = begin(alloc, instance, nets, &task.sets, &mut room.work, watch)?;
    let Some(begun) = first else {
        return Ok(None);
    };
    watch.tell(None, value_of(begun.worth));
    let table = &mut task.table;
    let agreed = agree(
        alloc,
        instance,
        nets,
        task.known,
        table,
        &mut room.work,
        watch,
    )?;
    task.known = lesser(task.known, cost_of(&agreed));
    let outcome = work_from(alloc, instance, nets, task, begun, room, watch)?;
    let plan = cheaper(agreed, outcome.plan);
    Ok(Some(Outcome {
        table: outcome.table,
        plan,
        next: outcome.next,
    }))
}

/// What no plan costs less than by a bound, in 1/1000 of a cost unit. Where there is none, it is `i64::MIN`.
fn value_of(bound: Bound) -> i64 {
    match bound {
        Bound::AtLeast(least) => i64::try_from(least).unwrap_or(0).saturating_mul(SCALE),
        Bound::NoPlan => i64::MIN,
    }
}
