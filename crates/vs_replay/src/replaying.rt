//! The replay of a whole trace.

ghost use Rattle.std.specs.Prelude.{◌≡◌, ◌+◌, ◌<◌, ◌≤◌, ◌^◌, All, length, IfOk};
ghost use Rattle.vs_trace.specs.Traces.{IsReadFor, IsReadStep};
ghost use Rattle.vs_replay.specs.Making.{AreMade, Suits};
ghost use Rattle.vs_replay.specs.Replays.{IsReplay};

use crate::ground::Ground;
use crate::plans::first_plan;
use crate::steps::make;
use std::alloc::Global;
use vs_instance::Instance;
use vs_match::layer_nets;
use vs_trace::{Full, Trace};
use vs_tree::Tree;
use vs_types::Memory;

/// What becomes of a trace.
#[derive(Drop)]
pub enum Replayed {
    /// The search that the trace records. No leaf of it is held.
    Tree(Tree),
    /// The first step, counted from 1, that may not come. It is 0 where the first plan is none, or not one of its cost.
    /// It is one more than there are steps where a leaf is held at the end.
    NotAStep(u32),
}

/// Makes the steps of a trace one after the other, each where it may come.
pub fn replay(alloc: Global, instance: &Instance, trace: Trace) -> Result<Replayed, Memory>
    requires { IsReadFor instance.now trace }
    ensures { IfOk result (IsReplay instance.now trace) }
{
    let Trace {
        budget,
        workers,
        first,
        steps,
    } = trace;
    let Some(first) = first_plan(alloc, instance, first)? else {
        return Ok(Replayed::NotAStep(0));
    };
    let nets = layer_nets(alloc, instance)?;
    let mut ground = Ground::new(alloc, instance, &nets)?;
    let own = instance.copy(alloc)?;
    let mut tree = Tree::start(alloc, own, budget, workers, first)?;
    let count = steps.len() as u32;
    let made = make_all(alloc, instance, &mut tree, &mut ground, steps)?;
    if made < count {
        return Ok(Replayed::NotAStep(made + 1));
    }
    if tree.held() > 0 {
        return Ok(Replayed::NotAStep(made + 1));
    }
    Ok(Replayed::Tree(tree))
}

/// Makes the steps up to the first that may not come, and gives how many.
fn make_all(
    alloc: Global,
    instance: &Instance,
    tree: &mut Tree,
    ground: &mut Ground,
    steps: Vec<Full>,
) -> Result<u32, Memory>
    requires same { tree.old.opening.problem ≡ instance.now }
    requires ground { Suits instance.now ground.old }
    requires read { All (IsReadStep instance.now) steps.items }
    requires few { length steps.items < 2 ^ 32 }
    ensures { IfOk result (AreMade tree.old tree.new steps.items) }
{
    let mut made = 0;
    for step in steps {
        if !make(alloc, instance, tree, ground, step)? {
            return Ok(made);
        }
        made += 1;
    }
    Ok(made)
}
