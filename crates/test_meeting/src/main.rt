//! Two workers share a search whose root is split, and meet: it prints a row of what their crew made of the search.
//!
//! `tests/each_allocation.py` has each call for memory of it fail in turn. A crew that runs
//! out of memory may hand the search back as it was. Then a crew gets it once more, and a second row says what came.
//! Where there is no memory outside of the crew, it ends with status 6 and prints nothing.
#![tactic(auto)]

ghost use Rattle.std.specs.Prelude.{◌≡◌, [], length};
ghost use Rattle.vs_crew.specs.Crew.{HasGoneOn};
ghost use Rattle.vs_crew.specs.Sharing.{NoneIsHeld};
ghost use Rattle.vs_match.specs.LayerNets.{AreLayerNets};
ghost use Rattle.vs_tree.specs.Search.{state};

use row::{Row, Stood};
use std::alloc::Global;
use std::io;
use std::process::ExitCode;
use std::sync::Wait;
use std::thread::Threads;
use std::time::Clock;
use test_crew::{Meeting, NotMade, one_trip, two_leaves};
use vs_crew::run;
use vs_instance::Instance;
use vs_match::{LayerNet, layer_nets};
use vs_tree::Tree;
use vs_types::Memory;

mod row;

/// How often a worker looks for the other one, a millisecond or more between two looks, before it passes the gate
/// alone.
const LOOKS: u32 = 3000;

/// The status of a run that finds no memory.
const NO_MEMORY: u8 = 6;

fn main(rt: HostRuntime) -> io::Result<ExitCode> {
    match told(&rt, rt.alloc()) {
        Ok((first, again)) => {
            println!(rt; "crew,{first}")?;
            if let Some(again) = again {
                println!(rt; "again,{again}")?;
            }
            Ok(ExitCode::SUCCESS)
        }
        Err(NotMade::Memory) => Ok(ExitCode::from(NO_MEMORY)),
        Err(other) => {
            eprintln!(rt; "{other:?}")?;
            Ok(ExitCode::FAILURE)
        }
    }
}

/// What a crew made of the search whose root is split, and what a further crew did, if any.
fn told<R: Threads + Wait + Sync + Clock>(
    rt: &R,
    alloc: Global,
) -> Result<(Row, Option<Row>), NotMade> {
    let instance = one_trip(alloc)?;
    let nets = layer_nets(alloc, &instance)?;
    let tree = two_leaves(alloc, &instance)?;
    let stood = Stood::of(alloc, &tree)?;
    Ok(shared_out(rt, alloc, &instance, &nets, tree, &stood))
}

/// What a crew makes of a search that stands so. Where it runs out of memory and hands the search back as it was, also
/// what a further crew makes of it.
fn shared_out<R: Threads + Wait + Sync + Clock>(
    rt: &R,
    alloc: Global,
    instance: &Instance,
    nets: &[LayerNet],
    tree: Tree,
    stood: &Stood,
) -> (Row, Option<Row>)
    requires nets { AreLayerNets instance.now nets.now }
    requires problem { tree.opening.problem ≡ instance.now }
    requires workers { tree.opening.workers ≡ 2 }
    requires none_held { NoneIsHeld (state tree) }
    requires none_gone { (state tree).gone ≡ [] }
{
    let before = steps_of(&tree);
    let (tree, row) = shared(rt, alloc, instance, nets, tree, stood);
    let after = steps_of(&tree);
    if row.is_over() || after != before {
        return (row, None);
    }
    let again = shared_again(rt, alloc, instance, nets, tree, stood);
    (row, Some(again))
}

/// How many steps a search has made.
fn steps_of(tree: &Tree) -> usize
    ensures { result ≡ length tree.now.steps }
{
    tree.history().len()
}

/// What a crew makes of a search that another one handed back as it was.
fn shared_again<R: Threads + Wait + Sync + Clock>(
    rt: &R,
    alloc: Global,
    instance: &Instance,
    nets: &[LayerNet],
    tree: Tree,
    stood: &Stood,
) -> Row
    requires nets { AreLayerNets instance.now nets.now }
    requires problem { tree.opening.problem ≡ instance.now }
    requires workers { tree.opening.workers ≡ 2 }
    requires none_held { NoneIsHeld (state tree) }
    requires none_gone { (state tree).gone ≡ [] }
{
    let (_tree, row) = shared(rt, alloc, instance, nets, tree, stood);
    row
}

/// The search as a crew hands it back whose workers meet at a gate, and what the crew made of it.
fn shared<R: Threads + Wait + Sync + Clock>(
    rt: &R,
    alloc: Global,
    instance: &Instance,
    nets: &[LayerNet],
    tree: Tree,
    stood: &Stood,
) -> (Tree, Row)
    requires nets { AreLayerNets instance.now nets.now }
    requires problem { tree.opening.problem ≡ instance.now }
    requires workers { tree.opening.workers ≡ 2 }
    requires none_held { NoneIsHeld (state tree) }
    requires none_gone { (state tree).gone ≡ [] }
    ensures { HasGoneOn tree result.0 }
{
    let gate = Meeting::new(rt, LOOKS);
    let (tree, over) = handed_back(rt, alloc, instance, nets, tree, &gate);
    let row = Row::of(&tree, over, gate.met(), stood);
    (tree, row)
}

/// The search as a crew hands it back, and whether it is over.
fn handed_back<R: Threads + Wait + Sync + Clock>(
    rt: &R,
    alloc: Global,
    instance: &Instance,
    nets: &[LayerNet],
    tree: Tree,
    gate: &Meeting<'_, R>,
) -> (Tree, bool)
    requires nets { AreLayerNets instance.now nets.now }
    requires problem { tree.opening.problem ≡ instance.now }
    requires workers { tree.opening.workers ≡ 2 }
    requires none_held { NoneIsHeld (state tree) }
    requires none_gone { (state tree).gone ≡ [] }
    ensures { HasGoneOn tree result.0 }
{
    match run(rt, alloc, instance, nets, tree, 2, gate) {
        Ok(tree) => (tree, true),
        Err((tree, Memory)) => (tree, false),
    }
}
