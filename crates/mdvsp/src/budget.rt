//! How many leaves a search may work on.

ghost use Rattle.std.specs.Prelude.{◌≡◌, ◌+◌, ◌*◌, ◌<◌, ◌≤◌, ◌^◌, ◌↔◌, length, max, IfSome, IsTrue};
ghost use Rattle.vs_types.specs.declared.numbers.TheConstants.{MAX_LAYERS};
ghost use Rattle.vs_instance.specs.declared.limits.TheConstants.{MAX_BUDGET, MAX_TRIPS};
ghost use Rattle.vs_replay.specs.declared.room.TheConstants.{MAX_ENTRIES};
ghost use Rattle.vs_resume.specs.Answers.{HasRoom, is_leaf};
ghost use Rattle.vs_resume.specs.declared.resuming.TheConstants.{MAX_RESUMED_ENTRIES};
ghost use Rattle.mdvsp.specs.Budgets.{budget_of, default_budget, entries_of, leaves_in, resumed_budget, resumed_nodes};

use vs_document::{Document, Shape};
use vs_instance::{Instance, MAX_LAYERS, MAX_TRIPS};
use vs_replay::MAX_ENTRIES;
use vs_resume::MAX_RESUMED_ENTRIES;

/// How many leaves a search may work on where no number is given, unless its tables could have too many entries.
pub const DEFAULT_NODES: u32 = 200;

/// How many leaves a search of the instance may work on: as many as are given, or else 200. Where no number is given,
/// it is fewer where the search's tables could have too many entries. None where so many are given that they could.
pub fn budget_of(instance: &Instance, nodes: Option<u32>) -> Option<u32>
    requires { IfSome nodes (λ n. n ≤ MAX_BUDGET) }
    ensures budget { result ≡ budget_of instance.now nodes }
    ensures few { IfSome result (λ budget. budget ≤ MAX_BUDGET) }
{
    match nodes {
        Some(nodes) if has_room(instance, nodes) => Some(nodes),
        Some(_) => None,
        None => Some(default_budget(instance)),
    }
}

/// Whether the tables of a search of so many nodes have few enough entries.
fn has_room(instance: &Instance, nodes: u32) -> bool
    requires { nodes ≤ MAX_BUDGET }
    ensures { IsTrue result ↔ (entries_of instance.now * max nodes 1 ≤ MAX_ENTRIES) }
{
    u64::from(entries_of(instance)) * u64::from(nodes.max(1)) <= u64::from(MAX_ENTRIES)
}

/// 200, or as many nodes as leave few enough entries.
fn default_budget(instance: &Instance) -> u32
    ensures budget { result ≡ default_budget instance.now }
    ensures few { result ≤ MAX_BUDGET }
{
    match entries_of(instance) {
        0 => DEFAULT_NODES,
        entries => DEFAULT_NODES.min(MAX_ENTRIES / entries),
    }
}

/// How many entering prices a table of the instance has: one for each trip in each layer.
fn entries_of(instance: &Instance) -> u32
    ensures entries { result ≡ entries_of instance.now }
    ensures few { result ≤ MAX_TRIPS * MAX_LAYERS }
{
    prove!(instance.trips() <= MAX_TRIPS);
    prove!(instance.layers() <= MAX_LAYERS);
    instance.trips() * instance.layers()
}

/// How many nodes a search that is carried on from a document may work on: as many as are given, or else 200. Where no
/// number is given, it is fewer where the tables of the leaves and of the nodes could have too many entries. None where
/// they could have too many all the same.
pub fn resumed_budget(instance: &Instance, document: &Document, nodes: Option<u32>) -> Option<u32>
    requires nodes { IfSome nodes (λ n. n ≤ MAX_BUDGET) }
    requires rows { length document.now.shape.items < 2 ^ 32 }
    ensures budget { result ≡ resumed_budget instance.now document.now nodes }
    ensures few { IfSome result (λ budget. budget ≤ MAX_BUDGET) }
    ensures room { IfSome result (HasRoom instance.now document.now) }
{
    let leaves = leaves_in(document);
    let budget = resumed_nodes(instance, leaves, nodes);
    if has_room_beside(instance, leaves, budget) {
        Some(budget)
    } else {
        None
    }
}

/// As many nodes as are given, or else 200, or as many as leave few enough entries together with those of the leaves.
fn resumed_nodes(instance: &Instance, leaves: u32, nodes: Option<u32>) -> u32
    requires { IfSome nodes (λ n. n ≤ MAX_BUDGET) }
    ensures nodes { result ≡ resumed_nodes instance.now leaves nodes }
    ensures few { result ≤ MAX_BUDGET }
{
    match nodes {
        Some(nodes) => nodes,
        None => match entries_of(instance) {
            0 => DEFAULT_NODES,
            entries => DEFAULT_NODES.min((MAX_RESUMED_ENTRIES / entries).saturating_sub(leaves)),
        },
    }
}

/// Whether the tables of so many leaves and of so many nodes have few enough entries.
fn has_room_beside(instance: &Instance, leaves: u32, nodes: u32) -> bool
    requires { nodes ≤ MAX_BUDGET }
    ensures { IsTrue result ↔ (entries_of instance.now * max (leaves + nodes) 1 ≤ MAX_RESUMED_ENTRIES) }
{
    let tables = u64::from(leaves) + u64::from(nodes);
    u64::from(entries_of(instance)) * tables.max(1) <= u64::from(MAX_RESUMED_ENTRIES)
}

/// How many leaves the tree of a document has.
fn leaves_in(document: &Document) -> u32
    requires { length document.now.shape.items < 2 ^ 32 }
    ensures { result ≡ leaves_in document.now }
{
    document.shape.iter().filter(|row| is_leaf(row)).count() as u32
}

/// Whether a row of a tree is a leaf.
fn is_leaf(row: &Shape) -> bool
    ensures { result ≡ is_leaf row.now }
{
    match row {
        Shape::Leaf { .. } => true,
        Shape::Split { .. } => false,
    }
}
