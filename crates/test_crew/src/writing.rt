//! The documents of searches, byte for byte.

ghost use Rattle.std.specs.Prelude.{◌≡◌, length, IfOk};
ghost use Rattle.vs_reader.specs.Names.{HaveCounts};

use crate::trees::worked::finished;
use std::alloc::Global;
use std::test::Fail;
use test_fixtures::texts::{LAYER, STOPS, TRIPS, TWO_LAYERS, ZERO_TABLE};
use test_fixtures::{documented, input_of, joined};
use vs_cert::write;
use vs_check::{Verdict, check};
use vs_instance::Instance;
use vs_plan::greedy;
use vs_reader::Input;
use vs_tree::Tree;

/// Whether a search that has worked on no leaf has the greedy rule's plan, and the head and the blocks of its document.
const HEADS: [(bool, &str); 2] = [
    (false, "result,1,open\ncost,none\nbound,60\nnodes,0\n"),
    (
        true,
        "result,1,open\ncost,1080\nbound,60\nnodes,0\nblock,L1,t1,t2\n",
    ),
];

/// A search that has worked on no leaf.
fn start(alloc: Global, instance: &Instance, with_plan: bool) -> Result<Tree, Fail>
    ensures { IfOk result (λ tree. tree.opening.problem ≡ instance.now) }
{
    let first = if with_plan {
        greedy(alloc, instance)?
    } else {
        None
    };
    Ok(Tree::start(alloc, instance.copy(alloc)?, 5, 2, first)?)
}

/// The instance that these parts of a text stand for, with its names.
fn read(alloc: Global, parts: &[&str]) -> Result<Input, Fail>
    ensures { IfOk result (λ input. HaveCounts input.instance input.names) }
{
    let text = joined(alloc, parts)?;
    input_of(alloc, &text)
}

/// The document of such a search.
fn document_of_begun(alloc: Global, input: &Input, with_plan: bool) -> Result<Vec<u8>, Fail>
    requires { HaveCounts input.now.instance input.now.names }
{
    let tree = start(alloc, &input.instance, with_plan)?;
    Ok(write(alloc, &tree, &input.names)?)
}

/// The same for two trips.
fn begun(alloc: Global, with_plan: bool) -> Result<Vec<u8>, Fail> {
    let input = read(alloc, &[STOPS, LAYER, TRIPS])?;
    document_of_begun(alloc, &input, with_plan)
}

#[test]
fn have_one_leaf_at_first(rt: HostRuntime) -> Result<(), Fail> {
    for (with_plan, head) in HEADS {
        let wanted = joined(rt.alloc(), &[head, ZERO_TABLE, "leaf,1\nend\n"])?;
        let written = begun(rt.alloc(), with_plan)?;
        assert_eq!(rt; written.as_slice(), wanted.as_slice());
    }
    Ok(())
}

/// The document of the search of one trip whose two leaves were closed with equal tables.
const SPLIT: &str = "result,1,optimal\ncost,500\nbound,500\nnodes,3\nblock,L1,t1\n\
    table,1,cost\nfleet,L1,0\nprice,L1,t1,460000,-10000\nfleet,L2,0\nprice,L2,t1,455000,-15000\n\
    table,2,cost\nfleet,L1,0\nprice,L1,t1,460000,-10000\nfleet,L2,0\nprice,L2,t1,455000,-15000\n\
    split,t1,L1\nleaf,1\nleaf,2\nend\n";

/// The document of that search.
fn document_of_finished(alloc: Global, input: &Input) -> Result<Vec<u8>, Fail>
    requires { HaveCounts input.now.instance input.now.names }
{
    if input.instance.layers() != 2 || input.instance.trips() != 1 {
        return Err(Fail::new("another instance"));
    }
    let tree = finished(alloc, &input.instance)?;
    Ok(write(alloc, &tree, &input.names)?)
}

/// The same of its text.
fn written(alloc: Global) -> Result<Vec<u8>, Fail> {
    let input = read(alloc, &[STOPS, TWO_LAYERS])?;
    document_of_finished(alloc, &input)
}

/// Whether it holds.
fn verdict(alloc: Global) -> Result<Verdict, Fail> {
    let (instance, document) = documented(alloc, &[STOPS, TWO_LAYERS, SPLIT])?;
    Ok(check(alloc, &instance, &document)?)
}

#[test]
fn have_a_table_for_each_leaf(rt: HostRuntime) -> Result<(), Fail> {
    assert_eq!(rt; written(rt.alloc())?.as_slice(), SPLIT.as_bytes());
    Ok(())
}

#[test]
fn hold_where_each_leaf_has_a_table(rt: HostRuntime) -> Result<(), Fail> {
    let judged = verdict(rt.alloc())?;
    assert_eq!(rt; judged, Verdict::Yes);
    Ok(())
}
