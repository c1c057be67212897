//! What passes find at a table's prices, and what each trip needs.

ghost use Rattle.std.specs.Prelude.{◌≡◌, ℕ, ◌+◌, ◌*◌, ◌<◌, ◌≤◌, IfSome, None, FitsSigned, length, slice_index_or, slice_range};
ghost use mir.Syntax.{w64};
ghost use Rattle.vs_instance.specs.Problem.{Problem};
ghost use Rattle.vs_match.specs.LayerNets.{net_at};
ghost use Rattle.vs_match.specs.LayerGraph.{arcs_in};
ghost use Rattle.vs_need.specs.Needs.{AreNeeds, IsFoundFor};
ghost use Rattle.vs_need.specs.Room.{CanFind, CanNeed, HasRoom};

use crate::aim::LayerAim;
use crate::arc_reader::ArcReader;
use crate::pass::pass;
use crate::scratch::Scratch;
use vs_prices::Table;
use vs_types::LayerNo;

/// What a pass along the net of a layer finds at a table's prices, for so many trips.
pub(crate) fn find<N: ArcReader>(
    nets: &mut N,
    table: &Table,
    trips: usize,
    at: LayerAim,
    values: &mut [Option<i128>],
    found: &mut [Option<i128>],
)
    ghost p: { Problem }
    requires { CanFind p (N.nets nets.old) table.now trips at.l.0
        (length values.old) (length found.old) }
    ensures found { IsFoundFor p table.now at.l.0 at.aim found.new }
    ensures nets { N.nets nets.new ≡ N.nets nets.old }
    ensures reads { N.reads nets.new
        ≤ N.reads nets.old + arcs_in (net_at (N.nets nets.old) at.l.0) }
{
    let start = at.l.0 as usize * trips;
    let into = &table.into[start..start + trips];
    pass(nets, at, into, table.ray, values, found);
}

/// What was found, as an i64.
fn narrowed(found: Option<i128>) -> Option<i64>
    requires { IfSome found (FitsSigned w64) }
    ensures { result ≡ found }
{
    match found {
        Some(x) => Some(x as i64),
        None => None,
    }
}

/// Writes down what was found for each trip.
fn narrow(found: &[Option<i128>], answer: &mut [Option<i64>])
    requires all { length answer.old ≤ length found.now }
    requires fits { (i : ℕ) → i < length answer.old
        → IfSome (slice_index_or found.now i None) (FitsSigned w64) }
    ensures { (i : ℕ) → i < length answer.old
        → slice_index_or answer.new i None ≡ slice_index_or found.now i None }
{
    for i in 0..answer.len() {
        answer[i] = narrowed(found[i]);
    }
}

/// For each trip that the layer may run, the greatest price for entering a trip that it connects to, less the cost of
/// the link. It is in 1/1000 of a cost unit; in a ray the links cost nothing. None exactly where there is no such trip,
/// and for the trips that the layer may not run. The arcs of the layer's net are read once, from the last on. All arcs
/// that leave a node are read before any that reaches it.
pub fn needs<N: ArcReader>(
    nets: &mut N,
    table: &Table,
    l: LayerNo,
    scratch: &mut Scratch,
    answer: &mut [Option<i64>],
)
    ghost p: { Problem }
    requires { CanNeed p (N.nets nets.old) table.now l.0 scratch.old (length answer.old) }
    ensures needs { AreNeeds p table.now l.0 answer.new }
    ensures nets { N.nets nets.new ≡ N.nets nets.old }
    ensures reads { N.reads nets.new ≤ N.reads nets.old + arcs_in (net_at (N.nets nets.old) l.0) }
    ensures scratch { HasRoom (length answer.old) (N.nets nets.new) scratch.new }
{
    scratch.find_nexts(nets, table, answer.len(), l);
    narrow(&scratch.nexts, answer);
}
