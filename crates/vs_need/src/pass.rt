//! One pass along the arcs of a net.

ghost use Rattle.std.specs.Prelude.{All, ◌≡◌, ℕ, ◌+◌, ◌<◌, ◌≤◌, ◌-ℤ◌, ℤ, None, Some, Option, length, option_map, replicate, set, slice_index_or};
ghost use Rattle.vs_layer.specs.Graph.{arc_of};
ghost use Rattle.vs_match.specs.LayerGraph.{arcs_in, kind_of};
ghost use Rattle.vs_match.specs.TripIndex.{IsBelow};
ghost use Rattle.vs_prices.specs.Table.{IsPrice};
ghost use Rattle.vs_match.specs.LayerNets.{net_at};
ghost use Rattle.vs_need.specs.Nets.{CanBePassed};
ghost use Rattle.vs_need.specs.Greatest.{IfWide, IsWide, greater_of};
ghost use Rattle.vs_need.specs.Gains.{AreGains, far_of, fare, near_of, prize_of};
ghost use Rattle.vs_need.specs.Reading.{noted, offer_of};

use crate::aim::{Aim, LayerAim};
use crate::arc_reader::ArcReader;
use vs_layer::{Arc, MAX_ARCS};
use vs_match::ArcKind;

/// The greater of two numbers, as far as they are there.
fn greater(a: Option<i128>, b: Option<i128>) -> Option<i128>
    ensures { result ≡ greater_of a b }
{
    match (a, b) {
        (None, b) => b,
        (Some(x), None) => Some(x),
        (Some(x), Some(y)) => Some(x.max(y)),
    }
}

/// What is left of a number after a cost, which counts nothing in a ray.
fn less(value: i128, ray: bool, cost: i64) -> i128
    requires { IsWide MAX_ARCS value }
    ensures { result ≡ value -ℤ fare ray cost }
{
    if ray { value } else { value - i128::from(cost) }
}

/// What an arc that is asked for is worth itself. None where it isn't asked for.
fn prize(aim: Aim, into: &[i64], ray: bool, kind: ArcKind, cost: i64) -> Option<i128>
    requires { IsBelow (length into.now) kind }
    ensures { result ≡ prize_of into.now ray aim kind cost }
{
    match (aim, kind) {
        (Aim::Next, ArcKind::Trip(j)) => Some(i128::from(into[j.0 as usize])),
        (Aim::After(i), ArcKind::Trip(j)) if i.0 == j.0 => Some(0),
        (Aim::PullIn, ArcKind::PullIn) | (Aim::PullOut, ArcKind::PullOut) => {
            Some(less(0, ray, cost))
        }
        _ => None,
    }
}

/// What an arc joins to its near end, where so much is joined to its far end.
fn offer(
    aim: Aim,
    into: &[i64],
    ray: bool,
    kind: ArcKind,
    cost: i64,
    value: Option<i128>,
) -> Option<i128>
    requires trip { IsBelow (length into.now) kind }
    requires value { IfWide MAX_ARCS value }
    ensures { result ≡ offer_of into.now ray aim kind cost value }
{
    match kind {
        ArcKind::Waiting
        | ArcKind::Deadhead
        | ArcKind::RestIn
        | ArcKind::RestWait
        | ArcKind::RestOut => match value {
            Some(value) => Some(less(value, ray, cost)),
            None => None,
        },
        _ => prize(aim, into, ray, kind, cost),
    }
}

/// Forgets what was found before.
fn forget(values: &mut [Option<i128>], found: &mut [Option<i128>])
    ensures values { values.new ≡ replicate (length values.old) None }
    ensures found { found.new ≡ replicate (length found.old) None }
{
    values.fill(None);
    found.fill(None);
}

/// Reads one arc of a pass, and what it stands for. Where the arc is a trip's, its far end gives the trip's entry. Its
/// near end gets what the arc joins to it.
fn read_arc(
    aim: Aim,
    into: &[i64],
    ray: bool,
    arc: &(Arc, ArcKind),
    values: &mut [Option<i128>],
    found: &mut [Option<i128>],
)
    requires trip { IsBelow (length into.now) arc.now.1 }
    requires found { length into.now ≤ length found.old }
    requires near { near_of aim arc.now.0 < length values.old }
    requires far { far_of aim arc.now.0 < length values.old }
    requires value { IfWide MAX_ARCS (slice_index_or values.old (far_of aim arc.now.0) None) }
    ensures values { let far = slice_index_or values.old (far_of aim arc.now.0) None in
        let near = slice_index_or values.old (near_of aim arc.now.0) None in
        values.new ≡ set values.old (near_of aim arc.now.0)
        (greater_of near (offer_of into.now ray aim arc.now.1 arc.now.0.cost far)) }
    ensures found { found.new
        ≡ noted arc.now.1 (slice_index_or values.old (far_of aim arc.now.0) None) found.old }
{
    let (way, kind) = arc;
    let value = values[aim.far(way) as usize];
    if let ArcKind::Trip(i) = *kind {
        found[i.0 as usize] = value;
    }
    let near = aim.near(way) as usize;
    values[near] = greater(values[near], offer(aim, into, ray, *kind, way.cost, value));
}

/// For each trip what the best walk is worth, at the prices for entering the trips. The walk joins the far end of the
/// trip's arc and an arc that the aim asks for. Each arc of the net is read once: before an arc, all arcs that have its
/// far end as their near end.
pub(crate) fn pass<N: ArcReader>(
    nets: &mut N,
    at: LayerAim,
    into: &[i64],
    ray: bool,
    values: &mut [Option<i128>],
    found: &mut [Option<i128>],
)
    requires layer { at.l.0 < length (N.nets nets.old) }
    requires net { CanBePassed (net_at (N.nets nets.old) at.l.0) (length into.now) }
    requires prices { All IsPrice into.now }
    requires values { (net_at (N.nets nets.old) at.l.0).graph.nodes ≤ length values.old }
    requires found { length into.now ≤ length found.old }
    ensures found { AreGains (net_at (N.nets nets.old) at.l.0) into.now ray at.aim found.new }
    ensures nets { N.nets nets.new ≡ N.nets nets.old }
    ensures reads { N.reads nets.new
        ≤ N.reads nets.old + arcs_in (net_at (N.nets nets.old) at.l.0) }
{
    forget(values, found);
    let arcs = nets.arcs(at.l);
    for read in 0..arcs {
        let arc = nets.arc(at.l, at.aim.arc_after(arcs, read));
        read_arc(at.aim, into, ray, &arc, values, found);
    }
}
