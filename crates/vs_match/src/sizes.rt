//! How large a layer's net is, and how many connections it stands for.

ghost use Rattle.std.specs.Prelude.{◌≡◌, ◌+◌, ◌<◌, length, count_by};
ghost use Rattle.vs_match.specs.Sizes.{HasRoom, counts_of, with_kind, full_count_of, is_connection, numbers};

use crate::arc_kind::ArcKind;
use crate::layer_net::LayerNet;
use vs_instance::Instance;
use vs_types::{LayerNo, TripNo};

/// How large a layer's net is. It counts the nodes with a place, those on the depot line, and the arcs of these kinds.
#[derive(Clone, Copy, Debug, PartialEq, Eq)]
pub struct NetCounts {
    pub nodes: u32,
    pub waiting: u32,
    pub deadheads: u32,
    pub pull_outs: u32,
    pub pull_ins: u32,
    pub trips: u32,
    /// How many nodes are on the depot line.
    pub line: u32,
    /// How many arcs lead into the depot for a rest.
    pub rests: u32,
}

/// How large a layer's net is.
pub fn counts(net: &LayerNet) -> NetCounts
    ensures { result ≡ counts_of net.now }
{
    let graph = net.net();
    let line = net.line_count();
    let mut counts = NetCounts {
        nodes: graph.nodes() - 2 - line,
        waiting: 0,
        deadheads: 0,
        pull_outs: 0,
        pull_ins: 0,
        trips: 0,
        line,
        rests: 0,
    };
    for k in 0..graph.arcs() {
        count(&mut counts, net.kind(k));
    }
    counts
}

/// Counts one arc more.
fn count(counts: &mut NetCounts, kind: ArcKind)
    requires { HasRoom counts.old }
    ensures { counts.new ≡ with_kind kind counts.old }
{
    match kind {
        ArcKind::Trip(_) => counts.trips += 1,
        ArcKind::Waiting => counts.waiting += 1,
        ArcKind::Deadhead => counts.deadheads += 1,
        ArcKind::PullOut => counts.pull_outs += 1,
        ArcKind::PullIn => counts.pull_ins += 1,
        ArcKind::RestIn => counts.rests += 1,
        ArcKind::RestWait | ArcKind::RestOut | ArcKind::Return => {}
    }
}

/// How many ordered pairs of trips a layer may run of which the first connects to the second.
pub fn full_count(instance: &Instance, l: LayerNo) -> u64
    requires { l.0 < length instance.now.layers }
    ensures { result ≡ full_count_of instance.now l.0 }
{
    let mut total = 0;
    for i in 0..instance.trips() {
        total += u64::from(count_from(instance, l, TripNo(i)));
    }
    total
}

/// How many of the trips that a layer may run the trip connects to, where the layer may run it.
fn count_from(instance: &Instance, l: LayerNo, i: TripNo) -> u32
    requires layer { l.0 < length instance.now.layers }
    requires trip { i.0 < length instance.now.trips }
    ensures { result ≡ count_by (is_connection instance.now l.0 i.0) (numbers instance.now) }
{
    let mut count = 0;
    for j in 0..instance.trips() {
        if connects(instance, l, i, TripNo(j)) {
            count += 1;
        }
    }
    count
}

/// Whether a layer may run both trips, and the first connects to the second.
fn connects(instance: &Instance, l: LayerNo, i: TripNo, j: TripNo) -> bool
    requires layer { l.0 < length instance.now.layers }
    requires first { i.0 < length instance.now.trips }
    requires second { j.0 < length instance.now.trips }
    ensures { result ≡ is_connection instance.now l.0 i.0 j.0 }
{
    prove!(l.0 < instance.layers() && i.0 < instance.trips() && j.0 < instance.trips());
    let (first, second) = (instance.trip(i), instance.trip(j));
    let in_time = match instance.way(first.to, second.from) {
        Some(way) => first.end + way.minutes <= second.start,
        None => false,
    };
    first.layers.has(l) & second.layers.has(l) & in_time
}
