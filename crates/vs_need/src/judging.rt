//! The first place where a table breaks, by what passes find.

ghost use Rattle.std.specs.Prelude.{◌≡◌, ℕ, ◌+◌, ◌*◌, ◌<◌, ◌≤◌, ◌-ℤ◌, All, None, length, slice_index_or, slice_range};
ghost use Rattle.vs_instance.specs.Firsts.{first};
ghost use Rattle.vs_instance.specs.HoldingTable.{price_of};
ghost use Rattle.vs_instance.specs.Problem.{Problem};
ghost use Rattle.vs_prices.specs.Breaks.{breaks_of, layer_breaks, links_breaks, trip_breaks};
ghost use Rattle.vs_prices.specs.Table.{IsPrice, vehicle_price};
ghost use Rattle.vs_match.specs.LayerNets.{net_at};
ghost use Rattle.vs_match.specs.LayerGraph.{arcs_in};
ghost use Rattle.vs_need.specs.Nets.{all_arcs};
ghost use Rattle.vs_need.specs.Room.{CanJudge, CanNeed, HasRoom, IsKept};
ghost use Rattle.vs_need.specs.Suspects.{CanLink, CanSuspect, IsFirstOf, is_above, trips_breaks};

use crate::arc_reader::ArcReader;
use crate::scratch::Scratch;
use vs_instance::Instance;
use vs_prices::{BrokenAt, Table};
use vs_types::{LayerNo, TripNo};

/// A move of a layer on which a table breaks.
#[derive(Clone, Copy, Debug, PartialEq, Eq)]
pub(crate) enum Suspect {
    /// Into this trip from the depot.
    PullOut(TripNo),
    /// From this trip to some other, which isn't known yet.
    Link(TripNo),
    /// From this trip to the depot.
    PullIn(TripNo),
}

/// Whether what was found is more than a limit.
fn is_above(found: Option<i128>, limit: i128) -> bool
    ensures { result ≡ is_above found limit }
{
    match found {
        Some(x) => x > limit,
        None => false,
    }
}

/// Whether what was found for a trip is more than its price.
fn is_dearer(found: &[Option<i128>], prices: &[i64], i: TripNo) -> bool
    requires entry { i.0 < length found.now }
    requires trip { i.0 < length prices.now }
    requires prices { All IsPrice prices.now }
    ensures { result ≡ is_above (slice_index_or found.now i.0 None) (price_of prices.now i.0) }
{
    is_above(found[i.0 as usize], i128::from(prices[i.0 as usize]))
}

/// Whether entering a trip is worth more than its pull-out costs and a vehicle of the layer pays.
fn is_out_dearer(table: &Table, l: LayerNo, outs: &[Option<i128>], into: &[i64], i: TripNo) -> bool
    requires layer { l.0 < length table.now.fleet.items }
    requires fleet { All IsPrice table.now.fleet.items }
    requires entry { i.0 < length outs.now }
    requires trip { i.0 < length into.now }
    requires prices { All IsPrice into.now }
    ensures { result ≡ is_above (slice_index_or outs.now i.0 None)
        (vehicle_price table.now l.0 -ℤ price_of into.now i.0) }
{
    let vehicle = i128::from(table.fleet[l.0 as usize]);
    is_above(outs[i.0 as usize], vehicle - i128::from(into[i.0 as usize]))
}

/// Whether entering trip j is worth more than leaving trip i and the link between them cost.
fn is_link_dearer(links: &[Option<i128>], into: &[i64], from: &[i64], i: TripNo, j: TripNo) -> bool
    requires entry { j.0 < length links.now }
    requires trip { i.0 < length from.now }
    requires next { j.0 < length into.now }
    requires into { All IsPrice into.now }
    requires from { All IsPrice from.now }
    ensures { result ≡ is_above (slice_index_or links.now j.0 None) (price_of from.now i.0 -ℤ price_of into.now j.0) }
{
    let leaving = i128::from(from[i.0 as usize]);
    is_above(
        links[j.0 as usize],
        leaving - i128::from(into[j.0 as usize]),
    )
}

/// The prices of a layer's trips.
fn layer_prices<'a>(prices: &'a [i64], trips: usize, l: LayerNo) -> &'a [i64]
    requires { l.0 * trips + trips ≤ length prices.now }
    ensures { result.now ≡ slice_range prices.now (l.0 * trips) (l.0 * trips + trips) }
{
    let start = l.0 as usize * trips;
    &prices[start..start + trips]
}

/// The first move of a trip on which the table breaks.
fn suspect_at(
    table: &Table,
    into: &[i64],
    from: &[i64],
    l: LayerNo,
    i: TripNo,
    scratch: &Scratch,
) -> Option<Suspect>
    ghost p: { Problem }
    requires known { CanSuspect p table.now l.0 into.now from.now scratch.now }
    requires trip { i.0 < length p.trips }
    ensures { IsFirstOf p table.now l.0 (trip_breaks p table.now l.0 i.0) result }
{
    let outs: &[Option<i128>] = &scratch.outs;
    let out = is_out_dearer(table, l, outs, into, i);
    if out {
        return Some(Suspect::PullOut(i));
    }
    let nexts: &[Option<i128>] = &scratch.nexts;
    let next = is_dearer(nexts, from, i);
    if next {
        return Some(Suspect::Link(i));
    }
    let ins: &[Option<i128>] = &scratch.ins;
    let back = is_dearer(ins, from, i);
    if back {
        return Some(Suspect::PullIn(i));
    }
    None
}

/// The first move of a layer on which the table breaks, trip by trip.
fn first_suspect(
    table: &Table,
    into: &[i64],
    from: &[i64],
    l: LayerNo,
    scratch: &Scratch,
) -> Option<Suspect>
    ghost p: { Problem }
    requires { CanSuspect p table.now l.0 into.now from.now scratch.now }
    ensures { IsFirstOf p table.now l.0 (trips_breaks p table.now l.0) result }
{
    for i in 0..into.len() {
        let found = suspect_at(table, into, from, l, TripNo(i as u32), scratch);
        if let Some(suspect) = found {
            return Some(suspect);
        }
    }
    None
}

/// The first trip in order on the way to which from trip i the table breaks.
fn first_link(
    table: &Table,
    into: &[i64],
    from: &[i64],
    l: LayerNo,
    i: TripNo,
    links: &[Option<i128>],
) -> Option<BrokenAt>
    ghost p: { Problem }
    requires { CanLink p table.now l.0 i.0 into.now from.now links.now }
    ensures { result ≡ first (links_breaks p table.now l.0 i.0) }
{
    for j in 0..into.len() {
        if is_link_dearer(links, into, from, i, TripNo(j as u32)) {
            return Some(BrokenAt::Link(l, i, TripNo(j as u32)));
        }
    }
    None
}

/// The first place where a table breaks on the moves of a layer. Finding it takes three passes along the net of the
/// layer and, where a link breaks, one from its trip.
fn broken_move<N: ArcReader>(
    nets: &mut N,
    table: &Table,
    trips: usize,
    l: LayerNo,
    scratch: &mut Scratch,
) -> Option<BrokenAt>
    ghost p: { Problem }
    requires { CanNeed p (N.nets nets.old) table.now l.0 scratch.old trips }
    ensures first { result ≡ first (trips_breaks p table.now l.0) }
    ensures nets { N.nets nets.new ≡ N.nets nets.old }
    ensures reads { N.reads nets.new
        ≤ N.reads nets.old + 4 * arcs_in (net_at (N.nets nets.old) l.0) }
    ensures kept { IsKept scratch.old scratch.new }
{
    scratch.find_outs(nets, table, trips, l);
    scratch.find_nexts(nets, table, trips, l);
    scratch.find_ins(nets, table, trips, l);
    let all_into: &[i64] = &table.into;
    let all_from: &[i64] = &table.from;
    let into = layer_prices(all_into, trips, l);
    let from = layer_prices(all_from, trips, l);
    let found = first_suspect(table, into, from, l, scratch);
    let Some(suspect) = found else {
        return None;
    };
    match suspect {
        Suspect::PullOut(i) => Some(BrokenAt::PullOut(l, i)),
        Suspect::PullIn(i) => Some(BrokenAt::PullIn(l, i)),
        Suspect::Link(i) => {
            scratch.find_links(nets, table, trips, l, i);
            let links: &[Option<i128>] = &scratch.links;
            first_link(table, into, from, l, i, links)
        }
    }
}

/// The first place where a table breaks in a layer.
fn broken_in_layer<N: ArcReader>(
    nets: &mut N,
    table: &Table,
    trips: usize,
    l: LayerNo,
    scratch: &mut Scratch,
) -> Option<BrokenAt>
    ghost p: { Problem }
    requires { CanNeed p (N.nets nets.old) table.now l.0 scratch.old trips }
    ensures first { result ≡ first (layer_breaks p table.now l.0) }
    ensures nets { N.nets nets.new ≡ N.nets nets.old }
    ensures reads { N.reads nets.new
        ≤ N.reads nets.old + 4 * arcs_in (net_at (N.nets nets.old) l.0) }
    ensures kept { IsKept scratch.old scratch.new }
{
    if table.fleet[l.0 as usize] < 0 {
        return Some(BrokenAt::Fleet(l));
    }
    broken_move(nets, table, trips, l, scratch)
}

/// Where a table breaks first, as `vs_prices::broken` answers it, without the instance. The layers are judged in order.
/// In a layer the price of its vehicles comes first, and then its trips in order. For a trip it is the pull-out, each
/// trip in order to which the trip connects, and the pull-in.
///
/// In each layer whose vehicles have a price of 0 or more it goes along the net three times. It goes with the arcs for
/// what the pull-outs cost. It goes against them for what the best next trip is worth, and for what the pull-ins cost.
/// A trip with a link that breaks is one whose best next trip is worth more than leaving it. Where the first break is
/// on such a link, a fourth pass from that trip's arrival finds which trip is the first in order.
pub fn broken_fast<N: ArcReader>(
    nets: &mut N,
    table: &Table,
    scratch: &mut Scratch,
) -> Option<BrokenAt>
    ghost p: { Problem }
    requires { CanJudge p (N.nets nets.old) table.now scratch.old }
    ensures first { result ≡ first (breaks_of p table.now) }
    ensures nets { N.nets nets.new ≡ N.nets nets.old }
    ensures reads { N.reads nets.new ≤ N.reads nets.old + 4 * all_arcs (N.nets nets.old) }
    ensures kept { IsKept scratch.old scratch.new }
{
    for l in 0..nets.layers() {
        let trips = table.into.len() / table.fleet.len();
        let found = broken_in_layer(nets, table, trips, LayerNo(l), scratch);
        if let Some(at) = found {
            return Some(at);
        }
    }
    None
}

/// The same for the nets of an instance that is at hand. It isn't looked at: it says only of which problem the
/// answer is.
pub fn broken_for<N: ArcReader>(
    _instance: &Instance,
    nets: &mut N,
    table: &Table,
    scratch: &mut Scratch,
) -> Option<BrokenAt>
    ghost p: { Problem }
    requires same { p ≡ _instance.now }
    requires judge { CanJudge p (N.nets nets.old) table.now scratch.old }
    ensures first { result ≡ first (breaks_of _instance.now table.now) }
    ensures nets { N.nets nets.new ≡ N.nets nets.old }
    ensures room { HasRoom (length _instance.now.trips) (N.nets nets.new) scratch.new }
{
    broken_fast(nets, table, scratch)
}
