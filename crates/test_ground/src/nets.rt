//! Nets of arcs, and the nets of an instance's layers.

use std::alloc::Global;
use std::test::Fail;
use test_fixtures::texts::{LAYER, NOON_TRIPS, RESTING_LAYER, RESTING_STOPS, STOPS};
use test_fixtures::{instance_of, share};
use vs_layer::{Arc, Net, NetError, NetFault};
use vs_match::{ArcKind, LayerNet, NetCounts, counts, first_match, full_count, latest_first_match};
use vs_types::{LayerNo, TripNo};

const fn arc(from: u32, to: u32) -> Arc {
    Arc {
        from,
        to,
        cost: 3,
        room: 1,
    }
}

/// The ends of three arcs between three nodes, and the first error in a net of them.
const FAULTS: [([(u32, u32); 3], NetFault); 4] = [
    ([(0, 1), (2, 1), (2, 0)], NetFault::NotForward(1)),
    ([(0, 3), (2, 1), (2, 0)], NetFault::NoSuchNode(0)),
    ([(0, 1), (1, 2), (1, 0)], NetFault::NotForward(2)),
    ([(0, 1), (2, 0), (2, 0)], NetFault::NotForward(1)),
];

/// The first error in a net of these arcs.
fn fault(alloc: Global, ends: [(u32, u32); 3]) -> Result<Option<NetError>, Fail> {
    let arcs = Vec::from_slice(alloc, &ends.map(|(from, to)| arc(from, to)))?;
    Ok(Net::new(alloc, 3, arcs).err())
}

#[test]
fn name_their_first_fault(rt: HostRuntime) -> Result<(), Fail> {
    for (ends, wanted) in FAULTS {
        let found = fault(rt.alloc(), ends)?;
        assert_eq!(rt; found, Some(NetError::Fault(wanted)), "{ends:?}");
    }
    Ok(())
}

/// Three nodes and four arcs.
fn four_arcs(alloc: Global) -> Result<Net, Fail> {
    let arcs = vec![in alloc; arc(1, 2), arc(0, 1), arc(0, 2), arc(2, 0)]?;
    Ok(Net::new(alloc, 3, arcs)?)
}

/// Whether a net has these, grouped by their ends.
fn groups_arcs(net: &Net) -> bool {
    net.nodes() == 3
        && net.arcs() == 4
        && net.arc(2) == arc(0, 2)
        && net.leaving(0) == [1, 2].as_slice()
        && net.leaving(2) == [3].as_slice()
        && net.reaching(2) == [0, 2].as_slice()
}

#[test]
fn group_arcs_by_their_ends(rt: HostRuntime) -> Result<(), Fail> {
    let net = four_arcs(rt.alloc())?;
    assert!(rt; groups_arcs(&net));
    Ok(())
}

/// Four trips end at stop P before two start at stop Q, which the first three reach in time for the first of them.
const SIX_TRIPS: &str = "trip,t1,D,7:30,P,8:00,0,L1\ntrip,t2,D,7:35,P,8:05,0,L1\n\
    trip,t3,D,7:40,P,8:10,0,L1\ntrip,t4,D,7:50,P,8:20,0,L1\n\
    trip,t5,Q,8:30,D,9:00,0,L1\ntrip,t6,Q,8:40,D,9:10,0,L1\n";

/// Trips, whether only the latest of the first matches remain, and how large the layer's net is. Also the minutes at
/// which its deadheads leave, and how many pairs of trips connect.
struct Matched {
    trips: &'static str,
    latest: bool,
    counts: NetCounts,
    departures: &'static [u32],
    pairs: u64,
}

const SIX_COUNTS: NetCounts = NetCounts {
    nodes: 12,
    waiting: 9,
    deadheads: 4,
    pull_outs: 6,
    pull_ins: 6,
    trips: 6,
    line: 0,
    rests: 0,
};

const NO_COUNTS: NetCounts = NetCounts {
    nodes: 0,
    waiting: 0,
    deadheads: 0,
    pull_outs: 0,
    pull_ins: 0,
    trips: 0,
    line: 0,
    rests: 0,
};

const MATCHED: [Matched; 3] = [
    Matched {
        trips: SIX_TRIPS,
        latest: false,
        counts: SIX_COUNTS,
        departures: &[480, 485, 490, 500],
        pairs: 7,
    },
    Matched {
        trips: SIX_TRIPS,
        latest: true,
        counts: NetCounts {
            deadheads: 2,
            ..SIX_COUNTS
        },
        departures: &[490, 500],
        pairs: 7,
    },
    Matched {
        trips: "",
        latest: false,
        counts: NO_COUNTS,
        departures: &[],
        pairs: 0,
    },
];

/// What a net of the first layer of those trips is like: its counts, the departures, and the pairs that connect.
type Found = (NetCounts, Vec<u32>, u64);

/// The minutes at which the deadheads of a net leave, in order.
fn departures(alloc: Global, net: &LayerNet) -> Result<Vec<u32>, Fail> {
    let mut minutes = Vec::new(alloc);
    for k in 0..net.net().arcs() {
        if net.kind(k) == ArcKind::Deadhead {
            if let Some((_stop, minute)) = net.place(net.net().arc(k).from) {
                minutes.push(minute)?;
            }
        }
    }
    Ok(minutes)
}

fn found(alloc: Global, trips: &str, latest: bool) -> Result<Found, Fail> {
    let instance = instance_of(alloc, &[STOPS, LAYER, trips])?;
    if instance.layers() == 0 {
        return Err(Fail::new("no layer"));
    }
    let net = if latest {
        latest_first_match(alloc, &instance, LayerNo(0))?
    } else {
        first_match(alloc, &instance, LayerNo(0))?
    };
    let pairs = full_count(&instance, LayerNo(0));
    Ok((counts(&net), departures(alloc, &net)?, pairs))
}

#[test]
fn match_arrivals_first(rt: HostRuntime) -> Result<(), Fail> {
    for row in &MATCHED {
        let (counts, departures, pairs) = found(rt.alloc(), row.trips, row.latest)?;
        assert_eq!(rt; counts, row.counts, "{}", row.latest);
        assert_eq!(rt; departures.as_slice(), row.departures, "{}", row.latest);
        assert_eq!(rt; pairs, row.pairs, "{}", row.latest);
    }
    Ok(())
}

#[test]
fn have_their_return_alone_without_trips(rt: HostRuntime) -> Result<(), Fail> {
    let alloc = rt.alloc();
    let instance = instance_of(alloc, &[STOPS, LAYER])?;
    if instance.layers() == 0 {
        return Err(Fail::new("no layer"));
    }
    let net = first_match(alloc, &instance, LayerNo(0))?;
    assert_eq!(rt; (net.net().nodes(), net.net().arcs()), (2, 1));
    assert_eq!(rt; net.kind(0), ArcKind::Return);
    assert_eq!(rt; (net.place(0), net.place(1)), (None, None));
    assert_eq!(rt; net.trip_arc(TripNo(6)), None);
    Ok(())
}

/// How large the net of a trip in the morning and one at noon is, where vehicles may rest in between.
const NOON_COUNTS: NetCounts = NetCounts {
    nodes: 4,
    waiting: 2,
    deadheads: 0,
    pull_outs: 2,
    pull_ins: 2,
    trips: 2,
    line: 2,
    rests: 1,
};

/// The minutes of the depot line of a net, in order.
fn line_minutes(alloc: Global, net: &LayerNet) -> Result<Vec<u32>, Fail> {
    let mut minutes = Vec::new(alloc);
    for node in 0..net.net().nodes() {
        if let Some(minute) = net.line(node) {
            minutes.push(minute)?;
        }
    }
    Ok(minutes)
}

#[test]
fn have_a_depot_line_where_vehicles_rest(rt: HostRuntime) -> Result<(), Fail> {
    let alloc = rt.alloc();
    let instance = instance_of(alloc, &[RESTING_STOPS, RESTING_LAYER, NOON_TRIPS])?;
    if instance.layers() == 0 {
        return Err(Fail::new("no layer"));
    }
    let net = first_match(alloc, &instance, LayerNo(0))?;
    assert_eq!(rt; counts(&net), NOON_COUNTS);
    // At 7:50 and at 11:50 a vehicle leaves for the trips.
    assert_eq!(rt;
        line_minutes(alloc, &net)?.as_slice(),
        [470, 710].as_slice()
    );
    Ok(())
}

#[test]
fn cross_threads(rt: HostRuntime) -> Result<(), Fail> {
    let alloc = rt.alloc();
    let instance = instance_of(alloc, &[STOPS, LAYER])?;
    if instance.layers() == 0 {
        return Err(Fail::new("no layer"));
    }
    let net = first_match(alloc, &instance, LayerNo(0))?;
    share(&instance);
    share(&net);
    share(net.net());
    Ok(())
}
