//! Instances as they are read and as they are made of their parts, and their copies.

use std::alloc::Global;
use std::test::Fail;
use test_fixtures::{input_of, instance_of};
use vs_instance::{Instance, Layer, NewError, Parts, Trip, Way};
use vs_types::{LayerNo, LayerSet, StopNo, TripNo};

/// Three stops, a vehicle's layer, and a trip.
const SMALL: &str = "instance,1\nstop,D\nstop,P\nstop,Q\n\
    deadhead,D,P,15,70\ndeadhead,P,Q,5,70\ndeadhead,D,Q,20,70\n\
    layer,L1,D,2,1000,1,0\ntrip,t1,P,8:00,Q,8:30,0,L1\n";

/// What that says of the layer, the trip, and the deadhead from D to Q.
const LAYER: Layer = Layer {
    depot: StopNo(0),
    fleet: 2,
    fixed: 1000,
    per_minute: 1,
    per_metre: 0,
    stay: None,
};

const TRIP: Trip = Trip {
    from: StopNo(1),
    start: 480,
    to: StopNo(2),
    end: 510,
    metres: 0,
    layers: LayerSet(1),
};

const WAY: Way = Way {
    minutes: 20,
    metres: 70,
};

/// What an instance of these sizes says of its first layer, its first trip and its deadheads.
fn is_small(instance: &Instance) -> bool {
    instance.stops() == 3
        && instance.layers() == 1
        && instance.trips() == 1
        && *instance.layer(LayerNo(0)) == LAYER
        && *instance.trip(TripNo(0)) == TRIP
        && instance.way(StopNo(0), StopNo(2)) == Some(WAY)
        && instance.minutes(StopNo(2), StopNo(2)) == Some(0)
        && instance.metres(StopNo(1), StopNo(0)).is_none()
}

#[test]
fn keep_their_parts_and_are_copied(rt: HostRuntime) -> Result<(), Fail> {
    let read = instance_of(rt.alloc(), &[SMALL])?;
    assert_eq!(rt; is_small(&read), true);
    assert_eq!(rt; is_small(&read.copy(rt.alloc())?), true);
    Ok(())
}

/// The stops of a text of this version, with a layer.
fn first_layer(alloc: Global, version: &str, layer: &str) -> Result<Layer, Fail> {
    let instance = instance_of(alloc, &[version, "stop,D\n", layer])?;
    if instance.layers() == 0 {
        return Err(Fail::new("no layer"));
    }
    Ok(*instance.layer(LayerNo(0)))
}

/// Layers of versions 2 and 3, and the least rest that each says.
const STAYS: [(&str, u64); 4] = [
    ("layer,L1,D,2,1000,1,0,20\n", 20),
    ("layer,L1,D,2,1000,1,0,190\n", 190),
    ("layer,L1,D,2,1000,1,0,1\n", 1),
    ("layer,L1,D,2,1000,1,0,0600\n", 600),
];

#[test]
fn say_how_long_vehicles_rest(rt: HostRuntime) -> Result<(), Fail> {
    let never = first_layer(rt.alloc(), "instance,1\n", "layer,L1,D,2,1000,1,0\n")?;
    assert_eq!(rt; never, LAYER);
    let large = first_layer(rt.alloc(), "instance,3\n", "layer,L1,D,2,1000,1,0\n")?;
    assert_eq!(rt; large, LAYER);
    for (layer, stay) in STAYS {
        let resting = Layer {
            stay: Some(stay),
            ..LAYER
        };
        assert_eq!(rt; first_layer(rt.alloc(), "instance,2\n", layer)?, resting);
        assert_eq!(rt; first_layer(rt.alloc(), "instance,3\n", layer)?, resting);
    }
    Ok(())
}

/// One stop with nothing to run.
fn nothing(alloc: Global) -> Result<Instance, NewError> {
    let parts = Parts {
        stops: 1,
        deadheads: Vec::new(alloc),
        layers: Vec::new(alloc),
        trips: Vec::new(alloc),
        most: 0,
    };
    Instance::new(alloc, parts)
}

#[test]
fn are_made_of_their_parts(rt: HostRuntime) -> Result<(), Fail> {
    let made = nothing(rt.alloc())?;
    assert_eq!(rt; (made.stops(), made.layers(), made.trips()), (1, 0, 0));
    Ok(())
}

/// The same instance with quotes, a byte order mark and other line ends, and a row behind it.
const FORMS: [&str; 2] = [
    "instance,1\nstop,D\nstop,P\nlayer,L1,D,2,1,1,0\ntrip,t1,P,8:00,D,8:30,0,L1\nresult,x\n",
    "\u{feff}\"instance\",\"1\"\r\n\"stop\",D\r\n\r\nstop,P\r\n\
        layer,\"L1\",D,2,1,1,0\r\ntrip,t1,P,8:00,D,8:30,0,L1\r\n\"result\",x",
];

#[test]
fn are_read_with_quotes_and_other_line_ends(rt: HostRuntime) -> Result<(), Fail> {
    for text in FORMS {
        let input = input_of(rt.alloc(), text.as_bytes())?;
        assert_eq!(rt; (input.instance.stops(), input.instance.trips()), (2, 1));
        let i = input.names.trip_of("t1").ok_or("t1 is a trip")?;
        assert_eq!(rt; input.names.trip(i), "t1");
        assert_eq!(rt; input.names.stop_of("P"), Some(StopNo(1)));
        assert_eq!(rt; (input.before, input.rest.len()), (5, 1));
    }
    Ok(())
}
