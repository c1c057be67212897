//! Texts that are no instance: the record at which each is refused, and why.

use std::alloc::Global;
use std::test::Fail;
use vs_instance::{Field, Misfit, Place};
use vs_reader::{MAX_BYTES, ReadError, Why, read};
use vs_types::{LayerNo, StopNo, TripNo};

/// The record at which a text is refused, and why. None where it isn't.
fn refusal(alloc: Global, text: &[u8]) -> Option<(u64, Why)> {
    if text.len() > MAX_BYTES {
        return None;
    }
    match read(alloc, text) {
        Err(ReadError::Refused(refused)) => Some((refused.row, refused.why)),
        _ => None,
    }
}

/// A text, and the record at which it is refused, and why.
const TEXTS: [(&[u8], u64, Why); 25] = [
    (b"", 1, Why::NoHeader),
    (b"instance,4\n", 1, Why::NoHeader),
    (b"instance,1\nbus,D\n", 2, Why::UnknownKind),
    (b"instance,1\nstop,D\nstop,D\n", 3, Why::NameTwice),
    (b"instance,1\nstop,\0\n", 2, Why::BadName),
    (b"instance,1\nstop,\xff\n", 2, Why::BadName),
    (b"instance,1\nstop,\"D\nstop,P\n", 2, Why::BadName),
    (b"instance,1\nstop,D,P\n", 2, Why::FieldCount),
    (
        b"instance,1\nstop,D\nlayer,L1,X,2,1,1,0\n",
        3,
        Why::UnknownName,
    ),
    (
        b"instance,1\nstop,D\nlayer,L1,D,-1,1,1,0\n",
        3,
        Why::BadNumber,
    ),
    (
        b"instance,1\nstop,D\nlayer,L1,D,2001,1,1,0\n",
        3,
        Why::Misfit(Misfit::Range(Field::Fleet, Place::Layer(LayerNo(0)))),
    ),
    (
        b"instance,1\nstop,D\nlayer,L1,D,2,1,1,0,20\n",
        3,
        Why::FieldCount,
    ),
    (
        b"instance,2\nstop,D\nlayer,L1,D,2,1,1,0\n",
        3,
        Why::FieldCount,
    ),
    (
        b"instance,2\nstop,D\nlayer,L1,D,2,1,1,0,\n",
        3,
        Why::BadNumber,
    ),
    (
        b"instance,2\nstop,D\nlayer,L1,D,2,1,1,0,0\n",
        3,
        Why::Misfit(Misfit::Range(Field::Stay, Place::Layer(LayerNo(0)))),
    ),
    (
        b"instance,2\nstop,D\nlayer,L1,D,2,1,1,0,601\n",
        3,
        Why::Misfit(Misfit::Range(Field::Stay, Place::Layer(LayerNo(0)))),
    ),
    (
        b"instance,3\nstop,D\nlayer,L1,D,10000,1,1,0\nlayer,L2,D,10001,1,1,0\n",
        4,
        Why::Misfit(Misfit::Range(Field::Fleet, Place::Layer(LayerNo(1)))),
    ),
    (
        b"instance,3\nstop,D\nlayer,L1,D,2,1,1,0\nlayer,L2,D,2,1,1,0,601\n",
        4,
        Why::Misfit(Misfit::Range(Field::Stay, Place::Layer(LayerNo(1)))),
    ),
    (
        b"instance,3\nstop,D\nlayer,L1,D,2,1,1,0,20,\n",
        3,
        Why::FieldCount,
    ),
    (
        b"instance,1\nstop,P\nstop,Q\nstop,R\ndeadhead,P,Q,15,0\ndeadhead,Q,R,5,0\n",
        0,
        Why::Misfit(Misfit::NotClosed(StopNo(0), StopNo(1), StopNo(2))),
    ),
    (
        b"instance,1\nstop,P\nstop,Q\nstop,R\ndeadhead,P,Q,15,0\ndeadhead,Q,R,5,0\ndeadhead,P,R,21,0\n",
        0,
        Why::Misfit(Misfit::LongerMinutes(StopNo(0), StopNo(1), StopNo(2))),
    ),
    (
        b"instance,1\nstop,P\nstop,Q\nstop,R\ndeadhead,P,Q,15,0\ndeadhead,Q,R,5,0\ndeadhead,P,Q,15,0\n",
        7,
        Why::Misfit(Misfit::DeadheadTwice(2)),
    ),
    (
        b"instance,1\nstop,P\nstop,Q\ndeadhead,P,Q,15,0\ndeadhead,Q,Q,5,0\n",
        5,
        Why::Misfit(Misfit::SelfDeadhead(1)),
    ),
    (
        b"instance,1\nstop,P\nlayer,L1,P,2,1,1,0\nlayer,L1,P,2,1,1,0\n",
        4,
        Why::NameTwice,
    ),
    (
        b"instance,1\nstop,P\nlayer,L1,P,2,1,1,0\ntrip,t,P,8:00,P,8:30,0,L2\n",
        4,
        Why::UnknownName,
    ),
];

#[test]
fn tell_the_first_fault(rt: HostRuntime) {
    for (text, row, why) in TEXTS {
        assert_eq!(rt; refusal(rt.alloc(), text), Some((row, why)), "{why:?}");
    }
}

/// Three stops, and the fields of a layer and of a trip behind their names.
const STOPS: &str = "stop,D\nstop,P\nstop,Q\n";

const LAYER: &str = ",D,2,1000,1,0\n";

const TRIP: &str = ",P,8:00,Q,8:30,0,L1\n";

/// The fields of a trip behind its name, and why they are refused.
const TRIPS: [(&str, Why); 6] = [
    (",P,8:00,Q,48:00,0,L1\n", Why::BadTime),
    (",P,8:00,Q,8:60,0,L1\n", Why::BadTime),
    (",P,8:00,Q,8:30,0,L1,L1\n", Why::NameTwice),
    (",P,8:00,Q,8:30,0\n", Why::FieldCount),
    (",P,8:00,Q,8:30,12345678901,L1\n", Why::BadNumber),
    (
        ",P,8:00,Q,8:00,0,L1\n",
        Why::Misfit(Misfit::EndNotAfterStart(TripNo(0))),
    ),
];

#[test]
fn tell_what_is_wrong_with_a_trip(rt: HostRuntime) -> Result<(), Fail> {
    for (trip, why) in TRIPS {
        let text = format!(in rt.alloc(); "instance,1\n{STOPS}layer,L1{LAYER}trip,t1{trip}")?;
        assert_eq!(rt;
            refusal(rt.alloc(), text.as_bytes()),
            Some((6, why)),
            "{trip}"
        );
    }
    Ok(())
}

#[test]
fn are_told_of_large_fields(rt: HostRuntime) -> Result<(), Fail> {
    for (byte, why) in [(b'A', Why::BadName), (b',', Why::FieldCount)] {
        let mut text = Vec::from_slice(rt.alloc(), b"instance,1\nstop,")?;
        text.extend_from_slice(&vec![in rt.alloc(); byte; 1_048_576]?)?;
        assert_eq!(rt; refusal(rt.alloc(), &text), Some((2, why)), "{why:?}");
    }
    Ok(())
}

/// The version, what comes first, the beginning and the end of the records that are too many, how many these are, and
/// the record that is refused.
const CROWDS: [(&str, &str, &str, &str, u32, u64); 5] = [
    ("1", "", "stop,S", "\n", 498, 502),
    ("3", "", "layer,K", LAYER, 17, 21),
    ("1", "layer,L1,D,2,1000,1,0\n", "trip,T", TRIP, 2_001, 2_006),
    (
        "2",
        "layer,L1,D,2,1000,1,0,20\n",
        "trip,T",
        TRIP,
        2_001,
        2_006,
    ),
    (
        "3",
        "layer,L1,D,2,1000,1,0\n",
        "trip,T",
        TRIP,
        10_001,
        10_006,
    ),
];

/// The stops in a text of this version, and so many records behind them.
fn crowd(
    alloc: Global,
    version: &str,
    before: &str,
    kind: &str,
    fields: &str,
    count: u32,
) -> Result<String, Fail> {
    let mut text = format!(in alloc; "instance,{version}\n{STOPS}{before}")?;
    for k in 0..count {
        text.push_str(&format!(in alloc; "{kind}{k}{fields}")?)?;
    }
    Ok(text)
}

#[test]
fn tell_the_first_beyond_a_limit(rt: HostRuntime) -> Result<(), Fail> {
    for (version, before, kind, fields, count, row) in CROWDS {
        let text = crowd(rt.alloc(), version, before, kind, fields, count)?;
        let told = refusal(rt.alloc(), text.as_bytes());
        assert_eq!(rt; told, Some((row, Why::TooMany)), "{version} {kind}");
    }
    Ok(())
}

/// A layer behind L1, how many trips there are, and whether so many of its dearest pieces cost too much. A metre at
/// 10,000 makes a piece of 10,000,000,000 cost units, and 40,000,000,000,000 are the most.
const RATES: [(&str, u32, bool); 4] = [
    ("layer,L2,D,2,0,0,10000\n", 4_000, false),
    ("layer,L2,D,2,1,0,10000\n", 4_000, true),
    ("layer,L2,D,2,0,0,10000\n", 4_001, true),
    ("layer,L2,D,2,0,0,4000\n", 10_000, false),
];

#[test]
fn tell_the_layer_that_is_too_dear(rt: HostRuntime) -> Result<(), Fail> {
    let dear = Some((6, Why::Misfit(Misfit::TooDear(LayerNo(1)))));
    for (layer, trips, is_dear) in RATES {
        let layers = format!(in rt.alloc(); "layer,L1{LAYER}{layer}")?;
        let text = crowd(rt.alloc(), "3", &layers, "trip,T", TRIP, trips)?;
        let told = refusal(rt.alloc(), text.as_bytes());
        assert_eq!(rt; told, if is_dear { dear } else { None }, "{trips} {layer}");
    }
    Ok(())
}
