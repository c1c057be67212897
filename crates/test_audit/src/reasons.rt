//! The words that say why a timetable has no plan.

use std::alloc::Global;
use std::test::Fail;
use test_fixtures::joined;
use test_fixtures::texts::{
    BLOCK, END, HEAD, LATE_TRIPS, LAYER, ONE_VEHICLE, RAY, SHORT_HEAD, STOPS, TABLE, TRIPS,
};
use vs_messages::reason_text;

/// Three trips that are all under way from 8:10 until 8:30, and the prices that count each once.
const THREE_TRIPS: &str = "trip,t1,P,8:00,Q,8:30,0,L1\ntrip,t2,P,8:10,Q,8:40,0,L1\n\
    trip,t3,Q,8:05,P,8:35,0,L1\n";

const THREE_PRICES: &str =
    "table,1,ray\nfleet,L1,1\nprice,L1,t1,1,0\nprice,L1,t2,1,0\nprice,L1,t3,1,0\n";

/// Three trips at one time, each of which may be run in the first two of three layers. The prices below count each trip
/// and each vehicle of these two layers once.
const SHARED_TRIPS: &str = "layer,L2,P,1,1000,1,0\nlayer,L3,D,5,1000,1,0\n\
    trip,t1,P,8:00,Q,8:30,0,L1,L2\ntrip,t2,P,8:00,Q,8:30,0,L1,L2\n\
    trip,t3,P,8:00,Q,8:30,0,L1,L2\n";

const SHARED_PRICES: &str = "table,1,ray\n\
    fleet,L1,1\nprice,L1,t1,1,0\nprice,L1,t2,1,0\nprice,L1,t3,1,0\n\
    fleet,L2,1\nprice,L2,t1,1,0\nprice,L2,t2,1,0\nprice,L2,t3,1,0\nfleet,L3,0\n";

/// A trip so early that no vehicle reaches it, and one that a vehicle runs.
const EARLY_TRIP: &str = "trip,t1,P,0:05,Q,0:35,0,L1\ntrip,t2,P,8:00,Q,8:30,0,L1\n";

const EARLY_PRICES: &str = "table,1,ray\nfleet,L1,0\nprice,L1,t1,1,0\nprice,L1,t2,0,0\n";

/// Two trips between which no vehicle is in time.
const FAR_TRIPS: &str = "trip,t1,P,8:00,Q,8:30,0,L1\ntrip,t2,P,8:40,Q,9:10,0,L1\n";

/// A layer without vehicles, and the prices that count its one trip.
const NO_VEHICLE: &str = "layer,L1,D,0,1000,1,0\n";

const ONE_PRICE: &str = "table,1,ray\nfleet,L1,1\nprice,L1,t1,1,0\n";

/// Two cases.
const TWO_LEAVES: &str = "split,t1,L1\nleaf,1\nleaf,1\nend\n";

/// An instance, the document that was written for it, and the words: empty where there are none.
const TOLD: [(&[&str], &[&str], &str); 9] = [
    (
        &[STOPS, LAYER, THREE_TRIPS],
        &[SHORT_HEAD, THREE_PRICES, END],
        "no plan: 3 trips at 08:10, 2 vehicles of their layers: t1, t2, t3",
    ),
    (
        &[STOPS, ONE_VEHICLE, SHARED_TRIPS],
        &[SHORT_HEAD, SHARED_PRICES, END],
        "no plan: 3 trips at 08:00, 2 vehicles of their layers: t1, t2, t3",
    ),
    (
        &[STOPS, LAYER, EARLY_TRIP],
        &[SHORT_HEAD, EARLY_PRICES, END],
        "no plan: no vehicle of its layers can run the trip t1",
    ),
    (
        &[STOPS, ONE_VEHICLE, FAR_TRIPS],
        &[SHORT_HEAD, RAY, END],
        "no plan: 2 trips that can't be run together: t1, t2",
    ),
    (
        &[STOPS, ONE_VEHICLE, FAR_TRIPS],
        &[SHORT_HEAD, RAY, TWO_LEAVES],
        "no plan: 2 cases, none of which has a plan: `check` judges them",
    ),
    // An old document behind the instance isn't looked at.
    (
        &[STOPS, ONE_VEHICLE, LATE_TRIPS, HEAD, BLOCK],
        &[SHORT_HEAD, RAY, END],
        "no plan: 2 trips at 08:29, 1 vehicle of their layers: t1, t2",
    ),
    // The last line end of the instance is missing.
    (
        &[STOPS, NO_VEHICLE, "trip,t1,P,8:00,Q,8:30,0,L1"],
        &[SHORT_HEAD, ONE_PRICE, END],
        "no plan: 1 trip at 08:00, 0 vehicles of its layers: t1",
    ),
    (&[STOPS, LAYER, TRIPS], &[HEAD, BLOCK, TABLE, END], ""),
    (&[STOPS, LAYER, TRIPS], &[SHORT_HEAD], ""),
];

/// The words for an instance and its document, and nothing where there are none.
fn told(alloc: Global, instance: &[&str], document: &[&str]) -> Result<String, Fail> {
    let input = joined(alloc, instance)?;
    let document = joined(alloc, document)?;
    match reason_text(alloc, &input, &document)? {
        Some(words) => Ok(words),
        None => Ok(String::new(alloc)),
    }
}

#[test]
fn tell_why_there_is_no_plan(rt: HostRuntime) -> Result<(), Fail> {
    for (instance, document, words) in TOLD {
        let found = told(rt.alloc(), instance, document)?;
        assert_eq!(rt; found.as_str(), words);
    }
    Ok(())
}

/// Rows for trips with these numbers: what comes before the number and behind it.
fn rows(alloc: Global, trips: u32, before: &str, behind: &str) -> Result<String, Fail> {
    let mut text = String::new(alloc);
    for number in 1..=trips {
        let row = format!(in alloc; "{before}{number}{behind}\n")?;
        text.push_str(row.as_str())?;
    }
    Ok(text)
}

/// The words for so many trips at one time, which two vehicles have to run.
fn told_of_many(alloc: Global, trips: u32) -> Result<String, Fail> {
    let timetable = rows(alloc, trips, "trip,t", ",P,8:00,Q,8:30,0,L1")?;
    let prices = rows(alloc, trips, "price,L1,t", ",1,0")?;
    let head = "table,1,ray\nfleet,L1,1\n";
    told(
        alloc,
        &[STOPS, LAYER, timetable.as_str()],
        &[SHORT_HEAD, head, prices.as_str(), END],
    )
}

#[test]
fn name_ten_trips_at_most(rt: HostRuntime) -> Result<(), Fail> {
    let ten = told_of_many(rt.alloc(), 10)?;
    assert_eq!(rt;
        ten.as_str(),
        "no plan: 10 trips at 08:00, 2 vehicles of their layers: \
         t1, t2, t3, t4, t5, t6, t7, t8, t9, t10"
    );
    let twelve = told_of_many(rt.alloc(), 12)?;
    assert_eq!(rt;
        twelve.as_str(),
        "no plan: 12 trips at 08:00, 2 vehicles of their layers: \
         t1, t2, t3, t4, t5, t6, t7, t8, t9, t10 and 2 more"
    );
    Ok(())
}
