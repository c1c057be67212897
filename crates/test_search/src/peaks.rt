//! Peaks that are found, and the text that claims them.

use std::alloc::Global;
use std::test::Fail;
use test_fixtures::texts::{LATE_TRIPS, LAYER, ONE_VEHICLE, STOPS, TRIPS};
use test_fixtures::{input_of, joined};
use vs_peak::{peaks, write};
use vs_peakcheck::{PeakVerdict, check, read};

/// The text that claims the peaks of the instance that these parts stand for.
fn found(alloc: Global, parts: &[&str]) -> Result<Vec<u8>, Fail> {
    let text = joined(alloc, parts)?;
    let input = input_of(alloc, &text)?;
    let claimed = peaks(alloc, &input.instance)?;
    Ok(write(alloc, &input.instance, &input.names, &claimed)?)
}

/// Whether the text that claims the peaks of an instance begins so, and the verdict on it behind the instance.
fn found_begins(alloc: Global, parts: &[&str], wanted: &str) -> Result<(bool, PeakVerdict), Fail> {
    let claims = found(alloc, parts)?;
    let begins = claims.as_slice().starts_with(wanted.as_bytes());
    let mut text = joined(alloc, parts)?;
    text.extend_from_slice(&claims)?;
    let input = input_of(alloc, &text)?;
    let claimed = read(alloc, &input)?;
    Ok((begins, check(alloc, &input.instance, &claimed)?))
}

/// A layer, its trips, and how the text begins that claims its peak.
const FOUND: [(&str, &str, &str); 5] = [
    (
        LAYER,
        TRIPS,
        "result,1,peak\npeak,L1,1\nblock,L1,t1,t2\nfleet,L1,",
    ),
    (
        ONE_VEHICLE,
        LATE_TRIPS,
        "result,1,peak\npeak,L1,2\nblock,L1,t",
    ),
    (LAYER, "", "result,1,peak\npeak,L1,0\nfleet,L1,0\nend\n"),
    (
        LAYER,
        "trip,t0,P,0:09,Q,0:30,0,L1\n",
        "result,1,peak\npeak,L1,none\nfleet,L1,",
    ),
    (
        LAYER,
        "trip,t0,D,0:00,P,0:10,0,L1\n",
        "result,1,peak\npeak,L1,1\nblock,L1,t0\nfleet,L1,",
    ),
];

#[test]
fn are_written_and_hold(rt: HostRuntime) -> Result<(), Fail> {
    for (layer, trips, wanted) in FOUND {
        let found = found_begins(rt.alloc(), &[STOPS, layer, trips], wanted)?;
        assert_eq!(rt; found, (true, PeakVerdict::Yes), "{wanted}");
    }
    Ok(())
}
