//! What is claimed of a layer, judged.

use std::alloc::Global;
use std::test::Fail;
use test_fixtures::texts::{LATE_TRIPS, LAYER, OTHER_LAYER, STOPS, TRIPS, TRIPS_APART};
use test_fixtures::{input_of, joined};
use vs_peakcheck::{PeakFlaw, PeakVerdict, check, read};
use vs_plan::PlanFault;
use vs_prices::BrokenAt;
use vs_types::{LayerNo, TripNo};

/// The verdict on what stands behind an instance.
fn verdict_on(alloc: Global, parts: &[&str]) -> Result<PeakVerdict, Fail> {
    let text = joined(alloc, parts)?;
    let input = input_of(alloc, &text)?;
    let claimed = read(alloc, &input)?;
    Ok(check(alloc, &input.instance, &claimed)?)
}

/// Yes, or no for a flaw of the first layer.
fn first_layer(flaw: Option<PeakFlaw>) -> PeakVerdict {
    match flaw {
        None => PeakVerdict::Yes,
        Some(flaw) => PeakVerdict::No(LayerNo(0), flaw),
    }
}

/// Behind the instance of two trips that follow each other: the rows, and their first flaw.
const JUDGED: [(&str, Option<PeakFlaw>); 8] = [
    (
        "peak,L1,1\nblock,L1,t1,t2\nfleet,L1,0\nprice,L1,t1,1000,0\nprice,L1,t2,0,0\nend\n",
        None,
    ),
    (
        "peak,L1,2\nblock,L1,t1\nblock,L1,t2\nfleet,L1,0\nprice,L1,t1,1000,0\nprice,L1,t2,0,0\nend\n",
        Some(PeakFlaw::TooWeak(1, Some(2))),
    ),
    (
        "peak,L1,2\nblock,L1,t1,t2\nfleet,L1,0\nprice,L1,t1,1000,0\nprice,L1,t2,0,0\nend\n",
        Some(PeakFlaw::CountDiffers(2, 1)),
    ),
    (
        "peak,L1,1\nblock,L1,t1,t2\nfleet,L1,0\nprice,L1,t1,1000,0\nprice,L1,t2,1000,0\nend\n",
        Some(PeakFlaw::TableBroken(BrokenAt::Link(LayerNo(0), TripNo(0), TripNo(1)))),
    ),
    (
        "peak,L1,1\nblock,L1,t1\nfleet,L1,0\nprice,L1,t1,1000,0\nprice,L1,t2,0,0\nend\n",
        Some(PeakFlaw::Blocks(PlanFault::Uncovered(TripNo(1)))),
    ),
    (
        "peak,L1,1\nblock,L1,t2,t1\nfleet,L1,0\nprice,L1,t1,1000,0\nprice,L1,t2,0,0\nend\n",
        Some(PeakFlaw::Blocks(PlanFault::NoConnection(0, 1))),
    ),
    (
        "peak,L1,none\nfleet,L1,0\nprice,L1,t1,0,0\nprice,L1,t2,0,0\nend\n",
        Some(PeakFlaw::TooWeak(0, None)),
    ),
    (
        "peak,L1,none\nfleet,L1,0\nprice,L1,t1,1,0\nprice,L1,t2,0,0\nend\n",
        Some(PeakFlaw::TableBroken(BrokenAt::PullOut(LayerNo(0), TripNo(0)))),
    ),
];

#[test]
fn are_judged_by_their_first_flaw(rt: HostRuntime) -> Result<(), Fail> {
    for (rows, flaw) in JUDGED {
        let verdict = verdict_on(rt.alloc(), &[STOPS, LAYER, TRIPS, "result,1,peak\n", rows])?;
        assert_eq!(rt; verdict, first_layer(flaw), "{rows}");
    }
    Ok(())
}

/// What is claimed of two layers with a trip each, of which the second has the number 0 in its own layer: the verdict.
fn of_second_layer(alloc: Global) -> Result<PeakVerdict, Fail> {
    verdict_on(
        alloc,
        &[
            STOPS,
            LAYER,
            OTHER_LAYER,
            TRIPS_APART,
            "result,1,peak\npeak,L1,1\nblock,L1,t1\nfleet,L1,0\nprice,L1,t1,1000,0\n",
            "peak,L2,1\nblock,L2,t2\nfleet,L2,0\nprice,L2,t2,1001,0\nend\n",
        ],
    )
}

#[test]
fn are_judged_layer_by_layer(rt: HostRuntime) -> Result<(), Fail> {
    let broken = BrokenAt::PullOut(LayerNo(0), TripNo(0));
    assert_eq!(rt;
        of_second_layer(rt.alloc())?,
        PeakVerdict::No(LayerNo(1), PeakFlaw::TableBroken(broken))
    );
    Ok(())
}

/// What is claimed of trips that overlap, by blocks of one trip each: the verdict.
fn of_late_trips(alloc: Global) -> Result<PeakVerdict, Fail> {
    verdict_on(
        alloc,
        &[
            STOPS,
            LAYER,
            LATE_TRIPS,
            "result,1,peak\npeak,L1,2\nblock,L1,t1\nblock,L1,t2\n",
            "fleet,L1,0\nprice,L1,t1,1000,0\nprice,L1,t2,1000,0\nend\n",
        ],
    )
}

#[test]
fn hold_whatever_the_fleet(rt: HostRuntime) -> Result<(), Fail> {
    assert_eq!(rt; of_late_trips(rt.alloc())?, PeakVerdict::Yes);
    Ok(())
}
