//! Rows that claim nothing, and the record at which they are refused.

use std::alloc::Global;
use std::test::Fail;
use test_fixtures::texts::{LAYER, OTHER_LAYER, STOPS, TRIPS, TRIPS_APART};
use test_fixtures::{input_of, joined, text_with};
use vs_peakcheck::{PeakError, PeakWhy, read};

/// Rows behind an instance of 13 records, of which the first is record 14.
const ROWS: [&str; 7] = [
    "result,1,peak\n",
    "peak,L1,1\n",
    "block,L1,t1,t2\n",
    "fleet,L1,0\n",
    "price,L1,t1,1000,0\n",
    "price,L1,t2,0,0\n",
    "end\n",
];

/// Why the rows behind an instance claim nothing.
fn error_of(alloc: Global, text: &[u8]) -> Result<Option<PeakError>, Fail> {
    let input = input_of(alloc, text)?;
    Ok(read(alloc, &input).err())
}

/// The place of a row, the rows that stand there instead, the record that is refused, and why.
const REFUSED: [(usize, &str, u64, PeakWhy); 26] = [
    (0, "result,1,trace\n", 14, PeakWhy::NoPeak),
    (0, "result,1,peak,1\n", 14, PeakWhy::NoPeak),
    (0, "result,1,optimal\n", 14, PeakWhy::NoPeak),
    (1, "peak,L1,10001\n", 15, PeakWhy::BadRow),
    (1, "peak,L1,01\n", 15, PeakWhy::BadRow),
    (1, "peak,L1,-1\n", 15, PeakWhy::BadRow),
    (1, "peak,L2,1\n", 15, PeakWhy::BadRow),
    (1, "peak,L1\n", 15, PeakWhy::BadRow),
    (1, "cost,1\n", 15, PeakWhy::BadRow),
    (1, "result,1,peak\n", 15, PeakWhy::BadRow),
    (1, "", 15, PeakWhy::OutOfOrder),
    (1, "peak,L1,none\n", 16, PeakWhy::OutOfOrder),
    (1, "end\n", 15, PeakWhy::OutOfOrder),
    (2, "block,L1\n", 16, PeakWhy::BadRow),
    (2, "block,L1,t3\n", 16, PeakWhy::BadRow),
    (2, "leaf,1\n", 16, PeakWhy::BadRow),
    (3, "", 17, PeakWhy::OutOfOrder),
    (3, "fleet,L1,1000000000000000001\n", 17, PeakWhy::PriceRange),
    (3, "fleet,L1,10000000000000000000\n", 17, PeakWhy::BadRow),
    (4, "price,L1,t2,0,0\n", 18, PeakWhy::OutOfOrder),
    (
        4,
        "price,L1,t1,0,-1000000000000000001\n",
        18,
        PeakWhy::PriceRange,
    ),
    (5, "", 19, PeakWhy::OutOfOrder),
    (5, "block,L1,t1\n", 19, PeakWhy::OutOfOrder),
    (6, "peak,L1,1\nend\n", 20, PeakWhy::OutOfOrder),
    (6, "", 20, PeakWhy::EndsEarly),
    (6, "end\nnonsense\n", 21, PeakWhy::RowsAfterEnd),
];

#[test]
fn are_refused_at_their_first_bad_row(rt: HostRuntime) -> Result<(), Fail> {
    for (place, rows, row, why) in REFUSED {
        let text = text_with(rt.alloc(), &[STOPS, LAYER, TRIPS], &ROWS, place, rows)?;
        let error = error_of(rt.alloc(), &text)?;
        assert_eq!(rt; error, Some(PeakError::Refused { row, why }), "{rows}");
    }
    Ok(())
}

/// Why the instance alone claims nothing. And why a block of another layer is refused, and one with a trip that its
/// layer may not run.
fn errors_elsewhere(alloc: Global) -> Result<[Option<PeakError>; 3], Fail> {
    let alone = joined(alloc, &[STOPS, LAYER, TRIPS])?;
    let two = [
        STOPS,
        LAYER,
        OTHER_LAYER,
        TRIPS_APART,
        "result,1,peak\npeak,L1,1\n",
    ];
    let mut another = joined(alloc, &two)?;
    another.extend_from_slice("block,L2,t2\n".as_bytes())?;
    let mut not_permitted = joined(alloc, &two)?;
    not_permitted.extend_from_slice("block,L1,t1,t2\n".as_bytes())?;
    Ok([
        error_of(alloc, &alone)?,
        error_of(alloc, &another)?,
        error_of(alloc, &not_permitted)?,
    ])
}

#[test]
fn are_refused_for_what_the_layer_may_not_run(rt: HostRuntime) -> Result<(), Fail> {
    let none = PeakError::Refused {
        row: 14,
        why: PeakWhy::NoPeak,
    };
    let out_of_order = PeakError::Refused {
        row: 17,
        why: PeakWhy::OutOfOrder,
    };
    assert_eq!(rt;
        errors_elsewhere(rt.alloc())?,
        [Some(none), Some(out_of_order), Some(out_of_order)]
    );
    Ok(())
}
