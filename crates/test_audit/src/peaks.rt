//! The words for a text of peaks that is refused, and for one that doesn't hold.

use crate::refusals::{Told, are_told};
use std::test::Fail;
use test_fixtures::texts::{LAYER, STOPS, TRIPS};

/// The first row of a text of peaks.
const PEAKS: &str = "result,1,peak\n";

const REFUSED: &[Told] = &[
    (
        &[STOPS, LAYER, TRIPS],
        "refused,14,60,NoPeak\n",
        "record 14: no text of peaks follows the timetable",
    ),
    (
        &[STOPS, LAYER, TRIPS, PEAKS, "peak,L1,x\n"],
        "refused,15,61,BadRow\n",
        "record 15: no row of a text of peaks looks like this: peak,L1,x",
    ),
    (
        &[STOPS, LAYER, TRIPS, PEAKS, "end\n"],
        "refused,15,62,OutOfOrder\n",
        "record 15: another row of the text of peaks has to come here than end",
    ),
    (
        &[STOPS, LAYER, TRIPS, PEAKS],
        "refused,15,63,EndsEarly\n",
        "record 15: the text of peaks ends here, without its row end: was it cut off?",
    ),
    (
        &[STOPS, LAYER, PEAKS, "peak,L1,0\nfleet,L1,0\nend\nmore\n"],
        "refused,16,64,RowsAfterEnd\n",
        "record 16: behind the end of the text of peaks stands more",
    ),
    (
        &[
            STOPS,
            LAYER,
            PEAKS,
            "peak,L1,0\nfleet,L1,1000000000000000001\n",
        ],
        "refused,14,65,PriceRange\n",
        "record 14: a price is greater than 1000000000000000000 or less than its negative: \
            fleet,L1,1000000000000000001",
    ),
];

/// Rows that say no, whose words need no text.
const FLAWS: &[Told] = &[
    (
        &[],
        "no,8,Blocks,L1,NoPullOut,1\n",
        "layer L1: no vehicle is in time for the first trip of block 1, or no deadhead leads there",
    ),
    (
        &[],
        "no,8,Blocks,L1,NoConnection,1,2\n",
        "layer L1: in block 1 no vehicle is in time for trip number 2 after the one before, \
            or no deadhead leads there",
    ),
    (
        &[],
        "no,8,Blocks,L1,NoPullIn,2\n",
        "layer L1: no deadhead leads from the last trip of block 2 to the depot",
    ),
    (
        &[],
        "no,8,Blocks,L1,Twice,t1\n",
        "layer L1: trip t1 stands in the blocks more than once",
    ),
    (
        &[],
        "no,8,Blocks,L1,Uncovered,t2\n",
        "layer L1: no block runs trip t2",
    ),
    (
        &[],
        "no,9,CountDiffers,L1,2,1\n",
        "layer L1: the count is 2, and the number of blocks is 1",
    ),
    (
        &[],
        "no,10,TableBroken,L1,link,L1,t1,t2\n",
        "the prices of layer L1: to go from trip t1 to trip t2 in layer L1 is worth more than it costs",
    ),
    (
        &[],
        "no,11,TooWeak,L1,1,2\n",
        "layer L1: by the prices the peak is at least 1, and the count is 2",
    ),
    (
        &[],
        "no,11,TooWeak,L1,0,none\n",
        "layer L1: the prices don't show that no number of vehicles is enough",
    ),
];

#[test]
fn tell_why_texts_of_peaks_are_refused(rt: HostRuntime) -> Result<(), Fail> {
    are_told(&rt, rt.alloc(), REFUSED)?;
    are_told(&rt, rt.alloc(), FLAWS)
}
