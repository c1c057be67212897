//! The words for what is refused, and for a document that doesn't hold.

use std::alloc::Global;
use std::process::Abort;
use std::test::Fail;
use test_fixtures::joined;
use test_fixtures::texts::{BLOCK, END, HEAD, LAYER, RESTING_STOPS, STOPS, TABLE, TRIPS};
use vs_messages::refusal_text;

/// Deadheads by which the way from P to R is shorter than the one straight, and without one straight.
const SHORTER: &str = "instance,1\nstop,P\nstop,Q\nstop,R\n\
    deadhead,P,Q,7,900\ndeadhead,Q,R,5,600\ndeadhead,P,R,15,2000\n";

const OPEN: &str = "instance,1\nstop,P\nstop,Q\nstop,R\ndeadhead,P,Q,7,900\ndeadhead,Q,R,5,600\n";

/// A text, the row that is written for it, and the words: empty where there are none.
pub type Told = (&'static [&'static str], &'static str, &'static str);

const TOLD: &[Told] = &[
    (
        &["trip,t1\n"],
        "refused,1,1,NoHeader\n",
        "record 1: it isn't instance,1, instance,2 or instance,3: is this a spreadsheet's export?",
    ),
    (&[], "refused,1,1,NoHeader\n", "record 1: the text is empty"),
    (
        &[STOPS, "Layer,L1\n"],
        "refused,11,2,UnknownKind\n",
        "record 11: unknown kind of record: \"Layer\"",
    ),
    (
        &["instance,1\nstop,D,\n"],
        "refused,2,3,FieldCount\n",
        "record 2: a stop has 2 fields, and this one 3",
    ),
    (
        &["instance,1\ndeadhead,A,B,1\n"],
        "refused,2,3,FieldCount\n",
        "record 2: a deadhead has 5 fields, and this one 4",
    ),
    (
        &[STOPS, "layer,L1,D,2,1000,1,0,20\n"],
        "refused,11,3,FieldCount\n",
        "record 11: a layer has 7 fields, and this one 8",
    ),
    (
        &[RESTING_STOPS, LAYER],
        "refused,11,3,FieldCount\n",
        "record 11: a layer has 8 fields, and this one 7",
    ),
    (
        &[STOPS, LAYER, "trip,t1,P,8:00,Q,8:30,0\n"],
        "refused,12,3,FieldCount\n",
        "record 12: a trip has 8 or more fields, and this one 7",
    ),
    (
        &["instance,1\nstop,Main Street\n"],
        "refused,2,4,BadName\n",
        "record 2: no name: \"Main Street\"; a name has 1 to 32 letters, digits or signs of _ . : -",
    ),
    (
        &["instance,1\nstop,xxxxxxxxxxxxxxxxxxxxxxxxxxxxxxxxxxxxxxxxxxxxxxxxxxxxxxxxxxxxx\n"],
        "refused,2,4,BadName\n",
        "record 2: no name: \"xxxxxxxxxxxxxxxxxxxxxxxxxxxxxxxxxxxxxxxxxxxxxxxxxxxxxxxxxxxx..\"; \
            a name has 1 to 32 letters, digits or signs of _ . : -",
    ),
    (
        &[STOPS, "layer,L1,D\u{1b}[2J,2,1000,1,0\n"],
        "refused,11,4,BadName\n",
        "record 11: no name: \"D?[2J\"; a name has 1 to 32 letters, digits or signs of _ . : -",
    ),
    (
        &[STOPS, "stop,P\n"],
        "refused,11,5,NameTwice\n",
        "record 11: record 3 declares stop P already",
    ),
    (
        &[STOPS, LAYER, TRIPS, "trip,t2,P,9:00,Q,9:30,0,L1,L1\n"],
        "refused,14,5,NameTwice\n",
        "record 14: record 13 declares trip t2 already",
    ),
    (
        &[STOPS, LAYER, "trip,t1,P,8:00,Q,8:30,0,L1,L1\n"],
        "refused,12,5,NameTwice\n",
        "record 12: layer L1 stands twice in the trip",
    ),
    (
        &[STOPS, LAYER, TRIPS, "trip,t3,P,8:00,Centrall,8:30,0,L1\n"],
        "refused,14,6,UnknownName\n",
        "record 14: unknown stop Centrall",
    ),
    (
        &[STOPS, "layer,L1,Depot,2,1000,1,0\nstop,Depot\n"],
        "refused,11,6,UnknownName\n",
        "record 11: stop Depot is declared only behind, in record 12",
    ),
    (
        &[STOPS, LAYER, "trip,t1,P,8:00,Q,8:30,0,L1,L2\n"],
        "refused,12,6,UnknownName\n",
        "record 12: unknown layer L2",
    ),
    (
        &[STOPS, "layer,L1,D,2,12.5,1,0\n"],
        "refused,11,7,BadNumber\n",
        "record 11: no number: \"12.5\"; a number is 1 to 10 digits",
    ),
    (
        &[STOPS, LAYER, "trip,t1,P,8:00,Q,48:00,0,L1\n"],
        "refused,12,8,BadTime\n",
        "record 12: no time: \"48:00\"; a time is H:MM or HH:MM, 47:59 at most",
    ),
    (
        &["instance,1\nstop,A\n"],
        "refused,2,9,TooMany\n",
        "record 2: one stop too many: there may be 500",
    ),
    (
        &[STOPS, LAYER],
        "refused,11,9,TooMany\n",
        "record 11: one layer too many: there may be 16",
    ),
    (
        &[STOPS, LAYER, TRIPS],
        "refused,13,9,TooMany\n",
        "record 13: one trip too many: there may be 2000",
    ),
    (
        &[STOPS, "layer,L1,D,2001,1000,1,0\n"],
        "refused,11,10,Range,fleet\n",
        "record 11: fleet is 2001, and may be 0 to 2000",
    ),
    (
        &[STOPS, "layer,L1,D,2,1000,1,10001\n"],
        "refused,11,10,Range,per_metre\n",
        "record 11: per_metre is 10001, and may be 0 to 10000",
    ),
    (
        &[RESTING_STOPS, "layer,L1,D,2,1000,1,0,601\n"],
        "refused,11,10,Range,stay\n",
        "record 11: stay is 601, and may be 1 to 600",
    ),
    (
        &["instance,1\nstop,A\nstop,B\ndeadhead,A,B,0,5\n"],
        "refused,4,10,Range,minutes\n",
        "record 4: minutes is 0, and may be 1 to 1440",
    ),
    (
        &["instance,1\nstop,A\nstop,B\ndeadhead,A,B,1,1000001\n"],
        "refused,4,10,Range,metres\n",
        "record 4: metres is 1000001, and may be 0 to 1000000",
    ),
    (
        &[STOPS, LAYER, "trip,t1,P,8:00,Q,8:30,1000002,L1\n"],
        "refused,12,10,Range,metres\n",
        "record 12: metres is 1000002, and may be 0 to 1000000",
    ),
    (
        &["instance,1\nstop,A\ndeadhead,A,A,1,5\n"],
        "refused,3,10,SelfDeadhead\n",
        "record 3: a deadhead from A to itself",
    ),
    (
        &[STOPS, "deadhead,P,Q,15,0\n"],
        "refused,11,10,DeadheadTwice\n",
        "record 11: record 9 gives the deadhead from P to Q already",
    ),
    (
        &[STOPS, LAYER, "trip,t1,P,23:50,Q,0:20,0,L1\n"],
        "refused,12,10,EndNotAfterStart\n",
        "record 12: trip t1 starts at 23:50 and ends at 0:20; past midnight 24:00 follows",
    ),
    (
        &[OPEN],
        "refused,0,10,NotClosed,1,2,3\n",
        "P to R by way of Q is 12 minutes and 1500 metres, and no deadhead leads there straight",
    ),
    (
        &[SHORTER],
        "refused,0,10,LongerMinutes,1,2,3\n",
        "P to R by way of Q is shorter: 12 in place of 15 minutes",
    ),
    (
        &[SHORTER],
        "refused,0,10,LongerMetres,1,2,3\n",
        "P to R by way of Q is shorter: 1500 in place of 2000 metres",
    ),
    (
        &[STOPS, LAYER, TRIPS],
        "refused,0,40,TooLarge\n",
        "so many cases are too many: trips times layers times --nodes, or the cases of a trace's opening, is 3000000 \
            at most, and for resume, the document's cases among them, 6000000",
    ),
    (
        &[STOPS, LAYER, TRIPS],
        "refused,14,20,NoResult\n",
        "record 14: no document of a plan follows the timetable",
    ),
    (
        &[STOPS, LAYER, TRIPS, HEAD, BLOCK, TABLE, "leaf,1\nen\n"],
        "refused,24,21,BadRow\n",
        "record 24: no row of a document looks like this: en",
    ),
    (
        &[STOPS, LAYER, TRIPS, HEAD, "end\n"],
        "refused,18,22,OutOfOrder\n",
        "record 18: another row of the document has to come here than end",
    ),
    (
        &[STOPS, LAYER, TRIPS, HEAD, BLOCK, "table,2,cost\n"],
        "refused,19,23,TableNumber\n",
        "record 19: tables are numbered 1, 2, 3 in order, and this one has number 2",
    ),
    (
        &[STOPS, LAYER, TRIPS, HEAD, BLOCK, TABLE, "leaf,2\n"],
        "refused,23,23,TableNumber\n",
        "record 23: the leaf names table 2, and no such table stands above",
    ),
    (
        &[STOPS, LAYER, TRIPS, HEAD, BLOCK, TABLE, "leaf,1\n"],
        "refused,24,24,EndsEarly\n",
        "record 24: the document ends here, without its row end: was it cut off?",
    ),
    (
        &[
            STOPS,
            LAYER,
            TRIPS,
            HEAD,
            BLOCK,
            TABLE,
            END,
            "block,L1,t1\n",
        ],
        "refused,25,25,RowsAfterEnd\n",
        "record 25: behind the document's end stands block,L1,t1",
    ),
    (
        &[
            STOPS,
            LAYER,
            TRIPS,
            HEAD,
            BLOCK,
            "table,1,cost\nfleet,L1,1000000000000000001\n",
        ],
        "refused,20,26,PriceRange\n",
        "record 20: a price is greater than 1000000000000000000 or less than its negative: \
         fleet,L1,1000000000000000001",
    ),
    (
        &[STOPS, LAYER, TRIPS, HEAD, BLOCK],
        "no,1,NotPermitted,1,2\n",
        "block 1: layer L1 may not run trip t2",
    ),
    (
        &[STOPS, LAYER, TRIPS, HEAD, BLOCK],
        "no,1,NoConnection,1,2\n",
        "block 1: after trip t1 no vehicle is in time for trip t2, or no deadhead leads there",
    ),
    (
        &[STOPS, LAYER, TRIPS, HEAD, BLOCK],
        "no,1,Fleet,L1,3\n",
        "layer L1 has 3 blocks, and 2 vehicles",
    ),
    (
        &[STOPS, LAYER, TRIPS, HEAD, BLOCK, TABLE, END],
        "no,3,TableBroken,1,link,L1,t1,t2\n",
        "table 1: to go from trip t1 to trip t2 in layer L1 is worth more than it costs",
    ),
    (&[STOPS, LAYER, TRIPS], "yes,optimal,1080,1080\n", ""),
    (&[STOPS, LAYER, TRIPS], "", ""),
];

/// What is refused of timetables of version 3.
const LARGE: &[Told] = &[
    (
        &["instance,3\nstop,D\n", "layer,L1,D,10001,1000,1,0\n"],
        "refused,3,10,Range,fleet\n",
        "record 3: fleet is 10001, and may be 0 to 10000",
    ),
    (
        &["instance,3\nstop,D\n", "layer,L1,D,2,1000,1\n"],
        "refused,3,3,FieldCount\n",
        "record 3: a layer has 7 or 8 fields, and this one 6",
    ),
    (
        &[
            "instance,3\nstop,P\nstop,Q\n",
            "layer,L1,P,2,1000,1,0\n",
            "trip,t1,P,8:00,Q,8:30,0,L1\n",
        ],
        "refused,5,9,TooMany\n",
        "record 5: one trip too many: there may be 10000",
    ),
    (
        &[
            "instance,3\nstop,D\n",
            "layer,L1,D,2,1000000000,1000000,10000\n",
        ],
        "refused,3,10,TooDear\n",
        "record 3: layer L1 is too dear: trips times fixed + 2880 per_minute + 1000000 per_metre may be 40000000000000 \
            at most",
    ),
];

/// Rows that say no, whose words need no text.
const FLAWS: &[Told] = &[
    (
        &[],
        "no,1,Twice,t1\n",
        "trip t1 stands in the blocks more than once",
    ),
    (&[], "no,1,Uncovered,t2\n", "no block runs trip t2"),
    (&[], "no,1,NoPullIn,1\n", "block 1 can't be run"),
    (
        &[],
        "no,2,CostDiffers,1079,1080\n",
        "the blocks cost 1080, and the document says 1079",
    ),
    (
        &[],
        "no,3,TableBroken,2,fleet,L1\n",
        "table 2: a vehicle of layer L1 has a price below 0",
    ),
    (
        &[],
        "no,3,TableBroken,2,out,L1,t1\n",
        "table 2: to leave the depot for trip t1 in layer L1 is worth more than it costs",
    ),
    (
        &[],
        "no,3,TableBroken,2,in,L1,t1\n",
        "table 2: to go home from trip t1 in layer L1 is worth more than it costs",
    ),
    (
        &[],
        "no,4,BadSplit,1\n",
        "row 1 of the tree: the split names all layers that its trip may be run in there, or another",
    ),
    (
        &[],
        "no,5,LeafTooWeak,1,1080,1081\n",
        "row 1 of the tree: the leaf's table shows a cost of 1080 at least, and the bound is 1081",
    ),
    (
        &[],
        "no,5,LeafTooWeak,3,0,none\n",
        "row 3 of the tree: the leaf's table doesn't show that there is no plan",
    ),
    (
        &[],
        "no,6,ClaimDiffers,optimal,open\n",
        "the document claims optimal, and its cost and its bound together say open",
    ),
    // What no version of the program writes yet.
    (&[], "no,7,Other,1\n", "the document doesn't hold: Other"),
    (&[], "refused,14,27,Other\n", "record 14: Other: "),
    (&[], "words,1\n", ""),
];

/// The words for a row that was written for an input, and nothing where there are none.
fn told(alloc: Global, input: &[&str], row: &str) -> Result<String, Fail> {
    let input = joined(alloc, input)?;
    match refusal_text(alloc, &input, row.as_bytes())? {
        Some(words) => Ok(words),
        None => Ok(String::new(alloc)),
    }
}

/// Checks the words for all rows of a table.
pub fn are_told<R: Abort>(rt: &R, alloc: Global, rows: &[Told]) -> Result<(), Fail> {
    for &(input, row, words) in rows {
        let found = told(alloc, input, row)?;
        assert_eq!(rt; found.as_str(), words);
    }
    Ok(())
}

#[test]
fn tell_what_was_refused(rt: HostRuntime) -> Result<(), Fail> {
    are_told(&rt, rt.alloc(), TOLD)
}

#[test]
fn tell_what_was_refused_of_version_3(rt: HostRuntime) -> Result<(), Fail> {
    are_told(&rt, rt.alloc(), LARGE)
}

#[test]
fn tell_why_documents_do_not_hold(rt: HostRuntime) -> Result<(), Fail> {
    are_told(&rt, rt.alloc(), FLAWS)
}
