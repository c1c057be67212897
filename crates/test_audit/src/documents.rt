//! Documents as they are read, the rows at which they are refused, and rows as they are written.

use std::alloc::Global;
use std::test::Fail;
use test_fixtures::texts::{LAYER, STOPS, TRIPS};
use test_fixtures::{document_of, input_of, joined, text_with};
use vs_document::{DocError, DocWhy, Document, Shape, Text, read};
use vs_prices::{Claim, Table};
use vs_types::{LayerSet, TripNo};

/// An instance of 13 records.
const INSTANCE: [&str; 3] = [STOPS, LAYER, TRIPS];

/// The rows of a document behind it, of which the first is record 14.
const ROWS: [&str; 11] = [
    "result,1,optimal\n",
    "cost,1080\n",
    "bound,1080\n",
    "nodes,1\n",
    "block,L1,t1,t2\n",
    "table,1,cost\n",
    "fleet,L1,0\n",
    "price,L1,t1,1010000,0\n",
    "price,L1,t2,0,-10000\n",
    "leaf,1\n",
    "end\n",
];

/// The document of the instance and those rows, with other rows in the place of one.
fn document_with(alloc: Global, place: usize, rows: &str) -> Result<Document, Fail> {
    let text = text_with(alloc, &INSTANCE, &ROWS, place, rows)?;
    let input = input_of(alloc, &text)?;
    document_of(alloc, &input)
}

/// Why there is no document behind an instance.
fn error_of(alloc: Global, text: &[u8]) -> Result<Option<DocError>, Fail> {
    let input = input_of(alloc, text)?;
    Ok(read(alloc, &input).err())
}

/// Whether a document's head is as those rows say, with one block, one table and one leaf.
fn has_head(document: &Document) -> bool {
    document.claim == Claim::Optimal
        && document.cost == Some(1080)
        && document.bound == Some(1080)
        && document.nodes == 1
        && document.plan.blocks.len() == 1
        && document.shape.as_slice() == [Shape::Leaf { table: 0 }].as_slice()
}

/// Whether a table is as those rows say.
fn is_table(table: &Table) -> bool {
    table.into.as_slice() == [1_010_000, 0].as_slice()
        && table.from.as_slice() == [0, -10_000].as_slice()
        && table.fleet.as_slice() == [0].as_slice()
}

/// Whether a document says what those rows say, and how many tables it has that do.
fn said(alloc: Global) -> Result<(bool, usize), Fail> {
    let document = document_with(alloc, ROWS.len(), "")?;
    let tables = document.tables.as_slice();
    let [table] = tables else {
        return Ok((false, tables.len()));
    };
    Ok((has_head(&document) && is_table(table), 1))
}

#[test]
fn say_what_their_rows_say(rt: HostRuntime) -> Result<(), Fail> {
    assert_eq!(rt; said(rt.alloc())?, (true, 1));
    Ok(())
}

/// The place of a row, the rows that stand there instead, the record that is refused, and why.
const REFUSED: [(usize, &str, u64, DocWhy); 26] = [
    (0, "result,1,best\n", 14, DocWhy::BadRow),
    (0, "result,1,open\nresult,1,open\n", 15, DocWhy::OutOfOrder),
    (1, "cost,007\n", 15, DocWhy::BadRow),
    (1, "cost,-1\n", 15, DocWhy::BadRow),
    (2, "bound,none\n", 16, DocWhy::BadRow),
    (2, "bound,100000000000000000001\n", 16, DocWhy::BadRow),
    (3, "nodes,18446744073709551616\n", 17, DocWhy::BadRow),
    (
        3,
        "nodes,340282366920938463463374607431768211456\n",
        17,
        DocWhy::BadRow,
    ),
    (4, "block,L1\n", 18, DocWhy::BadRow),
    (4, "block,L1,t3\n", 18, DocWhy::BadRow),
    (4, "bound,none\n", 18, DocWhy::OutOfOrder),
    (5, "table,2,cost\n", 19, DocWhy::TableNumber),
    (5, "table,-1,cost\n", 19, DocWhy::BadRow),
    (6, "fleet,L1,1000000000000000001\n", 20, DocWhy::PriceRange),
    (6, "fleet,L1,10000000000000000000\n", 20, DocWhy::BadRow),
    (
        7,
        "price,L1,t1,1000000000000000001,0\n",
        21,
        DocWhy::PriceRange,
    ),
    (
        7,
        "price,L1,t1,1000000000000000001,-0\n",
        21,
        DocWhy::BadRow,
    ),
    (7, "price,L1,t2,0,-10000\n", 21, DocWhy::OutOfOrder),
    (9, "leaf,0\n", 23, DocWhy::TableNumber),
    (9, "leaf,2\n", 23, DocWhy::TableNumber),
    (9, "split,t1,L1,L1\n", 23, DocWhy::BadRow),
    (9, "split,t1\n", 23, DocWhy::BadRow),
    (9, "split,t1,L1\nleaf,1\n", 25, DocWhy::OutOfOrder),
    (9, "leaf,1\nleaf,1\n", 24, DocWhy::OutOfOrder),
    (10, "", 24, DocWhy::EndsEarly),
    (10, "end\nend\n", 25, DocWhy::RowsAfterEnd),
];

#[test]
fn are_refused_at_their_first_bad_row(rt: HostRuntime) -> Result<(), Fail> {
    for (place, rows, row, why) in REFUSED {
        let text = text_with(rt.alloc(), &INSTANCE, &ROWS, place, rows)?;
        let error = error_of(rt.alloc(), &text)?;
        assert_eq!(rt; error, Some(DocError::Refused { row, why }), "{rows}");
    }
    let none = DocError::Refused {
        row: 14,
        why: DocWhy::NoResult,
    };
    let alone = joined(rt.alloc(), &INSTANCE)?;
    assert_eq!(rt; error_of(rt.alloc(), &alone)?, Some(none));
    Ok(())
}

/// The place of a row, and rows that may stand there as well.
const ACCEPTED: [(usize, &str); 4] = [
    (0, "\"result\",1,\"optimal\"\r\n"),
    (6, "fleet,L1,1000000000000000000\n"),
    (
        9,
        "table,2,ray\nfleet,L1,0\nprice,L1,t1,0,0\nprice,L1,t2,0,0\nleaf,1\n",
    ),
    (9, "split,t2,L1\nleaf,1\nleaf,1\n"),
];

#[test]
fn are_accepted_in_other_forms(rt: HostRuntime) -> Result<(), Fail> {
    for (place, rows) in ACCEPTED {
        let document = document_with(rt.alloc(), place, rows)?;
        assert_eq!(rt; document.claim, Claim::Optimal, "{rows}");
    }
    Ok(())
}

/// A hundred thousand splits, each the right part of the one before.
fn deep_rows(alloc: Global) -> Result<String, Fail> {
    let mut rows = String::new(alloc);
    for _split in 0..100_000 {
        rows.push_str("split,t1,L1\nleaf,1\n")?;
    }
    rows.push_str("leaf,1\n")?;
    Ok(rows)
}

#[test]
fn have_trees_as_deep_as_they_say(rt: HostRuntime) -> Result<(), Fail> {
    let rows = deep_rows(rt.alloc())?;
    let document = document_with(rt.alloc(), 9, rows.as_str())?;
    let split = Shape::Split {
        trip: TripNo(0),
        left: LayerSet(1),
    };
    assert_eq!(rt; document.shape.len(), 200_001);
    assert_eq!(rt; document.shape.first(), Some(&split));
    Ok(())
}

#[test]
fn are_written_row_by_row(rt: HostRuntime) -> Result<(), Fail> {
    let mut text = Text::new(rt.alloc());
    text.begin_row("cost")?;
    text.number(-7i64)?;
    text.end_row()?;
    text.begin_row("end")?;
    text.field("x")?;
    text.end_row()?;
    let wanted = b"cost,-7\nend,x\n";
    assert_eq!(rt; text.into_bytes().as_slice(), wanted.as_slice());
    Ok(())
}
