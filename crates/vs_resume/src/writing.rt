//! The document of what is known once all turns are over.

ghost use Rattle.std.specs.Prelude.{◌<◌, ◌^◌, length, map, All, IfOk};
ghost use Rattle.vs_resume.specs.Writing.{AreFirstNamed, AreTaken, IsOnce, IsPrintedOf};

use crate::cases::Case;
use crate::course::Course;
use crate::order::bound_with;
use crate::rows::number_leaves;
use std::alloc::Global;
use std::mem;
use vs_cert::Numbering;
use vs_document::Document;
use vs_prices::{Table, claim_found};
use vs_types::Memory;

/// The places at which the tables of the leaves are written, leaf by leaf. Also the numbers of the tables, in the order
/// in which they are written.
#[derive(Drop)]
struct Named {
    places: Vec<u32>,
    numbers: Vec<u32>,
}

/// The document of a course that so many nodes led to. It has only the tables that leaves name, in the order in which
/// they first name them.
pub(crate) fn document_of(alloc: Global, course: Course, nodes: u32) -> Result<Document, Memory>
    requires few { length course.tables.items < 2 ^ 32 }
    requires named { All (λ found. found.table < length course.tables.items) course.cases.items }
    ensures { IfOk result (IsPrintedOf course nodes) }
{
    let Course {
        cost,
        plan,
        mut tables,
        mut rows,
        cases,
    } = course;
    let leaves: &[Case] = &cases;
    let bound = bound_with(leaves, cost);
    let named = named_by(alloc, leaves, tables.len() as u32)?;
    let places: &[u32] = &named.places;
    number_leaves(&mut rows, places);
    let all: &mut [Table] = &mut tables;
    let numbers: &[u32] = &named.numbers;
    let tables = taken(alloc, all, numbers)?;
    Ok(Document {
        claim: claim_found(cost, bound),
        cost,
        bound,
        nodes: u64::from(nodes),
        plan,
        tables,
        shape: rows,
    })
}

/// The tables that leaves name, of which there are so many at most, in the order in which they first do.
fn named_by(alloc: Global, cases: &[Case], tables: u32) -> Result<Named, Memory>
    requires { All (λ found. found.table < tables) cases.now }
    ensures { IfOk result (λ named. AreFirstNamed (map (λ found. found.table) cases.now) named) }
{
    let mut numbering = Numbering::new(alloc, tables)?;
    let mut places = Vec::with_capacity(alloc, cases.len())?;
    for case in cases {
        let place = numbering.place(case.table)?;
        places.push(place)?;
    }
    Ok(Named {
        places,
        numbers: numbering.into_numbers(),
    })
}

/// The tables of these numbers, which are taken out of all.
fn taken(alloc: Global, tables: &mut [Table], numbers: &[u32]) -> Result<Vec<Table>, Memory>
    requires inside { All (λ n. n < length tables.old) numbers.now }
    requires once { IsOnce numbers.now }
    ensures { IfOk result (λ some. AreTaken tables.old numbers.now some.items) }
{
    let mut some = Vec::with_capacity(alloc, numbers.len())?;
    for number in numbers {
        some.push(mem::replace(&mut tables[*number as usize], hollow(alloc)))?;
    }
    Ok(some)
}

/// A table without prices.
fn hollow(alloc: Global) -> Table {
    Table {
        into: Vec::new(alloc),
        from: Vec::new(alloc),
        fleet: Vec::new(alloc),
        ray: false,
    }
}
