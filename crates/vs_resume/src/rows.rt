//! The rows of a tree of cases: where its leaves stand, and others in the place of one.

ghost use Rattle.std.specs.Prelude.{◌≡◌, ◌<◌, length, OnOk};
ghost use Rattle.vs_resume.specs.InPlace.{in_place, row_of_leaf};
ghost use Rattle.vs_resume.specs.Outlines.{with_numbers};

use vs_document::Shape;
use vs_types::Memory;

/// The place of leaf k among the rows, counted from 0, or how many rows there are where it isn't among them.
fn row_of_leaf(rows: &[Shape], k: usize) -> usize
    ensures { result ≡ row_of_leaf rows.now k }
{
    let mut left = k;
    for (at, row) in rows.iter().enumerate() {
        if let Shape::Leaf { .. } = *row {
            if left == 0 {
                return at;
            }
            left -= 1;
        }
    }
    rows.len()
}

/// Puts others in the place of the row of leaf k.
pub(crate) fn put_rows(rows: &mut Vec<Shape>, k: usize, others: Vec<Shape>) -> Result<(), Memory>
    requires { row_of_leaf rows.old.items k < length rows.old.items }
    ensures { OnOk result (rows.new.items
        ≡ in_place rows.old.items (row_of_leaf rows.old.items k) others.items) }
{
    let at = row_of_leaf(rows, k);
    put_in_place(rows, at, others)
}

/// Puts others in the place of item k.
pub(crate) fn put_in_place<T: Drop>(
    items: &mut Vec<T>,
    k: usize,
    mut others: Vec<T>,
) -> Result<(), Memory>
    requires { k < length items.old.items }
    ensures { OnOk result (items.new.items ≡ in_place items.old.items k others.items) }
{
    let mut behind = items.split_off(k + 1)?;
    items.truncate(k);
    items.append(&mut others)?;
    items.append(&mut behind)?;
    Ok(())
}

/// Gives the leaves the tables of these numbers, one after the other.
pub(crate) fn number_leaves(rows: &mut [Shape], numbers: &[u32])
    ensures { rows.new ≡ with_numbers rows.old numbers.now }
{
    let mut k = 0;
    for row in rows.iter_mut() {
        if let Shape::Leaf { .. } = *row {
            if k < numbers.len() {
                *row = Shape::Leaf { table: numbers[k] };
                k += 1;
            }
        }
    }
}
