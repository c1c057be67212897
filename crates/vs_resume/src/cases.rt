//! The leaves of a tree of cases: the layers of each, its table, and what that is worth there.

ghost use Rattle.std.specs.Prelude.{◌≡◌, ◌<◌, ◌+◌, ◌^◌, ◌∷◌, [], ◌++◌, length, map, All, IfOk, OnOk};
ghost use Rattle.vs_prices.specs.Tree.{right_of, with_set};
ghost use Rattle.vs_instance.specs.Restriction.{IsRestriction};
ghost use Rattle.vs_prices.specs.Table.{Fits};
ghost use Rattle.vs_resume.specs.Cases.{AreCasesOfRows, AreGoodRows, AreSettled, CanGoOver, GoesOver, IsSettled, sets_ahead};

use std::alloc::Global;
use vs_document::Shape;
use vs_instance::Instance;
use vs_prices::{Bound, Table, worth};
use vs_types::{LayerSet, Memory, TripNo};

/// A leaf.
#[derive(Debug, Drop)]
pub(crate) struct Case {
    /// The layers in which each trip may be run there.
    pub sets: Vec<LayerSet>,
    /// The number of its table.
    pub table: u32,
    /// What the table is worth there.
    pub worth: Bound,
}

/// A place between two rows of a tree.
#[derive(Drop)]
struct Walk {
    /// The layers of each part of the tree that is still to come, the next one last.
    ahead: Vec<Vec<LayerSet>>,
    /// The leaves so far.
    cases: Vec<Case>,
}

/// The leaves of the tree of these rows, at whose root each trip may be run in the layers of its set.
pub(crate) fn cases_of(
    alloc: Global,
    instance: &Instance,
    sets: Vec<LayerSet>,
    rows: &[Shape],
    tables: &[Table],
) -> Result<Vec<Case>, Memory>
    requires tables { All (Fits instance.now) tables.now }
    requires sets { IsRestriction instance.now sets.items }
    requires rows { AreGoodRows sets.items (length tables.now) rows.now }
    ensures { IfOk result (λ cases.
        AreCasesOfRows instance.now tables.now sets.items rows.now cases.items) }
{
    let mut walk = begin(alloc, sets)?;
    for row in rows {
        let Some(here) = walk.ahead.pop() else {
            unreachable!();
        };
        go_over(alloc, instance, tables, *row, here, &mut walk)?;
    }
    Ok(walk.cases)
}

/// At the root of a tree with these layers.
fn begin(alloc: Global, sets: Vec<LayerSet>) -> Result<Walk, Memory>
    ensures ahead { IfOk result (λ walk. sets_ahead walk ≡ sets.items ∷ []) }
    ensures cases { IfOk result (λ walk. walk.cases.items ≡ []) }
{
    let mut ahead = Vec::new(alloc);
    ahead.push(sets)?;
    Ok(Walk {
        ahead,
        cases: Vec::new(alloc),
    })
}

/// Goes over a row of a tree, whose part has these layers: of a split both parts come next, and a leaf is a case.
fn go_over(
    alloc: Global,
    instance: &Instance,
    tables: &[Table],
    row: Shape,
    here: Vec<LayerSet>,
    walk: &mut Walk,
) -> Result<(), Memory>
    requires tables { All (Fits instance.now) tables.now }
    requires here { IsRestriction instance.now here.items }
    requires row { CanGoOver (length tables.now) here.items row }
    ensures { OnOk result (GoesOver instance.now tables.now row here.items walk.old walk.new) }
{
    match row {
        Shape::Split { trip, left } => part(alloc, trip, left, here, &mut walk.ahead),
        Shape::Leaf { table } => {
            let worth = worth(instance, &here, &tables[table as usize]);
            walk.cases.push(Case {
                sets: here,
                table,
                worth,
            })?;
            Ok(())
        }
    }
}

/// Both parts of a split with these layers come next, first the left one.
fn part(
    alloc: Global,
    trip: TripNo,
    left: LayerSet,
    mut here: Vec<LayerSet>,
    ahead: &mut Vec<Vec<LayerSet>>,
) -> Result<(), Memory>
    requires { trip.0 < length here.items }
    ensures { OnOk result (map (λ sets. sets.items) ahead.new.items
        ≡ map (λ sets. sets.items) ahead.old.items
        ++ with_set here.items trip (right_of here.items trip left) ∷ with_set here.items trip left ∷ []) }
{
    right_part(alloc, trip, left, &here, ahead)?;
    here[trip.0 as usize] = left;
    ahead.push(here)?;
    Ok(())
}

/// The right part of a split with these layers comes next.
fn right_part(
    alloc: Global,
    trip: TripNo,
    left: LayerSet,
    here: &[LayerSet],
    ahead: &mut Vec<Vec<LayerSet>>,
) -> Result<(), Memory>
    requires { trip.0 < length here.now }
    ensures { OnOk result (map (λ sets. sets.items) ahead.new.items
        ≡ map (λ sets. sets.items) ahead.old.items ++ with_set here.now trip (right_of here.now trip left) ∷ []) }
{
    let i = trip.0 as usize;
    let mut right = Vec::from_slice(alloc, here)?;
    right[i] = here[i].minus(left);
    ahead.push(right)?;
    Ok(())
}

/// Settles the tables of the leaves of a part, whose new tables have numbers from the given one on. A leaf keeps the
/// old table where that is worth more there.
pub(crate) fn settle(instance: &Instance, old: &Table, number: u32, base: u32, cases: &mut [Case])
    requires old { Fits instance.now old.now }
    requires sets { All (λ found. IsRestriction instance.now found.sets.items) cases.old }
    requires few { All (λ found. base + found.table < 2 ^ 32) cases.old }
    ensures { AreSettled instance.now old.now number base cases.old cases.new }
{
    for case in cases.iter_mut() {
        settle_case(instance, old, number, base, case);
    }
}

/// Settles the table of a leaf.
fn settle_case(instance: &Instance, old: &Table, number: u32, base: u32, case: &mut Case)
    requires old { Fits instance.now old.now }
    requires sets { IsRestriction instance.now case.old.sets.items }
    requires few { base + case.old.table < 2 ^ 32 }
    ensures { IsSettled instance.now old.now number base case.old case.new }
{
    let least = worth(instance, &case.sets, old);
    if case.worth.is_no_less(least) {
        case.table += base;
    } else {
        case.table = number;
        case.worth = least;
    }
}
