//! The better of a leaf's own table and a found one.
ghost use Rattle.std.specs.Prelude.{IfOk};
ghost use Rattle.vs_prices.specs.Bounds.{IsWorthNoLess};
ghost use Rattle.vs_prices.specs.Table.{Fits, HoldingTable};
ghost use Rattle.vs_prices.specs.Worth.{IsWorth};
ghost use Rattle.vs_multi.specs.Rounds.{IsCase};
ghost use Rattle.vs_node.specs.SameTables.{AreSame};

use std::alloc::Global;
use vs_multi::Case;
use vs_prices::{Bound, Table, worth};
use vs_types::Memory;

/// The better of a leaf's own table and a found one, which is worth so much, with its worth. The found one where both
/// are worth as much.
pub(crate) fn better(
    case: &Case<'_>,
    own: &Table,
    found: Table,
    found_worth: Bound,
) -> Result<(Table, Bound), Memory>
    requires case { IsCase case.now.instance.now case.now.nets.now case.now.sets.now }
    requires own_fits { Fits case.now.instance.now own.now }
    requires own_holds { HoldingTable case.now.instance.now own.now }
    requires found_fits { Fits case.now.instance.now found }
    requires found_holds { HoldingTable case.now.instance.now found }
    requires found_worth { IsWorth case.now.instance.now case.now.sets.now found found_worth }
    ensures fits { IfOk result (λ kept. Fits case.now.instance.now kept.0) }
    ensures holds { IfOk result (λ kept. HoldingTable case.now.instance.now kept.0) }
    ensures worth { IfOk result (λ kept. IsWorth case.now.instance.now case.now.sets.now kept.0 kept.1) }
    ensures no_less { IfOk result (λ kept.
        IsWorthNoLess case.now.instance.now case.now.sets.now kept.0 own.now) }
    ensures no_less_found { IfOk result (λ kept.
        IsWorthNoLess case.now.instance.now case.now.sets.now kept.0 found) }
{
    let own_worth = worth(case.instance, case.sets, own);
    if found_worth.is_no_less(own_worth) {
        return Ok((found, found_worth));
    }
    let copy = copy_of(case.alloc, own)?;
    Ok((copy, own_worth))
}

/// A table with the same prices.
fn copy_of(alloc: Global, table: &Table) -> Result<Table, Memory>
    ensures { IfOk result (AreSame table.now) }
{
    Ok(Table {
        into: Vec::from_slice(alloc, &table.into)?,
        from: Vec::from_slice(alloc, &table.from)?,
        fleet: Vec::from_slice(alloc, &table.fleet)?,
        ray: table.ray,
    })
}
