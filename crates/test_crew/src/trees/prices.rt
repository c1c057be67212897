//! Tables of costs for an instance of two prices of each kind.

ghost use Rattle.std.specs.Prelude.{◌≡◌, length, All, IfOk};
ghost use Rattle.vs_prices.specs.Table.{Fits, IsPrice};

use std::alloc::Global;
use std::test::Fail;
use vs_instance::Instance;
use vs_prices::{MAX_PRICE, Table};

/// Numbers as prices.
fn prices(alloc: Global, numbers: &[i64]) -> Result<Vec<i64>, Fail>
    ensures prices { IfOk result (λ v. All IsPrice v.items) }
    ensures size { IfOk result (λ v. length v.items ≡ length numbers.now) }
{
    let mut prices = Vec::new(alloc);
    for n in numbers {
        if *n < -MAX_PRICE || *n > MAX_PRICE {
            return Err(Fail::new("no price"));
        }
        prices.push(*n)?;
    }
    Ok(prices)
}

/// A table of these prices for one trip that either of two layers may run, where a vehicle pays nothing.
pub fn table(
    alloc: Global,
    instance: &Instance,
    into: [i64; 2],
    from: [i64; 2],
) -> Result<Table, Fail>
    requires { (length instance.now.layers ≡ 2) × (length instance.now.trips ≡ 1) }
    ensures { IfOk result (Fits instance.now) }
{
    Ok(Table {
        into: prices(alloc, &into)?,
        from: prices(alloc, &from)?,
        fleet: prices(alloc, &[0, 0])?,
        ray: false,
    })
}
