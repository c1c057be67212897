//! The prices of one layer exchanged with those that a table has for it.
ghost use Rattle.std.specs.Prelude.{◌≡◌, ◌+◌, ◌*◌, ◌<◌, ◌≤◌, false, length};
ghost use Rattle.vs_circ.specs.LayerPrices.{AreHolding};
ghost use Rattle.vs_prices.specs.Table.{Fits, HoldingTable};
ghost use Rattle.vs_multi.specs.Exchanges.{AgreeBut, HasPrices, IsWithPrices, row_of, with_row};

use std::mem::swap;
use vs_circ::LayerPrices;
use vs_instance::Instance;
use vs_prices::Table;
use vs_types::LayerNo;

/// Exchanges numbers with those of a row; all rows have as many.
fn exchange_row(row: usize, numbers: &mut [i64], given: &mut [i64])
    requires { row * length given.old + length given.old ≤ length numbers.old }
    ensures numbers { numbers.new ≡ with_row row given.old numbers.old }
    ensures given { given.new ≡ row_of (length given.old) row numbers.old }
{
    let start = row * given.len();
    let end = start + given.len();
    numbers[start..end].swap_with_slice(given);
}

/// Exchanges prices with those that stand in a table in the place of layer l.
fn trade(instance: &Instance, table: &mut Table, l: LayerNo, prices: &mut LayerPrices)
    requires layer { l.0 < length instance.now.layers }
    requires fits { Fits instance.now table.old }
    requires prices { AreHolding instance.now l.0 false prices.old }
    ensures exchanged { IsWithPrices l.0 prices.old table.old table.new }
    ensures before { HasPrices instance.now table.old l.0 prices.new }
    ensures after { HasPrices instance.now table.new l.0 prices.old }
{
    let row = l.0 as usize;
    exchange_row(row, &mut table.into, &mut prices.into);
    exchange_row(row, &mut table.from, &mut prices.from);
    swap(&mut table.fleet[row], &mut prices.fleet);
}

/// Exchanges prices that hold with those that a table has in layer l.
pub(crate) fn exchange(instance: &Instance, table: &mut Table, l: LayerNo, prices: &mut LayerPrices)
    requires layer { l.0 < length instance.now.layers }
    requires fits { Fits instance.now table.old }
    requires costs { table.old.ray ≡ false }
    requires holds { HoldingTable instance.now table.old }
    requires prices { AreHolding instance.now l.0 false prices.old }
    ensures exchanged { IsWithPrices l.0 prices.old table.old table.new }
    ensures before { HasPrices instance.now table.old l.0 prices.new }
    ensures after { HasPrices instance.now table.new l.0 prices.old }
    ensures others { AgreeBut instance.now l.0 table.old table.new }
    ensures fits { Fits instance.now table.new }
    ensures holds { HoldingTable instance.now table.new }
    ensures prices { AreHolding instance.now l.0 false prices.new }
{
    trade(instance, table, l, prices);
}
