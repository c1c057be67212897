//! Tables of a part, widened to the whole instance.

ghost use Rattle.std.specs.Prelude.{◌≡◌, ◌*◌, ◌<◌, ◌↔◌, All, IsTrue, length};
ghost use Rattle.vs_instance.specs.Restriction.{IsRestriction};
ghost use Rattle.vs_prices.specs.Table.{Fits, IsPrice};
ghost use Rattle.vs_resume.specs.Widened.{ArePricesWidened, IsLayerWidened, IsLeftOut, IsSettled, IsWidened};

use vs_instance::{Instance, MAX_PRICE};
use vs_prices::Table;
use vs_types::{LayerNo, LayerSet, TripNo};

/// Widens a table of the part that these sets leave to the whole instance. It acts where a layer may run a trip in the
/// instance and may not in the part. There the price for entering the trip becomes the least that there is, and the one
/// for leaving it the greatest. All others stay. Takes no memory.
pub fn widen(instance: &Instance, sets: &[LayerSet], table: &mut Table)
    requires fits { Fits instance.now table.old }
    requires sets { IsRestriction instance.now sets.now }
    ensures widened { IsWidened instance.now sets.now table.old table.new }
    ensures fits { Fits instance.now table.new }
{
    widen_prices(instance, sets, &mut table.into, -MAX_PRICE);
    widen_prices(instance, sets, &mut table.from, MAX_PRICE);
}

/// Makes this the price of each trip that is left out, in every layer. All others stay.
fn widen_prices(instance: &Instance, sets: &[LayerSet], prices: &mut [i64], price: i64)
    requires sets { length sets.now ≡ length instance.now.trips }
    requires size { length prices.old ≡ length instance.now.layers * length instance.now.trips }
    requires price { IsPrice price }
    requires prices { All IsPrice prices.old }
    ensures widened { ArePricesWidened instance.now sets.now price prices.old prices.new }
    ensures prices { All IsPrice prices.new }
{
    for l in 0..instance.layers() {
        widen_layer(instance, sets, LayerNo(l), prices, price);
    }
}

/// Makes this the price of each trip that is left out in layer l. All others stay.
fn widen_layer(instance: &Instance, sets: &[LayerSet], l: LayerNo, prices: &mut [i64], price: i64)
    requires sets { length sets.now ≡ length instance.now.trips }
    requires layer { l.0 < length instance.now.layers }
    requires size { length prices.old ≡ length instance.now.layers * length instance.now.trips }
    requires price { IsPrice price }
    requires prices { All IsPrice prices.old }
    ensures widened { IsLayerWidened instance.now sets.now l.0 price prices.old prices.new }
    ensures prices { All IsPrice prices.new }
{
    let trips = instance.trips() as usize;
    for i in 0..trips {
        let place = l.0 as usize * trips + i;
        prices[place] = settled(instance, sets, l, TripNo(i as u32), price, prices[place]);
    }
}

/// This price for a trip that is left out, and the one that it has for any other.
fn settled(
    instance: &Instance,
    sets: &[LayerSet],
    l: LayerNo,
    i: TripNo,
    price: i64,
    own: i64,
) -> i64
    requires sets { length sets.now ≡ length instance.now.trips }
    requires layer { l.0 < length instance.now.layers }
    requires trip { i.0 < length instance.now.trips }
    requires price { IsPrice price }
    requires own { IsPrice own }
    ensures settled { IsSettled instance.now sets.now l.0 i.0 price own result }
    ensures price { IsPrice result }
{
    if is_left_out(instance, sets, l, i) {
        price
    } else {
        own
    }
}

/// Whether a layer may run a trip in the instance and may not in the part.
fn is_left_out(instance: &Instance, sets: &[LayerSet], l: LayerNo, i: TripNo) -> bool
    requires sets { length sets.now ≡ length instance.now.trips }
    requires layer { l.0 < length instance.now.layers }
    requires trip { i.0 < length instance.now.trips }
    ensures { IsTrue result ↔ IsLeftOut instance.now sets.now l.0 i.0 }
{
    // for the proof: layers of an instance are within its limits
    prove!(l.0 < instance.layers());
    instance.trip(i).layers.has(l) && !sets[i.0 as usize].has(l)
}
