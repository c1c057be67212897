//! What a layer is offered for each trip, and the least circulation that it finds by that.
ghost use Rattle.std.specs.Prelude.{◌≡◌, ◌<◌, ℕ, IfOk, length};
ghost use Rattle.vs_types.specs.LayerSet.{Has};
ghost use Rattle.vs_types.specs.declared.numbers.TheConstants.{MAX_LAYERS};
ghost use Rattle.vs_instance.specs.Restriction.{IsRestriction};
ghost use Rattle.vs_match.specs.LawfulNets.{IsLawful};
ghost use Rattle.vs_circ.specs.Offers.{AreOffers};
ghost use Rattle.vs_prices.specs.Table.{Fits};
ghost use Rattle.vs_multi.specs.Multipliers.{AreMultipliers, IsMultiplier, greatest_paid};
ghost use Rattle.vs_multi.specs.Rounds.{IsCase};
ghost use Rattle.vs_multi.specs.Offers.{AreLeastElsewhere, AreOffersTo, IsLeastAt, IsLeastElsewhere, IsOfferFor};

use crate::round::Case;
use vs_circ::{Circ, Work, relaxed};
use vs_instance::{Instance, most_multiplier};
use vs_match::LayerNet;
use vs_prices::{Table, least_price};
use vs_types::{LayerNo, LayerSet, Memory, TripNo};

/// What a layer is offered a trip of this set for, which is its multiplier where the set has the layer.
fn offer_for(set: LayerSet, multiplier: i64, l: LayerNo) -> Option<i64>
    requires { l.0 < MAX_LAYERS }
    ensures { IsOfferFor set multiplier l.0 result }
{
    if set.has(l) { Some(multiplier) } else { None }
}

/// Offers layer l the trips whose sets have it, each for its multiplier.
pub fn offer(
    instance: &Instance,
    sets: &[LayerSet],
    multipliers: &[i64],
    l: LayerNo,
    offers: &mut [Option<i64>],
)
    requires layer { l.0 < length instance.now.layers }
    requires restriction { IsRestriction instance.now sets.now }
    requires multipliers { AreMultipliers instance.now multipliers.now }
    requires each_trip { length offers.old ≡ length instance.now.trips }
    ensures each { AreOffersTo instance.now sets.now multipliers.now l.0 offers.new }
    ensures lawful { AreOffers instance.now l.0 offers.new }
{
    prove!(l.0 < instance.layers());
    for i in 0..instance.trips() {
        let place = i as usize;
        offers[place] = offer_for(sets[place], multipliers[place], l);
    }
}

/// A least circulation of layer l's net, which is offered the trips whose sets have the layer, each for its multiplier.
pub(crate) fn circulation(
    case: &Case<'_>,
    net: &LayerNet,
    multipliers: &[i64],
    l: LayerNo,
    offers: &mut [Option<i64>],
    work: &mut Work,
) -> Result<Circ, Memory>
    requires case { IsCase case.now.instance.now case.now.nets.now case.now.sets.now }
    requires lawful { IsLawful case.now.instance.now l.0 net.now }
    requires multipliers { AreMultipliers case.now.instance.now multipliers.now }
    requires each_trip { length offers.old ≡ length case.now.instance.now.trips }
    ensures { IfOk result
        (IsLeastAt case.now.instance.now net.now case.now.sets.now multipliers.now l) }
{
    offer(case.instance, case.sets, multipliers, l, offers);
    relaxed(case.alloc, net, offers, work)
}

/// The least that a trip pays in the layers of its set but for layer l, within the limits of multipliers.
fn least_elsewhere(
    instance: &Instance,
    most: i64,
    set: LayerSet,
    table: &Table,
    l: LayerNo,
    i: TripNo,
) -> i64
    requires most { most ≡ greatest_paid instance.now }
    requires layer { l.0 < length instance.now.layers }
    requires trip { i.0 < length instance.now.trips }
    requires fits { Fits instance.now table.now }
    requires set { (k : ℕ) → Has set k → k < length instance.now.layers }
    ensures price { IsLeastElsewhere instance.now set table.now l.0 i.0 result }
    ensures within { IsMultiplier (length instance.now.trips) result }
{
    prove!(l.0 < instance.layers());
    let rest = set.without(l);
    if rest.count() == 0 {
        return most;
    }
    let price = least_price(instance, rest, table, i);
    price.max(0).min(most)
}

/// Makes each multiplier the least that its trip pays in the layers of its set but for layer l.
pub(crate) fn multiply_elsewhere(
    instance: &Instance,
    sets: &[LayerSet],
    table: &Table,
    l: LayerNo,
    multipliers: &mut [i64],
)
    requires layer { l.0 < length instance.now.layers }
    requires fits { Fits instance.now table.now }
    requires restriction { IsRestriction instance.now sets.now }
    requires each_trip { length multipliers.old ≡ length instance.now.trips }
    ensures prices { AreLeastElsewhere instance.now sets.now table.now l.0 multipliers.new }
    ensures within { AreMultipliers instance.now multipliers.new }
{
    let most = most_multiplier(instance.trips());
    for i in 0..instance.trips() {
        let set = sets[i as usize];
        multipliers[i as usize] = least_elsewhere(instance, most, set, table, l, TripNo(i));
    }
}
