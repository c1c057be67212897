//! What layers are offered for trips while they come to agree, and a pass by that.
ghost use Rattle.std.specs.Prelude.{◌≡◌, ◌<◌, ◌≤ℤ◌, false, pos, IfOk, IfSome, MatchOption, length};
ghost use Rattle.vs_types.specs.LayerSet.{Has};
ghost use Rattle.vs_instance.specs.Dearest.{most_multiplier};
ghost use Rattle.vs_instance.specs.Restriction.{IsRestriction};
ghost use Rattle.vs_circ.specs.Offers.{AreOffers};
ghost use Rattle.vs_circ.specs.shipping.Ready.{IsReadyToRun};
ghost use Rattle.vs_multi.specs.Rounds.{IsCase};
ghost use Rattle.vs_multi.specs.Multipliers.{AreMultipliers, AreWithin, IsMultiplier};
ghost use Rattle.vs_walk.specs.Moves.{AreMoved};
ghost use Rattle.vs_walk.specs.Noted.{AreNoted, IsNoted};
ghost use Rattle.vs_walk.specs.Penalties.{AreBids, ArePenalties, ArePenaltiesOf, IsBid, IsBidBeside};
ghost use Rattle.vs_types.specs.declared.numbers.TheConstants.{MAX_LAYERS};
ghost use Rattle.vs_instance.specs.declared.limits.TheConstants.{MAX_MULTIPLIER};

use crate::rate::Rate;
use vs_circ::{Work, runs};
use vs_instance::{Instance, most_multiplier};
use vs_multi::{Case, LONG, Watch, moved};
use vs_types::{LayerNo, LayerSet, MAX_LAYERS, Memory};

/// What the layers are offered for each trip while they come to agree on which of them runs which. They do so by the
/// method of multipliers (Hestenes 1969, Powell 1969), one layer after the other.
#[derive(Drop)]
pub struct Penalties {
    /// By trip, in 1/1000 of a cost unit.
    pub multipliers: Vec<i64>,
    /// By trip: the layers that run it now.
    pub runs: Vec<LayerSet>,
    pub rate: Rate,
    /// The layer that runs first in a pass.
    first: u32,
    /// What the layer that comes next is offered for each trip.
    offers: Vec<Option<i64>>,
    /// Which trips it runs.
    marks: Vec<bool>,
}

impl Penalties {
    /// These multipliers, before any layer runs a trip.
    pub fn new(case: &Case<'_>, multipliers: &[i64], rate: Rate) -> Result<Penalties, Memory>
        requires { AreMultipliers case.now.instance.now multipliers.now }
        ensures { IfOk result (ArePenalties case.now.instance.now) }
    {
        let trips = case.instance.trips() as usize;
        Ok(Penalties {
            multipliers: Vec::from_slice(case.alloc, multipliers)?,
            runs: vec![in case.alloc; LayerSet(0); trips]?,
            rate,
            first: 0,
            offers: vec![in case.alloc; None; trips]?,
            marks: vec![in case.alloc; false; trips]?,
        })
    }

    /// Begins again with these multipliers, before any layer runs a trip.
    pub fn begin(&mut self, multipliers: &[i64])
        requires old { ArePenaltiesOf (length multipliers.now) self.old }
        requires within { AreWithin multipliers.now }
        ensures multipliers { self.new.multipliers.items ≡ multipliers.now }
        ensures now { self.new.rate.now ≡ self.old.rate.least }
        ensures most { self.new.rate.most ≡ self.old.rate.most }
        ensures penalties { ArePenaltiesOf (length multipliers.now) self.new }
    {
        self.multipliers.copy_from_slice(multipliers);
        empty(&mut self.runs);
        self.rate.begin();
    }

    /// Begins with these multipliers where these layers run each trip.
    pub fn begin_from(&mut self, multipliers: &[i64], runs: &[LayerSet])
        requires old { ArePenaltiesOf (length multipliers.now) self.old }
        requires within { AreWithin multipliers.now }
        requires runs { length runs.now ≡ length multipliers.now }
        ensures multipliers { self.new.multipliers.items ≡ multipliers.now }
        ensures runs { self.new.runs.items ≡ runs.now }
        ensures rate { self.new.rate ≡ self.old.rate }
        ensures penalties { ArePenaltiesOf (length multipliers.now) self.new }
    {
        self.multipliers.copy_from_slice(multipliers);
        self.runs.copy_from_slice(runs);
    }

    /// Lets the layer run first that such a count of layers comes to. The count begins anew behind the last layer.
    pub fn set_first(&mut self, count: u32)
        ensures multipliers { self.new.multipliers ≡ self.old.multipliers }
        ensures runs { self.new.runs ≡ self.old.runs }
        ensures offers { self.new.offers ≡ self.old.offers }
        ensures marks { self.new.marks ≡ self.old.marks }
        ensures rate { self.new.rate ≡ self.old.rate }
        ensures first { self.new.first ≡ count }
    {
        self.first = count;
    }

    /// Each of these layers in turn runs the trips that are worth it at what they are offered for; the next one sees
    /// which. False where the pass takes long, and the watch ends it: the multipliers stay then.
    pub fn pass<W: Watch>(
        &mut self,
        case: &Case<'_>,
        layers: LayerSet,
        work: &mut Work,
        watch: &W,
    ) -> bool
        requires case { IsCase case.now.instance.now case.now.nets.now case.now.sets.now }
        requires penalties { ArePenalties case.now.instance.now self.old }
        requires ready { IsReadyToRun case.now.nets.now work.old }
        ensures ended { result ≡ false → W.may_end watch.now }
        ensures penalties { ArePenalties case.now.instance.now self.new }
        ensures ready { IsReadyToRun case.now.nets.now work.new }
    {
        let before = work.effort();
        let count = case.instance.layers();
        prove!(count <= MAX_LAYERS);
        for k in 0..count {
            let is_long = work.effort().saturating_sub(before) > LONG;
            if is_long && watch.is_over() {
                return false;
            }
            let l = self.layer_at(k, count);
            if layers.has(l) {
                self.run(case, l, work);
            }
        }
        let trips = case.instance.trips();
        move_all(trips, &mut self.multipliers, &self.runs, self.rate.now);
        true
    }

    /// The layer that runs in place k of a pass, counted from 0, where there are so many.
    fn layer_at(&self, k: u32, layers: u32) -> LayerNo
        requires { k < layers }
        ensures { result.0 < layers }
    {
        LayerNo(self.first.saturating_add(k) % layers)
    }

    /// A layer runs the trips that are worth it.
    fn run(&mut self, case: &Case<'_>, l: LayerNo, work: &mut Work)
        requires case { IsCase case.now.instance.now case.now.nets.now case.now.sets.now }
        requires layer { l.0 < length case.now.instance.now.layers }
        requires penalties { ArePenalties case.now.instance.now self.old }
        requires ready { IsReadyToRun case.now.nets.now work.old }
        ensures penalties { ArePenalties case.now.instance.now self.new }
        ensures ready { IsReadyToRun case.now.nets.now work.new }
    {
        let offers: &mut [Option<i64>] = &mut self.offers;
        let rate = self.rate.now;
        offer_all(case, l, &self.multipliers, &self.runs, rate, offers);
        let _ = runs(case.nets, l, offers, work, &mut self.marks);
        note(case.instance, l, &self.marks, &mut self.runs);
    }

    /// What a layer costs that runs just those trips that are given to it, in 1/1000 of a cost unit. None where it
    /// can't. What runs the trips now stays.
    pub fn cost_of(
        &mut self,
        case: &Case<'_>,
        l: LayerNo,
        given: &[LayerSet],
        work: &mut Work,
    ) -> Option<i64>
        requires case { IsCase case.now.instance.now case.now.nets.now case.now.sets.now }
        requires layer { l.0 < length case.now.instance.now.layers }
        requires given { length given.now ≡ length case.now.instance.now.trips }
        requires penalties { ArePenalties case.now.instance.now self.old }
        requires ready { IsReadyToRun case.now.nets.now work.old }
        ensures penalties { ArePenalties case.now.instance.now self.new }
        ensures ready { IsReadyToRun case.now.nets.now work.new }
    {
        prove!(l.0 < case.instance.layers());
        let high = high_for(case.instance.trips(), self.rate.most);
        let offers: &mut [Option<i64>] = &mut self.offers;
        offer_given(case, l, given, high, offers);
        let cost = runs(case.nets, l, offers, work, &mut self.marks);
        if are_run(l, given, &self.marks) {
            i64::try_from(cost).ok()
        } else {
            None
        }
    }
}

/// So many times the greatest rate a layer is offered for a trip that it is to run whatever it costs.
const HIGH: u64 = 100;

/// What a layer is offered for a trip of so many that it is to run whatever it costs.
pub(crate) fn high_for(trips: u32, most: u64) -> i64
    requires { pos most ≤ℤ MAX_MULTIPLIER }
    ensures { IsMultiplier trips result }
{
    let high = (most * HIGH) as i64;
    high.min(most_multiplier(trips))
}

/// What a layer is offered for a trip that may be run in this set and is given to that one.
fn given_offer(permitted: LayerSet, l: LayerNo, given: LayerSet, high: i64) -> Option<i64>
    requires { l.0 < MAX_LAYERS }
    ensures { IfSome result (λ offer. (offer ≡ high) × Has permitted l.0) }
{
    if permitted.has(l) && given.has(l) {
        Some(high)
    } else {
        None
    }
}

/// Offers a layer just those trips that are given to it, for so much each.
fn offer_given(
    case: &Case<'_>,
    l: LayerNo,
    given: &[LayerSet],
    high: i64,
    offers: &mut [Option<i64>],
)
    requires restriction { IsRestriction case.now.instance.now case.now.sets.now }
    requires layer { l.0 < length case.now.instance.now.layers }
    requires given { length given.now ≡ length case.now.instance.now.trips }
    requires high { IsMultiplier (length case.now.instance.now.trips) high }
    requires offers { length offers.old ≡ length case.now.instance.now.trips }
    ensures { AreOffers case.now.instance.now l.0 offers.new }
{
    prove!(l.0 < case.instance.layers());
    for i in 0..offers.len() {
        offers[i] = given_offer(case.sets[i], l, given[i], high);
    }
}

/// Whether a layer runs all trips that are given to it.
fn are_run(l: LayerNo, given: &[LayerSet], marks: &[bool]) -> bool
    requires layer { l.0 < MAX_LAYERS }
    requires marks { length marks.now ≡ length given.now }
{
    for i in 0..given.len() {
        if given[i].has(l) && !marks[i] {
            return false;
        }
    }
    true
}

/// What a layer is offered for a trip of so many that these other layers run: more than its multiplier where there are
/// none, else less.
fn offer(trips: u32, multiplier: i64, rate: u64, others: LayerSet) -> i64
    requires multiplier { IsMultiplier trips multiplier }
    requires rate { pos rate ≤ℤ MAX_MULTIPLIER }
    ensures bid { IsBidBeside (pos (most_multiplier trips)) multiplier rate others result }
    ensures within { IsMultiplier trips result }
{
    let half = (rate / 2) as i64;
    let offered = if others.count() == 0 {
        multiplier + half
    } else {
        multiplier - half
    };
    offered.max(0).min(most_multiplier(trips))
}

/// What a layer is offered for a trip of so many that these layers run now. None where it isn't among those that may
/// run it.
fn bid(
    permitted: LayerSet,
    l: LayerNo,
    trips: u32,
    multiplier: i64,
    rate: u64,
    runs: LayerSet,
) -> Option<i64>
    requires layer { l.0 < MAX_LAYERS }
    requires multiplier { IsMultiplier trips multiplier }
    requires rate { pos rate ≤ℤ MAX_MULTIPLIER }
    ensures { MatchOption result (¬ (Has permitted l.0))
        (IsBid trips permitted l.0 multiplier rate runs) }
{
    if permitted.has(l) {
        Some(offer(trips, multiplier, rate, runs.without(l)))
    } else {
        None
    }
}

/// Offers a layer the trips that it may run.
fn offer_all(
    case: &Case<'_>,
    l: LayerNo,
    multipliers: &[i64],
    runs: &[LayerSet],
    rate: u64,
    offers: &mut [Option<i64>],
)
    requires restriction { IsRestriction case.now.instance.now case.now.sets.now }
    requires layer { l.0 < length case.now.instance.now.layers }
    requires multipliers { AreMultipliers case.now.instance.now multipliers.now }
    requires runs { length runs.now ≡ length case.now.instance.now.trips }
    requires rate { pos rate ≤ℤ MAX_MULTIPLIER }
    requires offers { length offers.old ≡ length case.now.instance.now.trips }
    ensures offers { AreOffers case.now.instance.now l.0 offers.new }
    ensures bids { AreBids case.now.sets.now l.0 multipliers.now rate runs.now offers.new }
{
    prove!(l.0 < case.instance.layers());
    let trips = case.instance.trips();
    for i in 0..offers.len() {
        offers[i] = bid(case.sets[i], l, trips, multipliers[i], rate, runs[i]);
    }
}

/// The layers that run a trip, once it is known whether this one does.
fn noted(layers: LayerSet, l: LayerNo, mark: bool) -> LayerSet
    requires { l.0 < MAX_LAYERS }
    ensures { IsNoted l.0 mark layers result }
{
    let others = layers.without(l);
    if mark { others.with(l) } else { others }
}

/// Lets no layer run a trip.
fn empty(runs: &mut [LayerSet])
    ensures { length runs.new ≡ length runs.old }
{
    for layers in runs.iter_mut() {
        *layers = LayerSet(0);
    }
}

/// Notes which trips a layer runs now, of those that it may run.
fn note(instance: &Instance, l: LayerNo, marks: &[bool], runs: &mut [LayerSet])
    requires layer { l.0 < length instance.now.layers }
    requires marks { length marks.now ≡ length instance.now.trips }
    requires runs { length runs.old ≡ length instance.now.trips }
    ensures { AreNoted l.0 marks.now runs.old runs.new }
{
    prove!(l.0 < instance.layers());
    for i in 0..marks.len() {
        runs[i] = noted(runs[i], l, marks[i]);
    }
}

/// What a trip is paid for rises where no layer runs it, and falls where several do.
fn move_all(trips: u32, multipliers: &mut [i64], runs: &[LayerSet], rate: u64)
    requires trips { length multipliers.old ≡ trips }
    requires multipliers { AreWithin multipliers.old }
    requires runs { length runs.now ≡ length multipliers.old }
    requires rate { pos rate ≤ℤ MAX_MULTIPLIER }
    ensures within { AreWithin multipliers.new }
    ensures each { length multipliers.new ≡ length multipliers.old }
    ensures moved { AreMoved rate runs.now multipliers.old multipliers.new }
{
    for i in 0..runs.len() {
        let layers = runs[i].count();
        multipliers[i] = moved(trips, multipliers[i], rate, layers);
    }
}
