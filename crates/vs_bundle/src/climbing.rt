//! Multipliers climbed to the greatest Lagrangian value.

ghost use Rattle.std.specs.Prelude.{◌≡◌, ◌⊎◌, IfOk, OnOk, length};
ghost use Rattle.vs_circ.specs.shipping.Ready.{IsReadyToRun};
ghost use Rattle.vs_multi.specs.Multipliers.{AreMultipliers, AreWithin};
ghost use Rattle.vs_multi.specs.Rounds.{IsCase};
ghost use Rattle.vs_weights.specs.Bundles.{AreFound, HasSizes, layers_of, trips_of_all};
ghost use Rattle.vs_bundle.specs.Climbs.{AreSharesFor, CanClimb, IsAscentFor};

use crate::aim::Aim;
use crate::kept::KeptCuts;
use crate::lanes::Lanes;
use crate::pace::Pace;
use crate::shares::Shares;
use crate::stepping::go_further;
use crate::stride::Stride;
use crate::valuing::Trial;
use vs_circ::{Work, begin_runs};
use vs_cuts::WHOLE;
use vs_multi::Case;
use vs_types::Memory;
use vs_weights::{Bundle, Forecast};

/// A round gains where it comes to one in so many of what was forecast.
const GAINED: i64 = 10;

/// It gains much where it comes to one in so many.
const GAINED_MUCH: i64 = 2;

/// What a climb found.
#[derive(Drop)]
pub struct Climbed {
    /// How much of each trip each layer runs.
    pub shares: Shares,
    /// The Lagrangian value at the multipliers, in 1/1000 of a cost unit, or near it where it is past what fits.
    pub value: i64,
    /// How many rounds there were.
    pub rounds: u32,
}

/// A climb on its way, which may go on later from where it ended.
#[derive(Drop)]
pub struct Ascent {
    bundle: Bundle,
    trial: Trial,
    stride: Stride,
    /// Multipliers that are tried.
    candidate: Vec<i64>,
    /// The Lagrangian value at the best multipliers, in 1/1000 of a cost unit.
    top: i64,
    /// What was forecast last.
    forecast: i64,
}

impl Ascent {
    /// With these cuts, before the first circulations are found, at these multipliers.
    fn new(
        case: &Case<'_>,
        aim: &Aim,
        bundle: Bundle,
        multipliers: &[i64],
    ) -> Result<Ascent, Memory>
        requires multipliers { AreMultipliers case.now.instance.now multipliers.now }
        requires bundle { HasSizes (length case.now.instance.now.trips) (length case.now.instance.now.layers) bundle }
        ensures { IfOk result (IsAscentFor case.now.instance.now) }
    {
        let trips = case.instance.trips() as usize;
        let layers = case.instance.layers();
        let unit = ((aim.most / 100) as i64).max(1);
        Ok(Ascent {
            bundle,
            trial: Trial::new(case.alloc, trips, layers)?,
            stride: Stride::new(unit, i64::from(aim.hundredths)),
            candidate: Vec::from_slice(case.alloc, multipliers)?,
            top: i64::MIN,
            forecast: 0,
        })
    }

    /// A climb from these multipliers, with the first circulations, unless the watch ends that. The aim is that of the
    /// first part of the climb.
    pub fn begin<W: Lanes>(
        case: &Case<'_>,
        aim: &Aim,
        multipliers: &[i64],
        work: &mut Work,
        watch: &W,
    ) -> Result<Ascent, Memory>
        requires works { W.works watch.now }
        requires case { IsCase case.now.instance.now case.now.nets.now case.now.sets.now }
        requires multipliers { AreMultipliers case.now.instance.now multipliers.now }
        ensures ascent { IfOk result (IsAscentFor case.now.instance.now) }
        ensures ready { OnOk result (IsReadyToRun case.now.nets.now work.new) }
    {
        let trips = case.instance.trips() as usize;
        let bundle = Bundle::new(case.alloc, trips, case.instance.layers(), aim.cuts)?;
        Ascent::begin_with(case, aim, bundle, multipliers, work, watch)
    }

    /// The same with cuts that are known.
    fn begin_with<W: Lanes>(
        case: &Case<'_>,
        aim: &Aim,
        bundle: Bundle,
        multipliers: &[i64],
        work: &mut Work,
        watch: &W,
    ) -> Result<Ascent, Memory>
        requires works { W.works watch.now }
        requires case { IsCase case.now.instance.now case.now.nets.now case.now.sets.now }
        requires bundle { HasSizes (length case.now.instance.now.trips) (length case.now.instance.now.layers) bundle }
        requires multipliers { AreMultipliers case.now.instance.now multipliers.now }
        ensures ascent { IfOk result (IsAscentFor case.now.instance.now) }
        ensures ready { OnOk result (IsReadyToRun case.now.nets.now work.new) }
    {
        let mut ascent = Ascent::new(case, aim, bundle, multipliers)?;
        begin_runs(case.alloc, case.nets, work)?;
        ascent.find_first(case, multipliers, work, watch);
        Ok(ascent)
    }

    /// The Lagrangian value at the best multipliers, in 1/1000 of a cost unit, or near it where it is past what fits.
    /// It is `i64::MIN` where not even the first circulations were found.
    pub fn value(&self) -> i64 {
        self.top
    }

    /// Finds the first circulations, unless the watch ends that.
    fn find_first<W: Lanes>(
        &mut self,
        case: &Case<'_>,
        multipliers: &[i64],
        work: &mut Work,
        watch: &W,
    )
        requires works { W.works watch.now }
        requires can { CanClimb case.now.instance.now case.now.nets.now case.now.sets.now multipliers.now self.old }
        requires ready { IsReadyToRun case.now.nets.now work.old }
        ensures ascent { IsAscentFor case.now.instance.now self.new }
        ensures ready { IsReadyToRun case.now.nets.now work.new }
    {
        let value = self.trial.value(case, multipliers, work, watch);
        let Some(top) = value else {
            return;
        };
        self.top = top;
        watch.tell(None, top);
        self.bundle.take(&self.trial.found, multipliers);
        self.bundle.keep(&mut self.trial.found, WHOLE, multipliers);
    }

    /// One round. Gives whether there was one: none where it would gain next to nothing, or the watch ends it.
    fn round<W: Lanes>(
        &mut self,
        case: &Case<'_>,
        aim: &Aim,
        multipliers: &mut [i64],
        work: &mut Work,
        watch: &W,
    ) -> bool
        requires works { W.works watch.now }
        requires can { CanClimb case.now.instance.now case.now.nets.now case.now.sets.now multipliers.old self.old }
        requires ready { IsReadyToRun case.now.nets.now work.old }
        ensures multipliers { AreMultipliers case.now.instance.now multipliers.new }
        ensures ascent { IsAscentFor case.now.instance.now self.new }
        ensures ready { IsReadyToRun case.now.nets.now work.new }
    {
        let step = self.stride.now;
        let tolerance = self.tolerance();
        let forecast = self.bundle.weigh(step, tolerance);
        self.forecast = forecast.gain();
        if !aim.is_worth(self.top, self.forecast) {
            return false;
        }
        self.step(step, case.instance.trips(), multipliers);
        let candidate: &[i64] = &self.candidate;
        let found = self.trial.value(case, candidate, work, watch);
        let Some(value) = found else {
            return false;
        };
        self.judge(forecast, value, aim, multipliers);
        watch.tell(None, self.top);
        self.keep(multipliers);
        true
    }

    /// Tries the multipliers a step of this length further, none beyond the limit of so many trips.
    fn step(&mut self, step: i64, trips: u32, multipliers: &[i64])
        requires few { length multipliers.now ≡ trips }
        requires trips { trips_of_all self.old.bundle ≡ length multipliers.now }
        requires each { length self.old.candidate.items ≡ length multipliers.now }
        requires within { AreWithin self.old.candidate.items }
        ensures each { length self.new.candidate.items ≡ length multipliers.now }
        ensures within { AreWithin self.new.candidate.items }
        ensures trial { self.new.trial ≡ self.old.trial }
        ensures sizes { HasSizes (trips_of_all self.old.bundle) (layers_of self.old.bundle) self.new.bundle }
    {
        let candidate: &mut [i64] = &mut self.candidate;
        go_further(&self.bundle, step, trips, multipliers, candidate);
        self.bundle.set_free(multipliers);
    }

    /// Keeps what the layers found.
    fn keep(&mut self, multipliers: &[i64])
        requires trips { trips_of_all self.old.bundle ≡ length multipliers.now }
        requires found { AreFound (trips_of_all self.old.bundle) (layers_of self.old.bundle)
            self.old.trial.found.items }
        requires within { AreWithin multipliers.now }
        ensures offers { self.new.trial.offers ≡ self.old.trial.offers }
        ensures order { self.new.trial.order ≡ self.old.trial.order }
        ensures marks { self.new.trial.marks ≡ self.old.trial.marks }
        ensures found { AreFound (trips_of_all self.old.bundle) (layers_of self.old.bundle)
            self.new.trial.found.items }
        ensures candidate { self.new.candidate ≡ self.old.candidate }
        ensures sizes { HasSizes (trips_of_all self.old.bundle) (layers_of self.old.bundle) self.new.bundle }
    {
        self.bundle.keep(&mut self.trial.found, 0, multipliers);
    }

    /// Round after round from these multipliers, as long as another one may gain something that is asked for, and the
    /// watch doesn't end it. The multipliers are those that the climb came to. Gives how many rounds there were.
    pub fn go_on<W: Lanes>(
        &mut self,
        case: &Case<'_>,
        aim: &Aim,
        multipliers: &mut [i64],
        work: &mut Work,
        watch: &W,
    ) -> u32
        requires works { W.works watch.now }
        requires can { CanClimb case.now.instance.now case.now.nets.now case.now.sets.now multipliers.old self.old }
        requires ready { IsReadyToRun case.now.nets.now work.old }
        ensures multipliers { AreMultipliers case.now.instance.now multipliers.new }
        ensures ascent { IsAscentFor case.now.instance.now self.new }
    {
        let rounds = self.take_rounds(case, aim, multipliers, work, watch);
        self.end_part(case);
        rounds
    }

    /// The rounds of a part of the climb. Gives how many there were.
    fn take_rounds<W: Lanes>(
        &mut self,
        case: &Case<'_>,
        aim: &Aim,
        multipliers: &mut [i64],
        work: &mut Work,
        watch: &W,
    ) -> u32
        requires works { W.works watch.now }
        requires can { CanClimb case.now.instance.now case.now.nets.now case.now.sets.now multipliers.old self.old }
        requires ready { IsReadyToRun case.now.nets.now work.old }
        ensures multipliers { AreMultipliers case.now.instance.now multipliers.new }
        ensures ascent { IsAscentFor case.now.instance.now self.new }
    {
        let begin = self.top;
        let mut pace = Pace::new();
        for r in 0..aim.rounds {
            let is_vain = r == aim.trial_rounds && self.top <= begin;
            let is_slow = pace.is_slow(aim, begin, self.top);
            let is_over = is_vain || is_slow || self.is_over(aim) || watch.is_over();
            if is_over || !self.round(case, aim, multipliers, work, watch) {
                return r;
            }
        }
        aim.rounds
    }

    /// Lets the effort of the next part be counted from 0.
    fn end_part(&mut self, case: &Case<'_>)
        requires { IsAscentFor case.now.instance.now self.old }
        ensures { IsAscentFor case.now.instance.now self.new }
    {
        let _ = case;
        self.trial.effort = 0;
    }

    /// Whether the climb has come to where it is to come, or taken all the effort that it may.
    fn is_over(&self, aim: &Aim) -> bool {
        self.trial.effort > aim.effort || aim.is_reached(self.top)
    }

    /// How much a move of weights has to gain.
    fn tolerance(&self) -> i64 {
        (self.top / 100_000_000).max(self.forecast / 500).max(1)
    }

    /// Takes the candidate where its value gains, and changes the stride.
    fn judge(&mut self, forecast: Forecast, value: i64, aim: &Aim, multipliers: &mut [i64])
        requires each { length self.old.candidate.items ≡ length multipliers.old }
        requires trips { trips_of_all self.old.bundle ≡ length multipliers.old }
        requires found { AreFound (trips_of_all self.old.bundle) (layers_of self.old.bundle)
            self.old.trial.found.items }
        requires within { AreWithin multipliers.old }
        requires within_too { AreWithin self.old.candidate.items }
        ensures trial { self.new.trial ≡ self.old.trial }
        ensures candidate { self.new.candidate ≡ self.old.candidate }
        ensures sizes { HasSizes (trips_of_all self.old.bundle) (layers_of self.old.bundle) self.new.bundle }
        ensures multipliers { (multipliers.new ≡ multipliers.old)
            ⊎ (multipliers.new ≡ self.old.candidate.items) }
    {
        let gain = value.saturating_sub(self.top);
        let low = aim.is_far(self.top, self.forecast);
        if gain > 0 && gain.saturating_mul(GAINED) >= self.forecast {
            let much = low || gain.saturating_mul(GAINED_MUCH) >= self.forecast;
            self.stride.gain(much);
            self.top = value;
            multipliers.copy_from_slice(&self.candidate);
            self.bundle.take(&self.trial.found, multipliers);
        } else {
            let errors = self.bundle.errors_of(&self.trial.found, multipliers);
            let far_off = errors > self.forecast && forecast.errors > forecast.far;
            self.stride.miss(low, far_off);
        }
    }
}

/// Climbs from these multipliers to ever better ones, and leaves the best. The circulations that the layers found so
/// far, each taken by a weight, run every trip once at some multipliers. Each round makes a step towards these, and
/// finds a further circulation in each layer there. It begins with the circulations of the climb before that are kept,
/// and its own are kept in the end. All of that ends early where the watch says so. The multipliers keep within their
/// limits, also where memory runs out. What they are worth a table shows: nothing is promised of that.
pub fn climb<W: Lanes>(
    case: &Case<'_>,
    aim: &Aim,
    kept: &mut KeptCuts,
    multipliers: &mut [i64],
    work: &mut Work,
    watch: &W,
) -> Result<Climbed, Memory>
    requires works { W.works watch.now }
    requires case { IsCase case.now.instance.now case.now.nets.now case.now.sets.now }
    requires multipliers { AreMultipliers case.now.instance.now multipliers.old }
    ensures within { AreMultipliers case.now.instance.now multipliers.new }
    ensures shares { IfOk result (λ climbed. AreSharesFor case.now.instance.now climbed.shares) }
{
    let bundle = kept.take(case, aim.cuts)?;
    let mut ascent = Ascent::begin_with(case, aim, bundle, multipliers, work, watch)?;
    let rounds = ascent.go_on(case, aim, multipliers, work, watch);
    let climbed = Climbed {
        shares: Shares::of(case, &ascent.bundle)?,
        value: ascent.top,
        rounds,
    };
    let tolerance = ascent.tolerance();
    kept.keep(ascent.bundle, ascent.stride.now, tolerance);
    Ok(climbed)
}
