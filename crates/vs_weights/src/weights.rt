//! The weights of the cuts: moved from cut to cut of a layer until what is forecast can't be brought much nearer.

ghost use Rattle.std.specs.Prelude.{◌≡◌, ℕ, ◌+◌, ◌*◌, ◌<◌, length, vec_len};
ghost use Rattle.std.specs.Int.RustNames.{unsigned_abs};
ghost use Rattle.vs_weights.specs.Bundles.{HasSizes, layers_of, trips_of_all};
ghost use Rattle.vs_weights.specs.Layers.{IsLike};
ghost use Rattle.vs_cuts.specs.Numbers.{AreProducts, IsNear, IsPart, IsProduct};
ghost use Rattle.vs_weights.specs.Steps.{ArePeaksOf, AreSlopes, IsShortFor};
ghost use Rattle.vs_cuts.specs.declared.products.TheConstants.{MOST_PRODUCT};
ghost use Rattle.vs_cuts.specs.declared.whole.TheConstants.{MOST_LACK};

use crate::bundle::Bundle;
use crate::layer_cuts::LayerCuts;
use crate::standing::Standing;
use crate::step::{Reach, Step};
use vs_cuts::{MOST_LACK, WHOLE, as_part, fitting, part_of, small_part_of};

/// How often all layers move weights at most: the last sweeps gain next to nothing.
const SWEEPS: u32 = 60;

/// A layer is done once what a move may gain is so small a part of the tolerance, shared out among the layers.
const FINE: i64 = 100;

/// Two places, and how high the cuts there stand: of the highest cut that has weight, and of the lowest one.
#[derive(Clone, Copy)]
struct Peaks {
    high: usize,
    highest: i64,
    low: usize,
    lowest: i64,
}

impl Peaks {
    /// Those of no cuts.
    fn none() -> Peaks
        ensures high { result.high ≡ 0 }
        ensures low { result.low ≡ 0 }
    {
        Peaks {
            high: 0,
            highest: i64::MIN,
            low: 0,
            lowest: i64::MAX,
        }
    }

    /// How far apart they lie.
    fn gap(&self) -> i64 {
        self.highest.saturating_sub(self.lowest)
    }

    /// Takes the cut at a place into account.
    fn see(&mut self, place: usize, standing: &Standing, step: Step)
        requires { IsShortFor (unsigned_abs standing.now.slope) step }
        ensures { (places : ℕ) → place < places → ArePeaksOf places self.old → ArePeaksOf places self.new }
    {
        let height = standing.height(step);
        if standing.weight > 0 && height > self.highest {
            self.high = place;
            self.highest = height;
        }
        if height < self.lowest {
            self.low = place;
            self.lowest = height;
        }
    }
}

/// What a step is forecast to gain.
#[derive(Clone, Copy)]
pub struct Forecast {
    /// What the errors of the cuts come to.
    pub errors: i64,
    /// What the step gains along what is lacking.
    pub far: i64,
}

impl Forecast {
    /// Both together.
    pub fn gain(&self) -> i64 {
        self.errors.saturating_add(self.far)
    }
}

impl Bundle {
    /// Makes the weights such as are best for a step of this length, to within a tolerance. Gives what the step is
    /// forecast to gain.
    pub fn weigh(&mut self, step: i64, tolerance: i64) -> Forecast
        ensures { HasSizes (trips_of_all self.old) (layers_of self.old) self.new }
    {
        self.lacking.take_free();
        self.balance_all(step, tolerance);
        Forecast {
            errors: self.end_round(),
            far: part_of(step, square(&self.lacking.of_free)),
        }
    }

    /// Counts a round. Gives what the errors of the cuts come to, each by its weight.
    fn end_round(&mut self) -> i64
        ensures { HasSizes (trips_of_all self.old) (layers_of self.old) self.new }
    {
        let mut errors: i64 = 0;
        for l in 0..self.layers.len() {
            let layer = &mut self.layers[l];
            layer.age();
            errors = errors.saturating_add(layer.errors());
        }
        errors
    }

    /// Moves weights in all layers until a sweep over them gains less than the tolerance.
    fn balance_all(&mut self, step: i64, tolerance: i64)
        ensures { HasSizes (trips_of_all self.old) (layers_of self.old) self.new }
    {
        let layers = i64::try_from(self.layers.len()).unwrap_or(i64::MAX);
        let fine = tolerance / FINE / layers.max(1);
        for _ in 0..SWEEPS {
            if self.sweep(step, fine) < tolerance {
                return;
            }
        }
    }

    /// Moves weights in each layer in turn. Gives what that gained.
    fn sweep(&mut self, step: i64, fine: i64) -> i64
        ensures { HasSizes (trips_of_all self.old) (layers_of self.old) self.new }
    {
        let mut gained: i64 = 0;
        for l in 0..self.layers.len() {
            let layer = &mut self.layers[l];
            layer.set_slopes(&self.lacking.of_free);
            gained = gained.saturating_add(layer.balance(step, fine));
            layer.settle(&mut self.lacking);
            self.lacking.take_free();
        }
        gained
    }
}

impl LayerCuts {
    /// Moves weights, at most as often as there are places. Gives what that gained.
    fn balance(&mut self, step: i64, fine: i64) -> i64
        requires { AreSlopes (self.old.trips * MOST_LACK) self.old.standings.items }
        ensures { IsLike self.old self.new }
    {
        let mut gained: i64 = 0;
        let products = self.products.most;
        let mut slopes = self.trips as u64 * MOST_LACK;
        let mut peaks = self.peaks(step, slopes);
        for _ in 0..self.standings.len() {
            let reach = Reach { slopes, products };
            let gain = self.shift(step, fine, reach, &mut peaks);
            if gain == 0 {
                break;
            }
            slopes += products;
            gained = gained.saturating_add(gain);
        }
        gained
    }

    /// Moves weight from the highest cut that has some to the lowest one, where they lie further apart than is fine.
    /// Gives what that gained, and lets the peaks be those that are then.
    fn shift(&mut self, step: i64, fine: i64, reach: Reach, peaks: &mut Peaks) -> i64
        requires slopes { AreSlopes reach.slopes self.old.standings.items }
        requires products { reach.products ≡ self.old.products.most }
        requires peaks { ArePeaksOf (vec_len self.old.cuts) peaks.old }
        ensures like { IsLike self.old self.new }
        ensures products { self.new.products.most ≡ self.old.products.most }
        ensures slopes { AreSlopes (reach.slopes + reach.products) self.new.standings.items }
        ensures peaks { ArePeaksOf (vec_len self.old.cuts) peaks.new }
    {
        let gap = peaks.gap();
        if gap <= fine {
            return 0;
        }
        let (high, low) = (peaks.high, peaks.low);
        let apart = self.apart(high, low);
        let amount = as_part(best_move(gap, step, apart).min(self.standings[high].weight));
        *peaks = self.carry(high, low, amount, step, reach);
        part_of(gap, amount)
    }

    /// The highest cut that has weight and the lowest one, where no slope is further from 0 than this.
    fn peaks(&self, step: i64, most: u64) -> Peaks
        requires { AreSlopes most self.now.standings.items }
        ensures { ArePeaksOf (vec_len self.now.cuts) result }
    {
        let step = Step::along(step, most);
        let mut peaks = Peaks::none();
        for (place, standing) in self.standings.iter().enumerate() {
            if standing.held {
                peaks.see(place, standing, step);
            }
        }
        peaks
    }

    /// How many free trips one of two cuts runs and the other one doesn't, in parts of a whole trip.
    fn apart(&self, one: usize, other: usize) -> i64
        requires one { one < vec_len self.now.cuts }
        requires other { other < vec_len self.now.cuts }
    {
        let own = self
            .products
            .of(one, one)
            .saturating_add(self.products.of(other, other));
        let both = self.products.of(one, other);
        own.saturating_sub(both).saturating_sub(both).max(0)
    }

    /// Moves so much weight from one cut to another one. Gives the peaks that are then.
    fn carry(&mut self, from: usize, to: usize, amount: i64, step: i64, reach: Reach) -> Peaks
        requires from { from < vec_len self.old.cuts }
        requires to { to < vec_len self.old.cuts }
        requires amount { IsPart amount }
        requires slopes { AreSlopes reach.slopes self.old.standings.items }
        requires products { reach.products ≡ self.old.products.most }
        ensures like { IsLike self.old self.new }
        ensures products { self.new.products.most ≡ self.old.products.most }
        ensures slopes { AreSlopes (reach.slopes + reach.products) self.new.standings.items }
        ensures peaks { ArePeaksOf (vec_len self.old.cuts) result }
    {
        let standings: &mut [Standing] = &mut self.standings;
        add_weight(standings, from, -amount);
        add_weight(standings, to, amount);
        let (left, taken) = (self.products.row(from), self.products.row(to));
        tilt(standings, left, taken, amount, step, reach)
    }
}

/// Adds to the weight of the cut at a place.
fn add_weight(standings: &mut [Standing], place: usize, amount: i64)
    requires place { place < length standings.old }
    requires amount { IsNear 1048576 amount }
    ensures { (most : ℕ) → AreSlopes most standings.old → AreSlopes most standings.new }
{
    let standing = &mut standings[place];
    standing.weight = as_part(standing.weight + amount);
}

/// Changes how much is lacking of the trips of each cut of a layer, as this amount of weight moves between two cuts.
/// The weight leaves the cut that has the first products, and goes to the one that has the others. Gives the peaks that
/// are then.
///
/// It is the innermost loop of a climb. It has a call of its own, since its numbers wouldn't find room in registers
/// among those of its caller.
#[inline(never)]
fn tilt(
    standings: &mut [Standing],
    left: &[i64],
    taken: &[i64],
    amount: i64,
    step: i64,
    reach: Reach,
) -> Peaks
    requires some { 0 < length standings.old }
    requires each_left { length left.now ≡ length standings.old }
    requires each_taken { length taken.now ≡ length standings.old }
    requires left { AreProducts reach.products left.now }
    requires taken { AreProducts reach.products taken.now }
    requires amount { IsPart amount }
    requires slopes { AreSlopes reach.slopes standings.old }
    ensures slopes { AreSlopes (reach.slopes + reach.products) standings.new }
    ensures peaks { ArePeaksOf (length standings.old) result }
{
    let step = Step::along(step, reach.slopes + reach.products);
    let mut peaks = Peaks::none();
    let count = standings.len();
    let (left, taken) = (&left[..count], &taken[..count]);
    for place in 0..count {
        let standing = &mut standings[place];
        if standing.held {
            standing.tilt(more_lacking(left[place], taken[place], amount));
            peaks.see(place, standing, step);
        }
    }
    peaks
}

/// How much more is lacking of the trips of a cut, where this amount of weight moves between two cuts. It has the first
/// product with the cut that the weight leaves, and the other with the cut that the weight goes to.
fn more_lacking(left: i64, taken: i64, amount: i64) -> i64
    requires left { IsProduct MOST_PRODUCT left }
    requires taken { IsProduct MOST_PRODUCT taken }
    requires amount { IsPart amount }
    ensures { (most : ℕ) → IsProduct most left → IsProduct most taken → IsNear most result }
{
    small_part_of(left - taken, amount)
}

/// How much weight is best moved between two cuts that lie this far apart in height and in trips.
fn best_move(gap: i64, step: i64, apart: i64) -> i64 {
    let square = i128::from(WHOLE).saturating_mul(i128::from(WHOLE));
    let steep = i128::from(gap).saturating_mul(square);
    let far = i128::from(step).saturating_mul(i128::from(apart));
    match steep.checked_div(far) {
        Some(amount) => fitting(amount),
        None => WHOLE,
    }
}

/// The sum of all squares, in parts of a whole.
fn square(lacks: &[i64]) -> i64 {
    let mut square: i64 = 0;
    for lack in lacks {
        square = square.saturating_add(part_of(*lack, *lack));
    }
    square
}
