//! Who runs the layers of a round, one after the other or side by side.

ghost use Rattle.std.specs.Prelude.{◌≡◌, ◌<◌, length};
ghost use Rattle.vs_match.specs.LayerNets.{net_at};
ghost use Rattle.vs_circ.specs.shipping.Ready.{CanRun};
ghost use Rattle.vs_bundle.specs.Runs.{AreLayers, CanRunIn, HasRun, HaveRunIn, MayRunAll, layer_at};

use vs_circ::{Kept, run_from};
use vs_match::LayerNet;
use vs_multi::{NoWatch, Untold, Watch, in_turn};

/// A watch that also runs layers. How many of them it runs at once decides nothing but how long that takes.
pub trait Lanes: Watch {
    /// What is so of one that does what is said here. It is so of each where this isn't said.
    ghost works: { Self → Type 0 } = { λ _. Unit {0} };

    /// How many threads there are, so that as many layers run at once.
    fn threads(&self) -> usize
        ensures { 0 < result };

    /// Runs the layers in this order, each with what is kept at its place: finds a least circulation of its offers.
    /// Each of the threads runs some in a row, as many as each other one, or the last one fewer.
    fn run_layers(
        &self,
        nets: &[LayerNet],
        offers: &[Vec<Option<i64>>],
        places: &[usize],
        kept: &mut [Kept],
    )
        requires works { works self.now }
        requires each { length places.now ≡ length kept.old }
        requires layers { AreLayers nets.now places.now }
        requires offers { MayRunAll nets.now offers.now }
        requires ready { CanRunIn nets.now places.now kept.old }
        ensures each { length kept.new ≡ length kept.old }
        ensures run { HaveRunIn nets.now offers.now places.now kept.new };
}

impl Lanes for NoWatch {
    fn threads(&self) -> usize {
        1
    }

    fn run_layers(
        &self,
        nets: &[LayerNet],
        offers: &[Vec<Option<i64>>],
        places: &[usize],
        kept: &mut [Kept],
    ) {
        run_in_turn(nets, offers, places, kept);
    }
}

impl<L: Lanes> Lanes for Untold<'_, L> {
    ghost works = { λ untold. L.works untold.watch.now };

    fn threads(&self) -> usize {
        self.watch.threads()
    }

    fn run_layers(
        &self,
        nets: &[LayerNet],
        offers: &[Vec<Option<i64>>],
        places: &[usize],
        kept: &mut [Kept],
    ) {
        self.watch.run_layers(nets, offers, places, kept);
    }
}

/// Runs the layers in this order, one after the other.
fn run_in_turn(nets: &[LayerNet], offers: &[Vec<Option<i64>>], places: &[usize], kept: &mut [Kept])
    requires each { length places.now ≡ length kept.old }
    requires layers { AreLayers nets.now places.now }
    requires offers { MayRunAll nets.now offers.now }
    requires ready { CanRunIn nets.now places.now kept.old }
    ensures each { length kept.new ≡ length kept.old }
    ensures run { HaveRunIn nets.now offers.now places.now kept.new }
{
    let job = |k: usize, kept: &mut Kept|
        requires { MayRunAll nets.now offers.now × (k < length places.now) × (layer_at places.now k < length nets.now)
            × CanRun (net_at nets.now (layer_at places.now k)) kept.now }
        ensures { HasRun (net_at nets.entry.now (layer_at places.entry.now k)) offers.entry.now
            (layer_at places.entry.now k) kept.exit.now }
    { run_layer(nets, offers, places[k], kept) };
    in_turn(kept, &job);
}

/// Runs this layer with what is kept for it.
pub fn run_layer(nets: &[LayerNet], offers: &[Vec<Option<i64>>], layer: usize, kept: &mut Kept)
    requires offers { MayRunAll nets.now offers.now }
    requires within { layer < length nets.now }
    requires ready { CanRun (net_at nets.now layer) kept.old }
    ensures { HasRun (net_at nets.now layer) offers.now layer kept.new }
{
    run_from(&nets[layer], &offers[layer], kept);
}
