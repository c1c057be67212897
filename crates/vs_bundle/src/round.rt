//! A round, in which each layer finds a circulation.

ghost use Rattle.std.specs.Prelude.{◌≡◌, ◌<◌, ◌≤◌, ℕ, IsTrue, length};
ghost use Rattle.std.specs.List.{SwappedAt};
ghost use Rattle.vs_circ.specs.shipping.Ready.{IsReadyToRun};
ghost use Rattle.vs_bundle.specs.Runs.{AreLayers, CanRunIn, HaveRun, HaveRunIn, MayRunAll, layer_at};

use crate::lanes::{Lanes, run_layer};
use vs_circ::{Kept, Work};
use vs_match::LayerNet;
use vs_multi::LONG;

/// The layers of a round, what they are offered, the order in which they are to run, and who runs them.
#[derive(Drop)]
pub(crate) struct Round<'a, W> {
    pub nets: &'a [LayerNet],
    pub offers: &'a [Vec<Option<i64>>],
    /// By place: the layer that is to stand there where layers run side by side.
    pub wished: &'a [usize],
    /// How many layers run at once.
    pub at_once: usize,
    pub watch: &'a W,
}

impl<W: Lanes> Round<'_, W> {
    /// Runs all layers, which stand at the places of their numbers before and after. False where it takes long, and the
    /// watch ends it.
    pub fn run(&self, places: &mut [usize], work: &mut Work) -> bool
        requires works { W.works self.now.watch.now }
        requires offers { MayRunAll self.now.nets.now self.now.offers.now }
        requires each { length places.old ≡ length self.now.nets.now }
        requires numbered { (k : ℕ) → k < length places.old → layer_at places.old k ≡ k }
        requires ready { IsReadyToRun self.now.nets.now work.old }
        ensures places { places.new ≡ places.old }
        ensures ready { IsReadyToRun self.now.nets.now work.new }
        ensures run { IsTrue result → HaveRun self.now.nets.now self.now.offers.now work.new.kept.items
            (length self.now.nets.now) }
    {
        let kept: &mut [Kept] = &mut work.kept;
        let part = &mut kept[0..self.nets.len()];
        self.run_all(places, part)
    }

    /// The same with what is kept for the nets, in their order.
    fn run_all(&self, places: &mut [usize], kept: &mut [Kept]) -> bool
        requires works { W.works self.now.watch.now }
        requires each { length places.old ≡ length kept.old }
        requires layers { AreLayers self.now.nets.now places.old }
        requires offers { MayRunAll self.now.nets.now self.now.offers.now }
        requires ready { CanRunIn self.now.nets.now places.old kept.old }
        ensures places { places.new ≡ places.old }
        ensures each { length kept.new ≡ length kept.old }
        ensures ready { CanRunIn self.now.nets.now places.old kept.new }
        ensures run { IsTrue result → HaveRunIn self.now.nets.now self.now.offers.now places.old kept.new }
    {
        if self.at_once == 1 {
            return self.run_in_turn(places, kept);
        }
        self.run_from(0, places, kept);
        true
    }

    /// Runs the layers one after the other. False where it takes long, and the watch ends it.
    fn run_in_turn(&self, places: &[usize], kept: &mut [Kept]) -> bool
        requires each { length places.now ≡ length kept.old }
        requires layers { AreLayers self.now.nets.now places.now }
        requires offers { MayRunAll self.now.nets.now self.now.offers.now }
        requires ready { CanRunIn self.now.nets.now places.now kept.old }
        ensures each { length kept.new ≡ length kept.old }
        ensures ready { CanRunIn self.now.nets.now places.now kept.new }
        ensures run { IsTrue result → HaveRunIn self.now.nets.now self.now.offers.now places.now kept.new }
    {
        let mut effort: u64 = 0;
        for k in 0..places.len() {
            if effort > LONG && self.watch.is_over() {
                return false;
            }
            let before = kept[k].search.effort();
            run_layer(self.nets, self.offers, places[k], &mut kept[k]);
            let took = kept[k].search.effort().saturating_sub(before);
            effort = effort.saturating_add(took);
        }
        true
    }

    /// Runs the layers once those from place k on stand where they are wished, and puts each back.
    fn run_from(&self, k: usize, places: &mut [usize], kept: &mut [Kept])
        requires works { W.works self.now.watch.now }
        requires each { length places.old ≡ length kept.old }
        requires place { k ≤ length places.old }
        requires layers { AreLayers self.now.nets.now places.old }
        requires offers { MayRunAll self.now.nets.now self.now.offers.now }
        requires ready { CanRunIn self.now.nets.now places.old kept.old }
        ensures places { places.new ≡ places.old }
        ensures each { length kept.new ≡ length kept.old }
        ensures run { HaveRunIn self.now.nets.now self.now.offers.now places.old kept.new }
    {
        if k >= places.len() {
            self.watch.run_layers(self.nets, self.offers, places, kept);
            return;
        }
        let from = self.bring(k, places, kept);
        self.run_from(k + 1, places, kept);
        exchange(k, from, places, kept);
    }

    /// Brings the layer to place k that is wished there, in exchange for the one that stands there. Gives where it
    /// stood.
    fn bring(&self, k: usize, places: &mut [usize], kept: &mut [Kept]) -> usize
        requires each { length places.old ≡ length kept.old }
        requires place { k < length places.old }
        ensures from { result < length places.old }
        ensures places { SwappedAt places.old places.new k result }
        ensures kept { SwappedAt kept.old kept.new k result }
        ensures each_place { length places.new ≡ length places.old }
        ensures each_kept { length kept.new ≡ length kept.old }
    {
        let from = self.place_for(k, places);
        exchange(k, from, places, kept);
        from
    }

    /// Where the layer stands that is wished at place k, from there on. It is k itself where there is none.
    fn place_for(&self, k: usize, places: &[usize]) -> usize
        requires { k < length places.now }
        ensures { result < length places.now }
    {
        for place in k..places.len() {
            if self.wished.get(k) == places.get(place) {
                return place;
            }
        }
        k
    }
}

/// Exchanges the layers at two places.
fn exchange(a: usize, b: usize, places: &mut [usize], kept: &mut [Kept])
    requires each { length places.old ≡ length kept.old }
    requires a { a < length places.old }
    requires b { b < length places.old }
    ensures places { SwappedAt places.old places.new a b }
    ensures kept { SwappedAt kept.old kept.new a b }
    ensures each_place { length places.new ≡ length places.old }
    ensures each_kept { length kept.new ≡ length kept.old }
{
    places.swap(a, b);
    kept.swap(a, b);
}
