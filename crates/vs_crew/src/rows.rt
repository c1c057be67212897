//! Layers that run in rows, each row in a thread.

ghost use Rattle.std.specs.Prelude.{◌≡◌, ◌<◌, length};
ghost use Rattle.std.specs.Thread.{IsSync};
ghost use Rattle.vs_match.specs.LayerNets.{net_at};
ghost use Rattle.vs_circ.specs.shipping.Ready.{CanRun};
ghost use Rattle.vs_bundle.specs.Runs.{AreLayers, CanRunIn, HasRun, HaveRunIn, MayRunAll, layer_at};

use std::marker::Sync;
use std::thread::{Threads, join_mut};
use vs_bundle::run_layer;
use vs_circ::Kept;
use vs_match::LayerNet;
use vs_multi::in_turn;

/// The nets of the layers, what they are offered, and how many of them run in a row.
#[derive(Drop)]
pub(crate) struct Rows<'a> {
    pub nets: &'a [LayerNet],
    pub offers: &'a [Vec<Option<i64>>],
    pub in_a_row: usize,
    ghost some: { 0 < in_a_row },
}

impl Rows<'_> {
    /// Runs the layers in this order, each with what is kept at its place: so many in a new thread, and the others
    /// likewise. All threads are started from this one: where threads start threads at the same moment, several of them
    /// come to share a processor while another one is idle.
    #[cycle(rows)]
    pub fn run<R: Threads + Sync>(&self, rt: &R, places: &[usize], kept: &mut [Kept])
        requires each { length places.now ≡ length kept.old }
        requires layers { AreLayers self.now.nets.now places.now }
        requires offers { MayRunAll self.now.nets.now self.now.offers.now }
        requires ready { CanRunIn self.now.nets.now places.now kept.old }
        ensures each { length kept.new ≡ length kept.old }
        ensures run { HaveRunIn self.now.nets.now self.now.offers.now places.now kept.new }
    {
        if kept.len() <= self.in_a_row {
            self.run_in_turn(places, kept);
            return;
        }
        let (first_places, other_places) = places.split_at(self.in_a_row);
        let (first, others) = kept.split_at_mut(self.in_a_row);
        self.run_both(rt, first_places, other_places, first, others);
    }

    /// Runs the first layers in a new thread, and the others from this one.
    #[cycle(rows)]
    fn run_both<R: Threads + Sync>(
        &self,
        rt: &R,
        first_places: &[usize],
        other_places: &[usize],
        first: &mut [Kept],
        others: &mut [Kept],
    )
        requires each_first { length first_places.now ≡ length first.old }
        requires each_other { length other_places.now ≡ length others.old }
        requires layers { AreLayers self.now.nets.now first_places.now }
        requires other_layers { AreLayers self.now.nets.now other_places.now }
        requires offers { MayRunAll self.now.nets.now self.now.offers.now }
        requires ready { CanRunIn self.now.nets.now first_places.now first.old }
        requires others_ready { CanRunIn self.now.nets.now other_places.now others.old }
        ensures each_first { length first.new ≡ length first.old }
        ensures each_other { length others.new ≡ length others.old }
        ensures run { HaveRunIn self.now.nets.now self.now.offers.now first_places.now first.new }
        ensures others_run { HaveRunIn self.now.nets.now self.now.offers.now other_places.now others.new }
    {
        let mut run_first = ||
            requires { (length first_places.now ≡ length first.now)
                × AreLayers self.now.nets.now first_places.now × MayRunAll self.now.nets.now self.now.offers.now
                × CanRunIn self.now.nets.now first_places.now first.now }
            ensures { (length first.exit.now ≡ length first.entry.now)
                × HaveRunIn self.entry.now.nets.now self.entry.now.offers.now first_places.entry.now first.exit.now }
        { self.run_in_turn(first_places, first) };
        let mut run_others = ||
            requires { IsSync R.row × (length other_places.now ≡ length others.now)
                × AreLayers self.now.nets.now other_places.now × MayRunAll self.now.nets.now self.now.offers.now
                × CanRunIn self.now.nets.now other_places.now others.now }
            ensures { (length others.exit.now ≡ length others.entry.now)
                × HaveRunIn self.entry.now.nets.now self.entry.now.offers.now other_places.entry.now others.exit.now }
        { self.run(rt, other_places, others) };
        join_mut(rt, &mut run_first, &mut run_others);
    }

    /// Runs the layers in this order, one after the other.
    fn run_in_turn(&self, places: &[usize], kept: &mut [Kept])
        requires each { length places.now ≡ length kept.old }
        requires layers { AreLayers self.now.nets.now places.now }
        requires offers { MayRunAll self.now.nets.now self.now.offers.now }
        requires ready { CanRunIn self.now.nets.now places.now kept.old }
        ensures each { length kept.new ≡ length kept.old }
        ensures run { HaveRunIn self.now.nets.now self.now.offers.now places.now kept.new }
    {
        let (nets, offers) = (self.nets, self.offers);
        let job = |k: usize, kept: &mut Kept|
            requires { MayRunAll nets.now offers.now × (k < length places.now)
                × (layer_at places.now k < length nets.now)
                × CanRun (net_at nets.now (layer_at places.now k)) kept.now }
            ensures { HasRun (net_at nets.entry.now (layer_at places.entry.now k)) offers.entry.now
                (layer_at places.entry.now k) kept.exit.now }
        { run_layer(nets, offers, places[k], kept) };
        in_turn(kept, &job);
    }
}
