//! Which layers trips were given to, and the cheapest plans by that.
ghost use Rattle.std.specs.Prelude.{◌≡◌, IfOk, IfSome, length};
ghost use Rattle.vs_instance.specs.Problem.{Problem};
ghost use Rattle.vs_instance.specs.Restriction.{IsRestriction};
ghost use Rattle.vs_multi.specs.Rounds.{IsCase};
ghost use Rattle.vs_node.specs.ChosenLayers.{AreSingle};
ghost use Rattle.vs_penalty.specs.Seekers.{AreChoices, IsPlanOf};

use std::alloc::Global;
use vs_circ::Work;
use vs_multi::Case;
use vs_node::settle;
use vs_plan::{Block, CheckedPlan, cheaper, cost_of};
use vs_types::{LayerSet, Memory, SCALE, TripNo};
use vs_walk::{Pool, lowest_layers};

/// The cheapest plan that was found, and the choices of layers by which plans were found.
#[derive(Drop)]
pub(crate) struct Choices {
    pub best: Option<CheckedPlan>,
    /// The cheapest choices.
    pub pool: Pool,
    /// The choices that were tried.
    tried: Vec<Vec<LayerSet>>,
    /// The choice that is tried next.
    chosen: Vec<LayerSet>,
}

impl Choices {
    /// None yet.
    pub fn new(alloc: Global, trips: usize) -> Result<Choices, Memory>
        ensures { IfOk result (λ choices. (p : Problem) → length p.trips ≡ trips → AreChoices p choices) }
    {
        Ok(Choices {
            best: None,
            pool: Pool::new(alloc, trips),
            tried: Vec::new(alloc),
            chosen: vec![in alloc; LayerSet(0); trips]?,
        })
    }

    /// What the cheapest plan costs, in cost units.
    pub fn cost(&self) -> Option<i64> {
        cost_of(&self.best)
    }

    /// The same in 1/1000 of a cost unit.
    pub fn known(&self) -> Option<i64> {
        self.cost().map(|cost| cost.saturating_mul(SCALE))
    }

    /// By trip: the number of the vehicle that runs it in the cheapest plan, from 0 on. All are 0 where none is known.
    pub fn vehicles(&self, case: &Case<'_>) -> Result<Vec<u32>, Memory>
        ensures { IfOk result (λ vehicles. length vehicles.items ≡ length case.now.instance.now.trips) }
    {
        let mut vehicles = vec![in case.alloc; 0; case.instance.trips() as usize]?;
        if let Some(best) = &self.best {
            number_vehicles(&best.plan().blocks, &mut vehicles);
        }
        Ok(vehicles)
    }

    /// Whether the cheapest plan costs less than so much more than this value, both in 1/1000 of a cost unit.
    pub fn is_within(&self, value: i64, margin: i64) -> bool {
        match self.known() {
            Some(known) => value > known.saturating_sub(margin),
            None => false,
        }
    }

    /// Finds the cheapest plan in which each trip is given to the lowest of the layers that run it, unless that choice
    /// was tried before.
    pub fn draw(
        &mut self,
        case: &Case<'_>,
        runs: &[LayerSet],
        work: &mut Work,
    ) -> Result<(), Memory>
        requires case { IsCase case.now.instance.now case.now.nets.now case.now.sets.now }
        requires choices { AreChoices case.now.instance.now self.old }
        requires runs { length runs.now ≡ length case.now.instance.now.trips }
        ensures { AreChoices case.now.instance.now self.new }
    {
        lowest_layers(case.instance, runs, &mut self.chosen);
        if self.was_tried() {
            return Ok(());
        }
        let tried = Vec::from_slice(case.alloc, &self.chosen)?;
        self.tried.push(tried)?;
        let plan = least_plan(case, &self.chosen, work)?;
        if let Some(cost) = cost_of(&plan) {
            let chosen = self.chosen.as_slice();
            self.pool
                .keep(case.alloc, cost.saturating_mul(SCALE), chosen)?;
        }
        let best = self.best.take();
        self.best = cheaper(best, plan);
        Ok(())
    }

    /// Finds the plan of the cheapest choice, where that costs less than the cheapest plan.
    pub fn draw_cheapest(&mut self, case: &Case<'_>, work: &mut Work) -> Result<(), Memory>
        requires case { IsCase case.now.instance.now case.now.nets.now case.now.sets.now }
        requires choices { AreChoices case.now.instance.now self.old }
        ensures { AreChoices case.now.instance.now self.new }
    {
        if !is_cheaper(self.pool.cost(), self.known()) {
            return Ok(());
        }
        match self.pool.get(0) {
            Some(choice) => {
                let layers = Vec::from_slice(case.alloc, &choice.layers)?;
                self.draw(case, &layers, work)
            }
            None => Ok(()),
        }
    }

    /// Whether the choice that is tried next was tried before.
    fn was_tried(&self) -> bool {
        for tried in &self.tried {
            if tried.as_slice() == self.chosen.as_slice() {
                return true;
            }
        }
        false
    }
}

/// A plan of least cost in which each trip is run in the one layer of its set, if there is any.
fn least_plan(
    case: &Case<'_>,
    chosen: &[LayerSet],
    work: &mut Work,
) -> Result<Option<CheckedPlan>, Memory>
    requires case { IsCase case.now.instance.now case.now.nets.now case.now.sets.now }
    requires restriction { IsRestriction case.now.instance.now chosen.now }
    requires single { AreSingle chosen.now }
    ensures { IfOk result (λ plan. IfSome plan (IsPlanOf case.now.instance.now)) }
{
    let settled = settle(case.alloc, case.instance, case.nets, chosen, work)?;
    Ok(settled.plan)
}

/// Whether something that costs so much is known that is cheaper than what is known for this cost, if anything.
fn is_cheaper(cost: Option<i64>, known: Option<i64>) -> bool {
    match (cost, known) {
        (Some(cost), Some(known)) => cost < known,
        (Some(_), None) => true,
        _ => false,
    }
}

/// Gives each trip of these blocks the number of its block.
fn number_vehicles(blocks: &[Block], vehicles: &mut [u32])
    ensures { length vehicles.new ≡ length vehicles.old }
{
    let mut number = 0;
    for block in blocks {
        number_trips(&block.trips, number, vehicles);
        number = number.saturating_add(1);
    }
}

/// Gives each of these trips this number.
fn number_trips(trips: &[TripNo], number: u32, vehicles: &mut [u32])
    ensures { length vehicles.new ≡ length vehicles.old }
{
    for trip in trips {
        let place = trip.0 as usize;
        if place < vehicles.len() {
            vehicles[place] = number;
        }
    }
}
