//! Crews: workers that search an instance together, or one part of it after the other.

ghost use Rattle.std.specs.Prelude.{◌≡◌, ◌≤◌, ℕ, IfOk, IfSome, None, Result, Some};
ghost use Rattle.mdvsp.specs.Limits.{IsNear, stand_with};
ghost use Rattle.vs_instance.specs.Problem.{Problem};
ghost use Rattle.vs_instance.specs.declared.limits.TheConstants.{MAX_BUDGET, MAX_WORKERS};
ghost use Rattle.vs_node.specs.WorkedHistory.{AreWorked};
ghost use Rattle.vs_resume.specs.Deepened.{IsBegunOn, IsDeepened};
ghost use Rattle.vs_tree.specs.declared.calls.Stand.{Stand};
ghost use Rattle.vs_words.specs.Words.{IsUnlimited, MayBeTaken};
ghost use Rattle.vs_tree.specs.Search.{Search, state};
ghost use Rattle.vs_tree.specs.Sound.{IsPlanOf};
ghost use Rattle.vs_tree.specs.Takes.{IsOver, held_leaves};
ghost use Rattle.vs_types.specs.declared.memory.Memory.{Memory};

use crate::limits::Limits;
use std::alloc::Global;
use std::sync::Wait;
use std::thread::Threads;
use vs_crew::{Gate, Stand, run};
use vs_instance::Instance;
use vs_match::layer_nets;
use vs_plan::CheckedPlan;
use vs_resume::Deepen;
use vs_tree::Tree;
use vs_types::Memory;
use vs_words::Effort;

/// So many workers, 1 to 64, that search together, each of which passes the gate before each leaf that it works on. The
/// gate ends a search where a limit is reached.
#[derive(Drop)]
pub struct Crew<'a, R: Threads + Wait + Sync, G: Gate + Sync> {
    pub rt: &'a R,
    pub gate: Limits<'a, G>,
    pub workers: u32,
    ghost some: { 1 ≤ workers },
    ghost few: { workers ≤ MAX_WORKERS },
}

impl<'a, R: Threads + Wait + Sync, G: Gate + Sync> Crew<'a, R, G> {
    /// The workers of a search with this effort.
    pub fn new(rt: &'a R, gate: &'a G, effort: Effort) -> Crew<'a, R, G>
        requires { MayBeTaken effort }
        ensures workers { result.workers ≡ effort.workers }
        ensures gate { result.gate.gate.now ≡ gate.now }
        ensures effort { result.gate.effort ≡ effort }
        ensures before { result.gate.before ≡ None }
    {
        Crew {
            rt,
            gate: Limits::new(gate, effort),
            workers: effort.workers,
        }
    }

    /// A search of the instance with this budget that begins with the first plan, if any, once it is over, or the gate
    /// ends it.
    pub fn search(
        &self,
        alloc: Global,
        instance: &Instance,
        budget: u32,
        first: Option<CheckedPlan>,
    ) -> Result<Tree, Memory>
        requires budget { budget ≤ MAX_BUDGET }
        requires first { IfSome first (IsPlanOf instance.now) }
        ensures begins { IfOk result (λ tree. tree.opening ≡ record {
          problem = instance.now;
          budget = budget;
          workers = self.now.workers;
          first = first;
        }) }
        ensures worked { IfOk result (λ tree. AreWorked tree.opening tree.steps) }
        ensures none_held { IfOk result (λ tree. held_leaves (state tree) ≡ 0) }
        ensures over { IsUnlimited self.now.gate.effort
            → IfOk result (λ tree. IsOver tree.opening (state tree)) }
    {
        let nets = layer_nets(alloc, instance)?;
        let tree = Tree::start(alloc, instance.copy(alloc)?, budget, self.workers, first)?;
        match run(
            self.rt,
            alloc,
            instance,
            &nets,
            tree,
            self.workers,
            &self.gate,
        ) {
            Ok(tree) => Ok(tree),
            Err((_, Memory)) => Err(Memory),
        }
    }

    /// The same workers for a part of a search, where that has come so far.
    pub fn within(&self, before: Stand) -> Crew<'a, R, G>
        ensures workers { result.workers ≡ self.now.workers }
        ensures gate { result.gate.gate.now ≡ self.now.gate.gate.now }
        ensures effort { result.gate.effort ≡ self.now.gate.effort }
        ensures before { result.gate.before ≡ Some before }
    {
        Crew {
            rt: self.rt,
            gate: self.gate.within(before),
            workers: self.workers,
        }
    }

    /// The same of a part, without a first plan. Where there is no limit, a search that finished no leaf gave its root
    /// back: out of memory.
    pub fn search_part(&self, alloc: Global, part: &Instance, budget: u32) -> Result<Tree, Memory>
        requires { budget ≤ MAX_BUDGET }
        ensures begun { IfOk result (IsBegunOn part.now budget) }
        ensures found { IsUnlimited self.now.gate.effort → IfOk result (IsDeepened part.now budget) }
    {
        let tree = self.search(alloc, part, budget, None)?;
        // for the proof: the steps of a search are a history from an opening.
        let _instance = tree.instance();
        if tree.report().finished == 0 && !self.gate.is_given() {
            return Err(Memory);
        }
        Ok(tree)
    }
}

/// Who searches parts by calls of a function, so that threads may do it: what they need, the function has with it. A
/// gate says whether the whole search is to end.
#[derive(Drop)]
pub struct ByCalls<'a, G: Gate, F: Fn(Instance, u32, Stand) -> Result<Tree, Memory>> {
    pub gate: &'a Limits<'a, G>,
    /// How far the whole search had come before the part.
    pub before: Stand,
    pub search: F,
}

impl<G: Gate, F: Fn(Instance, u32, Stand) -> Result<Tree, Memory>> Deepen for ByCalls<'_, G, F> {
    ghost can_deepen = { λ s.
        ((part : Problem) (budget : ℕ) (before : Stand) → budget ≤ MAX_BUDGET → F.pre s.search part budget before)
        × ((part : Problem) (budget : ℕ) (before : Stand) (found : Result Search Memory)
        → F.post s.search part budget before found → IfOk found (IsBegunOn part budget))
        × ((part : Problem) (budget : ℕ) (before : Stand) (found : Result Search Memory)
        → F.post s.search part budget before found → IsUnlimited s.gate.now.effort
        → IfOk found (IsDeepened part budget)) };

    ghost may_stop = { λ s. ¬ (IsUnlimited s.gate.now.effort) };

    ghost must_stop = { λ s stand. IsNear s.gate.now.effort (stand_with s.gate.now.before stand) };

    ghost is_told = { λ s stand. s.before ≡ stand };

    fn deepen(&mut self, _alloc: Global, part: Instance, budget: u32) -> Result<Tree, Memory> {
        (self.search)(part, budget, self.before)
    }

    fn is_over(&mut self, stand: &Stand) -> bool {
        self.before = *stand;
        self.gate.is_over(stand)
    }
}
