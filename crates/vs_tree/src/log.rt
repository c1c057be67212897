//! The history of a search, with its tables and plans.

ghost use Rattle.std.specs.Prelude.{◌≡◌, ◌+◌, ◌<◌, ◌++◌, ◌∷◌, [], length, map, IfOk, slice_index_or, None, option_copied, option_map};
ghost use Rattle.std.specs.Prelude.{All, Some, slice_get};
ghost use Rattle.std.specs.List.{last_or};
ghost use Rattle.vs_tree.specs.History.{plans_of};
ghost use Rattle.vs_tree.specs.Log.{IsOfLog, full_step, plain_step};
ghost use Rattle.vs_tree.specs.Prices.{no_prices, prices_of, zero_prices};

use crate::step::Step;
use std::alloc::Global;
use std::marker::Model;
use vs_instance::Instance;
use vs_plan::CheckedPlan;
use vs_prices::Table;
use vs_types::Memory;

/// The steps of a search, and the tables and accepted plans that they added.
#[derive(Drop)]
pub struct Log {
    steps: Vec<Step>,
    tables: Vec<Table>,
    plans: Vec<CheckedPlan>,
    /// How many of each there may be.
    rooms: Rooms,
}

/// How many steps, tables and accepted plans there may be.
#[derive(Clone, Copy)]
pub struct Rooms {
    pub steps: u32,
    pub tables: u32,
    pub plans: u32,
}

impl Model for Log {
    ghost use Rattle.std.specs.Prelude.{map};
    ghost use Rattle.vs_tree.specs.Log.{IsLog, Log, full_step};
    ghost use Rattle.vs_tree.specs.Prices.{prices_of};

    ghost Value = { Log };

    ghost use Rattle.vs_tree.specs.Codes.{coded_log};

    ghost coded = { coded_log };

    ghost view = { λ a. record {
      steps = map (full_step (map prices_of a.tables.items) a.plans.items) a.steps.items;
      tables = map prices_of a.tables.items;
      plans = a.plans.items;
      step_room = a.rooms.steps;
      table_room = a.rooms.tables;
      plan_room = a.rooms.plans;
    } };

    ghost invariant = { λ a. IsLog a.steps a.tables a.plans a.rooms.steps a.rooms.tables a.rooms.plans };
}

impl Log {
    /// No steps yet; the table of zeros, and the first plan, where there is one.
    pub fn new(
        alloc: Global,
        instance: &Instance,
        first: Option<CheckedPlan>,
        rooms: Rooms,
    ) -> Result<Log, Memory>
        requires tables { 0 < rooms.tables }
        requires plans { 0 < rooms.plans }
        ensures steps { IfOk result (λ log. log.steps ≡ []) }
        ensures tables { IfOk result (λ log. log.tables ≡ zero_prices instance.now ∷ []) }
        ensures plans { IfOk result (λ log. log.plans ≡ plans_of first) }
        ensures step_room { IfOk result (λ log. log.step_room ≡ rooms.steps) }
        ensures table_room { IfOk result (λ log. log.table_room ≡ rooms.tables) }
        ensures plan_room { IfOk result (λ log. log.plan_room ≡ rooms.plans) }
    {
        let steps = Vec::with_capacity(alloc, rooms.steps as usize)?;
        let mut tables = Vec::with_capacity(alloc, rooms.tables as usize)?;
        let zero = Table::zero(alloc, instance)?;
        tables.push(zero)?;
        let mut plans = Vec::with_capacity(alloc, rooms.plans as usize)?;
        if let Some(plan) = first {
            plans.push(plan)?;
        }
        Ok(Log {
            steps,
            tables,
            plans,
            rooms,
        })
    }

    /// The steps.
    pub fn steps(&self) -> &[Step]
        ensures steps { result.now ≡ map plain_step self.now.steps }
        ensures full { map (full_step self.now.tables self.now.plans) result.now ≡ self.now.steps }
        ensures of_log { All (IsOfLog (length self.now.tables) (length self.now.plans)) result.now }
    {
        &self.steps
    }

    /// How many tables there are.
    pub fn tables(&self) -> usize
        ensures { result ≡ length self.now.tables }
    {
        self.tables.len()
    }

    /// A table.
    pub fn table(&self, k: u32) -> &Table
        requires { k < length self.now.tables }
        ensures { prices_of result.now ≡ slice_index_or self.now.tables k no_prices }
    {
        &self.tables[k as usize]
    }

    /// How many plans were accepted.
    pub fn plans(&self) -> usize
        ensures { result ≡ length self.now.plans }
    {
        self.plans.len()
    }

    /// A plan that was accepted.
    pub fn plan(&self, k: u32) -> &CheckedPlan
        requires { k < length self.now.plans }
        ensures { slice_get self.now.plans k ≡ Some result.now }
    {
        &self.plans[k as usize]
    }

    /// The cheapest plan, which is the last that was accepted, if any.
    pub fn last_plan(&self) -> Option<&CheckedPlan>
        ensures { option_copied result ≡ last_or None self.now.plans }
    {
        self.plans.last()
    }

    /// What the cheapest plan costs, in cost units, None where there is none.
    pub fn known(&self) -> Option<i64>
        ensures { result ≡ option_map (λ plan. plan.cost) (last_or None self.now.plans) }
    {
        match self.plans.last() {
            Some(plan) => Some(plan.cost()),
            None => None,
        }
    }

    /// Adds a table, and gives its number.
    pub fn add_table(&mut self, table: Table) -> u32
        requires { length self.old.tables < self.old.table_room }
        ensures number { result ≡ length self.old.tables }
        ensures log { self.new ≡ record self.old { tables = self.old.tables ++ prices_of table ∷ [] } }
    {
        let number = self.tables.len() as u32;
        match self.tables.push(table) {
            Ok(()) => {}
            Err(_) => unreachable!(),
        }
        number
    }

    /// Adds an accepted plan, and gives its number.
    pub fn add_plan(&mut self, plan: CheckedPlan) -> u32
        requires { length self.old.plans < self.old.plan_room }
        ensures number { result ≡ length self.old.plans }
        ensures log { self.new ≡ record self.old { plans = self.old.plans ++ plan ∷ [] } }
    {
        let number = self.plans.len() as u32;
        match self.plans.push(plan) {
            Ok(()) => {}
            Err(_) => unreachable!(),
        }
        number
    }

    /// Adds a step.
    pub fn add(&mut self, step: Step)
        requires room { length self.old.steps < self.old.step_room }
        requires of_log { IsOfLog (length self.old.tables) (length self.old.plans) step }
        ensures { self.new ≡ record self.old {
          steps = self.old.steps ++ full_step self.old.tables self.old.plans step ∷ [];
        } }
    {
        match self.steps.push(step) {
            Ok(()) => {}
            Err(_) => unreachable!(),
        }
    }
}
