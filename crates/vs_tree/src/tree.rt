//! A search: its tree of cases, its history, and the calls of its workers.

ghost use Rattle.std.specs.Prelude.{◌≡◌, ◌<◌, ◌≤◌, ◌∷◌, [], length, map, IfOk, IfSome, slice_index_or, true, false, ◌⊎◌, ◌^◌, ℕ, ◌++◌, ◌↔◌, IsTrue, ◌+◌, count_by, option_copied, None, Some, slice_get, All};
ghost use Rattle.vs_tree.specs.History as full;
ghost use Rattle.vs_tree.specs.History.{IsAmong, IsHeldBy, IsHistory, MayClose, MayCome, MaySplit, MayTake, IsCheaper, IsLeafWorth, incumbent, is_inner, known, prices_at, sets_at, spot_at};
ghost use Rattle.vs_tree.specs.Free.{with_parts};
ghost use Rattle.vs_tree.specs.Calls.{GivesBack, HoldsSome, finishing, offering, with_step};
ghost use Rattle.vs_prices.specs.Bounds.{IsBelow, IsNoLess};
ghost use Rattle.vs_tree.specs.Finishes.{AreWorths, IsNextIn, IsParting, next_in};
ghost use Rattle.vs_tree.specs.Report.{IsLeastOf, IsOpenCount, IsReport, IsStand, bound_of};
ghost use Rattle.vs_tree.specs.Takes.{AreBuffersKept, IsOver, IsSized, IsTake, held_leaves, taking};
ghost use Rattle.vs_tree.specs.Log.{IsOfLog, full_step, plain_step};
ghost use Rattle.vs_tree.specs.Prices.{AreLawful, AreWorth, no_prices, prices_of};
ghost use Rattle.vs_tree.specs.Search.{IsHand, IsHandOf, hand_at, is_busy, state};
ghost use Rattle.vs_tree.specs.Sound.{IsOpening, IsPlanOf};

use crate::calls::{Hand, Next, Report, Stand, Take};
use crate::entry::Entry;
use crate::finishing::{Finish, Parting};
use crate::first::First;
use crate::free_leaves::FreeLeaves;
use crate::log::{Log, Rooms};
use crate::places::Places;
use crate::spot::Spot;
use crate::step::Step;
use std::alloc::Global;
use std::marker::Model;
use vs_instance::{Instance, MAX_BUDGET, MAX_WORKERS};
use vs_plan::CheckedPlan;
use vs_prices::{Bound, Table, claim_found, permitted_sets, worth};
use vs_turn::Kept;
use vs_types::{LayerSet, Memory};

/// A search of the plans of an instance: a tree of cases that workers split and close, with one history.
#[derive(Drop)]
pub struct Tree {
    instance: Instance,
    /// How many leaves may be worked on.
    budget: u32,
    first: First,
    places: Places,
    log: Log,
    /// What each worker has in hand.
    hands: Vec<Hand>,
    free: FreeLeaves,
    /// What each leaf is worth.
    worths: Vec<Bound>,
    finished: u32,
    /// Room for the layers at a spot.
    sets: Vec<LayerSet>,
}

impl Model for Tree {
    ghost use Rattle.std.specs.Prelude.{length};
    ghost use Rattle.vs_tree.specs.Search.{Search};

    ghost Value = { Search };

    ghost use Rattle.vs_tree.specs.Codes.{coded_search};

    ghost coded = { coded_search };

    ghost use Rattle.vs_tree.specs.Search.{IsSearch};

    ghost view = { λ a. record {
      opening = record {
        problem = a.instance;
        budget = a.budget;
        workers = length a.hands.items;
        first = a.first;
      };
      steps = a.log.steps;
    } };

    ghost invariant = { λ a. IsSearch (record {
      problem = a.instance;
      budget = a.budget;
      workers = length a.hands.items;
      first = a.first;
    }) (record {
      places = a.places;
      log = a.log;
      hands = a.hands.items;
      free = a.free;
      worths = a.worths.items;
      finished = a.finished;
      sets = a.sets.items;
    }) };
}

// Workers share a search by a turn, as its opening and the steps that it made.
impl Kept for Tree {
    ghost use Rattle.std.specs.Prelude.{map};
    ghost use Rattle.vs_tree.specs.Entries.{entry_of, opening_entry};

    ghost opening = { λ t. opening_entry t.opening };

    ghost entries = { λ t. map entry_of t.steps };
}

impl Tree {
    /// A search of the instance: the root is free with the table of zeros, and the first plan, if any, is the
    /// cheapest one. It takes all memory that the later calls need.
    pub fn start(
        alloc: Global,
        instance: Instance,
        budget: u32,
        workers: u32,
        first: Option<CheckedPlan>,
    ) -> Result<Tree, Memory>
        requires budget { budget ≤ MAX_BUDGET }
        requires some_workers { 0 < workers }
        requires few_workers { workers ≤ MAX_WORKERS }
        requires first { IfSome first (IsPlanOf instance) }
        ensures { IfOk result (λ tree. tree ≡ record {
          opening = record {
            problem = instance;
            budget = budget;
            workers = workers;
            first = first;
          };
          steps = [];
        }) }
    {
        let room = 2 * budget + 1;
        let rooms = Rooms {
            steps: 3 * (budget + workers),
            tables: budget + 1,
            plans: budget + workers + 1,
        };
        let given = First::of(&first);
        let sets = permitted_sets(alloc, &instance)?;
        let places = Places::new(alloc, &instance, room)?;
        let log = Log::new(alloc, &instance, first, rooms)?;
        let hands = vec![in alloc; Hand::Idle; workers as usize]?;
        let mut free = FreeLeaves::new(alloc, room)?;
        let mut worths = vec![in alloc; Bound::NoPlan; room as usize]?;
        let least = worth(&instance, &sets, log.table(0));
        worths[0] = least;
        free.put(
            0,
            Some(Entry {
                worth: least,
                leaf: 0,
            }),
        );
        Ok(Tree {
            instance,
            budget,
            first: given,
            places,
            log,
            hands,
            free,
            worths,
            finished: 0,
            sets,
        })
    }

    /// Gives the next free leaf to a worker that holds no leaf, and gave none back. It does so where one leaves room
    /// for a plan cheaper than the cheapest so far and the budget allows it. The layers and the prices of the leaf are
    /// then written into the buffers, and else they stay as they were.
    pub fn take(&mut self, w: u32, sets: &mut [LayerSet], table: &mut Table) -> Take
        requires worker { w < self.old.opening.workers }
        requires idle { (k : ℕ) → ¬ (IsHeldBy (state self.old) w k) }
        requires stays { ¬ (IsAmong w (state self.old).gone) }
        requires sets { length sets.old ≡ length self.old.opening.problem.trips }
        requires table { IsSized self.old.opening.problem table.old }
        ensures answer { IsTake self.old.opening (state self.old) sets.new table.new result }
        ensures buffers { AreBuffersKept result sets.old sets.new table.old table.new }
        ensures search { self.new ≡ record self.old { steps = taking w self.old.steps result } }
    {
        let known = self.log.known();
        let held = busy(&self.hands);
        match self.free.next() {
            Some(next) if next.worth.is_below(known) => {
                if self.finished + held < self.budget {
                    self.hold(w, next.leaf, sets, table);
                    return Take::Node {
                        leaf: next.leaf,
                        known,
                    };
                }
                if held > 0 { Take::Wait } else { Take::Spent }
            }
            _ => { if held == 0 { Take::Done } else { Take::Wait } }
        }
    }

    /// Gives a worker a leaf that it may take.
    fn hold(&mut self, w: u32, leaf: u32, sets: &mut [LayerSet], table: &mut Table)
        requires may { MayTake self.old.opening (state self.old) w leaf }
        requires sets { length sets.old ≡ length self.old.opening.problem.trips }
        requires table { IsSized self.old.opening.problem table.old }
        ensures sets { sets.new ≡ sets_at (state self.old) leaf }
        ensures prices { prices_of table.new ≡ prices_at (state self.old) leaf }
        ensures search { self.new ≡ record self.old { steps = self.old.steps ++ full.Took w leaf ∷ [] } }
    {
        let number = match self.places.spot(leaf) {
            Spot::Free { table } => table,
            _ => unreachable!(),
        };
        self.places.sets(leaf, sets);
        copy_prices(self.log.table(number), table);
        self.places.relabel(
            leaf,
            Spot::Held {
                worker: w,
                table: number,
            },
        );
        self.free.put(leaf, None);
        self.hands[w as usize] = Hand::Has {
            leaf,
            offered: false,
        };
        self.log.add(Step::Took { worker: w, leaf });
    }

    /// Offers a plan of the instance, for a worker that holds a leaf and has offered nothing since it took it. True
    /// where the plan is cheaper than the cheapest so far, or the first; it is then the cheapest.
    pub fn offer(&mut self, w: u32, plan: CheckedPlan) -> bool
        requires holds { HoldsSome (state self.old) w }
        requires first_time { ¬ (IsAmong w (state self.old).offered) }
        requires plan { plan.problem ≡ self.old.opening.problem }
        ensures answer { IsTrue result ↔ IsCheaper plan.cost (known (state self.old)) }
        ensures search { self.new ≡ with_step self.old (offering (state self.old) w plan result) }
    {
        if is_cheaper(plan.cost(), self.log.known()) {
            self.accept(w, plan);
            true
        } else {
            self.refuse(w, plan.cost());
            false
        }
    }

    /// Adds a plan that is cheaper than the cheapest so far.
    fn accept(&mut self, w: u32, plan: CheckedPlan)
        requires holds { HoldsSome (state self.old) w }
        requires first_time { ¬ (IsAmong w (state self.old).offered) }
        requires plan { plan.problem ≡ self.old.opening.problem }
        requires cheaper { IsCheaper plan.cost (known (state self.old)) }
        ensures { self.new ≡ with_step self.old (offering (state self.old) w plan true) }
    {
        let leaf = leaf_in_hand(&self.hands, w);
        let cost = plan.cost();
        let number = self.log.add_plan(plan);
        self.hands[w as usize] = Hand::Has {
            leaf,
            offered: true,
        };
        self.log.add(Step::Offered {
            worker: w,
            cost,
            plan: Some(number),
        });
    }

    /// Notes that a plan of this cost, which is no cheaper than the cheapest so far, was offered.
    fn refuse(&mut self, w: u32, cost: i64)
        requires holds { HoldsSome (state self.old) w }
        requires first_time { ¬ (IsAmong w (state self.old).offered) }
        requires dear { ¬ (IsCheaper cost (known (state self.old))) }
        ensures { self.new ≡ with_step self.old (full.Offered w cost None None) }
    {
        let leaf = leaf_in_hand(&self.hands, w);
        self.hands[w as usize] = Hand::Has {
            leaf,
            offered: true,
        };
        self.log.add(Step::Offered {
            worker: w,
            cost,
            plan: None,
        });
    }

    /// Gives the leaf that a worker holds a new table, and closes or splits the leaf. The table holds and is worth no
    /// less there than the one that the leaf had. To close it, the table's worth must leave no room for a plan cheaper
    /// than the cheapest so far. To split it, `left` must have some of the trip's layers in the leaf, and not all of
    /// them.
    pub fn finish(&mut self, w: u32, leaf: u32, table: Table, next: Next)
        requires { MayCome self.old.opening (state self.old)
            (finishing (state self.old) w leaf (prices_of table) next) }
        ensures { self.new ≡ with_step self.old
            (finishing (state self.old) w leaf (prices_of table) next) }
    {
        let finish = self.reckon(leaf, &table, next);
        self.finish_as(w, leaf, table, finish);
    }

    /// How a leaf is finished by a table.
    fn reckon(&mut self, leaf: u32, table: &Table, next: Next) -> Finish
        requires leaf { is_inner (spot_at (state self.old) leaf) ≡ false }
        requires lawful { AreLawful self.old.opening.problem (prices_of table.now) }
        requires next { IsNextIn self.old.opening.problem (sets_at (state self.old) leaf) next }
        ensures search { self.new ≡ self.old }
        ensures next { next_in result ≡ next }
        ensures worths { AreWorths self.old.opening.problem (sets_at (state self.old) leaf)
            (prices_of table.now) result }
    {
        let sets = self.sets.as_mut_slice();
        self.places.sets(leaf, sets);
        Finish::of(&self.instance, sets, table, next)
    }

    /// The same where it is known what the table is worth there, or in the two parts. Nothing is summed over all trips.
    pub fn finish_as(&mut self, w: u32, leaf: u32, table: Table, finish: Finish)
        requires may { MayCome self.old.opening (state self.old)
            (finishing (state self.old) w leaf (prices_of table) (next_in finish)) }
        requires worths { AreWorths self.old.opening.problem (sets_at (state self.old) leaf)
            (prices_of table) finish }
        ensures { self.new ≡ with_step self.old
            (finishing (state self.old) w leaf (prices_of table) (next_in finish)) }
    {
        match finish {
            Finish::Close { worth } => self.close(w, leaf, table, worth),
            Finish::Split { parting } => self.split(w, leaf, table, parting),
        }
    }

    /// Closes a leaf with a new table, which is worth so much there, within the budget.
    fn close(&mut self, w: u32, leaf: u32, table: Table, worth: Bound)
        requires may { MayClose self.old.opening (state self.old) w leaf
            (length (state self.old).tables) (prices_of table) }
        requires worth { AreWorth self.old.opening.problem (sets_at (state self.old) leaf)
            (prices_of table) worth }
        ensures { self.new ≡ with_step self.old
            (full.Closed w leaf (length (state self.old).tables) (prices_of table)) }
    {
        let number = self.log.add_table(table);
        self.places.relabel(leaf, Spot::Closed { table: number });
        let worth_there = &mut self.worths[leaf as usize];
        *worth_there = worth;
        self.hands[w as usize] = Hand::Idle;
        self.finished += 1;
        self.log.add(Step::Closed {
            worker: w,
            leaf,
            table: number,
        });
    }

    /// Splits a leaf with a new table into two parts, within the budget.
    fn split(&mut self, w: u32, leaf: u32, table: Table, parting: Parting)
        requires may { MaySplit self.old.opening (state self.old) w leaf
            (length (state self.old).tables) parting.trip parting.left (prices_of table) }
        requires parting { IsParting self.old.opening.problem (sets_at (state self.old) leaf)
            (prices_of table) parting }
        ensures { self.new ≡ with_step self.old
            (full.Split w leaf (length (state self.old).tables) parting.trip parting.left (prices_of table)) }
    {
        let Parting { trip, left, .. } = parting;
        let number = self.log.add_table(table);
        let lower = self.places.split(leaf, trip, left, parting.right, number);
        free_parts(&mut self.free, lower, parting);
        let lower_worth = &mut self.worths[lower as usize];
        *lower_worth = parting.lower;
        let upper_worth = &mut self.worths[lower as usize + 1];
        *upper_worth = parting.upper;
        self.hands[w as usize] = Hand::Idle;
        self.finished += 1;
        self.log.add(Step::Split {
            worker: w,
            leaf,
            table: number,
            trip,
            left,
        });
    }

    /// Takes a leaf back from its worker, as it was; the worker takes no more.
    pub fn give_back(&mut self, w: u32)
        requires { HoldsSome (state self.old) w }
        ensures { GivesBack self.old self.new w }
    {
        let leaf = match self.hands[w as usize] {
            Hand::Has { leaf, .. } => leaf,
            _ => unreachable!(),
        };
        let number = match self.places.spot(leaf) {
            Spot::Held { table, .. } => table,
            _ => unreachable!(),
        };
        let least = self.worths[leaf as usize];
        self.places.relabel(leaf, Spot::Free { table: number });
        self.free.put(leaf, Some(Entry { worth: least, leaf }));
        self.hands[w as usize] = Hand::Gone;
        self.log.add(Step::GaveBack { worker: w, leaf });
    }

    /// What the search has found.
    pub fn report(&self) -> Report
        ensures { IsReport self.now.opening.problem (state self.now) result }
    {
        let cost = self.log.known();
        let bound = number_of(least_bound(&self.places, &self.worths, cost));
        Report {
            claim: claim_found(cost, bound),
            cost,
            bound,
            finished: self.finished,
        }
    }

    /// Whether the search is over: no leaf is held, and none leaves room for a plan cheaper than the cheapest so far,
    /// or as many were worked on as the budget allows.
    pub fn is_over(&self) -> bool
        ensures { IsTrue result ↔ IsOver self.now.opening (state self.now) }
    {
        if busy(&self.hands) > 0 {
            return false;
        }
        if self.finished == self.budget {
            return true;
        }
        match self.free.next() {
            Some(next) => !next.worth.is_below(self.log.known()),
            None => true,
        }
    }

    /// How far the search has come.
    pub fn stand(&self) -> Stand
        ensures { IsStand self.now.opening.problem (state self.now) result }
    {
        let report = self.report();
        Stand {
            finished: report.finished,
            open: open_leaves(&self.places, &self.worths, report.cost),
            cost: report.cost,
            bound: report.bound,
        }
    }

    /// The steps that the search made. With the tables and the accepted plans that they name they are its full steps.
    pub fn history(&self) -> &[Step]
        ensures steps { result.now ≡ map plain_step self.now.steps }
        ensures full { map (full_step (state self.now).tables (state self.now).accepted) result.now
            ≡ self.now.steps }
        ensures of_log { All (IsOfLog (length (state self.now).tables) (length (state self.now).accepted))
            result.now }
    {
        self.log.steps()
    }

    /// How many spots there are.
    pub fn spots(&self) -> u32
        ensures { result ≡ length (state self.now).places }
    {
        self.places.len() as u32
    }

    /// The spot of this number.
    pub fn spot(&self, k: u32) -> Spot
        requires { k < length (state self.now).places }
        ensures { result ≡ spot_at (state self.now) k }
    {
        self.places.spot(k)
    }

    /// How many tables there are.
    pub fn tables(&self) -> u32
        ensures { result ≡ length (state self.now).tables }
    {
        self.log.tables() as u32
    }

    /// The table of this number.
    pub fn table(&self, k: u32) -> &Table
        requires { k < length (state self.now).tables }
        ensures { prices_of result.now ≡ slice_index_or (state self.now).tables k no_prices }
    {
        self.log.table(k)
    }

    /// The cheapest plan so far, None where none was found.
    pub fn plan(&self) -> Option<&CheckedPlan>
        ensures { option_copied result ≡ incumbent (state self.now) }
    {
        self.log.last_plan()
    }

    /// The plan of this number among those that were accepted, in the order in which they came.
    pub fn accepted(&self, k: u32) -> &CheckedPlan
        requires { k < length (state self.now).accepted }
        ensures { slice_get (state self.now).accepted k ≡ Some result.now }
    {
        self.log.plan(k)
    }

    /// The plan that was known when the search began, None where there was none.
    pub fn first(&self) -> Option<&CheckedPlan>
        ensures { option_copied result ≡ self.now.opening.first }
    {
        if self.first.is_given() {
            Some(self.log.plan(0))
        } else {
            None
        }
    }

    /// How many leaves may be worked on.
    pub fn budget(&self) -> u32
        ensures { result ≡ self.now.opening.budget }
    {
        self.budget
    }

    /// How many workers there are.
    pub fn workers(&self) -> u32
        ensures { result ≡ self.now.opening.workers }
    {
        self.hands.len() as u32
    }

    /// What a worker has in hand.
    pub fn hand(&self, w: u32) -> Hand
        requires { w < self.now.opening.workers }
        ensures { IsHandOf (state self.now) w result }
    {
        self.hands[w as usize]
    }

    /// How many leaves are held.
    pub fn held(&self) -> u32
        ensures { result ≡ held_leaves (state self.now) }
    {
        busy(&self.hands)
    }

    /// Writes the layers in which each trip may be run at a spot.
    pub fn sets(&self, k: u32, sets: &mut [LayerSet])
        requires spot { k < length (state self.now).places }
        requires size { length sets.old ≡ length self.now.opening.problem.trips }
        ensures { sets.new ≡ sets_at (state self.now) k }
    {
        self.places.sets(k, sets);
    }

    /// What a leaf is worth.
    pub fn leaf_worth(&self, k: u32) -> Bound
        requires { is_inner (spot_at (state self.now) k) ≡ false }
        ensures { IsLeafWorth self.now.opening.problem (state self.now) k result }
    {
        self.worths[k as usize]
    }

    /// The instance that the search began with, within the limits; each of its steps could come.
    pub fn instance(&self) -> &Instance
        ensures value { result.now ≡ self.now.opening.problem }
        ensures opening { IsOpening self.now.opening }
        ensures budget { self.now.opening.budget ≤ MAX_BUDGET }
        ensures history { IsHistory self.now.opening self.now.steps }
    {
        &self.instance
    }
}

/// The least of what all leaves are worth and the cost that is known, if any.
fn least_bound(places: &Places, worths: &[Bound], known: Option<i64>) -> Bound
    requires sized { length places.now.places ≤ length worths.now }
    requires few { length places.now.places < 2 ^ 32 }
    ensures { IsLeastOf places.now.places worths.now known (length places.now.places) result }
{
    let mut least = match known {
        Some(cost) => Bound::AtLeast(i128::from(cost)),
        None => Bound::NoPlan,
    };
    for k in 0..places.len() as u32 {
        if let Spot::Inner { .. } = places.spot(k) {
            continue;
        }
        least = lesser(least, worths[k as usize]);
    }
    least
}

/// How many leaves are worth less than the cost that is known, or, where none is, worth a number at all.
fn open_leaves(places: &Places, worths: &[Bound], known: Option<i64>) -> u32
    requires sized { length places.now.places ≤ length worths.now }
    requires few { length places.now.places < 2 ^ 32 }
    ensures { IsOpenCount places.now.places worths.now known (length places.now.places) result }
{
    let mut count: u32 = 0;
    for k in 0..places.len() as u32 {
        if is_open(places.spot(k), worths[k as usize], known) {
            count += 1;
        }
    }
    count
}

/// Whether a spot is a leaf that is worth less than the cost that is known, or, where none is, worth a number at all.
fn is_open(spot: Spot, worth: Bound, known: Option<i64>) -> bool
    ensures { IsTrue result ↔ ((is_inner spot ≡ false) × IsBelow worth known) }
{
    match spot {
        Spot::Inner { .. } => false,
        _ => worth.is_below(known),
    }
}

/// The number of a bound, None where it says that there is no plan.
fn number_of(bound: Bound) -> Option<i128>
    ensures { bound_of result ≡ bound }
{
    match bound {
        Bound::AtLeast(number) => Some(number),
        Bound::NoPlan => None,
    }
}

/// The lesser of two bounds.
fn lesser(one: Bound, other: Bound) -> Bound
    ensures choice { (result ≡ one) ⊎ (result ≡ other) }
    ensures one { IsNoLess one result }
    ensures other { IsNoLess other result }
{
    if other.is_no_less(one) { one } else { other }
}

/// Whether a cost is less than another that is known, if any.
fn is_cheaper(cost: i64, known: Option<i64>) -> bool
    ensures { IsTrue result ↔ IsCheaper cost known }
{
    match known {
        None => true,
        Some(known) => cost < known,
    }
}

/// The leaf that a worker has in hand.
fn leaf_in_hand(hands: &[Hand], w: u32) -> u32
    requires worker { w < length hands.now }
    requires has { IsTrue (is_busy (hand_at hands.now w)) }
    ensures { IsHand (hand_at hands.now w) result }
{
    match hands[w as usize] {
        Hand::Has { leaf, .. } => leaf,
        _ => unreachable!(),
    }
}

/// The two parts of a leaf, of which the lower has this number and the upper the next, are free from now on.
fn free_parts(free: &mut FreeLeaves, lower: u32, parting: Parting)
    requires inside { lower + 1 < length free.old }
    requires few { lower + 1 < 2 ^ 32 }
    ensures { free.new ≡ with_parts free.old lower parting.lower parting.upper }
{
    let upper = lower + 1;
    free.put(
        lower,
        Some(Entry {
            worth: parting.lower,
            leaf: lower,
        }),
    );
    free.put(
        upper,
        Some(Entry {
            worth: parting.upper,
            leaf: upper,
        }),
    );
}

/// How many workers have a leaf.
fn busy(hands: &[Hand]) -> u32
    requires { length hands.now ≤ MAX_WORKERS }
    ensures { result ≡ count_by is_busy hands.now }
{
    let mut busy = 0;
    for hand in hands {
        if let Hand::Has { .. } = hand {
            busy += 1;
        }
    }
    busy
}

/// Writes the prices of one table into another of the same size.
fn copy_prices(from: &Table, to: &mut Table)
    requires into { length to.old.into.items ≡ length from.now.into.items }
    requires from { length to.old.from.items ≡ length from.now.from.items }
    requires fleet { length to.old.fleet.items ≡ length from.now.fleet.items }
    ensures { prices_of to.new ≡ prices_of from.now }
{
    to.into.copy_from_slice(&from.into);
    to.from.copy_from_slice(&from.from);
    to.fleet.copy_from_slice(&from.fleet);
    to.ray = from.ray;
}
