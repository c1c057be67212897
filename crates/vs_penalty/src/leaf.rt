//! A plan sought on a leaf other than the root.

ghost use Rattle.std.specs.Prelude.{IfOk, IfSome};
ghost use Rattle.vs_instance.specs.Restriction.{IsRestriction};
ghost use Rattle.vs_match.specs.LayerNets.{AreLayerNets};
ghost use Rattle.vs_prices.specs.Table.{Fits};
ghost use Rattle.vs_penalty.specs.Seekers.{CanSeek, IsPlanOf, IsSeekerFor};

use crate::seeking::Seeker;
use std::alloc::Global;
use vs_circ::{Work, begin_runs};
use vs_instance::Instance;
use vs_match::LayerNet;
use vs_multi::{Case, NoWatch, multipliers_of};
use vs_plan::CheckedPlan;
use vs_prices::Table;
use vs_types::{LayerSet, Memory};
use vs_walk::{ALL, FEW, Rate};

/// How many passes there are at most.
const PASSES: u32 = 80;

/// After how many agreements they end: a leaf's multipliers are near those of the leaf above it, where passes were made
/// already.
const AGREEMENTS: u32 = 2;

/// How much effort they take at most, as `Work::effort` counts it: 200 leaves take no more than four times as long as
/// the root.
const EFFORT: u64 = 1_000_000;

/// So small a part of the greatest rate is the first one, and by so small a part of it the rate rises. The slower it
/// does, the less multipliers are left behind that are nearly the best.
const FIRST_PART: u64 = 2_000;

const GROWTH: u64 = 16;

/// Brings the layers of these sets to agree, by some slow passes from the multipliers that a table stands for. Gives
/// the cheapest plan that was found on the way, if any. It is a plan of the instance, and may run a trip in a layer
/// outside its set.
pub fn seek_plan(
    alloc: Global,
    instance: &Instance,
    nets: &[LayerNet],
    sets: &[LayerSet],
    table: &Table,
    work: &mut Work,
) -> Result<Option<CheckedPlan>, Memory>
    requires nets { AreLayerNets instance.now nets.now }
    requires restriction { IsRestriction instance.now sets.now }
    requires fits { Fits instance.now table.now }
    ensures plan { IfOk result (λ plan. IfSome plan (IsPlanOf instance.now)) }
{
    let case = Case {
        alloc,
        instance,
        nets,
        sets,
    };
    let multipliers = multipliers_of(&case, table)?;
    let mut seeker = Seeker::new(&case, &multipliers)?;
    let most = seeker.penalties.rate.most;
    seeker.penalties.rate = Rate::new(most / FIRST_PART, most, GROWTH);
    seeker.seek_anew(&case, &multipliers, work)?;
    let best = seeker.choices.best.take();
    Ok(best)
}

impl Seeker {
    /// Passes from these multipliers on. After each agreement they begin anew, and another layer runs first.
    fn seek_anew(
        &mut self,
        case: &Case<'_>,
        multipliers: &[i64],
        work: &mut Work,
    ) -> Result<(), Memory>
        requires { CanSeek case.now.instance.now case.now.nets.now case.now.sets.now multipliers.now self.old }
        ensures { IsSeekerFor case.now.instance.now self.new }
    {
        let mut left = AGREEMENTS;
        self.penalties.begin(multipliers);
        begin_runs(case.alloc, case.nets, work)?;
        let end = work.effort().saturating_add(EFFORT);
        for _ in 0..PASSES {
            if left == 0 || work.effort() > end {
                break;
            }
            self.penalties.pass(case, ALL, work, &NoWatch);
            if self
                .penalties
                .is_agreed(case.instance, case.instance.trips() / FEW)
            {
                left -= 1;
                self.draw(case, work)?;
                self.penalties.begin(multipliers);
                self.penalties.set_first(left);
            }
        }
        Ok(())
    }
}
