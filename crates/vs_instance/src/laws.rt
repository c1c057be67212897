//! What holds of every problem: of its Lagrangian values, of rests, and of its limits.

ghost use Rattle.std.specs.Prelude.{◌≡◌, pos};
ghost use Rattle.vs_instance.specs.declared.limits.TheConstants.{
  MAX_BUDGET,
  MAX_DEAREST_SUM,
  MAX_FIXED,
  MAX_FLEET,
  MAX_METRES,
  MAX_MINUTES,
  MAX_MULTIPLIER,
  MAX_MULTIPLIER_SUM,
  MAX_PER_METRE,
  MAX_PER_MINUTE,
  MAX_PRICE,
  MAX_STAY,
  MAX_STOPS,
  MAX_TRIPS,
  MAX_WORKERS,
  TWO_DAYS,
  USUAL_TRIPS,
};
ghost use Rattle.vs_instance.specs.Laws.{
  LagrangianValuesBoundPlans,
  LagrangianValuesExist,
  RestsConnect,
  StartingValuesExist,
  UsualInstancesArePayable,
};

/// Plans cost at least what a Lagrangian value says. With one multiplier for each trip, every plan
/// within the sets costs no less than the value at them.
pub fn lagrangian_values_bound_plans()
    ensures { LagrangianValuesBoundPlans }
{}

/// There is a Lagrangian value for all sets and all multipliers.
pub fn lagrangian_values_exist()
    ensures { LagrangianValuesExist }
{}

/// There is a value at the starting multipliers, of every problem.
pub fn starting_values_exist()
    ensures { StartingValuesExist }
{}

/// Trips with a rest between them connect. Say that a vehicle can pull in after a trip, rest, and pull out to another
/// one in time. Then it can also go straight from the one to the other, since deadheads are closed.
pub fn who_rests_connects()
    ensures { RestsConnect }
{}

/// No layer of up to 2,000 trips is too dear: the limits of its rates see to that. So texts of versions 1 and 2 are
/// never refused for it.
pub fn usual_instances_are_payable()
    ensures { UsualInstancesArePayable }
{}

/// The limits that the definitions take from the code, of an instance, of its prices and of a search. Those of prices
/// and multipliers are in 1/1000 of a cost unit.
pub fn limits_are_fixed()
    ensures stops { MAX_STOPS ≡ 500 }
    ensures trips { MAX_TRIPS ≡ 10000 }
    ensures fleet { MAX_FLEET ≡ 10000 }
    ensures usual { USUAL_TRIPS ≡ 2000 }
    ensures dearest { MAX_DEAREST_SUM ≡ 40000000000000 }
    ensures fixed_cost { MAX_FIXED ≡ 1000000000 }
    ensures per_minute { MAX_PER_MINUTE ≡ 1000000 }
    ensures per_metre { MAX_PER_METRE ≡ 10000 }
    ensures stay { MAX_STAY ≡ 600 }
    ensures minutes { MAX_MINUTES ≡ 1440 }
    ensures metres { MAX_METRES ≡ 1000000 }
    ensures two_days { TWO_DAYS ≡ 2880 }
    ensures price { MAX_PRICE ≡ pos 1000000000000000000 }
    ensures multiplier { MAX_MULTIPLIER ≡ pos 100000000000000 }
    ensures multipliers { MAX_MULTIPLIER_SUM ≡ pos 200000000000000000 }
    ensures workers { MAX_WORKERS ≡ 64 }
    ensures nodes { MAX_BUDGET ≡ 100000 }
{}
