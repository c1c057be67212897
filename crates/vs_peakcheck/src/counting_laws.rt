//! What holds of every instance that counts vehicles.

ghost use Rattle.vs_peakcheck.specs.CountingLaws.{EachPeakIsALeastCost, PlansCountVehicles};

/// A plan of the counting instance is a list of blocks of the layer in which each trip that it may run stands once.
/// Each such list is a plan of it. What a plan costs is how long it is.
pub fn plans_count_vehicles()
    ensures { PlansCountVehicles }
{}

/// The fewest vehicles that can run all that the layer may run are as many as the least cost in the counting instance.
/// That instance has no plan exactly where there is no such list.
pub fn each_peak_is_a_least_cost()
    ensures { EachPeakIsALeastCost }
{}
