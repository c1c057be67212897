//! What prices of the nodes prove of a layer's circulations, whoever found both. They are laws for those who read or
//! embed the crate: each says of any circulation and any prices what the calls rest on.

ghost use Rattle.vs_circ.specs.Laws.{CoveredCirculations, LeastCirculations, StuckTrips};

/// A circulation at which nobody gains by the prices of the nodes, and which keeps the offers, is a
/// least circulation.
pub fn least_circulations()
    ensures { LeastCirculations }
{}

/// A circulation at which nobody gains, and which runs exactly given trips, costs no more than any
/// that does so.
pub fn covered_circulations()
    ensures { CoveredCirculations }
{}

/// Where units are stuck, no circulation runs exactly the given trips.
pub fn stuck_trips()
    ensures { StuckTrips }
{}
