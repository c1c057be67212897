//! What holds of every trace that records a search.

ghost use Rattle.vs_replay.specs.Alike.{ToldHistoriesComeBack};

/// A trace that records a search none of whose leaves is held replays, to a state with the same spots, plans and
/// numbers. Its tables say the same of every trip that a layer may run. Offers that weren't accepted, which aren't
/// recorded, change none of these.
pub fn told_histories_come_back()
    ensures { ToldHistoriesComeBack }
{}
