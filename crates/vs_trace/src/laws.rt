//! What holds of every trace that is written.

ghost use Rattle.vs_trace.specs.Told.{WrittenTracesStand};

/// Where a search keeps to the limits of a trace, its trace text stands for a trace. That trace says how the search
/// began, and gives its steps but for offers that weren't accepted.
pub fn written_traces_stand()
    ensures { WrittenTracesStand }
{}
