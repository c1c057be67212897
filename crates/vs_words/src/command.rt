//! What the program is asked to do.

/// How much a search may take: how many workers share it, 1 to 64, and the limits that are given. It may work on so
/// many nodes at most, 0 to 100,000. It ends after so many seconds, 1 to 86,400, or once the gap between plan and bound
/// is so small: 0 to 1,000,000 parts per million of the plan's cost.
#[derive(Clone, Copy, Debug, PartialEq, Eq)]
pub struct Effort {
    pub workers: u32,
    pub nodes: Option<u32>,
    pub seconds: Option<u32>,
    pub gap: Option<u32>,
}

/// What the program is asked to do.
#[derive(Clone, Copy, Debug, PartialEq, Eq)]
pub enum Command {
    /// A search, which threads may share.
    Search(Search),
    /// Anything else: it starts no thread, and waits for none.
    Plain(Plain),
}

/// A command that searches.
#[derive(Clone, Copy, Debug, PartialEq, Eq)]
pub enum Search {
    /// Plan an instance.
    Solve(Effort),
    /// Plan the generator's instance of so many trips, 0 to 2,000, judge the document, and print the outcome in one
    /// row.
    Trial(u32),
    /// Carry a search on from the document that it ended with.
    Resume(Effort),
    /// Plan an instance, and write the trace of the search.
    Trace(Effort),
}

/// A command that doesn't search.
#[derive(Clone, Copy, Debug, PartialEq, Eq)]
pub enum Plain {
    /// Judge a document.
    Check,
    /// Print how large the nets of an instance's layers are.
    Network,
    /// Print the timetable of a document's plan.
    Blocks,
    /// Write the generator's instance of so many trips, 0 to 10,000.
    Make(u32),
    /// Print how few vehicles each layer needs for all that it may run.
    Peak,
    /// Judge a text that claims so.
    PeakCheck,
    /// Make the steps of a trace again.
    Replay,
}
