//! What a drive without passengers takes.

/// What it takes to get from one stop to another without passengers.
#[derive(Clone, Copy, Debug, PartialEq, Eq)]
pub struct Way {
    /// How long it takes, 0 to 1,440 minutes.
    pub minutes: u32,
    /// Its length, 0 to 1,000,000 metres.
    pub metres: u32,
}
